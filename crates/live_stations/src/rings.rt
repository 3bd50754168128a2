//! Which rings a run has.

use crate::hearing::Hearing;
use byte_io::Bytes;
use rtrb::Producer;
use std::marker::Brand;

/// The rings of a run, as they are at its beginning: those in which lines come, and those in which answers go. One call picks them, for
/// contracts alone, by handing [`Brand`] to a function of its own.
pub(crate) trait Rings {
    ghost use Rattle.std.specs.Prelude.{List};
    ghost use Rattle.live_stations.specs.declared.hearing.Hearing.{Hearing as Hears};
    ghost use Rattle.live_stations.specs.Handed.{AnswerRing};

    ghost hearings: { List Hears };

    ghost answers: { List AnswerRing };
}

impl Rings for Brand {
    ghost use Rattle.std.specs.Prelude.{[]};

    ghost hearings = { [] };

    ghost answers = { [] };
}
