//! What a station says is heard by the day.

ghost use Rattle.std.specs.Prelude.{◌≡◌, ◌++◌, ◌∷◌, [], List, None, false, IfSome};
ghost use Rattle.rtrb.specs.Ring.{SameConsumer};
ghost use Rattle.live_day.specs.declared.keyboard.Typed.{Typed as TypedLine};
ghost use Rattle.live_stations.specs.Hearings.{IsHeardOf};

use crate::heard::Heard;
use live_day::Typed;
use rtrb::Consumer;

/// What is heard of a station.
#[derive(Drop)]
pub(crate) struct Hearing {
    pub(crate) station: u32,
    pub(crate) lines: Consumer<Heard>,
    // The line that is next, once it was looked for.
    pub(crate) ahead: Option<Typed>,
    // No more lines come.
    pub(crate) is_over: bool,
}

impl Hearing {
    /// Of a station of which nothing was heard.
    pub(crate) fn new(station: u32, lines: Consumer<Heard>) -> Hearing
        ensures station { result.station ≡ station }
        ensures lines { result.lines ≡ lines }
        ensures none { result.ahead ≡ None }
        ensures open { result.is_over ≡ false }
    {
        Hearing {
            station,
            lines,
            ahead: None,
            is_over: false,
        }
    }

    /// Looks whether a line is there.
    pub(crate) fn has_line(&mut self) -> bool
        ensures station { self.new.station ≡ self.old.station }
        ensures ring { SameConsumer self.old.lines self.new.lines }
        ensures heard { (given : List TypedLine) → IsHeardOf given self.old → IsHeardOf given self.new }
    {
        if self.ahead.is_some() {
            return true;
        }
        if self.is_over {
            return false;
        }
        match self.lines.pop() {
            Ok(Heard::Line(typed)) => self.ahead = Some(typed),
            Ok(Heard::Over) => self.is_over = true,
            Err(_) => {}
        }
        self.ahead.is_some()
    }

    /// The line that was looked for, if there is one.
    pub(crate) fn take(&mut self) -> Option<Typed>
        ensures station { self.new.station ≡ self.old.station }
        ensures ring { SameConsumer self.old.lines self.new.lines }
        ensures line { IfSome result (λ line. (given : List TypedLine) → IsHeardOf given self.old → IsHeardOf (given ++ line ∷ []) self.new) }
        ensures none { result ≡ None → self.new ≡ self.old }
    {
        self.ahead.take()
    }
}
