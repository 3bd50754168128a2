//! What a sink gets in the end, for contracts alone.
#![tactic(auto, using(crate::specs::Laws::Sinks::sinks))]

ghost use Rattle.std.specs.Prelude.{◌≡◌, [], true};
ghost use Rattle.std.specs.List.{list_all};
ghost use Rattle.byte_io.specs.Sink.{is_byte};
ghost use Rattle.byte_io.specs.Writer.{more};

use crate::sink::ByteSink;
use boxcar::tag::{Names, Tag};
use std::marker::Model;
use std::snapshot::Snapshot;

#[derive(Drop)]
struct Appended<'a> {
    put: &'a Tag,
    bytes: &'a [u8],
}

struct Bytes;

impl<'a> Names<Appended<'a>> for Bytes {
    ghost use Rattle.std.specs.Prelude.{◌++◌};

    ghost numbers = { λ a. a.put.now.numbers ++ a.bytes.now };
}

/// What a sink had at first, what was put since, which is of bytes, and how often the sink had failed before. It takes no memory.
#[derive(Drop)]
pub struct Wanted<S: ByteSink> {
    begun: Snapshot<S>,
    put: Tag,
}

impl<S: ByteSink> Model for Wanted<S> {
    ghost use Rattle.std.specs.Prelude.{◌≡◌, true};
    ghost use Rattle.std.specs.List.{list_all};
    ghost use Rattle.byte_io.specs.Sink.{is_byte};
    ghost use Rattle.byte_io.specs.Writer.{Wanted as What};

    ghost Value = { What };

    ghost view = { λ w. record { begun = S.written w.begun.value; put = w.put.numbers; failures = S.failures w.begun.value } };

    ghost invariant = { λ w. list_all is_byte w.put.numbers ≡ true };
}

impl<S: ByteSink> Wanted<S> {
    /// What the sink has, and how often it has failed, with nothing more wanted.
    pub(crate) fn of(sink: &S) -> Wanted<S>
        ensures value { result ≡ record { begun = S.written sink.now; put = []; failures = S.failures sink.now } }
    {
        Wanted {
            begun: Snapshot::of(sink),
            put: Tag::empty(),
        }
    }

    /// What is wanted is of bytes.
    pub(crate) fn are_bytes(&self)
        ensures bytes { list_all is_byte self.now.put ≡ true }
    {
        // For contracts alone: to read the value tells that its invariant holds.
        let _ = &self.put;
    }

    /// Wants these bytes too, after those before.
    pub(crate) fn append(&mut self, bytes: &[u8])
        ensures value { self.new ≡ more self.old bytes.now }
    {
        let put = &self.put;
        let put = Tag::of::<Appended<'_>, Bytes>(&Appended { put, bytes });
        self.put = put;
    }
}
