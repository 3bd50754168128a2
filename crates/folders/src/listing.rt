//! The files that a folder was given, as one list, for contracts alone.

ghost use Rattle.std.specs.Prelude.{◌≡◌, ◌++◌, []};
ghost use Rattle.folders.specs.Files.{opening};

use boxcar::tag::{Names, Tag};
use std::marker::Model;

#[derive(Drop)]
struct More<'a> {
    listed: &'a Tag,
    bytes: &'a [u8],
}

struct Begun;

impl<'a> Names<More<'a>> for Begun {
    ghost use Rattle.std.specs.Prelude.{◌++◌};
    ghost use Rattle.folders.specs.Files.{opening};

    ghost numbers = { λ m. m.listed.now.numbers ++ opening m.bytes.now };
}

struct Appended;

impl<'a> Names<More<'a>> for Appended {
    ghost use Rattle.std.specs.Prelude.{◌++◌};

    ghost numbers = { λ m. m.listed.now.numbers ++ m.bytes.now };
}

/// The files that a folder was given, as one list: of each 256, the name's bytes, 257 and the file's bytes. It takes no memory.
#[derive(Drop)]
pub(crate) struct Listing {
    listed: Tag,
}

impl Model for Listing {
    ghost use Rattle.std.specs.Prelude.{ℕ, List};

    ghost Value = { List ℕ };

    ghost view = { λ l. l.listed.numbers };
}

impl Listing {
    // Of no files.
    pub(crate) fn empty() -> Listing
        ensures value { result ≡ [] }
    {
        Listing {
            listed: Tag::empty(),
        }
    }

    // An empty file of a name follows the others.
    pub(crate) fn begin(&mut self, name: &[u8])
        ensures value { self.new ≡ self.old ++ opening name.now }
    {
        let listed = &self.listed;
        let listed = Tag::of::<More<'_>, Begun>(&More {
            listed,
            bytes: name,
        });
        self.listed = listed;
    }

    // The bytes are added to the last file.
    pub(crate) fn append(&mut self, bytes: &[u8])
        ensures value { self.new ≡ self.old ++ bytes.now }
    {
        let listed = &self.listed;
        let listed = Tag::of::<More<'_>, Appended>(&More { listed, bytes });
        self.listed = listed;
    }
}
