//! Index files (NDX) and the order of an index.
//!
//! [`OrderedIndex`] keeps pairs of a key and a record number in order; contracts see the sorted list and
//! how many inserts have room. [`read_ndx`] reads the bytes of an index file: it answers the pairs of the
//! file's tree, its key length and its key expression exactly where the bytes are an index file, and else
//! the first broken rule; [`read_ndx_at`] tells of the page, too. [`write_ndx`] writes the one file that is written of an index,
//! without taking memory, and what it writes reads back as that index.
//!
//! What an index file says is understood in one place, for whoever shows a file that is damaged, too: [`header_numbers`] gives the
//! numbers of its header page, and [`PageWalk`] comes to each page of its tree and says what that holds.
//!
//! Start with specs/Order.antt (the order), specs/NdxTree.antt (the tree and its walk), specs/Header.antt
//! (when bytes are an index file) and specs/Image.antt (the file that is written). Then src/index.rt holds
//! the ordered index, over the tree of pages in src/pages/ (specs/IndexTree.antt says when pages make a tree);
//! src/read.rt with src/read/ reads a file (specs/Walks.antt says what a step of the walk is), and src/write.rt with src/write/ writes one.
//!
//! What follows from the definitions, and callers' proofs may cite, stands in specs/Laws/ with its proofs: pairs put in order,
//! the pair after and the one before, where the keys that begin with a text are, when given pairs stand in order, and pairs by
//! new numbers of their records. What the order of a table is stands above, in the crate `table_order`.
#![tactic(auto)]

ghost use Rattle.std.specs.Prelude.{◌≡◌, ◌↔◌, ℕ, List, [], ◌∷◌, Option, None, IsPermutation, IsSorted};
ghost use Rattle.ndx_index.specs.declared.pair.Pair.{Pair as PairValue};
ghost use Rattle.ndx_index.specs.declared.read.page.PageLayout.{PageLayout as LayoutValue};
ghost use Rattle.ndx_index.specs.Header.{before_zero, trimmed_end};
ghost use Rattle.ndx_index.specs.Image.{IsWritable};
ghost use Rattle.ndx_index.specs.IndexFile.{HasNoZero, ReadsBackAs};
ghost use Rattle.ndx_index.specs.NdxTree.{BadPage, IsFileTree, Visits};
ghost use Rattle.ndx_index.specs.Order.{in_order, pair_cmp};

mod compare;
mod fault;
mod format;
mod index;
mod ndx_file;
mod pages;
mod pair;
mod pair_list;
mod read;
mod write;

pub use crate::fault::{BadIndex, NdxFault};
pub use crate::format::{
    EXPRESSION_OFFSET, KEY_LENGTH_OFFSET, KEY_TYPE_OFFSET, MAX_PAIRS, MAX_RECORDS_BYTES, PAGE,
    PAGE_COUNT_OFFSET, RECORD_SIZE_OFFSET, UNIQUE_FLAG_OFFSET,
};
pub use crate::index::OrderedIndex;
pub use crate::ndx_file::NdxFile;
pub use crate::pair::Pair;
pub use crate::pair_list::PairList;
pub use crate::read::header::{Header, HeaderNumbers, header_numbers, padded_expression};
pub use crate::read::page::{InnerPage, LeafPage, PageLayout};
pub use crate::read::view::{PageAt, PageSeen, PageView};
pub use crate::read::walk::PageWalk;
pub use crate::read::{read_ndx, read_ndx_at};
pub use crate::write::write_ndx;

/// The order of pairs is their sorted permutation, and they have no other.
pub fn one_order()
    ensures permutation { (ps : List PairValue) → IsPermutation ps (in_order ps) }
    ensures sorted { (ps : List PairValue) → IsSorted pair_cmp (in_order ps) }
    ensures only { (ps qs : List PairValue) → IsPermutation ps qs → IsSorted pair_cmp qs → qs ≡ in_order ps }
{}

/// The walk that breaks no rule visits the tree, and there is one walk from each page.
pub fn one_walk()
    ensures tree { (s : LayoutValue) (bytes : List ℕ) (root : ℕ) (pages : List ℕ) (pairs : List PairValue)
        → Visits s bytes [] (root ∷ []) pages pairs None ↔ IsFileTree s bytes root pages pairs }
    ensures only { (s : LayoutValue) (bytes : List ℕ) (root : ℕ) (pages others : List ℕ) (pairs rest : List PairValue) (r t : Option BadPage)
        → Visits s bytes [] (root ∷ []) pages pairs r → Visits s bytes [] (root ∷ []) others rest t
        → (pages ≡ others) × (pairs ≡ rest) × (r ≡ t) }
{}

/// The file that is written of an index reads back as that index: its pairs in their order, the length
/// of its keys, and its key expression without the blanks at its end. A text with a zero byte is no key
/// expression; of such a text what stands before the zero is read.
pub fn reads_back()
    ensures law { (text : List ℕ) (key_len : ℕ) (pairs : List PairValue) → IsWritable text key_len pairs
        → ReadsBackAs (trimmed_end (before_zero text)) text key_len pairs }
    ensures plain { (text : List ℕ) (key_len : ℕ) (pairs : List PairValue) → IsWritable text key_len pairs → HasNoZero text
        → ReadsBackAs (trimmed_end text) text key_len pairs }
{}
