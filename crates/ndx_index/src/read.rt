//! Reading an index file.

ghost use Rattle.std.specs.Prelude.{◌≡◌, ◌≢◌, ℕ, List, IfOk, IfErr};
ghost use Rattle.ndx_index.specs.declared.fault.NdxFault.{NdxFault as Fault};
ghost use Rattle.ndx_index.specs.declared.fault.NdxFault.TheVariants.{NoMemory};
ghost use Rattle.ndx_index.specs.declared.pair.Pair.{Pair as PairValue};
ghost use Rattle.ndx_index.specs.Header.{IsIndex, HasNdxFault, IsRefusedPage, header_refusal};
ghost use Rattle.ndx_index.specs.Reading.{IsOnly, without_page};

pub(crate) mod header;
pub(crate) mod page;
mod tree;
pub(crate) mod view;
pub(crate) mod walk;

use crate::fault::{BadIndex, NdxFault};
use crate::ndx_file::NdxFile;
use crate::read::header::{expression, read_header};
use crate::read::tree::read_tree;
use byte_io::Bytes;
use std::alloc::Global;

fn read_file(alloc: Global, bytes: &[u8]) -> Result<NdxFile, BadIndex>
    ensures found { IfOk result (λ file. IsIndex bytes.now file.expr file.key_len file.pairs.pairs) }
    ensures refused { IfErr result (λ bad. bad.why ≢ NoMemory → IsRefusedPage bytes.now bad.why bad.page) }
    ensures early { IfErr result (λ bad. (f : Fault) → header_refusal bytes.now ≡ Some f → bad ≡ record { why = f; page = None }) }
{
    let header = read_header(bytes)?;
    let pairs = read_tree(alloc, bytes, header.layout, header.root)?;
    let expr = Bytes::from_slice(alloc, expression(bytes))?;
    Ok(NdxFile {
        expr,
        key_len: header.layout.key_len,
        pairs,
    })
}

/// Reads an index file as [`read_ndx`] does. A fault tells of the page that breaks the rule, too; where the header page breaks it,
/// or memory is refused, of none.
pub fn read_ndx_at(alloc: Global, bytes: &[u8]) -> Result<NdxFile, BadIndex>
    ensures found { IfOk result (λ file. IsIndex bytes.now file.expr file.key_len file.pairs.pairs) }
    ensures only { (text : List ℕ) (key_len : ℕ) (pairs : List PairValue) → IsIndex bytes.now text key_len pairs → IsOnly text key_len pairs (without_page result) }
    ensures refused { IfErr result (λ bad. bad.why ≢ NoMemory → IsRefusedPage bytes.now bad.why bad.page) }
    // Where the header page breaks a rule the answer is its fault, and nothing else.
    ensures early { IfErr result (λ bad. (f : Fault) → header_refusal bytes.now ≡ Some f → bad ≡ record { why = f; page = None }) }
{
    read_file(alloc, bytes)
}

/// Reads an index file: its key expression, the length of its keys, and the pairs of its leaves.
///
/// The header page is tested first, in the order of [`NdxFault`]: `Truncated`, `NumericIndex`,
/// `UniqueIndex`, `BadKeyLength`, `BadRecordSize`. Then the pages are walked from the root, depth first
/// and children from left to right, and each is tested for `PageOutside`, `PageTwice`, `TooManyEntries`
/// and `MixedPage`. The fault is that of the first broken rule. `NoMemory` may come in place of any other
/// answer, but for the header page's faults, which are found before any memory is taken. Pages that the
/// walk does not reach, and keys and record numbers of inner pages, are never looked at.
///
/// As a caller has it:
///
/// ```text
/// let read = read_ndx(alloc, &written(alloc, &index, len)?)?;
/// let pairs = index.pairs(alloc)?;
/// Ok(
///     read.expr.as_slice() == b"NAME".as_slice()
///         && read.key_len == usize::from(len)
///         && pairs.len() == count as usize
///         && are_same(&read.pairs, &pairs),
/// )
/// ```
pub fn read_ndx(alloc: Global, bytes: &[u8]) -> Result<NdxFile, NdxFault>
    ensures found { IfOk result (λ file. IsIndex bytes.now file.expr file.key_len file.pairs.pairs) }
    ensures only { (text : List ℕ) (key_len : ℕ) (pairs : List PairValue) → IsIndex bytes.now text key_len pairs → IsOnly text key_len pairs result }
    ensures refused { IfErr result (λ e. e ≢ NoMemory → HasNdxFault bytes.now e) }
    // Where the header page breaks a rule the answer is its fault, and nothing else.
    ensures early { IfErr result (λ e. (f : Fault) → header_refusal bytes.now ≡ Some f → e ≡ f) }
{
    match read_ndx_at(alloc, bytes) {
        Ok(file) => Ok(file),
        Err(bad) => Err(bad.why),
    }
}
