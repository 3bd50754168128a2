//! Logical values in cells.

ghost use Rattle.std.specs.Prelude.{◌≡◌};
ghost use Rattle.dbf_fields.specs.Logical.{truth, truth_text as letter_of};

/// The logical value in a cell: true for the letters `T`, `t`, `Y` and `y`, and false for every other
/// byte, such as `?` and a blank. A cell of another length than one byte is false. Takes no memory.
pub fn read_truth(cell: &[u8]) -> bool
    ensures value { result ≡ truth cell.now }
{
    match cell {
        [letter] => matches!(*letter, b'T' | b't' | b'Y' | b'y'),
        _ => false,
    }
}

// The letter that a cell keeps.
pub(crate) fn truth_text(truth: bool) -> [u8; 1]
    ensures value { result ≡ letter_of truth }
{
    if truth { [b'T'] } else { [b'F'] }
}
