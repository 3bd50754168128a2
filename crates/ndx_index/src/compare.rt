//! Comparing keys by eight of their bytes at once.

ghost use Rattle.std.specs.Prelude.{◌≡◌, ◌≤◌, length, IfSome};
ghost use Rattle.std.specs.Cmp.Lexicographic.{slice_cmp};
ghost use Rattle.std.specs.Ordering.{is_lt, nat_cmp, ordering_then};
ghost use Rattle.std.specs.declared.cmp.Ordering.{Ordering as Order};
ghost use Rattle.byteorder.specs.Endian.{big_number};

use byteorder::{BigEndian, ByteOrder};

/// Whether a key stands before another one by the ends of both, eight bytes each, read as one number: by the first eight, or
/// where these are the same by the last eight. `None` where these don't tell: where a key has fewer bytes, or the last
/// eight leave bytes out between them and the first.
pub(crate) fn ends_are_before(a: &[u8], b: &[u8]) -> Option<bool>
    ensures decided { IfSome result (λ before. (then : Order) → is_lt (ordering_then (slice_cmp nat_cmp a.now b.now) then) ≡ before) }
{
    if a.len() < 8 || b.len() < 8 {
        return None;
    }
    let front = BigEndian::read_u64(a);
    let other = BigEndian::read_u64(b);
    if front == other {
        back_is_before(a, b)
    } else {
        Some(front < other)
    }
}

// Whether a key stands before another one by the last eight bytes of both, where the first eight are the same.
fn back_is_before(a: &[u8], b: &[u8]) -> Option<bool>
    requires first { 8 ≤ length a.now }
    requires second { 8 ≤ length b.now }
    requires same { big_number 8 a.now ≡ big_number 8 b.now }
    ensures decided { IfSome result (λ before. (then : Order) → is_lt (ordering_then (slice_cmp nat_cmp a.now b.now) then) ≡ before) }
{
    if a.len() > 16 || b.len() != a.len() {
        return None;
    }
    let start = a.len() - 8;
    let back = BigEndian::read_u64(&a[start..]);
    let other = BigEndian::read_u64(&b[start..]);
    if back == other {
        None
    } else {
        Some(back < other)
    }
}
