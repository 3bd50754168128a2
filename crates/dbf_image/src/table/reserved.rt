//! Lists that grow within the room that they have, which can't fail.

ghost use Rattle.std.specs.Prelude.{◌≡◌, ◌≤◌, ◌+◌, ◌++◌, length, replicate, vec_len, vec_capacity};

/// Adds bytes after the others.
pub(crate) fn extend_reserved(bytes: &mut Vec<u8>, more: &[u8])
    requires room { vec_len bytes.old + length more.now ≤ vec_capacity bytes.old }
    ensures items { bytes.new.items ≡ bytes.old.items ++ more.now }
    ensures capacity { vec_capacity bytes.old ≤ vec_capacity bytes.new }
{
    let extended = bytes.extend_from_slice(more);
    prove!(extended.is_ok());
}

/// Adds `count` memos without a text after the others.
pub(crate) fn push_no_memos(memos: &mut Vec<u32>, count: usize)
    requires room { vec_len memos.old + count ≤ vec_capacity memos.old }
    ensures items { memos.new.items ≡ memos.old.items ++ replicate count 0 }
{
    let length = memos.len() + count;
    let resized = memos.resize(length, 0);
    prove!(resized.is_ok());
}
