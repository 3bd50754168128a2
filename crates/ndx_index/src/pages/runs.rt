//! Runs of parts of one size.

ghost use Rattle.std.specs.Prelude.{◌≡◌, ◌+◌, ◌-◌, ◌*◌, ◌≤◌, ◌++◌, length, take, drop, replicate, vec_len, vec_capacity};
ghost use Rattle.std.specs.List.{copy_within};
ghost use lib.Seq.{paste};

/// A part, by its number.
pub(crate) fn part(run: &[u8], size: usize, at: usize) -> &[u8]
    requires inside { at * size + size ≤ length run.now }
    ensures bytes { result.now ≡ take size (drop (at * size) run.now) }
{
    let (_, rest) = run.split_at(at * size);
    let (here, _) = rest.split_at(size);
    here
}

/// Writes the bytes of a part.
pub(crate) fn write_part(run: &mut Vec<u8>, size: usize, at: usize, bytes: &[u8])
    requires size { length bytes.now ≡ size }
    requires room { at * size + size ≤ vec_len run.old }
    ensures items { run.new.items ≡ paste run.old.items (at * size) bytes.now size }
    ensures len { vec_len run.new ≡ vec_len run.old }
    ensures capacity { vec_capacity run.new ≡ vec_capacity run.old }
{
    let start = at * size;
    run[start..start + size].copy_from_slice(bytes);
}

/// Copies the parts from `start` up to `end` to those from `dest` on.
pub(crate) fn copy_parts(run: &mut Vec<u8>, size: usize, start: usize, end: usize, dest: usize)
    requires order { start ≤ end }
    requires inside { end * size ≤ vec_len run.old }
    requires room { (dest + (end - start)) * size ≤ vec_len run.old }
    ensures items { run.new.items ≡ paste run.old.items (dest * size) (drop (start * size) run.old.items) ((end - start) * size) }
    ensures len { vec_len run.new ≡ vec_len run.old }
    ensures capacity { vec_capacity run.new ≡ vec_capacity run.old }
{
    run.copy_within(start * size..end * size, dest * size);
}

/// Puts n elements of one value after the others.
pub(crate) fn push_copies<T: Copy>(run: &mut Vec<T>, n: usize, value: T)
    requires room { vec_len run.old + n ≤ vec_capacity run.old }
    ensures items { run.new.items ≡ run.old.items ++ replicate n value }
    ensures capacity { vec_capacity run.new ≡ vec_capacity run.old }
{
    for i in 0..n {
        run.push_reserved(value);
    }
}

/// Puts elements after the others, copied at once.
pub(crate) fn push_run<T: Copy>(run: &mut Vec<T>, more: &[T])
    requires room { vec_len run.old + length more.now ≤ vec_capacity run.old }
    ensures items { run.new.items ≡ run.old.items ++ more.now }
    ensures capacity { vec_capacity run.old ≤ vec_capacity run.new }
{
    let extended = run.extend_from_slice(more);
    // For contracts alone: there is room, so that it can't fail.
    prove!(extended.is_ok());
}
