//! Calls that are made side by side.

ghost use Rattle.std.specs.Prelude.{◌≡◌, Ok, Err, OnOk, IfErr};
ghost use Rattle.std.specs.Fn.{FnReturnsAt};
ghost use Rattle.std.specs.List.{AllByRecursion, Contains};

use std::io;
use std::thread::{Threads, join};

// Makes a call for each of the things, each but the last in a thread of its own where one can be made, and waits for all of them.
// `Ok` where each answers so, else the error of the first that doesn't.
#[cycle(beside)]
pub(crate) fn side_by_side<R: Threads, T: Sync, F: Fn(&T) -> io::Result<()> + Sync>(
    rt: &R,
    things: &[T],
    call: &F,
) -> io::Result<()>
    requires { F.IsAlwaysCallable call.now }
    ensures made { OnOk result (AllByRecursion (λ thing. FnReturnsAt F.Fn call.now thing (Ok tt)) things.now) }
    ensures refused { IfErr result (λ e. (thing : T) × Contains things.now thing × FnReturnsAt F.Fn call.now thing (Err e)) }
{
    let Some((first, others)) = things.split_first() else {
        return Ok(());
    };
    if others.is_empty() {
        return call(first);
    }
    let later = || -> io::Result<()>
        requires { F.IsAlwaysCallable call.now }
        ensures made { OnOk result (AllByRecursion (λ thing. FnReturnsAt F.Fn call.entry.now thing (Ok tt)) others.entry.now) }
        ensures refused { IfErr result (λ e. (thing : T) × Contains others.entry.now thing × FnReturnsAt F.Fn call.entry.now thing (Err e)) }
    { side_by_side(rt, others, call) };
    let (one, rest) = join(rt, || call(first), later);
    one.and(rest)
}
