//! Things are sent from one thread to another, and wait where there is no room for them.

ghost use Rattle.std.specs.Prelude.{◌≡◌, ◌++◌, ◌∷◌, [], true, false};
ghost use Rattle.rtrb.specs.Ring.{sent, SameProducer};

use crate::bell::Bell;
use crate::office::Office;
use rtrb::{Producer, PushError};
use std::sync::Wait;

/// Sends an item. Where there is no room, it waits for this bell. `false` where the office is over before: then nothing is sent.
pub(crate) fn send_waiting<T: Drop, R: Wait>(
    rt: &R,
    office: &Office,
    bell: &Bell,
    items: &mut Producer<T>,
    item: T,
) -> bool
    ensures ring { SameProducer items.old items.new }
    ensures sent { result ≡ true → sent items.new ≡ sent items.old ++ item ∷ [] }
    ensures unsent { result ≡ false → sent items.new ≡ sent items.old }
{
    let mut item = item;
    for _ in rt.forever() {
        let count = bell.count(rt);
        if office.is_over() {
            return false;
        }
        match items.push(item) {
            Ok(()) => return true,
            Err(PushError::Full(back)) => item = back,
        }
        bell.wait_past(rt, count);
    }
    unreachable!()
}
