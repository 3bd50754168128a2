//! That a look doesn't wait for the catalogue's lock: many looks end while one command is performed.

ghost use Rattle.std.specs.Prelude.{◌≡◌, []};

use super::sample::open;
use byte_io::Bytes;
use catalogue_core::{Answer, Catalogue, Command};
use dbf_fields::{CHARACTER, Field, Schema};
use dbf_image::TableData;
use shared_catalogue::{Lot, Naming, Seat, Shared};
use std::alloc::Global;
use std::marker::Brand;
use std::sync::Wait;
use std::sync::atomic::{AtomicU64, Ordering};
use std::test::Fail;
use std::thread::{Threads, join};

// How many records are packed, which takes far longer than the looks.
const RECORDS: u32 = 20_000;

// How often they are packed at most.
const PACKS: u64 = 20_000;

// How many looks are to end while one PACK is performed: they show the row before it. A look that takes the lock ends after it, and shows
// its row.
const LOOKS: u32 = 100;

// How often that is tried.
const TRIES: u32 = 50;

// What is added to the marks when the looks are done.
const LOOKED: u64 = 1 << 32;

// How often a thread looks whether a PACK has begun before it gives up.
const TURNS: u64 = 1_000_000_000;

// How often it reads the marks then, before it looks at the status row: within that the PACK takes the lock.
const PAUSE: u32 = 5_000;

// Performs a command; whether it was answered OK.
fn is_done<J: Naming>(
    alloc: Global,
    rt: &impl Wait,
    shared: &Shared<J>,
    seat: &mut Seat<J>,
    command: &Command,
) -> bool {
    matches!(shared.perform(alloc, rt, seat, command), Ok(Answer::Done))
}

// Packs again and again until the other thread's looks are done, and tells whether they are. The marks are counted up when a PACK
// begins and when it has ended.
fn pack_often<J: Naming>(
    alloc: Global,
    rt: &impl Wait,
    shared: &Shared<J>,
    seat: &mut Seat<J>,
    marks: &AtomicU64,
) -> bool {
    for _ in 0..PACKS {
        if marks.fetch_add(1, Ordering::SeqCst) >= LOOKED {
            return true;
        }
        if !is_done(alloc, rt, shared, seat, &Command::Pack) {
            return false;
        }
        marks.fetch_add(1, Ordering::SeqCst);
    }
    false
}

// The same at a seat that is given up then.
fn pack<J: Naming>(
    alloc: Global,
    rt: &impl Wait,
    shared: &Shared<J>,
    seat: Seat<J>,
    marks: &AtomicU64,
) -> bool {
    let mut seat = seat;
    pack_often(alloc, rt, shared, &mut seat, marks)
}

// Whether many looks show the row of so many commands.
fn show<J: Naming>(rt: &impl Wait, shared: &Shared<J>, seat: &mut Seat<J>, commands: u64) -> bool {
    for _ in 0..LOOKS {
        if shared.look(rt, seat).words()[0] != commands {
            return false;
        }
    }
    true
}

// The marks once a PACK has begun that is later than those that were seen: no look is in its way when it takes the lock. `None` where
// none begins.
fn begun(marks: &AtomicU64, seen: u64) -> Option<u64> {
    for _ in 0..TURNS {
        let count = marks.load(Ordering::SeqCst);
        if count > seen && count % 2 == 1 {
            return Some(count);
        }
    }
    None
}

// Whether a PACK is still under way after a pause, in which it has taken the lock.
fn is_under_way(marks: &AtomicU64, count: u64) -> bool {
    for _ in 0..PAUSE {
        if marks.load(Ordering::SeqCst) != count {
            return false;
        }
    }
    true
}

// Looks while a PACK is performed, until one has not ended when the looks have. Tells whether that happened.
fn look_often<J: Naming>(
    rt: &impl Wait,
    shared: &Shared<J>,
    seat: &mut Seat<J>,
    marks: &AtomicU64,
) -> bool {
    let mut seen = 0;
    for _ in 0..TRIES {
        let Some(count) = begun(marks, seen) else {
            return false;
        };
        // The PACKs before this one, and USE before them.
        if is_under_way(marks, count) && show(rt, shared, seat, count / 2 + 1) {
            return true;
        }
        seen = marks.load(Ordering::SeqCst);
    }
    false
}

// The same at a seat that is given up then. The other thread packs no more.
fn look<J: Naming>(rt: &impl Wait, shared: &Shared<J>, seat: Seat<J>, marks: &AtomicU64) -> bool {
    let mut seat = seat;
    let has_looked = look_often(rt, shared, &mut seat, marks);
    marks.fetch_add(LOOKED, Ordering::SeqCst);
    has_looked
}

// Takes the table for a seat's station alone.
fn use_exclusively<J: Naming>(
    alloc: Global,
    rt: &impl Wait,
    shared: &Shared<J>,
    seat: &mut Seat<J>,
) -> Result<(), Fail> {
    let name = Bytes::from_slice(alloc, b"T")?;
    let exclusive = true;
    if is_done(
        alloc,
        rt,
        shared,
        seat,
        &Command::UseTable { name, exclusive },
    ) {
        Ok(())
    } else {
        Err("the table is not opened".into())
    }
}

// What the two threads tell, for the ledger, the board and the opened tables of a name.
fn look_beside_as<J: Naming + Send + Sync, R: Threads + Wait + Sync>(
    rt: &R,
    alloc: Global,
    lot: Lot,
    catalogue: Catalogue,
) -> Result<(bool, bool), Fail>
    requires empty { catalogue.journal ≡ [] }
    requires opened { catalogue.opened ≡ J.opened }
    requires ledger { (lot.ledger ≡ J.name) × (lot.parts ≡ J.parts) }
    requires board { lot.board ≡ J.board }
    requires parts { lot.parts ≡ catalogue.opened.stations }
{
    let (shared, mut seats) = Shared::<J>::new(alloc, catalogue, lot)?;
    let Some(looking) = seats.pop() else {
        return Err("there is no seat".into());
    };
    let Some(mut packing) = seats.pop() else {
        return Err("there is one seat alone".into());
    };
    use_exclusively(alloc, rt, &shared, &mut packing)?;
    let marks = AtomicU64::new(0);
    let ends = join(
        rt,
        || look(rt, &shared, looking, &marks),
        || pack(alloc, rt, &shared, packing, &marks),
    );
    Ok(ends)
}

// Appends the blank records to a table, which has no more of them then.
fn append_blanks(content: &mut TableData) -> Result<(), Fail> {
    for _ in 0..RECORDS {
        if content.record_count() < RECORDS {
            content.append_blank()?;
        }
    }
    Ok(())
}

// The table of blank records.
fn blank_records(alloc: Global) -> Result<TableData, Fail> {
    let fields = [Field::new(alloc, b"NAME", CHARACTER, 1, 0)?];
    let mut content = TableData::empty(alloc, Schema::new(alloc, &fields)?);
    append_blanks(&mut content)?;
    Ok(content)
}

// The same on the table of blank records, under a name of its own.
fn look_beside<R: Threads + Wait + Sync>(rt: &R, alloc: Global) -> Result<(bool, bool), Fail> {
    let catalogue = open(alloc, blank_records(alloc)?, 2)?;
    let lot = Lot::new(alloc, catalogue.station_count())?;
    look_beside_as::<Brand, R>(rt, alloc, lot, catalogue)
}

#[test]
fn look_beside_a_held_lock(rt: HostRuntime) -> Result<(), Fail> {
    let ends = look_beside(&rt, rt.alloc())?;
    assert_eq!(rt; ends, (true, true));
    Ok(())
}
