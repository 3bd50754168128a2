//! Locks, by the calls that no command makes and by what is asked of them.

ghost use Rattle.std.specs.Prelude.{◌≡◌};

use lock_table::Locks;
use std::test::Fail;

#[test]
fn locks_are_tried(rt: HostRuntime) -> Result<(), Fail> {
    let mut locks = Locks::new(rt.alloc(), 2, 1)?;
    let taken = [
        locks.try_file(1, 1),
        locks.try_record(2, 1, 2),
        locks.try_record(1, 1, 1),
        locks.try_record(2, 1, 2),
        locks.try_records(1, 1, &[3, 2]),
        locks.try_records(1, 1, &[3, 1, 3]),
        locks.try_file(2, 1),
    ];
    assert!(rt; taken == [true, false, true, true, false, true, false]);
    let held = [
        locks.record_locks(1),
        locks.holder_of_record(1, 1),
        locks.holder_of_record(1, 2),
        locks.holder_of_record(1, 3),
        locks.file_holder(1),
    ];
    assert!(rt; held == [3, 1, 2, 1, 0]);
    Ok(())
}

// What is asked of three stations' locks in two tables. Each answer is a number, and a yes 1.
fn of_record_4(locks: &Locks, table: u32) -> [u32; 12]
    requires stations { locks.now.stations ≡ 3 }
    requires tables { locks.now.tables ≡ 2 }
{
    let table = table.clamp(1, 2);
    [
        u32::from(locks.is_free_record(1, table, 4)),
        u32::from(locks.is_free_record(1, table, 3)),
        u32::from(locks.is_free_record(2, table, 4)),
        u32::from(locks.is_free_whole(1, table)),
        u32::from(locks.is_free_whole(2, table)),
        locks.holder_of_record(table, 4),
        locks.holder_of_record(table, 3),
        locks.file_holder(table),
        u32::from(locks.may_write(1, table, 4)),
        u32::from(locks.may_write(2, table, 4)),
        u32::from(locks.may_write(2, table, 3)),
        locks.record_locks(table),
    ]
}

#[test]
fn each_query_sees_the_locks(rt: HostRuntime) -> Result<(), Fail> {
    let mut locks = Locks::new(rt.alloc(), 3, 2)?;
    assert!(rt; of_record_4(&locks, 1) == [1, 1, 1, 1, 1, 0, 0, 0, 0, 0, 0, 0]);
    let taken = locks.try_record(2, 1, 4);
    assert!(rt; taken && of_record_4(&locks, 1) == [0, 1, 1, 0, 1, 2, 0, 0, 0, 1, 0, 1]);
    let taken = locks.try_file(3, 2);
    // A lock on the whole table is on no record.
    assert!(rt; taken && of_record_4(&locks, 2) == [0, 0, 0, 0, 0, 0, 0, 3, 0, 0, 0, 0]);
    let own = [
        locks.is_free_record(3, 2, 4),
        locks.may_write(3, 2, 4),
        locks.is_free_records(2, 1, &[4, 5]),
        locks.is_free_records(1, 1, &[5, 4]),
    ];
    assert!(rt; own == [true, true, true, false] && locks.record_locks(1) == 1);
    locks.release(2, 1);
    locks.release_all(3);
    assert!(rt; locks.station_count() == 3 && locks.record_locks(1) == 0);
    assert!(rt; locks.file_holder(2) == 0);
    Ok(())
}
