use std::alloc::Global;
use std::test::Fail;
use xc_word::{Access, AddFault, Applied, Cell, Kind, Memory, Place};

fn accesses_fit(memory: &mut Memory) -> bool {
    let row = [
        (Kind::Purge, 0, 0, Applied::Done(0)),
        (Kind::ReadFe, 0, 0, Applied::Blocked),
        (Kind::WriteEf, 0, 5, Applied::Done(0)),
        (Kind::Add, 0, 2, Applied::Done(5)),
        (Kind::ReadFe, 0, 0, Applied::Done(7)),
        (Kind::ReadXx, 0, 0, Applied::Done(7)),
        (Kind::ReadXx, 2, 0, Applied::Bad),
    ];
    for (kind, off, value, want) in row {
        let place = Place { seg: 1, off };
        if memory.apply(&Access { kind, place, value }) != want {
            return false;
        }
    }
    true
}

#[test]
fn accesses_in_a_row(rt: HostRuntime) -> Result<(), Fail> {
    let mut memory = Memory::new(rt.alloc());
    let added = memory.add_segment(1, 2).is_ok();
    let taken = matches!(memory.add_segment(1, 2), Err(AddFault::Taken));
    let fit = accesses_fit(&mut memory);
    let freed = memory.free(1).is_ok() && memory.free(1).is_err();
    drop(memory);
    assert!(rt; added && taken && fit && freed);
    Ok(())
}

/// What an access with the value 3 answers and leaves at a full or an empty cell that holds 2^64 - 1.
fn apply_at(alloc: Global, full: bool, kind: Kind) -> (Applied, Option<Cell>) {
    let place = Place { seg: 7, off: 1 };
    let access = |kind: Kind, value: u64| Access { kind, place, value };
    let mut memory = Memory::new(alloc);
    let _ = memory.add_segment(7, 2);
    let _ = memory.apply(&access(Kind::WriteXf, u64::MAX));
    if !full {
        let _ = memory.apply(&access(Kind::ReadFe, 0));
    }
    let answer = memory.apply(&access(kind, 3));
    (answer, memory.cell(place))
}

/// Each kind with the value 3, at a full and at an empty cell that holds 2^64 - 1.
#[test]
fn each_kind_at_each_state(rt: HostRuntime) -> Result<(), Fail> {
    let most = u64::MAX;
    let waits = (Applied::Blocked, Cell::empty(most));
    let waits_empty = (Applied::Blocked, Cell::full(most));
    let written = (Applied::Done(0), Cell::full(3));
    let table = [
        (
            Kind::ReadXx,
            (Applied::Done(most), Cell::full(most)),
            (Applied::Done(most), Cell::empty(most)),
        ),
        (
            Kind::ReadFe,
            (Applied::Done(most), Cell::empty(most)),
            waits,
        ),
        (Kind::ReadFf, (Applied::Done(most), Cell::full(most)), waits),
        (Kind::WriteXf, written, written),
        (Kind::WriteEf, waits_empty, written),
        (Kind::WriteFf, written, waits),
        (
            Kind::Purge,
            (Applied::Done(0), Cell::empty(0)),
            (Applied::Done(0), Cell::empty(0)),
        ),
        (Kind::Add, (Applied::Done(most), Cell::full(2)), waits),
    ];
    for (kind, at_full, at_empty) in table {
        for (full, want) in [(true, at_full), (false, at_empty)] {
            let got = apply_at(rt.alloc(), full, kind);
            assert!(rt; got == (want.0, Some(want.1)));
        }
    }
    Ok(())
}
