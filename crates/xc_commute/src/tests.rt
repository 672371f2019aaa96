ghost use Rattle.std.specs.Prelude.{◌≡◌};

use super::*;
use xc_word::{Access, Kind, Place};

fn event(thread: u32, kind: Kind, off: u32, value: u64) -> Event
    ensures { result ≡ record { thread = thread; act = record { kind = kind; place = record { seg = 1; off = off }; value = value } } }
{
    let place = Place { seg: 1, off };
    Event {
        thread,
        act: Access { kind, place, value },
    }
}

#[test]
fn exchanges_accesses_to_different_cells(rt: HostRuntime) {
    let first = event(0, Kind::WriteXf, 0, 5);
    let second = event(1, Kind::Add, 1, 7);
    let third = event(0, Kind::Purge, 1, 0);
    let mut events = [first, second, third];
    if events[0].thread != events[1].thread && !conflict(&events[0].act, &events[1].act) {
        swap(&mut events, 0);
    }
    assert_eq!(rt; events, [second, first, third]);
}

#[test]
fn gathers_in_order(rt: HostRuntime) {
    let read = [
        event(2, Kind::ReadXx, 0, 0),
        event(1, Kind::ReadFf, 1, 0),
        event(3, Kind::ReadXx, 2, 0),
        event(1, Kind::ReadXx, 3, 0),
    ];
    let mut events = read;
    gather(&mut events, 1);
    assert_eq!(rt; events, [read[1], read[3], read[0], read[2]]);
}

/// Each kind at one cell beside a plain read of it: only reads that leave the state do not conflict.
#[test]
fn conflicts(rt: HostRuntime) {
    let kinds = [
        (Kind::ReadXx, false),
        (Kind::ReadFe, true),
        (Kind::ReadFf, false),
        (Kind::WriteXf, true),
        (Kind::WriteEf, true),
        (Kind::WriteFf, true),
        (Kind::Purge, true),
        (Kind::Add, true),
    ];
    for (kind, want) in kinds {
        let plain = event(0, Kind::ReadXx, 0, 0);
        assert_eq!(rt;
            conflict(&plain.act, &event(1, kind, 0, 0).act),
            want,
            "{kind:?}"
        );
        assert_eq!(rt;
            conflict(&plain.act, &event(1, kind, 1, 0).act),
            false,
            "{kind:?}"
        );
    }
}
