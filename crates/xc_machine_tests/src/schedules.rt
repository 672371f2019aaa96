use std::alloc::{AllocError, Global};
use std::test::Fail;
use xc_sched::{
    Chooser, Loss, Ready, Recorded, Recorder, RoundRobin, SchedFault, Seeded, print_schedule,
    read_schedule,
};

/// The streams 0, 4 and 9 of ten are ready.
fn three_ready(alloc: Global) -> Result<Ready, AllocError> {
    let mut ready = Ready::new(alloc, 10)?;
    ready.set(0, true);
    ready.set(4, true);
    ready.set(9, true);
    Ok(ready)
}

fn answers<C: Chooser>(chooser: &mut C, ready: &Ready) -> [Option<u32>; 4] {
    [
        chooser.next(ready),
        chooser.next(ready),
        chooser.next(ready),
        chooser.next(ready),
    ]
}

#[test]
fn ready_streams(rt: HostRuntime) -> Result<(), Fail> {
    let mut ready = Ready::new(rt.alloc(), 1024)?;
    ready.set(63, true);
    ready.set(64, true);
    ready.set(1023, true);
    ready.set(64, false);
    let counts = ready.count() == 2 && ready.nth(1) == Some(1023) && ready.nth(2).is_none();
    let fit = counts && ready.has(63) && !ready.has(64) && !ready.has(1024);
    drop(ready);
    assert!(rt; fit);
    Ok(())
}

#[test]
fn choosers(rt: HostRuntime) -> Result<(), Fail> {
    let ready = three_ready(rt.alloc())?;
    let mut turns = RoundRobin::new();
    let in_turn = answers(&mut turns, &ready) == [Some(0), Some(4), Some(9), Some(0)];
    let seeded = Seeded::new(0).next(&ready) == Some(9);
    drop(ready);
    let none = Ready::new(rt.alloc(), 10)?;
    let nothing = turns.next(&none).is_none();
    drop((none, turns));
    assert!(rt; in_turn && seeded && nothing);
    Ok(())
}

/// Whether what a recorder took is answered again, and printed.
fn is_recorded(alloc: Global, ready: &Ready) -> Result<bool, AllocError> {
    let mut recorder = Recorder::new(alloc, RoundRobin::new());
    answers(&mut recorder, ready);
    answers(&mut recorder, ready);
    let mut copy = recorder.taken().copy()?;
    let counts = recorder.lost().is_none() && recorder.taken().left() == 8;
    let again = answers(&mut copy, ready) == [Some(0), Some(4), Some(9), Some(0)];
    let text = print_schedule(alloc, &copy)?;
    let printed = text.as_slice() == b"schedule 2\n0 4 1\n0 9 1\n0 0 1\n0 4 1\n".as_slice();
    Ok(counts && again && copy.left() == 4 && printed)
}

#[test]
fn records(rt: HostRuntime) -> Result<(), Fail> {
    let ready = three_ready(rt.alloc())?;
    let recorded = is_recorded(rt.alloc(), &ready);
    drop(ready);
    assert!(rt; matches!(recorded, Ok(true)));
    Ok(())
}

/// Whether the last stream of all is recorded.
fn is_last_recorded(alloc: Global) -> Result<bool, AllocError> {
    let mut ready = Ready::new(alloc, 8192)?;
    ready.set(8191, true);
    let mut recorder = Recorder::new(alloc, RoundRobin::new());
    answers(&mut recorder, &ready);
    let text = print_schedule(alloc, recorder.taken())?;
    let printed = text.as_slice() == b"schedule 2\n63 127 4\n".as_slice();
    Ok(recorder.lost().is_none() && printed)
}

#[test]
fn last_stream(rt: HostRuntime) -> Result<(), Fail> {
    let recorded = is_last_recorded(rt.alloc());
    assert!(rt; matches!(recorded, Ok(true)));
    Ok(())
}

#[test]
fn losses(rt: HostRuntime) -> Result<(), Fail> {
    let mut ready = Ready::new(rt.alloc(), 8193)?;
    ready.set(8192, true);
    let mut far = Recorder::new(rt.alloc(), RoundRobin::new());
    let chosen = far.next(&ready) == Some(8192);
    let lost = matches!(far.lost(), Some(Loss::Stream(8192))) && far.taken().left() == 0;
    drop((ready, far));
    assert!(rt; chosen && lost);
    Ok(())
}

/// Reads a text, which is short.
#[tactic(auto, using(xc_text_lines::proofs::Laws::few_lines))]
fn read_short(alloc: Global, text: &str) -> Result<Result<Recorded, SchedFault>, Fail> {
    if text.len() < 4096 {
        Ok(read_schedule(alloc, text.as_bytes()))
    } else {
        Err("a short text".into())
    }
}

/// Whether a schedule has so many answers, and this is printed of it.
fn is_read(alloc: Global, text: &str, left: u64, again: &str) -> Result<bool, Fail> {
    let read = read_short(alloc, text)?.ok().ok_or("a schedule")?;
    let printed = print_schedule(alloc, &read)?;
    Ok(read.left() == left && printed.as_slice() == again.as_bytes())
}

#[test]
fn texts(rt: HostRuntime) -> Result<(), Fail> {
    for (text, left) in [
        ("schedule 2\n", 0),
        ("schedule 2\n63 127 2147483648\n", 2_147_483_648),
        ("schedule 2\n0 0 5\n0 3 1\n1 3 1\n0 3 1\n", 8),
    ] {
        let fits = is_read(rt.alloc(), text, left, text)?;
        assert!(rt; fits, "{text}");
    }
    Ok(())
}

#[test]
fn texts_of_the_first_form(rt: HostRuntime) -> Result<(), Fail> {
    for (text, left, again) in [
        ("schedule 1\n", 0, "schedule 2\n"),
        (
            "schedule 1\n1023 2147483648\n",
            2_147_483_648,
            "schedule 2\n7 127 2147483648\n",
        ),
        (
            "schedule 1\n0 5\n131 1\n3 1\n",
            7,
            "schedule 2\n0 0 5\n1 3 1\n0 3 1\n",
        ),
    ] {
        let fits = is_read(rt.alloc(), text, left, again)?;
        assert!(rt; fits, "{text}");
    }
    Ok(())
}

/// The first bad line of a schedule.
fn bad_line(alloc: Global, text: &str) -> Result<Option<u32>, Fail> {
    match read_short(alloc, text)? {
        Err(SchedFault::Line(line)) => Ok(Some(line)),
        _ => Ok(None),
    }
}

#[test]
fn first_bad_lines(rt: HostRuntime) -> Result<(), Fail> {
    for (text, line) in [
        ("", 1),
        ("schedule 1", 1),
        ("schedule 2", 1),
        ("schedule 3\n", 1),
        ("schedule 2 \n", 1),
        ("schedule  2\n", 1),
        ("0 0 1\n", 1),
        ("schedule 1\n0 0\n", 2),
        ("schedule 1\n0 2147483649\n", 2),
        ("schedule 1\n1024 1\n", 2),
        ("schedule 1\n0 0 1\n", 2),
        ("schedule 1\n5\n", 2),
        ("schedule 1\nschedule 2\n", 2),
        ("schedule 1\n0 5\n0 1\n", 3),
        ("schedule 1\n0 5\n1 01\n", 3),
        ("schedule 1\n0 5\n1 1", 3),
        ("schedule 1\n0 5\n1 1 \n", 3),
        ("schedule 1\n0 5\n\n", 3),
        ("schedule 2\n0 1\n", 2),
        ("schedule 2\n5\n", 2),
        ("schedule 2\n\n", 2),
        ("schedule 2\n64 0 1\n", 2),
        ("schedule 2\n0 128 1\n", 2),
        ("schedule 2\n0 0 0\n", 2),
        ("schedule 2\n0 0 2147483649\n", 2),
        ("schedule 2\n0 0 1 1\n", 2),
        ("schedule 2\n00 0 1\n", 2),
        ("schedule 2\n0 0 5\n0 0 1\n", 3),
        ("schedule 2\n0 0 5\n1 00 1\n", 3),
        ("schedule 2\n0 0 5\n1 0 01\n", 3),
        ("schedule 2\n0 0 5\n1  0 1\n", 3),
        ("schedule 2\n0 0 5\n1 0 1 \n", 3),
        ("schedule 2\n0 0 5\n1 0 1", 3),
        ("schedule 2\n0 0 5\n128 1\n", 3),
    ] {
        let found = bad_line(rt.alloc(), text)?;
        assert!(rt; found == Some(line), "{text}");
    }
    Ok(())
}
