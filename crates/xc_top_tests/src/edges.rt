use std::alloc::Global;
use std::fs;
use std::test::Fail;
use xc_edge::{DirShelf, Failed, Fetch, MemShelf, MemSink, Shelf, Sink, StdSink, put_all};

fn named(alloc: Global, name: &str, text: &[u8]) -> Result<(String, Vec<u8>), Fail> {
    Ok((String::from_str(alloc, name)?, text.to_vec(alloc)?))
}

/// Puts a text through the trait alone.
fn put_some<S: Sink>(sink: &mut S, text: &[u8]) -> bool {
    put_all(sink, text).is_ok()
}

/// The length of a file through the trait alone.
fn length_of<S: Shelf>(shelf: &mut S, name: &str, limit: usize) -> Result<usize, Fetch> {
    Ok(shelf.fetch(name, limit)?.len())
}

fn files(alloc: Global) -> Result<Vec<(String, Vec<u8>)>, Fail> {
    let mut files = Vec::new(alloc);
    for (name, text) in [("a.c", "int"), ("a.c", "other"), ("empty", "")] {
        files.push(named(alloc, name, text.as_bytes())?)?;
    }
    Ok(files)
}

/// Fetches with a name, a limit and the length or fault that is answered.
fn fetches_fit<S: Shelf>(shelf: &mut S, rows: &[(&str, usize, Result<usize, Fetch>)]) -> bool {
    for (name, limit, answer) in rows {
        if length_of(shelf, name, *limit) != *answer {
            return false;
        }
    }
    true
}

/// Whether a file has this text.
fn has_text<S: Shelf>(shelf: &mut S, name: &str, text: &[u8]) -> bool {
    match shelf.fetch(name, text.len()) {
        Ok(bytes) => bytes.as_slice() == text,
        Err(_) => false,
    }
}

#[test]
fn memory_shelf_answers(rt: HostRuntime) -> Result<(), Fail> {
    let failing = [6u64].to_vec(rt.alloc())?;
    let mut shelf = MemShelf::new(rt.alloc(), files(rt.alloc())?, failing);
    let rows = [
        ("a.c", 3, Ok(3)),
        ("a.c", 2, Err(Fetch::Long)),
        ("a.c", usize::MAX, Ok(3)),
        ("empty", 0, Ok(0)),
        ("b.c", 9, Err(Fetch::Failed)),
        ("a.c", 0, Err(Fetch::Long)),
        ("a.c", 3, Err(Fetch::Failed)),
        ("a.c", 4, Ok(3)),
    ];
    let fit = fetches_fit(&mut shelf, &rows) && has_text(&mut shelf, "a.c", b"int");
    drop(shelf);
    assert!(rt; fit);
    Ok(())
}

#[test]
fn memory_sink_takes_what_fits(rt: HostRuntime) -> Result<(), Fail> {
    let mut sink = MemSink::new(rt.alloc(), 6, [2u64].to_vec(rt.alloc())?)?;
    let puts = put_some(&mut sink, b"one") && put_some(&mut sink, b"");
    let third = sink.put(b"two") == Ok(3);
    let fourth = matches!(sink.put(b""), Err(Failed)) && sink.put(b"") == Ok(0);
    let full = !put_some(&mut sink, b"!") && sink.bytes() == b"onetwo".as_slice();
    drop(sink);
    let mut short = MemSink::new(rt.alloc(), 4, Vec::new(rt.alloc()))?;
    let cut = !put_some(&mut short, b"longer") && short.bytes() == b"long".as_slice();
    drop(short);
    assert!(rt; puts && third && fourth && full && cut);
    Ok(())
}

fn long_text(alloc: Global) -> Result<Vec<u8>, Fail> {
    let mut text = Vec::new(alloc);
    for number in 0..9000u16 {
        text.push((number % 251) as u8)?;
    }
    Ok(text)
}

#[test]
fn files_of_the_system_are_read(rt: HostRuntime) -> Result<(), Fail> {
    let text = long_text(rt.alloc())?;
    fs::write(&rt, "shelf.bin", text.as_slice())?;
    let mut shelf = DirShelf::new(rt.alloc(), &rt);
    let same = has_text(&mut shelf, "shelf.bin", text.as_slice());
    drop(text);
    let rows = [
        ("shelf.bin", usize::MAX, Ok(9000)),
        ("shelf.bin", 8999, Err(Fetch::Long)),
        ("shelf.bin", 0, Err(Fetch::Long)),
        ("absent.bin", 9000, Err(Fetch::Failed)),
        (".", 9000, Err(Fetch::Failed)),
    ];
    let fit = fetches_fit(&mut shelf, &rows);
    drop(shelf);
    fs::remove_file(&rt, "shelf.bin")?;
    assert!(rt; same && fit);
    Ok(())
}

#[test]
fn standard_streams_take_all(rt: HostRuntime) {
    let mut out = StdSink::new(rt.stdout());
    let mut err = StdSink::new(rt.stderr());
    assert!(rt; put_some(&mut out, b"to standard output\n"));
    assert!(rt; put_some(&mut err, b"to standard error\n"));
}
