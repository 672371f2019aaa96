use std::process::Abort;
use std::test::Fail;
use xc_text_place::Span;
use xc_tree::{Marks, Root, Schedule};
use xc_type_pragmas::{Named, Pragma, Said, loop_settings, read_pragma};

fn check(rt: &impl Abort, rows: &[(&[u8], Pragma)]) {
    for (line, said) in rows {
        let end = line.len().min(1000) as u32;
        let read = read_pragma(line, Span { start: 0, end });
        assert!(rt; read == *said, "of {line:?}");
    }
}

#[test]
fn words_say_what_a_pragma_is(rt: HostRuntime) {
    let rows: [(&[u8], Pragma); 9] = [
        (b"#pragma mta assert parallel", Pragma::Parallel),
        (b"# pragma\tmta loop serial // why", Pragma::Serial),
        (
            b"#pragma mta assert nodep a",
            Pragma::Nodep(Span { start: 25, end: 26 }),
        ),
        (
            b"#pragma mta assert noalias p\r",
            Pragma::Noalias(Span { start: 27, end: 28 }),
        ),
        (
            b"#/* */pragma mta/* a\n b */use 8192 streams",
            Pragma::Streams(8192),
        ),
        (
            b"#pragma mta block schedule",
            Pragma::Dealt(Schedule::Block),
        ),
        (
            b"#pragma mta interleave schedule",
            Pragma::Dealt(Schedule::Interleave),
        ),
        (
            b"#pragma mta dynamic schedule",
            Pragma::Dealt(Schedule::Dynamic),
        ),
        (
            b"#pragma mta block dynamic schedule",
            Pragma::Dealt(Schedule::BlockDynamic),
        ),
    ];
    check(&rt, &rows);
}

#[test]
fn other_texts_say_nothing(rt: HostRuntime) {
    let rows: [(&[u8], Pragma); 8] = [
        (b"#pragma mta use 0 streams", Pragma::Other),
        (b"#pragma mta use 8193 streams", Pragma::Other),
        (b"#pragma mta use 08 streams", Pragma::Other),
        (b"#pragma mta assert nodep", Pragma::Other),
        (b"#pragma mta assert nodep a b", Pragma::Other),
        (b"#pragma mta loop serial/", Pragma::Other),
        (b"#pragma omp loop serial", Pragma::Other),
        (b"#pragma", Pragma::Other),
    ];
    check(&rt, &rows);
}

#[test]
fn pragmas_set_a_loop(rt: HostRuntime) -> Result<(), Fail> {
    let object = Root::Global(1);
    let pointer = Root::GlobalPointer(1);
    let here = Span { start: 0, end: 1 };
    let said = |pragma: Pragma, named: Named| Said {
        span: here,
        pragma,
        named,
    };
    let all = [
        said(Pragma::Streams(4), Named::Nothing),
        said(Pragma::Parallel, Named::Nothing),
        said(Pragma::Nodep(here), Named::Pointer { object, pointer }),
        said(Pragma::Noalias(here), Named::Object(object)),
        said(Pragma::Streams(16), Named::Nothing),
    ];
    let set = loop_settings(rt.alloc(), &all)?;
    let pragmas = &set.pragmas;
    let fit = pragmas.marks == (Marks::PARALLEL | Marks::NODEP | Marks::STREAMS)
        && pragmas.nodep.as_slice() == [object, pointer].as_slice()
        && pragmas.noalias.is_empty()
        && pragmas.streams == 16
        && pragmas.given.len() == 5
        && set.notes.len() == 2;
    drop(set);
    assert!(rt; fit);
    Ok(())
}
