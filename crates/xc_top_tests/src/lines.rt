//! Command lines over texts: the code, and what stands on out and on err.

use std::alloc::Global;
use std::process::Abort;
use std::test::Fail;
use xc_edge::{MemShelf, MemSink};
use xc_top::xmtc;

/// What a command line leaves.
#[derive(Drop)]
struct Left {
    code: u8,
    out: Vec<u8>,
    err: Vec<u8>,
}

const SUM: &str = "int x; int main(){ x = 2 + 3 * 4; printf(\"%ld\\n\", x); return 0; }";

const E1: &str =
    "xmtasm 1\nglobal 1\ncells 1 0 full\nformat 256c640a\ncode\nli 24 14\nprint 0\nquit\n";

const E2: &str = "xmtasm 1\ncode\nli 1 3\nnewseg 2 1\nquit\n";

const E3: &str = "xmtasm 1\nglobal 1\ncells 1 0 empty\ncode\nli 1 4294967296\nldfe 2 1 0\nquit\n";

const TWO: &str =
    "xmtasm 1\nformat 61\nformat 62\ncode\ncreate 2 0 4\nprint 0\nprint 0\nquit\nprint 1\nprint 1\nquit\n";

/// Starts three streams one after another, each of which ends at once.
const THREE: &str = "xmtasm 1\ncode\ncreate 1 0 3\ncreate 2 0 3\ncreate 3 0 3\nquit\n";

const USAGE: &str = "usage: xmtc COMMAND [OPTIONS] FILE\n";

/// Runs a command line over files; `''` in it is the empty word, and the puts on out with the numbers in `failing` fail.
fn run(alloc: Global, line: &str, files: &[(&str, &str)], failing: &[u64]) -> Result<Left, Fail> {
    let mut words = Vec::new(alloc);
    for word in line.split_whitespace() {
        let word = if word == "''" { "" } else { word };
        words.push(String::from_str(alloc, word)?)?;
    }
    let mut kept = Vec::new(alloc);
    for (name, text) in files {
        kept.push((
            String::from_str(alloc, name)?,
            text.as_bytes().to_vec(alloc)?,
        ))?;
    }
    let mut shelf = MemShelf::new(alloc, kept, Vec::new(alloc));
    let mut out = MemSink::new(alloc, 4096, failing.to_vec(alloc)?)?;
    let mut err = MemSink::new(alloc, 4096, Vec::new(alloc))?;
    let status = xmtc(alloc, words.as_slice(), &mut shelf, &mut out, &mut err);
    Ok(Left {
        code: status.code(),
        out: out.bytes().to_vec(alloc)?,
        err: err.bytes().to_vec(alloc)?,
    })
}

impl Left {
    /// Whether it is this code with these texts.
    fn is(&self, code: u8, out: &str, err: &str) -> bool {
        self.code == code
            && self.out.as_slice() == out.as_bytes()
            && self.err.as_slice() == err.as_bytes()
    }

    /// The same, with what err begins with.
    fn begins(&self, code: u8, out: &str, err: &str) -> bool {
        self.code == code
            && self.out.as_slice() == out.as_bytes()
            && self.err.as_slice().starts_with(err.as_bytes())
    }
}

#[test]
fn sources(rt: HostRuntime) -> Result<(), Fail> {
    let rows = [
        ("run t.c", SUM, 0, "14\n", "ended steps="),
        (
            "run --steps=2 t.c",
            SUM,
            5,
            "",
            "unfinished steps=2 streams=8\n",
        ),
        ("run u.c", SUM, 1, "", "xmtc: cannot read u.c\n"),
        ("run t.c", "", 3, "", "xmtc: t.c:1:1: syntax\n"),
        ("run t.c", "int x; /* ab", 3, "", "xmtc: t.c:1:8: lex\n"),
        (
            "run t.c",
            "int main(){ y = 1; return 0; }",
            3,
            "",
            "xmtc: t.c:1:13: name\n",
        ),
        (
            "run t.c",
            "int x; int main(){ return x[0]; }",
            3,
            "",
            "xmtc: t.c:1:27: type\n",
        ),
        (
            "run t.c",
            "int a[4194304];\nint b; int main() { return 0; }",
            3,
            "",
            "xmtc: t.c:2:5: count\n",
        ),
        (
            "run t.c",
            "int main() {\n int x; return x; }",
            3,
            "",
            "xmtc: t.c:2:6: unbuilt\n",
        ),
        (
            "compile t.c",
            "int *p; int main() { return 0; }",
            3,
            "",
            "xmtc: t.c:1:6: unbuilt\n",
        ),
        (
            "compile t.c",
            "int x; int f() { return 1; } int main() { return f(); }",
            3,
            "",
            "xmtc: t.c:1:12: unbuilt\n",
        ),
        (
            "run t.c",
            "int x; int main() { return 1 / x; }",
            4,
            "",
            "trap divide stream=0 steps=",
        ),
        ("compile u.c", SUM, 1, "", "xmtc: cannot read u.c\n"),
        ("compile -- t.c", "int", 3, "", "xmtc: t.c:1:4: syntax\n"),
        (
            "run t.c",
            "unsigned u = 3; int m = -9223372036854775807 - 1; int main() { printf(\"%ld %ld %lu %ld\\n\", m / -1, m % -1, u - 4, 1 << 64); return 0; }",
            0,
            "-9223372036854775808 0 18446744073709551615 1\n",
            "ended steps=",
        ),
        (
            "run t.c",
            "unsigned u = 3; int main() { printf(\"%lu %lu %ld %ld %ld\\n\", (u - 4) / 2, (u - 4) % 10, u - 4 > 1, 3 << 65, -8 >> 66); return 0; }",
            0,
            "9223372036854775807 5 1 6 -2\n",
            "ended steps=",
        ),
    ];
    let alloc = rt.alloc();
    for (line, text, code, out, err) in rows {
        let left = run(alloc, line, &[("t.c", text)], &[])?;
        let fits = left.begins(code, out, err);
        drop(left);
        assert!(rt; fits, "{line} {text}");
    }
    Ok(())
}

#[test]
fn schedules_of_a_source(rt: HostRuntime) -> Result<(), Fail> {
    let alloc = rt.alloc();
    for streams in ["1", "4", "8"] {
        for choice in ["", " --seed 7"] {
            let mut line = String::from_str(alloc, "run --streams ")?;
            line.push_str(streams)?;
            line.push_str(choice)?;
            line.push_str(" t.c")?;
            let left = run(alloc, line.as_str(), &[("t.c", SUM)], &[])?;
            let fits = left.begins(0, "14\n", "ended ");
            drop((left, line));
            assert!(rt; fits, "{streams}{choice}");
        }
    }
    Ok(())
}

/// What is left where a text is compiled and that is executed.
fn executed(alloc: Global, text: &str) -> Result<Left, Fail> {
    let compiled = run(alloc, "compile t.c", &[("t.c", text)], &[])?;
    if compiled.code != 0 || !compiled.err.is_empty() {
        return Err("not compiled".into());
    }
    let code = str::from_utf8(compiled.out.as_slice())
        .ok()
        .ok_or("a text")?;
    run(alloc, "exec a.s", &[("a.s", code)], &[])
}

fn are_same(one: &Left, other: &Left) -> bool {
    one.code == other.code
        && one.out.as_slice() == other.out.as_slice()
        && one.err.as_slice() == other.err.as_slice()
}

#[test]
fn what_is_compiled_runs_as_its_source(rt: HostRuntime) -> Result<(), Fail> {
    let executed = executed(rt.alloc(), SUM)?;
    let ran = run(rt.alloc(), "run t.c", &[("t.c", SUM)], &[])?;
    let same = ran.code == 0 && are_same(&executed, &ran);
    drop((executed, ran));
    assert!(rt; same);
    Ok(())
}

#[test]
fn a_deep_source(rt: HostRuntime) -> Result<(), Fail> {
    let alloc = rt.alloc();
    let mut text = String::from_str(alloc, "int main(){return ")?;
    for _ in 0..200u32 {
        text.push_str("(")?;
    }
    text.push_str("1")?;
    for _ in 0..200u32 {
        text.push_str(")")?;
    }
    text.push_str(";}")?;
    let left = run(alloc, "run t.c", &[("t.c", text.as_str())], &[])?;
    let fits = left.is(3, "", "xmtc: t.c:1:145: depth\n");
    drop((left, text));
    assert!(rt; fits);
    Ok(())
}

/// Each row is a command line, the assembly, the lines of the schedule, the code, and what stands on out and on err.
fn check(
    rt: &impl Abort,
    alloc: Global,
    rows: &[(&str, &str, &str, u8, &str, &str)],
) -> Result<(), Fail> {
    for (line, text, steps, code, out, err) in rows {
        let mut schedule = String::from_str(alloc, "schedule 1\n")?;
        schedule.push_str(steps)?;
        let code_text = String::from_str(alloc, text)?;
        let files = [("a.s", code_text.as_str()), ("s", schedule.as_str())];
        let left = run(alloc, line, &files, &[])?;
        let fits = left.is(*code, out, err);
        drop((left, schedule, code_text));
        assert!(rt; fits, "{line}: {text}");
    }
    Ok(())
}

#[test]
fn assembly(rt: HostRuntime) -> Result<(), Fail> {
    let rows = [
        ("exec a.s", E1, "", 0, "14\n", "ended steps=3 streams=8\n"),
        (
            "exec --record a.s",
            E1,
            "",
            0,
            "14\n",
            "ended steps=3 streams=8\nschedule 2\n0 0 3\n",
        ),
        (
            "exec --schedule s a.s",
            E1,
            "0 2\n",
            5,
            "14\n",
            "unfinished steps=2 streams=8\n",
        ),
        (
            "exec --schedule s a.s",
            E1,
            "0 1\n1 1\n",
            7,
            "",
            "badchoice step=1 steps=1 streams=8\n",
        ),
        (
            "exec --record --schedule s a.s",
            E1,
            "0 1\n1 1\n",
            7,
            "",
            "badchoice step=1 steps=1 streams=8\nschedule 2\n0 0 1\n0 1 1\n",
        ),
        (
            "exec --schedule s a.s",
            E1,
            "0 4\n",
            7,
            "14\n",
            "badchoice step=3 steps=3 streams=8\n",
        ),
        (
            "exec --schedule s a.s",
            E1,
            "0 0\n",
            7,
            "",
            "xmtc: s:2:1: schedule\n",
        ),
        (
            "exec --steps 2 a.s",
            E1,
            "",
            5,
            "14\n",
            "unfinished steps=2 streams=8\n",
        ),
        (
            "exec --steps 3 a.s",
            E1,
            "",
            0,
            "14\n",
            "ended steps=3 streams=8\n",
        ),
        (
            "exec --out 3 a.s",
            E1,
            "",
            0,
            "14\n",
            "ended steps=3 streams=8\n",
        ),
        (
            "exec --out 2 a.s",
            E1,
            "",
            9,
            "",
            "output length=0 piece=3 steps=1 streams=8\n",
        ),
        (
            "exec --words 3 a.s",
            E2,
            "",
            0,
            "",
            "ended steps=3 streams=8\n",
        ),
        (
            "exec --words 2 a.s",
            E2,
            "",
            9,
            "",
            "words live=0 asked=3 steps=1 streams=8\n",
        ),
        (
            "exec --words 1 a.s",
            "xmtasm 1\nglobal 2\ncells 2 0 full\ncode\nquit\n",
            "",
            9,
            "",
            "words live=0 asked=2 steps=0 streams=8\n",
        ),
        (
            "exec a.s",
            "xmtasm 1\ncode\njmp 7\n",
            "",
            4,
            "",
            "trap jump stream=0 steps=1 streams=8\n",
        ),
        (
            "exec a.s",
            "xmtasm 1\ncode\n",
            "",
            4,
            "",
            "trap jump stream=0 steps=0 streams=8\n",
        ),
        (
            "exec a.s",
            "xmtasm 1\ncode\nli 1 4294967295\njr 1\n",
            "",
            4,
            "",
            "trap jump stream=0 steps=2 streams=8\n",
        ),
        (
            "exec a.s",
            "xmtasm 1\ncode\nprint 9\n",
            "",
            4,
            "",
            "trap format stream=0 steps=0 streams=8\n",
        ),
        (
            "exec a.s",
            "xmtasm 1\ncode\nnewseg 1 0\n",
            "",
            4,
            "",
            "trap size stream=0 steps=0 streams=8\n",
        ),
        (
            "exec a.s",
            "xmtasm 1\ncode\nfree 0\n",
            "",
            4,
            "",
            "trap place stream=0 steps=0 streams=8\n",
        ),
        (
            "exec --streams=1 a.s",
            "xmtasm 1\ncode\ntrap 3\n",
            "",
            4,
            "",
            "trap code stream=0 steps=0 streams=1\n",
        ),
        ("exec a.s", E3, "", 6, "", "stuck steps=1 streams=8\n"),
        ("exec a.s", "xmtasm 2\n", "", 3, "", "xmtc: a.s:1:1: asm\n"),
        (
            "exec a.s",
            "xmtasm 1\ncode\nquit\nhalt\n",
            "",
            3,
            "",
            "xmtc: a.s:4:1: asm\n",
        ),
        (
            "exec --schedule u a.s",
            "xmtasm 2\n",
            "",
            1,
            "",
            "xmtc: cannot read u\n",
        ),
        (
            "exec --streams 1 a.s",
            TWO,
            "",
            0,
            "aa",
            "ended steps=4 streams=1\n",
        ),
        (
            "exec a.s --streams=1",
            TWO,
            "",
            0,
            "aa",
            "ended steps=4 streams=1\n",
        ),
        (
            "exec a.s --schedule=s --",
            E1,
            "0 3\n",
            0,
            "14\n",
            "ended steps=3 streams=8\n",
        ),
        (
            "exec --streams 2 a.s",
            TWO,
            "",
            0,
            "baba",
            "ended steps=7 streams=2\n",
        ),
    ];
    check(&rt, rt.alloc(), &rows)
}

/// Each row is a command line, the schedule, the code, and what stands on err.
#[test]
fn processors(rt: HostRuntime) -> Result<(), Fail> {
    let rows = [
        (
            "--processors 2 --streams 2",
            "",
            0,
            "ended steps=7 streams=2 processors=2\n",
        ),
        (
            "--processors=2 --streams=2 --schedule s",
            "schedule 2\n0 0 4\n0 1 1\n1 0 1\n1 1 1\n",
            0,
            "ended steps=7 streams=2 processors=2\n",
        ),
        (
            "--processors 2 --streams 2 --schedule s",
            "schedule 1\n0 4\n128 1\n1 1\n129 1\n",
            0,
            "ended steps=7 streams=2 processors=2\n",
        ),
        (
            "--processors 2 --streams 2 --record --schedule s",
            "schedule 1\n0 1\n128 1\n0 3\n1 1\n128 1\n",
            0,
            "ended steps=7 streams=2 processors=2\nschedule 2\n0 0 1\n1 0 1\n0 0 3\n0 1 1\n1 0 1\n",
        ),
        (
            "--processors 1 --streams 2 --schedule s",
            "schedule 2\n0 0 4\n1 0 1\n",
            7,
            "badchoice step=4 steps=4 streams=2\n",
        ),
        (
            "--processors 2 --streams 1 --schedule s",
            "schedule 2\n0 0 1\n0 1 1\n",
            7,
            "badchoice step=1 steps=1 streams=1 processors=2\n",
        ),
        (
            "--processors 64 --streams 128",
            "",
            0,
            "ended steps=7 streams=128 processors=64\n",
        ),
        (
            "--schedule s",
            "schedule 2\n64 0 1\n",
            7,
            "xmtc: s:2:1: schedule\n",
        ),
        (
            "--schedule s",
            "schedule 2\n0 128 1\n",
            7,
            "xmtc: s:2:1: schedule\n",
        ),
        (
            "--schedule s",
            "schedule 2\n0 0 1\n0 0 1\n",
            7,
            "xmtc: s:3:1: schedule\n",
        ),
        (
            "--schedule s",
            "schedule 1\n1024 1\n",
            7,
            "xmtc: s:2:1: schedule\n",
        ),
        (
            "--schedule s",
            "schedule 2\n0 1\n",
            7,
            "xmtc: s:2:1: schedule\n",
        ),
        (
            "--schedule s",
            "schedule 1\n0 0 1\n",
            7,
            "xmtc: s:2:1: schedule\n",
        ),
    ];
    let alloc = rt.alloc();
    for (options, schedule, code, err) in rows {
        let mut line = String::from_str(alloc, "exec a.s ")?;
        line.push_str(options)?;
        let left = run(
            alloc,
            line.as_str(),
            &[("a.s", THREE), ("s", schedule)],
            &[],
        )?;
        let fits = left.is(code, "", err);
        drop((left, line));
        assert!(rt; fits, "{options} {schedule}");
    }
    Ok(())
}

fn check_usage(rt: &impl Abort, alloc: Global, lines: &[&str]) -> Result<(), Fail> {
    for line in lines {
        let left = run(alloc, line, &[("a.s", E1), ("s", "schedule 1\n")], &[])?;
        let fits = left.is(2, "", USAGE);
        drop(left);
        assert!(rt; fits, "{line}");
    }
    Ok(())
}

#[test]
fn words_that_are_no_command(rt: HostRuntime) -> Result<(), Fail> {
    let lines = [
        "",
        "run",
        "exec",
        "compile",
        "halt a.s",
        "''",
        "--help",
        "run --help",
        "exec --help a.s",
        "exec a.s --help",
        "exec -h a.s",
        "exec --version a.s",
        "exec a.s b.s",
        "exec a.s -- b.s",
        "exec ''",
        "exec --streams 0 a.s",
        "exec --streams 129 a.s",
        "exec --processors 0 a.s",
        "exec --processors 65 a.s",
        "exec --processors 1 --processors=1 a.s",
        "exec --streams 08 a.s",
        "exec --streams +8 a.s",
        "exec --streams= a.s",
        "exec --streams '' a.s",
        "exec --streams=1=1 a.s",
        "exec --streams -- a.s",
        "exec --stream 8 a.s",
        "exec a.s --streams",
        "exec --streams --record a.s",
        "exec --streams 8 --streams 8 a.s",
        "exec --streams 8 a.s --streams=8",
        "exec --seed 18446744073709551616 a.s",
        "exec --seed 1 --seed 1 a.s",
        "exec --seed 1 --schedule s a.s",
        "exec --schedule -s a.s",
        "exec --schedule= a.s",
        "exec --schedule '' a.s",
        "exec --steps 2147483649 a.s",
        "exec --steps 5 --steps=5 a.s",
        "exec --words 0 a.s",
        "exec --words 16777217 a.s",
        "exec --out 1048577 a.s",
        "exec --out -1 a.s",
        "exec --record --record a.s",
        "exec --record=1 a.s",
        "exec --fast a.s",
        "exec -r a.s",
        "compile --steps 5 a.s",
        "compile a.s a.s",
        "compile -a",
        "compile --",
        "compile --help",
        "compile ''",
    ];
    check_usage(&rt, rt.alloc(), &lines)
}

#[test]
fn names_that_begin_with_a_dash(rt: HostRuntime) -> Result<(), Fail> {
    let rows = [
        (
            "exec -- --record",
            E1,
            "",
            1,
            "",
            "xmtc: cannot read --record\n",
        ),
        (
            "exec --seed 1 -- -s",
            E1,
            "",
            1,
            "",
            "xmtc: cannot read -s\n",
        ),
        ("compile -- --", E1, "", 1, "", "xmtc: cannot read --\n"),
        ("exec -", E1, "", 1, "", "xmtc: cannot read -\n"),
        (
            "exec --schedule - a.s",
            E1,
            "",
            1,
            "",
            "xmtc: cannot read -\n",
        ),
        (
            "exec --schedule=-s a.s",
            E1,
            "",
            1,
            "",
            "xmtc: cannot read -s\n",
        ),
    ];
    check(&rt, rt.alloc(), &rows)
}

/// Whether a run of two streams by a seed is the same again by its record.
fn is_recorded(alloc: Global, seed: &str) -> Result<bool, Fail> {
    let mut line = String::from_str(alloc, "exec --record --streams 2 a.s --seed ")?;
    line.push_str(seed)?;
    let first = run(alloc, line.as_str(), &[("a.s", TWO)], &[])?;
    let text = str::from_utf8(first.err.as_slice()).ok().ok_or("a text")?;
    let (_, record) = text.split_once('\n').ok_or("two lines")?;
    let again = run(
        alloc,
        "exec --streams 2 --record --schedule s a.s",
        &[("a.s", TWO), ("s", record)],
        &[],
    )?;
    Ok(first.code == 0 && are_same(&first, &again))
}

#[test]
fn a_record_is_a_schedule(rt: HostRuntime) -> Result<(), Fail> {
    for seed in ["0", "1", "7", "12345"] {
        let same = is_recorded(rt.alloc(), seed)?;
        assert!(rt; same, "{seed}");
    }
    Ok(())
}

/// Whether a command line whose first put on out fails leaves this code and this on err, and nothing on out.
fn fails(alloc: Global, line: &str, code: u8, err: &str) -> Result<bool, Fail> {
    let left = run(alloc, line, &[("t.c", SUM), ("a.s", E1)], &[0])?;
    Ok(left.is(code, "", err))
}

#[test]
fn a_failed_put_on_out(rt: HostRuntime) -> Result<(), Fail> {
    let rows = [
        ("run t.c", 1, ""),
        ("compile t.c", 1, ""),
        ("exec --steps 2 a.s", 5, "unfinished steps=2 streams=8\n"),
    ];
    for (line, code, err) in rows {
        let fits = fails(rt.alloc(), line, code, err)?;
        assert!(rt; fits, "{line}");
    }
    Ok(())
}

#[test]
fn a_source_has_a_limit(rt: HostRuntime) -> Result<(), Fail> {
    let alloc = rt.alloc();
    let mut text = String::new(alloc);
    for _ in 0..(1u32 << 20) + 1 {
        text.push_str(" ")?;
    }
    let left = run(alloc, "run t.c", &[("t.c", text.as_str())], &[])?;
    let fits = left.is(3, "", "xmtc: t.c: too long\n");
    drop((left, text));
    assert!(rt; fits);
    Ok(())
}
