use std::alloc::Global;
use std::process::Abort;
use std::test::Fail;
use xc_lex::lex;
use xc_parse::{ParseFault, parse};
use xc_raw::{Level, Raw, Rule};

fn name_of(rule: Rule) -> &'static str {
    match rule {
        Rule::Binary(Level::Sum) => "Binary(Sum)",
        Rule::Block => "Block",
        Rule::Callee => "Callee",
        Rule::Cast => "Cast",
        Rule::Declaration => "Declaration",
        Rule::Declr => "Declr",
        Rule::Dinit => "Dinit",
        Rule::Eval => "Eval",
        Rule::Function => "Function",
        Rule::Future => "Future",
        Rule::If => "If",
        Rule::Member => "Member",
        Rule::Param => "Param",
        Rule::Params => "Params",
        Rule::Place => "Place",
        Rule::Prim => "Prim",
        Rule::Specs => "Specs",
        Rule::Struct => "Struct",
        Rule::Sub => "Sub",
        Rule::Unit => "Unit",
        _ => "other",
    }
}

/// The node's rule with the tokens that it covers, and each part in brackets.
fn draw(out: &mut String, raw: &Raw) -> Result<(), Fail> {
    write!(out, "{} {}-{}", name_of(raw.rule), raw.first, raw.end)?;
    for part in raw.parts.as_slice() {
        out.push_str(" [")?;
        draw(out, part)?;
        out.push_str("]")?;
    }
    Ok(())
}

/// The tree, if `drawn` and else `ok`; or the fault with its place.
fn answer(alloc: Global, source: &[u8], drawn: bool) -> Result<String, Fail> {
    let mut out = String::new(alloc);
    if source.len() > 1 << 20 {
        out.push_str("long")?;
        return Ok(out);
    }
    let tokens = lex(alloc, source).ok().ok_or("tokens")?;
    if tokens.len() > 1 << 20 {
        out.push_str("many tokens")?;
        return Ok(out);
    }
    match parse(alloc, source, &tokens) {
        Ok(raw) if drawn => draw(&mut out, &raw)?,
        Ok(_) => out.push_str("ok")?,
        Err(ParseFault::Syntax(pos)) => write!(out, "syntax {}:{}", pos.line, pos.col)?,
        Err(ParseFault::Depth(pos)) => write!(out, "depth {}:{}", pos.line, pos.col)?,
        Err(ParseFault::NoMemory) => out.push_str("no memory")?,
    }
    Ok(out)
}

fn check(rt: &impl Abort, alloc: Global, rows: &[(&[u8], &str)]) -> Result<(), Fail> {
    for (source, wanted) in rows {
        let got = answer(alloc, source, false)?;
        assert_eq!(rt; got.as_str(), *wanted, "of {source:?}");
    }
    Ok(())
}

#[test]
fn texts(rt: HostRuntime) -> Result<(), Fail> {
    let rows: [(&[u8], &str); 22] = [
        (b"", "syntax 1:1"),
        (b"#pragma p\n#pragma q", "ok"),
        (b"int x;", "ok"),
        (b"int f(void);", "ok"),
        (b"int f[3](int x);", "syntax 1:9"),
        (b"restrict int x;", "syntax 1:1"),
        (b"int a[2] = {1, 2,};", "ok"),
        (b"int a[2] = {1,,};", "syntax 1:15"),
        (b"int a[2] = {};", "syntax 1:13"),
        (
            b"int * const restrict f(int, struct s *x, int a[][3]) { return; }",
            "ok",
        ),
        (
            b"struct s { int x, *y[3]; future sync z; } a, b = {1};",
            "ok",
        ),
        (b"int f() { a + b = c; }", "syntax 1:17"),
        (b"int f() { (int) a = b; }", "syntax 1:19"),
        (
            b"int f() { (int *) a + (b)(c)[d].e->f++ , *g = h ? i : j; }",
            "ok",
        ),
        (b"int f() { if (a) if (b) c; else d; else e; }", "ok"),
        (
            b"int f() { if (a)\n#pragma p\nb;\n#pragma q\nelse c; }",
            "syntax 5:1",
        ),
        (
            b"int f() { for (;;) for (int i = 0, j; ; i++) do ; while (1); }",
            "ok",
        ),
        (b"int f() { for (int;;) ; }", "syntax 1:19"),
        (
            b"int f() { future x[3]; future y[2] = {1}, *z; future int w; future; }",
            "ok",
        ),
        (
            b"int f() { future x[3](a, b) {} future y[1, 2].z->w() {} future s[t = 1]() {} }",
            "ok",
        ),
        (b"int f() { future x[a = 1] = 2; }", "syntax 1:27"),
        (b"int f() { int g(); }", "syntax 1:16"),
    ];
    check(&rt, rt.alloc(), &rows)
}

/// A text of many copies of a piece, and what comes of it.
#[derive(Drop)]
struct Repeated<'a> {
    before: &'a str,
    opening: &'a str,
    count: usize,
    middle: &'a str,
    closing: &'a str,
    behind: &'a str,
    wanted: &'a str,
}

fn written(alloc: Global, text: &Repeated) -> Result<String, Fail> {
    let mut source = String::from_str(alloc, text.before)?;
    for _ in 0..text.count {
        source.push_str(text.opening)?;
    }
    source.push_str(text.middle)?;
    for _ in 0..text.count {
        source.push_str(text.closing)?;
    }
    source.push_str(text.behind)?;
    Ok(source)
}

fn check_repeated(rt: &impl Abort, alloc: Global, rows: &[Repeated]) -> Result<(), Fail> {
    for row in rows {
        let source = written(alloc, row)?;
        let got = answer(alloc, source.as_str().as_bytes(), false)?;
        assert_eq!(rt;
            got.as_str(),
            row.wanted,
            "of {} {:?}",
            row.count,
            row.opening
        );
    }
    Ok(())
}

#[test]
fn nested(rt: HostRuntime) -> Result<(), Fail> {
    let rows = [
        Repeated {
            before: "int main(){return ",
            opening: "(",
            count: 200,
            middle: "1",
            closing: ")",
            behind: ";}",
            wanted: "depth 1:145",
        },
        Repeated {
            before: "int main(){return ",
            opening: "(",
            count: 125,
            middle: "1",
            closing: ")",
            behind: ";}",
            wanted: "ok",
        },
        Repeated {
            before: "int main(){return ",
            opening: "(",
            count: 126,
            middle: "1",
            closing: ")",
            behind: ";}",
            wanted: "depth 1:145",
        },
        Repeated {
            before: "int x = a",
            opening: "+a",
            count: 127,
            middle: "",
            closing: "",
            behind: ";",
            wanted: "ok",
        },
        Repeated {
            before: "int x = a",
            opening: "+a",
            count: 128,
            middle: "",
            closing: "",
            behind: ";",
            wanted: "depth 1:9",
        },
        Repeated {
            before: "int f() { ",
            opening: "if (a) ; else ",
            count: 126,
            middle: ";",
            closing: "",
            behind: " }",
            wanted: "ok",
        },
        Repeated {
            before: "int f() { ",
            opening: "if (a) ; else ",
            count: 127,
            middle: ";",
            closing: "",
            behind: " }",
            wanted: "depth 1:1779",
        },
        Repeated {
            before: "int x = ",
            opening: "{",
            count: 200,
            middle: "1",
            closing: "}",
            behind: ";",
            wanted: "ok",
        },
        Repeated {
            before: "int x = ",
            opening: "{",
            count: 5000,
            middle: "1",
            closing: "}",
            behind: ";",
            wanted: "no memory",
        },
        Repeated {
            before: "int x = ",
            opening: "(",
            count: 100000,
            middle: "",
            closing: "",
            behind: "",
            wanted: "syntax 1:100009",
        },
    ];
    check_repeated(&rt, rt.alloc(), &rows)
}

fn check_drawn(rt: &impl Abort, alloc: Global, rows: &[(&[u8], &str)]) -> Result<(), Fail> {
    for (source, wanted) in rows {
        let got = answer(alloc, source, true)?;
        assert_eq!(rt; got.as_str(), *wanted, "of {source:?}");
    }
    Ok(())
}

#[test]
fn trees(rt: HostRuntime) -> Result<(), Fail> {
    let rows: [(&[u8], &str); 5] = [
        (
            b"int x = a - b - c;",
            "Unit 0-9 [Declaration 0-9 [Specs 0-1] [Dinit 1-8 [Declr 1-2] [Binary(Sum) 3-8 [Binary(Sum) 3-6 [Prim 3-4] [Prim 5-6]] [Prim 7-8]]]]",
        ),
        (
            b"int f() { if (a) if (b) c; else d; }",
            "Unit 0-19 [Function 0-19 [Specs 0-1] [Callee 1-2] [Params 2-4] [Block 4-19 [If 5-18 [Prim 7-8] [Sub 9-18 [If 9-18 [Prim 11-12] [Sub 13-15 [Eval 13-15 [Prim 13-14]]] [Sub 16-18 [Eval 16-18 [Prim 16-17]]]]]]]]",
        ),
        (
            b"int x = (int) (a);",
            "Unit 0-10 [Declaration 0-10 [Specs 0-1] [Dinit 1-9 [Declr 1-2] [Cast 3-9 [Specs 4-5] [Prim 6-9 [Prim 7-8]]]]]",
        ),
        (
            b"int f() { future x[3]; future y[1](a) {} }",
            "Unit 0-22 [Function 0-22 [Specs 0-1] [Callee 1-2] [Params 2-4] [Block 4-22 [Declaration 5-11 [Specs 5-6] [Dinit 6-10 [Declr 6-10 [Prim 8-9]]]] [Future 11-21 [Place 12-16 [Prim 14-15]] [Block 19-21]]]]",
        ),
        (
            b"struct s { int x; } *f(void);",
            "Unit 0-13 [Function 0-13 [Specs 0-7 [Struct 0-7 [Member 3-6 [Specs 3-4] [Declr 4-5]]]] [Callee 7-9] [Params 9-12 [Param 10-11 [Specs 10-11]]]]",
        ),
    ];
    check_drawn(&rt, rt.alloc(), &rows)
}
