use std::alloc::Global;
use std::process::Abort;
use std::test::Fail;
use xc_lex::{LexFault, TokenKind, lex, read_number};

/// The tokens of a text, each as a letter for its kind and its bytes.
fn shown(alloc: Global, source: &[u8]) -> Result<String, Fail> {
    let mut out = String::new(alloc);
    if source.len() > 1 << 20 {
        out.push_str("too long")?;
        return Ok(out);
    }
    match lex(alloc, source) {
        Ok(tokens) => {
            for token in tokens.as_slice() {
                let kind = match token.kind {
                    TokenKind::Name => 'n',
                    TokenKind::Keyword => 'k',
                    TokenKind::Number => 'd',
                    TokenKind::Text => 't',
                    TokenKind::Punctuator => 'p',
                    TokenKind::Pragma => 'g',
                };
                out.push(kind)?;
                for b in token.text.of(source) {
                    out.push(char::from(*b))?;
                }
                out.push_str(" ")?;
            }
        }
        Err(LexFault::At(pos)) => out.push_str(format!(in alloc;
            "{}:{}",
            pos.line, pos.col
        )?.as_str())?,
        Err(LexFault::NoMemory) => out.push_str("no memory")?,
    }
    Ok(out)
}

/// Each text with what `shown` makes of it.
fn check(rt: &impl Abort, alloc: Global, rows: &[(&[u8], &str)]) -> Result<(), Fail> {
    for (source, wanted) in rows {
        let got = shown(alloc, source)?;
        assert_eq!(rt; got.as_str().trim_end(), *wanted, "of {source:?}");
    }
    Ok(())
}

#[test]
fn tokens_of_each_class(rt: HostRuntime) -> Result<(), Fail> {
    let rows: [(&[u8], &str); 14] = [
        (b"", ""),
        (b"/*\x80*/x // \xff", "nx"),
        (
            b"[](){}. ->++ -- & *+ - ~ ! / % << >> < > <= >= == != ^ | && || ? : ; = *= /= %= += -= <<= >>= &= ^= |= ,",
            "p[ p] p( p) p{ p} p. p-> p++ p-- p& p* p+ p- p~ p! p/ p% p<< p>> p< p> p<= p>= p== p!= p^ p| p&& p|| p? p: p; p= p*= p/= p%= p+= p-= p<<= p>>= p&= p^= p|= p,",
        ),
        (b" \t\r\n\x0c/* a\n*/ // b", ""),
        (b"int $a_1 futures future", "kint n$a_1 nfutures kfuture"),
        (b"goto _Bool sync", "kgoto k_Bool ksync"),
        (b"a<<=b>>=c<<d", "na p<<= nb p>>= nc p<< nd"),
        (b"x+++++y->z...", "nx p++ p++ p+ ny p-> nz p. p. p."),
        (b"\"a b\\n\\t\\\\\\\"\"x", "t\"a b\\n\\t\\\\\\\"\" nx"),
        (
            b"9223372036854775807 9223372036854775808u 18446744073709551615LLU",
            "d9223372036854775807 d9223372036854775808u d18446744073709551615LLU",
        ),
        (
            b"0xFFFFFFFFFFFFFFFF 01777777777777777777777 0",
            "d0xFFFFFFFFFFFFFFFF d01777777777777777777777 d0",
        ),
        (b"1.5 1/*2*/3", "d1 p. d5 d1 d3"),
        (
            b"#pragma mta // why\nx\n  #  pragma\n",
            "g#pragma mta // why nx g#  pragma",
        ),
        (b"/*\n*/ #include <a'b>\nx", "nx"),
    ];
    check(&rt, rt.alloc(), &rows)
}

#[test]
fn faults_stand_where_they_begin(rt: HostRuntime) -> Result<(), Fail> {
    let rows: [(&[u8], &str); 38] = [
        (b"9223372036854775808", "1:1"),
        (b"18446744073709551615", "1:1"),
        (b"a\n/* b\n", "2:1"),
        (b"18446744073709551616u", "1:1"),
        (b"a 0x10000000000000000", "1:3"),
        (b"02000000000000000000000", "1:1"),
        (b"0x", "1:1"),
        (b"08", "1:1"),
        (b"1_", "1:1"),
        (b"1uu", "1:1"),
        (b"1lul", "1:1"),
        (b"1lL", "1:1"),
        (b"\n x /* *", "2:4"),
        (b"\"abc", "1:1"),
        (b"x \"a\\q\"", "1:3"),
        (b"\"a\tb\"", "1:1"),
        (b"\"a\nb\"", "1:1"),
        (b"a\n  b # c", "2:5"),
        (b"#", "1:1"),
        (b" # if x", "1:2"),
        (b"#includefoo", "1:1"),
        (b"#define", "1:1"),
        (b"#define 1", "1:1"),
        (b"#define goto x", "1:1"),
        (b"#define A 1\n#define A 1", "2:1"),
        (b"#define sync 1", "1:1"),
        (b"#define A @", "1:11"),
        (b"#define A 1\n#define A @", "2:1"),
        (b"#pragma \"/*\"", "1:10"),
        (b"`", "1:1"),
        (b" \\", "1:2"),
        (b"a'b'", "1:2"),
        (b"#define A #", "1:11"),
        (b"#include <a/*b>", "1:12"),
        (b"#pragma \x80", "1:9"),
        (b"x @", "1:3"),
        (b"x /*\n*/ #pragma", "2:4"),
        (b"\x0b", "1:1"),
    ];
    check(&rt, rt.alloc(), &rows)
}

#[test]
fn macros_stand_for_their_tokens(rt: HostRuntime) -> Result<(), Fail> {
    let rows: [(&[u8], &str); 14] = [
        (b"#define N 3 /* x\n y */ + 4\nN;N", "d3 p+ d4 p; d3 p+ d4"),
        (b"#/**/define /* a */ N // b\nN x", "nx"),
        (b"#define A B\n#define B 1\nA", "d1"),
        (b"#define A B\nA\n#define B 1\nA", "nB d1"),
        (
            b"#define A B B\n#define B 1 2\nA B A",
            "d1 d2 d1 d2 d1 d2 d1 d2 d1 d2",
        ),
        (
            b"#define A B x\n#define B A y\nA B A",
            "nA ny nx nB nx ny nA ny nx",
        ),
        (
            b"#define A B A\nA A\n#define B 1 A\nA A",
            "nB nA nB nA d1 nA nA d1 nA nA",
        ),
        (b"A\n#define A 1\nA", "nA d1"),
        (b"#define A x A y\nA", "nx nA ny"),
        (b"#define A B a\n#define B A b\nA B", "nA nb na nB na nb"),
        (b"#define F(x) x\nF", "p( nx p) nx"),
        (b"#define E\n#define D E E\nD x D", "nx"),
        (b"#define A 1\n#pragma A\nA", "g#pragma A d1"),
        (b"#define A 1\n#define B A\n#include A\nB", "d1"),
    ];
    check(&rt, rt.alloc(), &rows)
}

#[test]
fn constants_have_values(rt: HostRuntime) -> Result<(), Fail> {
    let rows: [(&[u8], Option<(u64, bool)>); 14] = [
        (
            b"9223372036854775807",
            Some((9_223_372_036_854_775_807, false)),
        ),
        (b"9223372036854775808", None),
        (
            b"9223372036854775808u",
            Some((9_223_372_036_854_775_808, true)),
        ),
        (b"18446744073709551615", None),
        (b"18446744073709551615U", Some((u64::MAX, true))),
        (b"18446744073709551616", None),
        (b"18446744073709551616u", None),
        (
            b"0x7fffffffffffffff",
            Some((9_223_372_036_854_775_807, false)),
        ),
        (
            b"0X8000000000000000",
            Some((9_223_372_036_854_775_808, true)),
        ),
        (b"0xFFFFFFFFFFFFFFFFu", Some((u64::MAX, true))),
        (
            b"0777777777777777777777LL",
            Some((9_223_372_036_854_775_807, false)),
        ),
        (
            b"01000000000000000000000l",
            Some((9_223_372_036_854_775_808, true)),
        ),
        (b"0u", Some((0, true))),
        (b"0x10000000000000000u", None),
    ];
    for (word, wanted) in &rows {
        let got = match read_number(word) {
            Some(number) => Some((number.value, number.unsigned)),
            None => None,
        };
        assert!(&rt; got == *wanted, "of {word:?}");
    }
    Ok(())
}

/// As many macros, each of which is the one before twice; the first one stands for these tokens.
fn doubling(alloc: Global, first: &str, count: usize) -> Result<String, Fail> {
    let mut text = format!(in alloc; "#define M0 {first}\n")?;
    for i in 1..count {
        text.push_str(format!(in alloc; "#define M{i} M{} M{}\n", i - 1, i - 1)?.as_str())?;
    }
    Ok(text)
}

/// What comes of a text: how many tokens, or the line and column of its fault.
fn outcome(alloc: Global, text: &str) -> Result<String, Fail> {
    if text.len() > 1 << 20 {
        return Ok(format!(in alloc; "too long")?);
    }
    Ok(match lex(alloc, text.as_bytes()) {
        Ok(tokens) => format!(in alloc; "{} tokens", tokens.len())?,
        Err(LexFault::At(pos)) => format!(in alloc; "{}:{}", pos.line, pos.col)?,
        Err(LexFault::NoMemory) => format!(in alloc; "no memory")?,
    })
}

#[test]
fn a_text_has_at_most_so_many_tokens(rt: HostRuntime) -> Result<(), Fail> {
    let alloc = rt.alloc();
    let rows = [
        ("x", 21, "M20", "1048576 tokens"),
        ("x", 21, "M20 y", "22:5"),
        ("x", 21, "M20\n#pragma", "23:1"),
        ("x", 60, "y M59", "61:3"),
        ("", 60, "M59 x M59", "1 tokens"),
    ];
    for (first, count, end, wanted) in &rows {
        let mut text = doubling(alloc, first, *count)?;
        text.push_str(end)?;
        assert_eq!(&rt;
            outcome(alloc, text.as_str())?.as_str(),
            *wanted,
            "of {end}"
        );
    }
    Ok(())
}
