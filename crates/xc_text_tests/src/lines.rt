use std::alloc::{AllocError, Global};
use std::test::Fail;
use xc_text_lines::{
    cut_word, end_line, hex_bytes, number, number_below, push_hex, push_number, push_signed,
    push_space, signed_number, words,
};

#[test]
fn numbers_are_canonical(rt: HostRuntime) {
    for (word, want) in [
        ("0", Some(0)),
        ("7", Some(7)),
        ("18446744073709551615", Some(u64::MAX)),
        ("18446744073709551616", None),
        ("00", None),
        ("07", None),
        ("+7", None),
        ("7 ", None),
        ("", None),
    ] {
        assert!(rt; number(word.as_bytes()) == want, "{word}");
    }
    let below = number_below(b"1023", 1024) == Some(1023);
    assert!(rt; below && number_below(b"1024", 1024).is_none());
}

#[test]
fn signs_are_canonical(rt: HostRuntime) {
    for (word, want) in [
        ("9223372036854775807", Some(i64::MAX)),
        ("9223372036854775808", None),
        ("-9223372036854775808", Some(i64::MIN)),
        ("-9223372036854775809", None),
        ("-1", Some(-1)),
        ("-0", None),
        ("-01", None),
        ("--1", None),
        ("-", None),
    ] {
        assert!(rt; signed_number(word.as_bytes()) == want, "{word}");
    }
}

/// Whether these hexadecimal digits stand for these bytes, or for none.
fn are_bytes(alloc: Global, digits: &str, wanted: Option<&[u8]>) -> Result<bool, AllocError> {
    let bytes = hex_bytes(alloc, digits.as_bytes())?;
    Ok(match (&bytes, wanted) {
        (Some(bytes), Some(wanted)) => bytes.as_slice() == wanted,
        (None, None) => true,
        _ => false,
    })
}

#[test]
fn words_and_bytes(rt: HostRuntime) -> Result<(), Fail> {
    let alloc = rt.alloc();
    let count = words(alloc, b"li  -5")?.len();
    assert!(rt; count == 3 && cut_word(b"quit").is_none());
    for (digits, wanted) in [
        ("-", Some(b"".as_slice())),
        ("256c640a", Some(b"%ld\n".as_slice())),
        ("0", None),
        ("0A", None),
        ("", None),
    ] {
        let fit = are_bytes(alloc, digits, wanted)?;
        assert!(rt; fit, "{digits}");
    }
    Ok(())
}

fn push_line(alloc: Global, out: &mut Vec<u8>) -> Result<(), AllocError> {
    push_hex(alloc, out, b"%ld\n")?;
    push_space(out)?;
    push_hex(alloc, out, b"")?;
    push_space(out)?;
    push_signed(out, i64::MIN)?;
    push_space(out)?;
    push_number(out, u64::MAX)?;
    end_line(out)
}

#[test]
fn prints_a_line(rt: HostRuntime) -> Result<(), Fail> {
    let mut out = Vec::new(rt.alloc());
    let pushed = push_line(rt.alloc(), &mut out);
    let wanted = b"256c640a - -9223372036854775808 18446744073709551615\n";
    let fit = pushed.is_ok() && out.as_slice() == wanted.as_slice();
    drop(out);
    assert!(rt; fit);
    Ok(())
}
