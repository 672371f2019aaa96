use std::test::Fail;
use xc_text_format::{conversions, print};

#[test]
fn prints_as_printf(rt: HostRuntime) -> Result<(), Fail> {
    let minus_two = u64::MAX - 1;
    let cases: [(&[u8], [u64; 2], &[u8]); 8] = [
        (b"%d\n", [14, 0], b"14\n"),
        (b"%ld %li", [minus_two, 1 << 63], b"-2 -9223372036854775808"),
        (b"%u|%llu", [0, minus_two], b"0|18446744073709551614"),
        (b"100%%", [7, 7], b"100%"),
        (b"", [7, 7], b""),
        (b"%lld%i", [5, 6], b"56"),
        (b"%%d", [7, 7], b"%d"),
        (b"no %x", [7, 7], b""),
    ];
    for (format, values, text) in cases {
        let mut out = Vec::new(rt.alloc());
        let printed = print(&mut out, format, &values);
        let fits = printed.is_ok() && out.as_slice() == text;
        drop(out);
        assert!(rt; fits, "{format:?}");
    }
    Ok(())
}

#[test]
fn counts_conversions(rt: HostRuntime) {
    let cases: [(&[u8], Option<usize>); 8] = [
        (b"%d %lu%%\n", Some(2)),
        (b"", Some(0)),
        (b"%", None),
        (b"%l", None),
        (b"%llld", None),
        (b"%x", None),
        (b"%5d", None),
        (b"%% %s", None),
    ];
    for (format, count) in cases {
        assert!(rt; conversions(format) == count, "{format:?}");
    }
}
