//! Classes of bytes, and how far they go on.

ghost use Rattle.std.specs.Prelude.{◌≡◌, ◌≤◌, length, map, nat_lt};
ghost use Rattle.std.specs.List.{prefix_len};
ghost use Rattle.xc_lex.specs.Bytes.{is_name_start, is_name_char, is_digit, is_blank, is_printable, is_source, is_in_line};
ghost use Rattle.xc_lex.specs.Numbers.{is_among, digit_value, is_digit_of};

/// Whether a name may begin with the byte.
pub fn is_name_start(b: u8) -> bool
    ensures { result ≡ is_name_start b }
{
    b.is_ascii_alphabetic() || b == b'_' || b == b'$'
}

/// Whether the byte is a decimal digit.
pub fn is_digit(b: u8) -> bool
    ensures { result ≡ is_digit b }
{
    b.is_ascii_digit()
}

/// Whether the byte may stand in a name.
pub fn is_name_char(b: u8) -> bool
    ensures { result ≡ is_name_char b }
{
    is_name_start(b) || is_digit(b)
}

/// Whether the byte is white space within a line.
pub fn is_blank(b: u8) -> bool
    ensures { result ≡ is_blank b }
{
    matches!(b, b' ' | b'\t' | b'\r' | b'\x0c')
}

/// Whether the byte is printable ASCII.
pub fn is_printable(b: u8) -> bool
    ensures { result ≡ is_printable b }
{
    (b' '..=b'~').contains(&b)
}

/// Whether the byte may stand in a line outside comments.
pub fn is_source(b: u8) -> bool
    ensures { result ≡ is_source b }
{
    is_printable(b) || is_blank(b)
}

/// The value of a digit or of a hexadecimal letter, and 16 for another byte.
pub fn digit_value(b: u8) -> u64
    ensures { result ≡ digit_value b }
{
    let value = match b {
        b'0'..=b'9' => b - b'0',
        b'a'..=b'f' => b - b'a' + 10,
        b'A'..=b'F' => b - b'A' + 10,
        _ => 16,
    };
    u64::from(value)
}

/// How many bytes of a name there are.
pub fn name_len(rest: &[u8]) -> usize
    ensures value { result ≡ prefix_len is_name_char rest.now }
    ensures within { result ≤ length rest.now }
{
    rest.iter().take_while(|b| is_name_char(**b)).count()
}

/// How many bytes the line has left.
pub fn line_len(rest: &[u8]) -> usize
    ensures value { result ≡ prefix_len is_in_line rest.now }
    ensures within { result ≤ length rest.now }
{
    rest.iter().take_while(|b| **b != b'\n').count()
}

/// How many digits there are.
pub fn digits_len(base: u64, rest: &[u8]) -> usize
    ensures value { result ≡ prefix_len (is_digit_of base) rest.now }
    ensures within { result ≤ length rest.now }
{
    rest.iter().take_while(|b| digit_value(**b) < base).count()
}

/// Whether the word is one of the texts.
pub fn is_among(table: &[&[u8]], word: &[u8]) -> bool
    ensures { result ≡ is_among (map (λ p. p.now) table.now) word.now }
{
    for p in table {
        if *p == word {
            return true;
        }
    }
    false
}
