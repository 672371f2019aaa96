//! Decimal numbers as words of a line.

ghost use Rattle.std.specs.Prelude.{◌≡◌, ◌<◌, ◌+◌, ◌^◌, ◌==◌, ◌&&◌, not, length, pos, IfSome};
ghost use Rattle.std.specs.Char.{is_ascii_digit};
ghost use Rattle.std.specs.List.{list_all};
ghost use Rattle.std.specs.Option.{option_map};
ghost use Rattle.xc_text_lines.specs.Numbers.{number_of, signed_of, negative_of, is_plain as is_plain_word};

/// Whether a word has digits alone, and no zero in front.
fn is_plain(word: &[u8]) -> bool
    ensures { result ≡ is_plain_word word.now }
{
    are_digits(word) && (word[0] != b'0' || word.len() == 1)
}

/// Whether there are bytes, all of them digits.
fn are_digits(word: &[u8]) -> bool
    ensures { result ≡ (not (length word.now == 0) && list_all is_ascii_digit word.now) }
{
    !word.is_empty() && all_digits(word)
}

fn all_digits(word: &[u8]) -> bool
    ensures { result ≡ list_all is_ascii_digit word.now }
{
    word.iter().all(|b| b.is_ascii_digit())
}

/// The number below 2^64 that a word spells in decimal, with no zero in front.
pub fn number(word: &[u8]) -> Option<u64>
    ensures { result ≡ number_of (2 ^ 64) word.now }
{
    if !is_plain(word) {
        return None;
    }
    match str::from_utf8(word) {
        Ok(text) => text.parse::<u64>().ok(),
        Err(_) => None,
    }
}

/// The number below a limit that a word spells in decimal, with no zero in front.
#[tactic(auto, using(crate::proofs::Numerals::smaller))]
pub fn number_below(word: &[u8], limit: u64) -> Option<u64>
    ensures number { result ≡ number_of limit word.now }
    ensures below { IfSome result (λ n. n < limit) }
{
    let n = number(word)?;
    if n < limit { Some(n) } else { None }
}

/// The number from -2^63 to 2^63 - 1 that a word spells in decimal, with `-` only before a
/// negative one and no zero in front.
pub fn signed_number(word: &[u8]) -> Option<i64>
    ensures { result ≡ signed_of word.now }
{
    match word {
        [b'-', digits @ ..] => negative(digits),
        _ => not_negative(word),
    }
}

fn negative(digits: &[u8]) -> Option<i64>
    ensures { result ≡ negative_of (number_of (2 ^ 63 + 1) digits.now) }
{
    let size = number_below(digits, (1 << 63) + 1)?;
    if size == 0 {
        return None;
    }
    Some(-1 - (size - 1) as i64)
}

fn not_negative(word: &[u8]) -> Option<i64>
    ensures { result ≡ option_map pos (number_of (2 ^ 63) word.now) }
{
    Some(number_below(word, 1 << 63)? as i64)
}
