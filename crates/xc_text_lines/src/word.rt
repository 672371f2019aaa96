//! Words of a line, and their printing.

ghost use Rattle.std.specs.Prelude.{◌≡◌, ◌&&◌, ◌==◌, ◌++◌, ◌∷◌, [], not, length, IfOk, OnOk, OnErr, MatchOption, map, position};
ghost use Rattle.std.specs.Fmt.{decimal, signed_decimal};
ghost use Rattle.std.specs.List.{list_all};
ghost use Rattle.std.specs.Option.{option_map};
ghost use Rattle.std.specs.Result.{result_ok};
ghost use Rattle.hex.specs.Hex.{decode_of};
ghost use Rattle.xc_text_lines.specs.Lines.{is_space, words_of};
ghost use Rattle.xc_text_lines.specs.HexWords.{is_lower_digit, hex_word, bytes_of};

use hex::FromHexError;
use itoa::Buffer;
use std::alloc::{AllocError, Global};

/// The words between single spaces.
pub fn words(alloc: Global, line: &[u8]) -> Result<Vec<&[u8]>, AllocError>
    ensures { IfOk result (λ v. map (λ w. w.now) v.items ≡ words_of line.now) }
{
    line.split(|b| *b == b' ').collect(alloc)
}

/// Where the first word ends, if others follow.
fn word_end(line: &[u8]) -> Option<usize>
    ensures { result ≡ position is_space line.now }
{
    line.iter().position(|b| *b == b' ')
}

/// The first word and what follows its space; none where the line is one word. It takes no memory.
pub fn cut_word(line: &[u8]) -> Option<(&[u8], &[u8])>
    ensures { MatchOption result (words_of line.now ≡ line.now ∷ [])
        (λ cut. words_of line.now ≡ cut.0.now ∷ words_of cut.1.now) }
{
    match word_end(line) {
        Some(end) => Some((&line[..end], &line[end + 1..])),
        None => None,
    }
}

/// Writes a number in decimal at the end.
pub fn push_number(out: &mut Vec<u8>, n: u64) -> Result<(), AllocError>
    ensures ok { OnOk result (out.new.items ≡ out.old.items ++ decimal n) }
    ensures err { OnErr result (out.new.items ≡ out.old.items) }
{
    let mut buffer = Buffer::new();
    out.extend_from_slice(buffer.format(n).as_bytes())
}

/// Writes a number in decimal at the end, with `-` before a negative one.
pub fn push_signed(out: &mut Vec<u8>, n: i64) -> Result<(), AllocError>
    ensures ok { OnOk result (out.new.items ≡ out.old.items ++ signed_decimal n) }
    ensures err { OnErr result (out.new.items ≡ out.old.items) }
{
    let mut buffer = Buffer::new();
    out.extend_from_slice(buffer.format(n).as_bytes())
}

/// Writes the space between two words.
pub fn push_space(out: &mut Vec<u8>) -> Result<(), AllocError>
    ensures ok { OnOk result (out.new.items ≡ out.old.items ++ 32 ∷ []) }
    ensures err { OnErr result (out.new.items ≡ out.old.items) }
{
    out.push(b' ')?;
    Ok(())
}

/// Ends a line.
pub fn end_line(out: &mut Vec<u8>) -> Result<(), AllocError>
    ensures ok { OnOk result (out.new.items ≡ out.old.items ++ 10 ∷ []) }
    ensures err { OnErr result (out.new.items ≡ out.old.items) }
{
    out.push(b'\n')?;
    Ok(())
}

/// Whether there are bytes, all of them hexadecimal digits in lower case.
fn are_lower_digits(word: &[u8]) -> bool
    ensures { result ≡ (not (length word.now == 0) && list_all is_lower_digit word.now) }
{
    !word.is_empty() && all_lower_digits(word)
}

fn all_lower_digits(word: &[u8]) -> bool
    ensures { result ≡ list_all is_lower_digit word.now }
{
    word.iter()
        .all(|b| b.is_ascii_digit() || matches!(b, b'a'..=b'f'))
}

/// The bytes that a word spells: two hexadecimal digits in lower case for each, or `-` for none.
#[tactic(auto, unfolding(crate::specs::HexWords::bytes_of))]
pub fn hex_bytes(alloc: Global, word: &[u8]) -> Result<Option<Vec<u8>>, AllocError>
    ensures { IfOk result (λ o. option_map (λ v. v.items) o ≡ bytes_of word.now) }
{
    if word == b"-".as_slice() {
        return Ok(Some(Vec::new(alloc)));
    }
    if !are_lower_digits(word) {
        return Ok(None);
    }
    decoded(alloc, word)
}

/// The bytes that hexadecimal digits stand for, where their number is even.
fn decoded(alloc: Global, digits: &[u8]) -> Result<Option<Vec<u8>>, AllocError>
    ensures { IfOk result (λ o. option_map (λ v. v.items) o ≡ result_ok (decode_of digits.now)) }
{
    match hex::decode(alloc, digits) {
        Ok(bytes) => Ok(Some(bytes)),
        Err(FromHexError::OutOfMemory) => Err(AllocError),
        Err(_) => Ok(None),
    }
}

/// Writes the word of some bytes at the end.
pub fn push_hex(alloc: Global, out: &mut Vec<u8>, bytes: &[u8]) -> Result<(), AllocError>
    ensures ok { OnOk result (out.new.items ≡ out.old.items ++ hex_word bytes.now) }
    ensures err { OnErr result (out.new.items ≡ out.old.items) }
{
    if bytes.is_empty() {
        return out.extend_from_slice(b"-");
    }
    let text = hex::encode(alloc, bytes)?;
    out.extend_from_slice(text.as_bytes())
}
