ghost use Rattle.std.specs.Prelude.{◌≡◌, ◌^◌, ◌++◌, IfOk, OnOk, OnErr, map};
ghost use Rattle.std.specs.Option.{option_map};
ghost use Rattle.xc_text_lines.specs.Numbers.{number_of, signed_of};
ghost use Rattle.xc_text_lines.specs.Lines.{words_of};
ghost use Rattle.xc_text_lines.specs.HexWords.{hex_word, bytes_of};

use std::alloc::{AllocError, Global};

pub fn number(word: &[u8]) -> Option<u64>
    ensures { result ≡ number_of (2 ^ 64) word.now }
{
    xc_text_lines::number(word)
}

pub fn number_below(word: &[u8], limit: u64) -> Option<u64>
    ensures { result ≡ number_of limit word.now }
{
    xc_text_lines::number_below(word, limit)
}

pub fn signed_number(word: &[u8]) -> Option<i64>
    ensures { result ≡ signed_of word.now }
{
    xc_text_lines::signed_number(word)
}

pub fn words(alloc: Global, line: &[u8]) -> Result<Vec<&[u8]>, AllocError>
    ensures { IfOk result (λ v. map (λ w. w.now) v.items ≡ words_of line.now) }
{
    xc_text_lines::words(alloc, line)
}

pub fn bytes(alloc: Global, word: &[u8]) -> Result<Option<Vec<u8>>, AllocError>
    ensures { IfOk result (λ o. option_map (λ v. v.items) o ≡ bytes_of word.now) }
{
    xc_text_lines::hex_bytes(alloc, word)
}

pub fn push_bytes(alloc: Global, out: &mut Vec<u8>, bytes: &[u8]) -> Result<(), AllocError>
    ensures ok { OnOk result (out.new.items ≡ out.old.items ++ hex_word bytes.now) }
    ensures err { OnErr result (out.new.items ≡ out.old.items) }
{
    xc_text_lines::push_hex(alloc, out, bytes)
}
