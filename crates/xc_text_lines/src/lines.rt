//! Lines of a text, one after the other.

ghost use Rattle.std.specs.Prelude.{◌≡◌, Bool, List, ℕ, Option, Some, None, [], ◌∷◌, position, MatchOption, MatchResult};
ghost use Rattle.xc_text_lines.specs.Lines.{is_feed, pieces, HasFewLines, read_pieces, Reads};
ghost use Rattle.xc_text_lines.specs.InnerLines.{CutsLine};

use std::alloc::AllocError;
use thiserror::Error;

/// Why a line was not taken.
#[derive(Clone, Copy, Debug, PartialEq, Eq)]
pub enum Refused {
    /// The format has no such line there.
    Line,
    NoMemory,
}

impl From<AllocError> for Refused {
    ghost use Rattle.std.specs.Prelude.{◌≡◌};
    ghost use Rattle.xc_text_lines.specs.declared.lines.Refused.TheVariants.{NoMemory};

    ghost from_gives = { λ _ e. e ≡ NoMemory };

    fn from(_e: AllocError) -> Refused {
        Refused::NoMemory
    }
}

/// Why a text was not read.
#[derive(Clone, Copy, Debug, PartialEq, Eq, Error)]
pub enum ReadFault {
    /// The first bad line, counted from 1.
    #[error("line {0} is bad")]
    Line(u32),
    #[error("no memory")]
    NoMemory,
}

/// What has been read of a text, line by line.
pub trait LineReader {
    /// What has been read with one more line, where the format has that line there.
    ghost next: { Self → List ℕ → Option Self };

    /// Whether a text may end there.
    ghost whole: { Self → Bool };

    /// Takes the next line, which has no line feed.
    fn take(&mut self, line: &[u8]) -> Result<(), Refused>
        ensures { MatchResult result (λ _. next self.old line.now ≡ Some self.new)
            (λ e. e ≡ Refused.Line → next self.old line.now ≡ None) };

    /// Whether the text may end here.
    fn is_whole(&self) -> bool
        ensures { result ≡ whole self.now };
}

/// Where the first line ends.
fn line_end(text: &[u8]) -> Option<usize>
    ensures { result ≡ position is_feed text.now }
{
    text.iter().position(|b| *b == b'\n')
}

/// The first line, and what follows its line feed.
fn cut_line(text: &[u8]) -> Option<(&[u8], &[u8])>
    ensures { MatchOption result (pieces text.now ≡ text.now ∷ [])
        (λ cut. CutsLine text.now cut.0.now cut.1.now) }
{
    match line_end(text) {
        Some(end) => Some((&text[..end], &text[end + 1..])),
        None => None,
    }
}

/// Reads a whole text. After an error the reader holds what was read before it.
pub fn read_lines<R: LineReader>(text: &[u8], reader: &mut R) -> Result<(), ReadFault>
    requires { HasFewLines text.now }
    ensures { Reads result reader.new (read_pieces R.next R.whole reader.old 1 (pieces text.now)) }
{
    let mut rest = text;
    let mut number = 1u32;
    while let Some((line, after)) = cut_line(rest) {
        match reader.take(line) {
            Ok(()) => {}
            Err(Refused::Line) => return Err(ReadFault::Line(number)),
            Err(Refused::NoMemory) => return Err(ReadFault::NoMemory),
        }
        rest = after;
        number += 1;
    }
    let whole = rest.is_empty() && reader.is_whole();
    if whole {
        Ok(())
    } else {
        Err(ReadFault::Line(number))
    }
}
