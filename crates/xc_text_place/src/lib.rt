//! Where things stand in a source text.
#![tactic(auto)]

ghost use Rattle.std.specs.Prelude.{◌≡◌, ◌≤◌, ◌<◌, ◌^◌, ◌+◌, length, take, slice_range};
ghost use Rattle.xc_text_place.specs.Place.{line_of, column_of};

/// The bytes from `start` up to `end`, counted from 0.
#[derive(Clone, Copy, Debug, PartialEq, Eq)]
pub struct Span {
    pub start: u32,
    pub end: u32,
}

/// A line and a column, each counted from 1; columns count bytes.
#[derive(Clone, Copy, Debug, PartialEq, Eq)]
pub struct Pos {
    pub line: u32,
    pub col: u32,
}

impl Span {
    /// Its bytes, of which those past the end of the text are none.
    pub fn of(self, text: &[u8]) -> &[u8]
        ensures { result.now ≡ slice_range text.now self.start self.end }
    {
        let end = (self.end as usize).min(text.len());
        let start = (self.start as usize).min(end);
        &text[start..end]
    }
}

impl Pos {
    /// Where a text begins.
    pub const FIRST: Pos = Pos { line: 1, col: 1 };
}

/// Where the byte at `at` stands, or the end of the text where that comes before. It reads the text up to there.
pub fn position(text: &[u8], at: usize) -> Pos
    requires { length text.now + 1 < 2 ^ 32 }
    ensures line { result.line ≡ line_of (take at text.now) }
    ensures column { result.col ≡ column_of (take at text.now) }
{
    let mut pos = Pos::FIRST;
    for b in &text[..at.min(text.len())] {
        if *b == b'\n' {
            pos.line += 1;
            pos.col = 1;
        } else {
            pos.col += 1;
        }
    }
    pos
}
