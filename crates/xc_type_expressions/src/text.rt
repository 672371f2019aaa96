//! A text that is judged.

ghost use Rattle.std.specs.Prelude.{◌≡◌, option_and_then};
ghost use Rattle.xc_type_expressions.specs.Places.{name_of};
ghost use Rattle.xc_type_expressions.specs.Judged.{spot_in};

use xc_lex::Token;
use xc_raw_parts::spot;
use xc_text_place::Span;
use xc_type_literals::Texts;
use xc_type_names::Names;

/// The bytes of a text, its tokens, the numbers of its names, and its literals.
#[derive(Clone, Copy)]
pub struct Text<'a> {
    pub source: &'a [u8],
    pub tokens: &'a [Token],
    pub names: &'a Names,
    pub texts: &'a Texts,
}

impl Text<'_> {
    /// The number of the name that a token is.
    pub fn name_of(&self, token: usize) -> Option<u32>
        ensures { result ≡ name_of self.now token }
    {
        self.names.number(token)
    }

    /// The same of a token that may be absent.
    pub fn name_at(&self, token: Option<usize>) -> Option<u32>
        ensures { result ≡ option_and_then (name_of self.now) token }
    {
        self.name_of(token?)
    }

    /// Where a token stands that may be absent.
    pub fn spot(&self, token: Option<usize>) -> Span
        ensures { result ≡ spot_in self.now token }
    {
        match token {
            None => Span { start: 0, end: 0 },
            Some(token) => spot(self.tokens, token),
        }
    }
}
