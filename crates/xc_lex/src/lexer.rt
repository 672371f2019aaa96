//! The tokens of a text.

ghost use Rattle.std.specs.Prelude.{◌≡◌, ◌≤◌, ◌<◌, ◌^◌, ◌+◌, List, length, IfOk, IfErr, slice_get, ◌==◌};
ghost use Rattle.std.specs.List.{All};
ghost use Rattle.std.specs.Option.{option_copied};
ghost use Rattle.xc_lex.specs.Source.{AreTokens, AreOnly, IsSpelled, FaultFits, IsOnlyFault};

use crate::lines::read_line;
use crate::macros::Macros;
use crate::stop::Stop;
use crate::token::Token;
use std::alloc::Global;
use std::marker::Model;
use thiserror::Error;
use xc_text_place::{Pos, position};

/// The tokens of a text, in order.
#[derive(Drop)]
pub struct Tokens {
    items: Vec<Token>,
}

impl Model for Tokens {
    ghost use Rattle.std.specs.Prelude.{List};
    ghost use Rattle.xc_lex.specs.declared.token.Token.{Token};

    ghost Value = { List Token };

    ghost view = { λ t. t.items.items };
}

impl Tokens {
    /// How many there are.
    pub fn len(&self) -> usize
        ensures { result ≡ length self.now }
    {
        self.items.len()
    }

    /// Whether there is none.
    pub fn is_empty(&self) -> bool
        ensures { result ≡ (length self.now == 0) }
    {
        self.items.is_empty()
    }

    /// The token of a number, counted from 0.
    pub fn get(&self, number: usize) -> Option<Token>
        ensures { result ≡ slice_get self.now number }
    {
        self.items.get(number).copied()
    }

    /// All of them.
    pub fn as_slice(&self) -> &[Token]
        ensures { result.now ≡ self.now }
    {
        self.items.as_slice()
    }
}

impl From<Vec<Token>> for Tokens {
    ghost from_gives = { λ v t. t ≡ v.items };

    fn from(items: Vec<Token>) -> Tokens {
        Tokens { items }
    }
}

/// Why a text has no tokens: want of memory, or its first fault.
#[derive(Clone, Copy, Debug, Error)]
pub enum LexFault {
    #[error("no memory")]
    NoMemory,
    #[error("no token at line {line}, column {col}", line = .0.line, col = .0.col)]
    At(Pos),
}

/// The tokens of a text, with macros replaced. It takes time in proportion to the text and the
/// tokens, with two exceptions: behind each `define` line the macros that are used are expanded anew
/// once, and one whose expansion comes back to a macro that is being replaced, at each use in another.
pub fn lex(alloc: Global, source: &[u8]) -> Result<Tokens, LexFault>
    requires { length source.now ≤ 2 ^ 20 }
    ensures tokens { IfOk result (λ tokens. AreTokens source.now tokens) }
    ensures only_tokens { IfOk result (λ tokens. AreOnly source.now tokens) }
    ensures few { IfOk result (λ tokens. length tokens ≤ 2 ^ 20) }
    ensures spelled { IfOk result (λ tokens. All (IsSpelled source.now) tokens) }
    ensures fault { IfErr result (λ e. FaultFits source.now e) }
    ensures only_fault { IfErr result (λ e. IsOnlyFault source.now e) }
{
    let mut macros = Macros::new(alloc);
    let mut tokens = Vec::new(alloc);
    let mut at = 0;
    'lines: loop {
        match read_line(alloc, source, at, &mut macros, &mut tokens) {
            Ok(end) => {
                if end == source.len() {
                    return Ok(Tokens { items: tokens });
                }
                at = end + 1;
            }
            Err(Stop::NoMemory) => return Err(LexFault::NoMemory),
            Err(Stop::At(place)) => return Err(LexFault::At(position(source, place))),
        }
    }
}
