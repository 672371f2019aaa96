//! The words of a line, one after the other.

ghost use Rattle.std.specs.Prelude.{◌≡◌, ◌∷◌, ◌++◌, [], Some, None, MatchOption, OnOk, ◌<◌};
ghost use Rattle.std.specs.Option.{option_map};
ghost use Rattle.xc_text_lines.specs.Lines.{words_of};
ghost use Rattle.xc_isa_text.specs.Operands.{words_in, AreBelow, word_in, limit_of};
ghost use Rattle.xc_isa_text.specs.InnerOperands.{first_in, numbers_in, tail_of};

use crate::operand::Operand;
use std::alloc::AllocError;
use std::marker::Model;
use xc_text_lines::{cut_word, end_line, push_space};

/// The words of a line that have not been read.
#[derive(Drop)]
pub(crate) struct Words<'a> {
    rest: Option<&'a [u8]>,
}

impl<'a> Model for Words<'a> {
    ghost use Rattle.std.specs.Prelude.{List, ℕ};
    ghost use Rattle.xc_isa_text.specs.Operands.{words_left};

    ghost Value = { List (List ℕ) };

    ghost view = { λ w. words_left w.rest };
}

impl<'a> Words<'a> {
    pub(crate) fn new(line: &'a [u8]) -> Words<'a>
        ensures { result ≡ words_of line.now }
    {
        Words { rest: Some(line) }
    }

    /// The next word.
    pub(crate) fn next(&mut self) -> Option<&'a [u8]>
        ensures { MatchOption result ((self.old ≡ []) × (self.new ≡ []))
            (λ w. self.old ≡ w.now ∷ self.new) }
    {
        let line = self.rest?;
        match cut_word(line) {
            Some((word, rest)) => {
                self.rest = Some(rest);
                Some(word)
            }
            None => {
                self.rest = None;
                Some(line)
            }
        }
    }

    /// What the next word spells.
    fn operand<A: Operand>(&mut self) -> Option<A>
        ensures { MatchOption result (first_in A.slot self.old ≡ None)
            (λ a. first_in A.slot self.old ≡ Some (A.number a, self.new)) }
    {
        let word = self.next()?;
        A::read(word)
    }
}

/// What the words spell, where there is none.
pub(crate) fn none(words: &mut Words) -> Option<()>
    ensures { option_map (λ _. []) result ≡ numbers_in [] words.old }
{
    if words.next().is_none() {
        Some(())
    } else {
        None
    }
}

/// What the one word spells.
pub(crate) fn one<A: Operand>(words: &mut Words) -> Option<A>
    ensures { option_map (λ a. A.number a ∷ []) result ≡ numbers_in (A.slot ∷ []) words.old }
{
    let a = words.operand()?;
    none(words)?;
    Some(a)
}

/// What the two words spell.
pub(crate) fn two<A: Operand, B: Operand>(words: &mut Words) -> Option<(A, B)>
    ensures { option_map (λ t. A.number t.0 ∷ B.number t.1 ∷ []) result
        ≡ numbers_in (A.slot ∷ B.slot ∷ []) words.old }
{
    let a = words.operand()?;
    let b = one(words)?;
    Some((a, b))
}

/// What the three words spell.
pub(crate) fn three<A: Operand, B: Operand, C: Operand>(words: &mut Words) -> Option<(A, B, C)>
    ensures { option_map (λ t. A.number t.0 ∷ B.number t.1 ∷ C.number t.2 ∷ []) result
        ≡ numbers_in (A.slot ∷ B.slot ∷ C.slot ∷ []) words.old }
{
    let a = words.operand()?;
    let (b, c) = two(words)?;
    Some((a, b, c))
}

/// What the four words spell.
pub(crate) fn four<A: Operand, B: Operand, C: Operand, D: Operand>(
    words: &mut Words,
) -> Option<(A, B, C, D)>
    ensures { option_map (λ t. A.number t.0 ∷ B.number t.1 ∷ C.number t.2 ∷ D.number t.3 ∷ []) result ≡ numbers_in (A.slot ∷ B.slot ∷ C.slot ∷ D.slot ∷ []) words.old }
{
    let a = words.operand()?;
    let (b, c, d) = three(words)?;
    Some((a, b, c, d))
}

/// What the five words spell.
pub(crate) fn five<A: Operand, B: Operand, C: Operand, D: Operand, E: Operand>(
    words: &mut Words,
) -> Option<(A, B, C, D, E)>
    ensures { option_map (λ t. A.number t.0 ∷ B.number t.1 ∷ C.number t.2 ∷ D.number t.3 ∷ E.number t.4 ∷ []) result ≡ numbers_in (A.slot ∷ B.slot ∷ C.slot ∷ D.slot ∷ E.slot ∷ []) words.old }
{
    let a = words.operand()?;
    let (b, c, d, e) = four(words)?;
    Some((a, b, c, d, e))
}

/// Writes a space and a word.
fn put_word<A: Operand>(out: &mut Vec<u8>, a: A) -> Result<(), AllocError>
    ensures ok { OnOk result (out.new.items ≡ out.old.items ++ 32 ∷ word_in A.slot (A.number a)) }
    ensures below { OnOk result (A.number a < limit_of A.slot) }
{
    push_space(out)?;
    a.push(out)
}

/// Ends a line by a word.
pub(crate) fn put_one<A: Operand>(out: &mut Vec<u8>, a: A) -> Result<(), AllocError>
    ensures ok { OnOk result (out.new.items ≡ out.old.items ++ tail_of (words_in (A.slot ∷ []) (A.number a ∷ []))) }
    ensures below { OnOk result (AreBelow (A.slot ∷ []) (A.number a ∷ [])) }
{
    put_word(out, a)?;
    end_line(out)
}

/// Ends a line by two words.
pub(crate) fn put_two<A: Operand, B: Operand>(
    out: &mut Vec<u8>,
    a: A,
    b: B,
) -> Result<(), AllocError>
    ensures ok { OnOk result (out.new.items ≡ out.old.items ++ tail_of (words_in (A.slot ∷ B.slot ∷ []) (A.number a ∷ B.number b ∷ []))) }
    ensures below { OnOk result (AreBelow (A.slot ∷ B.slot ∷ []) (A.number a ∷ B.number b ∷ [])) }
{
    put_word(out, a)?;
    put_one(out, b)
}

/// Ends a line by three words.
pub(crate) fn put_three<A: Operand, B: Operand, C: Operand>(
    out: &mut Vec<u8>,
    a: A,
    b: B,
    c: C,
) -> Result<(), AllocError>
    ensures ok { OnOk result (out.new.items ≡ out.old.items ++ tail_of (words_in (A.slot ∷ B.slot ∷ C.slot ∷ []) (A.number a ∷ B.number b ∷ C.number c ∷ []))) }
    ensures below { OnOk result (AreBelow (A.slot ∷ B.slot ∷ C.slot ∷ []) (A.number a ∷ B.number b ∷ C.number c ∷ [])) }
{
    put_word(out, a)?;
    put_two(out, b, c)
}

/// Ends a line by four words.
pub(crate) fn put_four<A: Operand, B: Operand, C: Operand, D: Operand>(
    out: &mut Vec<u8>,
    a: A,
    b: B,
    c: C,
    d: D,
) -> Result<(), AllocError>
    ensures ok { OnOk result (out.new.items ≡ out.old.items ++ tail_of (words_in (A.slot ∷ B.slot ∷ C.slot ∷ D.slot ∷ []) (A.number a ∷ B.number b ∷ C.number c ∷ D.number d ∷ []))) }
    ensures below { OnOk result (AreBelow (A.slot ∷ B.slot ∷ C.slot ∷ D.slot ∷ []) (A.number a ∷ B.number b ∷ C.number c ∷ D.number d ∷ [])) }
{
    put_word(out, a)?;
    put_three(out, b, c, d)
}

/// Ends a line by five words.
pub(crate) fn put_five<A: Operand, B: Operand, C: Operand, D: Operand, E: Operand>(
    out: &mut Vec<u8>,
    a: A,
    b: B,
    c: C,
    d: D,
    e: E,
) -> Result<(), AllocError>
    ensures ok { OnOk result (out.new.items ≡ out.old.items ++ tail_of (words_in (A.slot ∷ B.slot ∷ C.slot ∷ D.slot ∷ E.slot ∷ []) (A.number a ∷ B.number b ∷ C.number c ∷ D.number d ∷ E.number e ∷ []))) }
    ensures below { OnOk result (AreBelow (A.slot ∷ B.slot ∷ C.slot ∷ D.slot ∷ E.slot ∷ []) (A.number a ∷ B.number b ∷ C.number c ∷ D.number d ∷ E.number e ∷ [])) }
{
    put_word(out, a)?;
    put_four(out, b, c, d, e)
}
