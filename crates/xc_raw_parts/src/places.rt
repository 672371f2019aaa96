//! The steps of a place, and the brackets of a parameter.

ghost use Rattle.std.specs.Prelude.{◌≡◌, ◌++◌, ◌+◌, ◌^◌, ◌<◌, length, IfOk, OnOk};
ghost use Rattle.xc_raw_parts.specs.Places as spec;

use crate::names::first_bound;
use crate::spans::behind;
use crate::words::between;
use sqlite_items::Items;
use std::alloc::{AllocError, Global};
use xc_lex::Token;
use xc_raw::{Access, Raw, Word, word_of};

/// A step of a place: the index in the next pair of brackets, or a member with the number of the token that names it.
#[derive(Clone, Copy)]
pub enum PlaceStep {
    Index,
    Member { access: Access, name: usize },
}

/// The first brackets of a parameter: none, or with or without a bound.
#[derive(Clone, Copy)]
pub enum Brackets {
    Absent,
    Empty,
    Bound,
}

fn member_of(number: usize, word: Word) -> Option<PlaceStep>
    requires { number + 1 < 2 ^ 64 }
    ensures { result ≡ spec.member_of number word }
{
    match word {
        Word::Access(access) => Some(PlaceStep::Member {
            access,
            name: number + 1,
        }),
        _ => None,
    }
}

fn push_members(
    source: &[u8],
    tokens: &[Token],
    first: usize,
    steps: &mut Items<PlaceStep>,
) -> Result<(), AllocError>
    requires { first + length tokens.now < 2 ^ 63 }
    ensures { OnOk result (steps.new ≡ steps.old ++ spec.members_from source.now first tokens.now) }
{
    let mut number = first;
    'tokens: for token in tokens {
        if let Some(step) = member_of(number, word_of(source, *token)) {
            steps.push(step)?;
        }
        number += 1;
    }
    Ok(())
}

/// The steps of a node `Place` from its name on. Each `Index` takes the next part of the node.
#[tactic(auto, using(crate::proofs::Walks::walk_rules))]
pub fn place_steps(
    alloc: Global,
    source: &[u8],
    tokens: &[Token],
    node: &Raw,
) -> Result<Items<PlaceStep>, AllocError>
    ensures { IfOk result (λ steps. steps ≡ spec.place_steps source.now tokens.now node.now) }
{
    let mut steps = Items::new(alloc);
    let mut at = node.first;
    'parts: for part in node.parts.as_slice() {
        let own = between(tokens, at, part.first);
        push_members(source, own, at as usize, &mut steps)?;
        steps.push(PlaceStep::Index)?;
        at = part.end;
    }
    let own = between(tokens, at, node.end);
    push_members(source, own, at as usize, &mut steps)?;
    Ok(steps)
}

fn is_close(word: Word) -> bool
    ensures { result ≡ spec.is_close word }
{
    matches!(word, Word::CloseBracket)
}

fn has_close(source: &[u8], tokens: &[Token]) -> bool
    ensures { result ≡ spec.has_close source.now tokens.now }
{
    tokens.iter().any(|token| is_close(word_of(source, *token)))
}

/// The first brackets of a node `Param`.
pub fn first_brackets(source: &[u8], tokens: &[Token], node: &Raw) -> Brackets
    ensures { result ≡ spec.first_brackets source.now tokens.now node.now }
{
    let from = behind(node).unwrap_or(node.end);
    if has_close(source, between(tokens, from, first_bound(node))) {
        return Brackets::Empty;
    }
    if node.parts.as_slice().len() > 1 {
        Brackets::Bound
    } else {
        Brackets::Absent
    }
}
