//! Integer constants.

ghost use Rattle.std.specs.Prelude.{◌≡◌, map, IfOk, OnOk, slice_range};
ghost use Rattle.xc_lex.specs.Numbers.{number_of};
ghost use Rattle.xc_type_literals.specs.Constants as spec;
ghost use Rattle.xc_type_literals.specs.InnerConstants as inner_spec;

use indexmap::IndexMap;
use std::alloc::{AllocError, Global};
use xc_lex::{Number, Token, TokenKind, read_number};
use xc_text_place::Span;

// The constant that a stretch of the source spells, read once for each stretch.

fn read_once(
    known: &mut IndexMap<(u32, u32), Option<Number>>,
    source: &[u8],
    at: Span,
) -> Result<Option<Number>, AllocError>
    requires { inner_spec.AreConstants source.now known.old.entries }
    ensures number { IfOk result (λ n. n ≡ number_of (slice_range source.now at.start at.end)) }
    ensures known { OnOk result (inner_spec.AreConstants source.now known.new.entries) }
{
    let stretch = (at.start, at.end);
    match known.get(&stretch) {
        Some(number) => Ok(*number),
        None => {
            let number = read_number(at.of(source));
            known.insert(stretch, number)?;
            Ok(number)
        }
    }
}

fn number_in(
    known: &mut IndexMap<(u32, u32), Option<Number>>,
    source: &[u8],
    token: Token,
) -> Result<Option<Number>, AllocError>
    requires { inner_spec.AreConstants source.now known.old.entries }
    ensures number { IfOk result (λ n. n ≡ spec.number_in source.now token) }
    ensures known { OnOk result (inner_spec.AreConstants source.now known.new.entries) }
{
    match token.kind {
        TokenKind::Number => Ok(read_once(known, source, token.text)?),
        _ => Ok(None),
    }
}

/// The integer constant that each token is. One that a macro brings is read once, however often the macro is used.
pub(crate) fn constants_of(
    alloc: Global,
    source: &[u8],
    tokens: &[Token],
) -> Result<Vec<Option<Number>>, AllocError>
    ensures { IfOk result (λ numbers. numbers.items ≡ spec.constants_of source.now tokens.now) }
{
    let mut known = IndexMap::new(alloc);
    let mut numbers = Vec::new(alloc);
    for token in tokens {
        numbers.push(number_in(&mut known, source, *token)?)?;
    }
    Ok(numbers)
}
