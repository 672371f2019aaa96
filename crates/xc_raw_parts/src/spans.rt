//! Where tokens and nodes stand.

ghost use Rattle.std.specs.Prelude.{◌≡◌};
ghost use Rattle.xc_raw_parts.specs.Spans as spec;

use xc_lex::Token;
use xc_raw::{Raw, Word, word_of};
use xc_text_place::Span;

/// Where a token stands.
pub fn spot(tokens: &[Token], number: usize) -> Span
    ensures { result ≡ spec.spot tokens.now number }
{
    match tokens.get(number) {
        Some(token) => token.at,
        None => Span { start: 0, end: 0 },
    }
}

fn span_over(tokens: &[Token], first: u32, end: u32) -> Span
    ensures { result ≡ spec.span_over tokens.now first end }
{
    Span {
        start: spot(tokens, first as usize).start,
        end: spot(tokens, (end as usize).saturating_sub(1)).end,
    }
}

/// Where a node stands: from its first token to its last one. Tokens of a macro stand where the macro's name does.
pub fn span_of(tokens: &[Token], node: &Raw) -> Span
    ensures { result ≡ spec.span_of tokens.now node.now }
{
    span_over(tokens, node.first, node.end)
}

/// The number of the token behind a node's first part.
pub fn behind(node: &Raw) -> Option<u32>
    ensures { result ≡ spec.behind node.now }
{
    match node.parts.as_slice().first() {
        Some(part) => Some(part.end),
        None => None,
    }
}

/// Where the declarator of a parameter, a node `Param`, stands, or its specifiers where it has no declarator.
pub fn declarator_span(tokens: &[Token], node: &Raw) -> Span
    ensures { result ≡ spec.declarator_span tokens.now node.now }
{
    match behind(node) {
        Some(from) if from < node.end => span_over(tokens, from, node.end),
        _ => span_of(tokens, node),
    }
}

/// A token as the grammar sees it.
pub fn word_at(source: &[u8], tokens: &[Token], number: usize) -> Word
    ensures { result ≡ spec.word_at source.now tokens.now number }
{
    match tokens.get(number) {
        Some(token) => word_of(source, *token),
        None => Word::Foreign,
    }
}
