//! The literals of a text.

ghost use Rattle.std.specs.Prelude.{◌≡◌, ◌<◌, ◌^◌, false, length, map, IfOk, OnOk};
ghost use Rattle.xc_type_literals.specs.Constants.{constants_of, constant_at};
ghost use Rattle.xc_type_literals.specs.Texts as spec;

use crate::numbers::constants_of;
use indexmap::IndexSet;
use sqlite_items::Items;
use std::alloc::{AllocError, Global};
use xc_lex::{Number, Token, TokenKind};
use xc_text_format::conversions;
use xc_text_place::Span;

/// The literals of a text: the integer constant that each token is, the number of each token that is a string literal,
/// and the bytes of these by number. A string literal of a macro has one number, however often the macro is used, so that
/// they take no more memory than the source.
#[derive(Drop)]
pub struct Texts {
    pub constants: Vec<Option<Number>>,
    pub numbers: Vec<Option<u32>>,
    pub formats: Items<Items<u8>>,
    /// How many values each of them takes as a format.
    pub takes: Vec<Option<usize>>,
}

/// A string literal: its number, and how many values it takes as a format, or none where it is no format.
#[derive(Clone, Copy)]
pub struct Literal {
    pub number: u32,
    pub takes: Option<usize>,
}

fn is_text(token: Token) -> bool
    ensures { result ≡ spec.is_text token }
{
    token.kind == TokenKind::Text
}

fn escape(b: u8) -> u8
    ensures { result ≡ spec.escape b }
{
    match b {
        b'n' => b'\n',
        b't' => b'\t',
        _ => b,
    }
}

fn bytes_of(alloc: Global, quoted: &[u8]) -> Result<Items<u8>, AllocError>
    ensures { IfOk result (λ bytes. bytes ≡ spec.bytes_of quoted.now) }
{
    match quoted {
        [] => Ok(Items::new(alloc)),
        [_, rest @ ..] => Ok(bytes_in(alloc, rest)?),
    }
}

fn bytes_in(alloc: Global, rest: &[u8]) -> Result<Items<u8>, AllocError>
    ensures { IfOk result (λ bytes. bytes ≡ spec.bytes_from false rest.now) }
{
    let mut bytes = Items::new(alloc);
    let mut escaped = false;
    'bytes: for b in rest {
        if escaped {
            bytes.push(escape(*b))?;
            escaped = false;
        } else if *b == b'"' {
            return Ok(bytes);
        } else if *b == b'\\' {
            escaped = true;
        } else {
            bytes.push(*b)?;
        }
    }
    Ok(bytes)
}

fn stretch(token: Token) -> (u32, u32)
    ensures { result ≡ spec.stretch token }
{
    (token.text.start, token.text.end)
}

fn note(known: &mut IndexSet<(u32, u32)>, token: Token) -> Result<(), AllocError>
    ensures { OnOk result (known.new.keys ≡ spec.with_text known.old.keys token) }
{
    if is_text(token) {
        known.insert(stretch(token))?;
    }
    Ok(())
}

fn stretches(alloc: Global, tokens: &[Token]) -> Result<IndexSet<(u32, u32)>, AllocError>
    ensures { IfOk result (λ known. known.keys ≡ spec.stretches tokens.now) }
{
    let mut known = IndexSet::new(alloc);
    for token in tokens {
        note(&mut known, *token)?;
    }
    Ok(known)
}

fn number_in(known: &IndexSet<(u32, u32)>, token: Token) -> Option<u32>
    requires { length known.now.keys < 2 ^ 32 }
    ensures { result ≡ spec.number_in known.now.keys token }
{
    if !is_text(token) {
        return None;
    }
    match known.get_index_of(&stretch(token)) {
        Some(index) => Some(index as u32),
        None => None,
    }
}

fn numbers_of(
    alloc: Global,
    known: &IndexSet<(u32, u32)>,
    tokens: &[Token],
) -> Result<Vec<Option<u32>>, AllocError>
    requires { length known.now.keys < 2 ^ 32 }
    ensures { IfOk result (λ numbers. numbers.items ≡ map (spec.number_in known.now.keys) tokens.now) }
{
    let mut numbers = Vec::new(alloc);
    for token in tokens {
        numbers.push(number_in(known, *token))?;
    }
    Ok(numbers)
}

fn formats_of(
    alloc: Global,
    source: &[u8],
    stretches: &[(u32, u32)],
) -> Result<Items<Items<u8>>, AllocError>
    ensures { IfOk result (λ formats. formats ≡ map (spec.text_at source.now) stretches.now) }
{
    let mut formats = Items::new(alloc);
    'stretches: for stretch in stretches {
        let (start, end) = *stretch;
        formats.push(bytes_of(alloc, Span { start, end }.of(source))?)?;
    }
    Ok(formats)
}

fn takes_of(alloc: Global, formats: &[Items<u8>]) -> Result<Vec<Option<usize>>, AllocError>
    ensures { IfOk result (λ takes. takes.items ≡ spec.all_taken formats.now) }
{
    let mut takes = Vec::new(alloc);
    for format in formats {
        takes.push(conversions(format.as_slice()))?;
    }
    Ok(takes)
}

/// The literals of a text.
pub fn texts_of(alloc: Global, source: &[u8], tokens: &[Token]) -> Result<Texts, AllocError>
    requires { length tokens.now < 2 ^ 32 }
    ensures constants { IfOk result (λ texts. texts.constants.items ≡ constants_of source.now tokens.now) }
    ensures numbers { IfOk result (λ texts. texts.numbers.items ≡ spec.numbers_of tokens.now) }
    ensures formats { IfOk result (λ texts. texts.formats ≡ spec.formats_of source.now tokens.now) }
    ensures takes { IfOk result (λ texts. texts.takes.items ≡ spec.all_taken texts.formats) }
{
    let known = stretches(alloc, tokens)?;
    let numbers = numbers_of(alloc, &known, tokens)?;
    let formats = formats_of(alloc, source, known.as_slice())?;
    let takes = takes_of(alloc, formats.as_slice())?;
    let constants = constants_of(alloc, source, tokens)?;
    Ok(Texts {
        constants,
        numbers,
        formats,
        takes,
    })
}

impl Texts {
    /// The integer constant that a token is, if it is one.
    pub fn constant(&self, token: usize) -> Option<Number>
        ensures { result ≡ constant_at self.now.constants.items token }
    {
        match self.constants.get(token) {
            Some(number) => *number,
            None => None,
        }
    }

    /// The string literal that a token is, if it is one.
    pub fn literal(&self, token: usize) -> Option<Literal>
        ensures { result ≡ spec.literal self.now.numbers.items self.now.takes.items token }
    {
        let number = (*self.numbers.get(token)?)?;
        let takes = match self.takes.get(number as usize) {
            Some(takes) => *takes,
            None => None,
        };
        Some(Literal { number, takes })
    }
}
