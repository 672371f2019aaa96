//! The numbers of names.

ghost use Rattle.std.specs.Prelude.{◌≡◌, ◌≤◌, ◌<◌, ◌^◌, length, map, fold, [], position, IfOk, OnOk, slice_get, slice_range, option_and_then};
ghost use Rattle.std.specs.Str.{bytes_eq};
ghost use Rattle.indexmap.specs.IndexSet.{insert_key};
ghost use Rattle.xc_type_names.specs.Numbered.{reserved, reserved_of, spellings, number_in, numbered};
ghost use Rattle.xc_type_names.specs.Stretches.{AreIn, ArePlaces};

use indexmap::{IndexMap, IndexSet};
use std::alloc::{AllocError, Global};
use std::marker::Model;
use xc_lex::{Token, TokenKind};
use xc_text_place::Span;

/// A name that cannot be declared: `printf`, and the generic functions of tagged memory.
#[derive(Clone, Copy, PartialEq, Eq)]
pub enum Reserved {
    Printf,
    ReadFe,
    ReadFf,
    ReadXx,
    WriteEf,
    WriteFf,
    WriteXf,
    Purge,
    FetchAdd,
}

const RESERVED: [(&[u8], Reserved); 9] = [
    (b"printf", Reserved::Printf),
    (b"readfe", Reserved::ReadFe),
    (b"readff", Reserved::ReadFf),
    (b"readxx", Reserved::ReadXx),
    (b"writeef", Reserved::WriteEf),
    (b"writeff", Reserved::WriteFf),
    (b"writexf", Reserved::WriteXf),
    (b"purge", Reserved::Purge),
    (b"int_fetch_add", Reserved::FetchAdd),
];

/// The reserved name that has a number.
#[tactic(auto, unfolding(crate::specs::Numbered::reserved))]
pub fn reserved_of(number: u32) -> Option<Reserved>
    ensures { result ≡ reserved_of number }
{
    RESERVED.get(number as usize).map(|pair| pair.1)
}

fn add(alloc: Global, set: &mut IndexSet<Vec<u8>>, text: &[u8]) -> Result<(), AllocError>
    ensures { OnOk result (map (λ k. k.items) set.new.keys ≡ insert_key bytes_eq (map (λ k. k.items) set.old.keys) text.now) }
{
    let key = Vec::from_slice(alloc, text)?;
    set.insert(key)?;
    Ok(())
}

fn add_all(alloc: Global, table: &[(&[u8], Reserved)]) -> Result<IndexSet<Vec<u8>>, AllocError>
    ensures { IfOk result (λ set. map (λ k. k.items) set.keys ≡ fold (insert_key bytes_eq) [] (map (λ p. p.0.now) table.now)) }
{
    let mut set = IndexSet::new(alloc);
    for pair in table {
        add(alloc, &mut set, pair.0)?;
    }
    Ok(set)
}

#[tactic(auto, unfolding(crate::specs::Numbered::reserved))]
fn add_reserved(alloc: Global) -> Result<IndexSet<Vec<u8>>, AllocError>
    ensures { IfOk result (λ set. map (λ k. k.items) set.keys ≡ map (λ p. p.0) reserved) }
{
    add_all(alloc, &RESERVED)
}

// Adds a text of the source, once for each stretch of bytes, so that one used often is read once.

fn add_once(
    alloc: Global,
    set: &mut IndexSet<Vec<u8>>,
    seen: &mut IndexSet<(u32, u32)>,
    source: &[u8],
    at: Span,
) -> Result<(), AllocError>
    requires { AreIn source.now seen.old.keys (map (λ k. k.items) set.old.keys) }
    ensures added { OnOk result (map (λ k. k.items) set.new.keys ≡ insert_key bytes_eq (map (λ k. k.items) set.old.keys) (slice_range source.now at.start at.end)) }
    ensures seen { OnOk result (AreIn source.now seen.new.keys (map (λ k. k.items) set.new.keys)) }
{
    if seen.insert((at.start, at.end))? {
        add(alloc, set, at.of(source))?;
    }
    Ok(())
}

fn collect(alloc: Global, source: &[u8], tokens: &[Token]) -> Result<IndexSet<Vec<u8>>, AllocError>
    ensures { IfOk result (λ set. map (λ k. k.items) set.keys ≡ spellings source.now tokens.now) }
{
    let mut set = add_reserved(alloc)?;
    let mut seen = IndexSet::new(alloc);
    for token in tokens {
        if token.kind == TokenKind::Name {
            add_once(alloc, &mut set, &mut seen, source, token.text)?;
        }
    }
    Ok(set)
}

fn place_of(set: &IndexSet<Vec<u8>>, text: &[u8]) -> Option<u32>
    requires { length set.now.keys < 2 ^ 32 }
    ensures { result ≡ position (bytes_eq text.now) (map (λ k. k.items) set.now.keys) }
{
    match set.get_index_of(text) {
        Some(index) => Some(index as u32),
        None => None,
    }
}

// The place of a text of the source, looked for once for each stretch of bytes.

fn place_once(
    set: &IndexSet<Vec<u8>>,
    places: &mut IndexMap<(u32, u32), Option<u32>>,
    source: &[u8],
    at: Span,
) -> Result<Option<u32>, AllocError>
    requires few { length set.now.keys < 2 ^ 32 }
    requires places { ArePlaces source.now (map (λ k. k.items) set.now.keys) places.old.entries }
    ensures place { IfOk result (λ place. place ≡ position (bytes_eq (slice_range source.now at.start at.end)) (map (λ k. k.items) set.now.keys)) }
    ensures places { OnOk result (ArePlaces source.now (map (λ k. k.items) set.now.keys) places.new.entries) }
{
    let stretch = (at.start, at.end);
    match places.get(&stretch) {
        Some(place) => Ok(*place),
        None => {
            let place = place_of(set, at.of(source));
            places.insert(stretch, place)?;
            Ok(place)
        }
    }
}

fn number_in(
    set: &IndexSet<Vec<u8>>,
    places: &mut IndexMap<(u32, u32), Option<u32>>,
    source: &[u8],
    token: Token,
) -> Result<Option<u32>, AllocError>
    requires few { length set.now.keys < 2 ^ 32 }
    requires places { ArePlaces source.now (map (λ k. k.items) set.now.keys) places.old.entries }
    ensures number { IfOk result (λ number. number ≡ number_in (map (λ k. k.items) set.now.keys) source.now token) }
    ensures places { OnOk result (ArePlaces source.now (map (λ k. k.items) set.now.keys) places.new.entries) }
{
    match token.kind {
        TokenKind::Name => Ok(place_once(set, places, source, token.text)?),
        _ => Ok(None),
    }
}

fn number_all(
    alloc: Global,
    set: &IndexSet<Vec<u8>>,
    source: &[u8],
    tokens: &[Token],
) -> Result<Vec<Option<u32>>, AllocError>
    requires { length set.now.keys < 2 ^ 32 }
    ensures { IfOk result (λ numbers. numbers.items ≡ map (number_in (map (λ k. k.items) set.now.keys) source.now) tokens.now) }
{
    let mut places = IndexMap::new(alloc);
    let mut numbers = Vec::new(alloc);
    for token in tokens {
        numbers.push(number_in(set, &mut places, source, *token)?)?;
    }
    Ok(numbers)
}

/// The names of a text, which contracts see as the number of each token and the spellings by number: tokens of one
/// spelling have one number. Each stretch of the source is read once, however many tokens have its text.
#[derive(Drop)]
pub struct Names {
    numbers: Vec<Option<u32>>,
    set: IndexSet<Vec<u8>>,
}

impl Model for Names {
    ghost use Rattle.std.specs.Prelude.{◌<◌, ◌^◌, length, map};
    ghost use Rattle.xc_type_names.specs.Numbered.{Numbered};

    ghost Value = { Numbered };

    ghost view = { λ n. record { numbers = n.numbers.items; spellings = map (λ k. k.items) n.set.keys } };

    ghost invariant = { λ n. length n.set.keys < 2 ^ 32 };
}

impl Names {
    /// The names of a text.
    pub fn new(alloc: Global, source: &[u8], tokens: &[Token]) -> Result<Names, AllocError>
        requires { length tokens.now ≤ 2 ^ 20 }
        ensures { IfOk result (λ names. names ≡ numbered source.now tokens.now) }
    {
        let set = collect(alloc, source, tokens)?;
        let numbers = number_all(alloc, &set, source, tokens)?;
        Ok(Names { numbers, set })
    }

    /// The number of a token, none where it is no name.
    pub fn number(&self, token: usize) -> Option<u32>
        ensures { result ≡ option_and_then (λ n. n) (slice_get self.now.numbers token) }
    {
        match self.numbers.get(token) {
            Some(number) => *number,
            None => None,
        }
    }

    /// The number of the name with this spelling, none where the text has no such name and it is not reserved.
    pub fn number_of(&self, text: &[u8]) -> Option<u32>
        ensures { result ≡ position (bytes_eq text.now) self.now.spellings }
    {
        place_of(&self.set, text)
    }
}
