//! The words of specifiers and of stars.

ghost use Rattle.std.specs.Prelude.{◌≡◌, ◌-◌, ◌≤◌, ◌++◌, length, map, slice_range, IfOk, OnOk};
ghost use Rattle.xc_raw_parts.specs.Words as spec;

use sqlite_items::Items;
use std::alloc::{AllocError, Global};
use xc_lex::Token;
use xc_raw::{Qualifier, Raw, Word, word_of};

/// The tokens from `from` up to `to`, as far as there are any.
pub fn between(tokens: &[Token], from: u32, to: u32) -> &[Token]
    ensures tokens { result.now ≡ slice_range tokens.now from to }
    ensures few { length result.now ≤ to - from }
{
    let end = (to as usize).min(tokens.len());
    let start = (from as usize).min(end);
    &tokens[start..end]
}

#[tactic(auto, using(crate::proofs::WordWalks::walk_rules))]
fn push_words(source: &[u8], tokens: &[Token], words: &mut Items<Word>) -> Result<(), AllocError>
    ensures { OnOk result (words.new ≡ words.old ++ spec.words_in source.now tokens.now) }
{
    for token in tokens {
        words.push(word_of(source, *token))?;
    }
    Ok(())
}

/// The words of a list of specifiers, which is a node `Specs`. Of a struct's specifier they have its keyword alone.
#[tactic(auto, using(crate::proofs::WordWalks::walk_rules))]
pub fn specifier_words(
    alloc: Global,
    source: &[u8],
    tokens: &[Token],
    specs: &Raw,
) -> Result<Items<Word>, AllocError>
    ensures { IfOk result (λ words. words ≡ spec.specifier_words source.now tokens.now specs.now) }
{
    let mut words = Items::new(alloc);
    let mut at = specs.first;
    'parts: for part in specs.parts.as_slice() {
        push_words(source, between(tokens, at, part.first), &mut words)?;
        words.push(Word::Struct)?;
        at = part.end;
    }
    push_words(source, between(tokens, at, specs.end), &mut words)?;
    Ok(words)
}

fn is_of_stars(word: Word) -> bool
    ensures { result ≡ spec.is_of_stars word }
{
    match word {
        Word::Star | Word::Future | Word::Restrict => true,
        Word::Qualifier(Qualifier::Const | Qualifier::Sync) => true,
        _ => false,
    }
}

/// The stars and their qualifiers with which the tokens from `from` up to `to` begin.
#[tactic(auto, using(crate::proofs::WordWalks::walk_rules))]
pub fn star_words(
    alloc: Global,
    source: &[u8],
    tokens: &[Token],
    from: u32,
    to: u32,
) -> Result<Items<Word>, AllocError>
    ensures { IfOk result (λ words. words ≡ spec.star_words source.now tokens.now from to) }
{
    let mut words = Items::new(alloc);
    let own = between(tokens, from, to);
    'tokens: for token in own {
        let word = word_of(source, *token);
        if !is_of_stars(word) {
            return Ok(words);
        }
        words.push(word)?;
    }
    Ok(words)
}
