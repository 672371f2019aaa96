//! The lines of a text.

ghost use Rattle.std.specs.Prelude.{◌≡◌, ◌≤◌, ◌<◌, ◌^◌, ◌+◌, ◌-◌, ◌++◌, ◌∷◌, [], length, drop, IfOk, IfErr, slice_range};
ghost use Rattle.xc_lex.specs.Front.{front_of, rest_front_of, Moves};
ghost use Rattle.xc_lex.specs.Lines.{token_of, words_at, words_from, blanks_from, past_rest, line_at, directive_of, directive_at, named, define_at, include_at, pragma_at, bad};
ghost use Rattle.xc_lex.specs.Numbering.{number_in};
ghost use Rattle.xc_lex.specs.State.{AreNumbered, MadeFits, all_of};
ghost use Rattle.xc_lex.specs.Steps.{IsIdle, LineRead, LineStops};
ghost use Rattle.xc_lex.specs.InnerSteps.{front_in, SoFar, AllWords, WordsStop, RestEnds, RestStops, BodyEnds, BodyStops, DirectiveRead, DirectiveStops, PragmaRead, PragmaStops};

use crate::front::{Front, front_at, rest_front_at};
use crate::macros::{LIMIT, Macros};
use crate::stop::Stop;
use crate::token::{Token, TokenKind};
use std::alloc::{AllocError, AllocFailed, Global};
use xc_text_place::Span;

/// What a directive does.
#[derive(Clone, Copy)]
pub enum Directive {
    Include,
    Note,
    Define,
    Unknown,
}

/// Which bytes of a line mean something: those of tokens, or those of comments alone.
#[derive(Clone, Copy)]
pub enum Part {
    Tokens,
    Rest,
}

/// A place, and what stands there.
#[derive(Clone, Copy)]
struct Place {
    at: usize,
    front: Front,
}

/// Where the words of a line end, what stands there, and whether there were none.
#[derive(Clone, Copy)]
struct Words {
    at: usize,
    front: Front,
    fresh: bool,
}

/// A macro's tokens, and where they end.
#[derive(Drop)]
struct Body {
    words: Vec<Token>,
    at: usize,
}

fn front_in(part: Part, rest: &[u8]) -> Front
    ensures value { result ≡ front_in part rest.now }
    ensures moves { Moves result (length rest.now) }
{
    match part {
        Part::Tokens => front_at(rest),
        Part::Rest => rest_front_at(rest),
    }
}

/// A token of the source's own, within the longest source.
fn token_of(kind: TokenKind, start: usize, end: usize) -> Token
    requires start_fits { start < 2 ^ 32 }
    requires end_fits { end < 2 ^ 32 }
    ensures { result ≡ token_of kind start end }
{
    let span = Span {
        start: start as u32,
        end: end as u32,
    };
    Token {
        kind,
        text: span,
        at: span,
    }
}

/// Where the blanks end that begin at a place.
fn skip(part: Part, source: &[u8], from: usize) -> Place
    requires { from ≤ length source.now }
    ensures at { result.at ≡ blanks_from (front_in part) 0 from (drop from source.now) }
    ensures front { result.front ≡ front_in part (drop result.at source.now) }
    ensures moves { Moves result.front (length source.now - result.at) }
    ensures after { from ≤ result.at }
    ensures within { result.at ≤ length source.now }
{
    let mut at = from;
    'blanks: loop {
        match front_in(part, &source[at..]) {
            Front::Blank(n) => at += n,
            front => return Place { at, front },
        }
    }
}

fn directive_of(name: &[u8]) -> Directive
    ensures { result ≡ directive_of name.now }
{
    if name == b"include".as_slice() {
        Directive::Include
    } else if name == b"pragma".as_slice() {
        Directive::Note
    } else if name == b"define".as_slice() {
        Directive::Define
    } else {
        Directive::Unknown
    }
}

/// Reads the words of a line, and adds what they stand for to the tokens.
fn read_words(
    alloc: Global,
    source: &[u8],
    start: usize,
    macros: &mut Macros,
    tokens: &mut Vec<Token>,
) -> Result<Words, Stop>
    requires idle { IsIdle source.now macros.old.entries.items macros.old.opened.items macros.old.made.items }
    requires numbered { AreNumbered source.now macros.old.entries.items (number_in macros.old.numbers) }
    requires fits { MadeFits source.now macros.old.entries.items macros.old.opened.items macros.old.made.items tokens.old.items }
    requires few { length tokens.old.items ≤ 2 ^ 20 }
    requires within { start ≤ length source.now }
    requires short { length source.now ≤ 2 ^ 20 }
    ensures entries { macros.new.entries.items ≡ macros.old.entries.items }
    ensures numbers { macros.new.numbers ≡ macros.old.numbers }
    ensures idle { IfOk result (λ _. IsIdle source.now macros.old.entries.items macros.new.opened.items macros.new.made.items) }
    ensures fits { IfOk result (λ _. MadeFits source.now macros.old.entries.items macros.new.opened.items macros.new.made.items tokens.new.items) }
    ensures ok { IfOk result (λ w. AllWords source.now macros.old.entries.items start tokens.old.items w.at w.front w.fresh tokens.new.items) }
    ensures few { IfOk result (λ _. length tokens.new.items ≤ 2 ^ 20) }
    ensures after { IfOk result (λ w. start ≤ w.at) }
    ensures within { IfOk result (λ w. w.at ≤ length source.now) }
    ensures moves { IfOk result (λ w. Moves w.front (length source.now - w.at)) }
    ensures err { IfErr result (λ e. WordsStop source.now macros.old.entries.items start tokens.old.items e) }
{
    let mut at = start;
    let mut fresh = true;
    'words: loop {
        match front_at(&source[at..]) {
            Front::Blank(n) => at += n,
            Front::Whole(kind, n) => {
                macros.replace(alloc, source, token_of(kind, at, at + n), tokens)?;
                fresh = false;
                at += n;
            }
            front => return Ok(Words { at, front, fresh }),
        }
    }
}

/// Reads the tokens of a macro.
fn read_body(alloc: Global, source: &[u8], start: usize) -> Result<Body, Stop>
    requires within { start ≤ length source.now }
    requires short { length source.now ≤ 2 ^ 20 }
    ensures ok { IfOk result (λ b. BodyEnds (words_at source.now start) b.words.items b.at) }
    ensures after { IfOk result (λ b. start ≤ b.at) }
    ensures within { IfOk result (λ b. b.at ≤ length source.now) }
    ensures err { IfErr result (λ e. BodyStops (words_at source.now start) e) }
{
    let mut words = Vec::new(alloc);
    let mut at = start;
    'words: loop {
        match front_at(&source[at..]) {
            Front::Blank(n) => at += n,
            Front::Whole(kind, n) => {
                words.push(token_of(kind, at, at + n))?;
                at += n;
            }
            Front::End | Front::LineEnd => return Ok(Body { words, at }),
            Front::Hash | Front::Bad => return Err(Stop::At(at)),
        }
    }
}

/// Reads the rest of an `include` or `pragma` line, up to where it ends.
fn read_rest(source: &[u8], from: usize) -> Result<usize, Stop>
    requires { from ≤ length source.now }
    ensures ok { IfOk result (λ at. RestEnds (rest_front_of (drop (past_rest source.now from) source.now)) (past_rest source.now from) at) }
    ensures after { IfOk result (λ at. from ≤ at) }
    ensures within { IfOk result (λ at. at ≤ length source.now) }
    ensures err { IfErr result (λ e. RestStops (rest_front_of (drop (past_rest source.now from) source.now)) (past_rest source.now from) e) }
{
    let rest = skip(Part::Rest, source, from);
    match rest.front {
        Front::Bad => Err(Stop::At(rest.at)),
        _ => Ok(rest.at),
    }
}

/// Reads a `define` line behind its name.
fn read_define(
    alloc: Global,
    source: &[u8],
    hash: usize,
    from: usize,
    macros: &mut Macros,
) -> Result<usize, Stop>
    requires idle { IsIdle source.now macros.old.entries.items macros.old.opened.items macros.old.made.items }
    requires numbered { AreNumbered source.now macros.old.entries.items (number_in macros.old.numbers) }
    requires within { from ≤ length source.now }
    requires short { length source.now ≤ 2 ^ 20 }
    ensures ok { IfOk result (λ at. DirectiveRead source.now (define_at source.now (all_of source.now macros.old.entries.items) hash from) [] at macros.new.entries.items macros.new.opened.items macros.new.made.items) }
    ensures numbered { IfOk result (λ _. AreNumbered source.now macros.new.entries.items (number_in macros.new.numbers)) }
    ensures after { IfOk result (λ at. from ≤ at) }
    ensures within { IfOk result (λ at. at ≤ length source.now) }
    ensures err { IfErr result (λ e. DirectiveStops (define_at source.now (all_of source.now macros.old.entries.items) hash from) (all_of source.now macros.old.entries.items) e) }
{
    let name = skip(Part::Tokens, source, from);
    match name.front {
        Front::Whole(TokenKind::Name, n) => {
            let end = name.at + n;
            if macros.is_new(source, &source[name.at..end]) {
                let body = read_body(alloc, source, end)?;
                let Body { words, at } = body;
                macros.define(
                    alloc,
                    source,
                    token_of(TokenKind::Name, name.at, end).text,
                    words,
                )?;
                Ok(at)
            } else {
                Err(Stop::At(hash))
            }
        }
        _ => Err(Stop::At(hash)),
    }
}

/// Reads a `pragma` line behind its name, and adds it to the tokens.
fn read_pragma(
    source: &[u8],
    hash: usize,
    from: usize,
    tokens: &mut Vec<Token>,
) -> Result<usize, Stop>
    requires within { from ≤ length source.now }
    requires start { hash ≤ length source.now }
    requires short { length source.now ≤ 2 ^ 20 }
    requires few { length tokens.old.items ≤ 2 ^ 20 }
    ensures ok { IfOk result (λ at. PragmaRead source.now hash from at tokens.old.items tokens.new.items) }
    ensures after { IfOk result (λ at. from ≤ at) }
    ensures within { IfOk result (λ at. at ≤ length source.now) }
    ensures err { IfErr result (λ e. PragmaStops source.now hash from tokens.old.items e) }
{
    let at = read_rest(source, from)?;
    if tokens.len() >= LIMIT {
        return Err(Stop::At(hash));
    }
    tokens.push(token_of(TokenKind::Pragma, hash, at))?;
    Ok(at)
}

/// Reads the directive that begins with the `#` at a place.
fn read_directive(
    alloc: Global,
    source: &[u8],
    hash: usize,
    macros: &mut Macros,
    tokens: &mut Vec<Token>,
) -> Result<usize, Stop>
    requires idle { IsIdle source.now macros.old.entries.items macros.old.opened.items macros.old.made.items }
    requires numbered { AreNumbered source.now macros.old.entries.items (number_in macros.old.numbers) }
    requires fits { MadeFits source.now macros.old.entries.items macros.old.opened.items macros.old.made.items tokens.old.items }
    requires few { length tokens.old.items ≤ 2 ^ 20 }
    requires start { hash < length source.now }
    requires short { length source.now ≤ 2 ^ 20 }
    ensures ok { IfOk result (λ at. LineRead source.now (directive_at source.now (all_of source.now macros.old.entries.items) hash) tokens.old.items at macros.new.entries.items macros.new.opened.items macros.new.made.items tokens.new.items) }
    ensures numbered { IfOk result (λ _. AreNumbered source.now macros.new.entries.items (number_in macros.new.numbers)) }
    ensures after { IfOk result (λ at. hash ≤ at) }
    ensures within { IfOk result (λ at. at ≤ length source.now) }
    ensures err { IfErr result (λ e. LineStops tokens.old.items (directive_at source.now (all_of source.now macros.old.entries.items) hash) e) }
{
    let name = skip(Part::Tokens, source, hash + 1);
    match name.front {
        Front::Whole(TokenKind::Name, n) => {
            let end = name.at + n;
            match directive_of(&source[name.at..end]) {
                Directive::Include => read_rest(source, end),
                Directive::Note => read_pragma(source, hash, end, tokens),
                Directive::Define => read_define(alloc, source, hash, end, macros),
                Directive::Unknown => Err(Stop::At(hash)),
            }
        }
        _ => Err(Stop::At(hash)),
    }
}

/// Reads the line that begins at a place, up to where it ends.
pub fn read_line(
    alloc: Global,
    source: &[u8],
    start: usize,
    macros: &mut Macros,
    tokens: &mut Vec<Token>,
) -> Result<usize, Stop>
    requires idle { IsIdle source.now macros.old.entries.items macros.old.opened.items macros.old.made.items }
    requires numbered { AreNumbered source.now macros.old.entries.items (number_in macros.old.numbers) }
    requires fits { MadeFits source.now macros.old.entries.items macros.old.opened.items macros.old.made.items tokens.old.items }
    requires few { length tokens.old.items ≤ 2 ^ 20 }
    requires within { start ≤ length source.now }
    requires short { length source.now ≤ 2 ^ 20 }
    ensures ok { IfOk result (λ at. LineRead source.now (line_at source.now (all_of source.now macros.old.entries.items) start) tokens.old.items at macros.new.entries.items macros.new.opened.items macros.new.made.items tokens.new.items) }
    ensures numbered { IfOk result (λ _. AreNumbered source.now macros.new.entries.items (number_in macros.new.numbers)) }
    ensures after { IfOk result (λ at. start ≤ at) }
    ensures within { IfOk result (λ at. at ≤ length source.now) }
    ensures err { IfErr result (λ e. LineStops tokens.old.items (line_at source.now (all_of source.now macros.old.entries.items) start) e) }
{
    let words = read_words(alloc, source, start, macros, tokens)?;
    match words.front {
        Front::Hash => {
            if words.fresh {
                read_directive(alloc, source, words.at, macros, tokens)
            } else {
                Err(Stop::At(words.at))
            }
        }
        Front::Bad => Err(Stop::At(words.at)),
        _ => Ok(words.at),
    }
}
