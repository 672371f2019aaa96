//! The parser, which keeps its own stack.

ghost use Rattle.std.specs.Prelude.{◌≡◌, ◌≤◌, ◌<◌, ◌+◌, ◌^◌, List, length, OnOk, IfOk, IfErr, slice_get, vec_len};
ghost use Rattle.xc_parse_grammar.specs.Plan.{act_of};
ghost use Rattle.xc_parse_grammar.specs.InnerPlan.{look};
ghost use Rattle.xc_parse.specs.declared.parser.ParseFault.TheVariants.{NoMemory};
ghost use Rattle.xc_parse.specs.Texts.{words_of, Parsed, FaultFits, StandsAt};
ghost use Rattle.xc_parse.specs.InnerTexts.{Pushed, IsDone};

use crate::nodes::Nodes;
use std::alloc::{AllocError, AllocFailed, Global};
use thiserror::Error;
use xc_lex::Tokens;
use xc_parse_depth::first_deeper;
use xc_parse_grammar::{Class, Goal, Move, Shape, Spot, plan, start};
use xc_raw::{Level, Raw, Rule, Word, word_of};
use xc_text_place::{Pos, position};

/// Why there is no tree.
#[derive(Debug, Drop, Error)]
pub enum ParseFault {
    #[error("no memory")]
    NoMemory,
    /// The first token after which no continuation is in the grammar, or the end of the text.
    #[error("no text goes on so at line {line}, column {col}", line = .0.line, col = .0.col)]
    Syntax(Pos),
    /// The first token of the first node that is too deep, of a text that has a tree.
    #[error("nested too deeply at line {line}, column {col}", line = .0.line, col = .0.col)]
    Depth(Pos),
}

impl From<AllocError> for ParseFault {
    ghost from_gives = { λ _ e. e ≡ NoMemory };

    fn from(_: AllocError) -> ParseFault {
        ParseFault::NoMemory
    }
}

impl<T: Drop> From<AllocFailed<T>> for ParseFault {
    ghost from_gives = { λ _ e. e ≡ NoMemory };

    fn from(_: AllocFailed<T>) -> ParseFault {
        ParseFault::NoMemory
    }
}

/// What a move does besides new goals.
#[derive(Clone, Copy)]
enum Turn {
    Wrong,
    Shift,
    Do(Shape),
}

/// The greatest depth of a node.
const DEPTH_LIMIT: usize = 128;

/// The untyped tree of the tokens of a source. Needs time and memory linear in their number. Where rules that do not
/// count for the depth, as braces of initialisers, nest 4,096 deep, it answers `NoMemory`: dropping such a tree would
/// take too much host stack.
pub fn parse(alloc: Global, source: &[u8], tokens: &Tokens) -> Result<Raw, ParseFault>
    requires short { length source.now + 1 < 2 ^ 32 }
    requires few { length tokens.now < 2 ^ 32 }
    // The tokens have a derivation, one only and none of its nodes too deep, and this is its tree.
    ensures found { IfOk result (Parsed (words_of source.now tokens.now)) }
    // A fault is at the first token after which no text goes on, or at the end, or at the first node that is too deep.
    ensures fault { IfErr result (λ e. FaultFits source.now tokens.now e) }
{
    let mut goals = Vec::new(alloc);
    goals.push(Goal::Read(Class::Node(Rule::Unit)))?;
    let mut nodes = Nodes::new(alloc);
    let mut at = 0;
    'goals: while let Some(goal) = goals.pop() {
        match make_turn(&mut goals, plan(goal, word_at(source, tokens, at)))? {
            Turn::Do(shape) => nodes.apply(alloc, shape, at as u32)?,
            Turn::Shift => at += 1,
            Turn::Wrong => return Err(ParseFault::Syntax(position_at(source, tokens, at))),
        }
    }
    if at < tokens.len() {
        return Err(ParseFault::Syntax(position_at(source, tokens, at)));
    }
    finish(alloc, source, tokens, nodes)
}

/// The tree of all tokens, unless a node is too deep.
fn finish(alloc: Global, source: &[u8], tokens: &Tokens, nodes: Nodes) -> Result<Raw, ParseFault>
    requires short { length source.now + 1 < 2 ^ 32 }
    requires few { length tokens.now < 2 ^ 32 }
    requires done { IsDone (words_of source.now tokens.now) nodes }
    ensures found { IfOk result (Parsed (words_of source.now tokens.now)) }
    ensures fault { IfErr result (λ e. FaultFits source.now tokens.now e) }
{
    let count = tokens.len();
    let Nodes {
        mut working,
        stretches,
        is_whole,
    } = nodes;
    if let Some(at) = first_deeper(alloc, stretches.as_slice(), count, DEPTH_LIMIT)? {
        return Err(ParseFault::Depth(position_at(source, tokens, at)));
    }
    match working.pop() {
        Some(root) if is_whole => Ok(root.closed(count as u32)),
        _ => Err(ParseFault::NoMemory),
    }
}

/// The word of a token, or `Foreign` at the end.
fn word_at(source: &[u8], tokens: &Tokens, at: usize) -> Word
    ensures { result ≡ look (slice_get (words_of source.now tokens.now) at) }
{
    match tokens.get(at) {
        Some(token) => word_of(source, token),
        None => Word::Foreign,
    }
}

/// Where a token stands, or the end of the source.
fn position_at(source: &[u8], tokens: &Tokens, at: usize) -> Pos
    requires { length source.now + 1 < 2 ^ 32 }
    ensures { StandsAt source.now tokens.now at result }
{
    let place = match tokens.get(at) {
        Some(token) => token.at.start as usize,
        None => source.len(),
    };
    position(source, place)
}

/// The goals of a move, and what it does besides.
fn make_turn(goals: &mut Vec<Goal>, step: Move) -> Result<Turn, AllocError>
    ensures { IfOk result (λ t. Pushed (act_of step) t goals.old.items goals.new.items) }
{
    match step {
        Move::Wrong => Ok(Turn::Wrong),
        Move::Shift(new) => {
            goals.extend_from_slice(new)?;
            Ok(Turn::Shift)
        }
        Move::Do(shape, new) => {
            goals.extend_from_slice(new)?;
            Ok(Turn::Do(shape))
        }
        Move::Next(spot) => {
            goals.push(Goal::At(spot))?;
            Ok(Turn::Shift)
        }
        Move::Part(class, spot) => {
            goals.extend_from_slice(&[Goal::At(spot), Goal::Join, Goal::Read(class)])?;
            Ok(Turn::Do(Shape::Keep))
        }
        Move::Begin(rule) => {
            goals.push(Goal::At(start(rule)))?;
            Ok(Turn::Do(Shape::Begin(rule)))
        }
        Move::Operands(last) => {
            goals.extend_from_slice(&[Goal::Tail(Level::Product, last), Goal::Operand])?;
            Ok(Turn::Do(Shape::Keep))
        }
        Move::Operator(level, last) => {
            goals.extend_from_slice(&[Goal::Tail(level, last), Goal::At(Spot::BinaryOp(level))])?;
            Ok(Turn::Do(Shape::Wrap(Rule::Binary(level))))
        }
        Move::Looser(level, last) => {
            goals.push(Goal::Tail(level, last))?;
            Ok(Turn::Do(Shape::Keep))
        }
    }
}
