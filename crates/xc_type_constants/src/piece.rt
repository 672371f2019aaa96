//! The parts of a constant, by the text alone.

ghost use Rattle.std.specs.Prelude.{◌≡◌, Bool, Some, IfOk, OnOk};
ghost use Rattle.xc_raw.specs.declared.tree.Raw.{out-Raw};
ghost use Rattle.xc_raw.specs.declared.rule.Rule.TheVariants as rule;
ghost use Rattle.xc_type_rule.specs.Least.{least_from, type_fault};
ghost use Rattle.xc_raw_parts.specs.Spans.{span_of};
ghost use Rattle.xc_type_constants.specs.Pieces as spec;
ghost use Rattle.xc_type_constants.specs.InnerPieces as inner_spec;

use crate::part::{
    Part, binary_part, cast_part, cond_part, goes_on, logic_part, number_part, strange, unary_part,
};
use std::alloc::{AllocError, Global};
use xc_lex::Token;
use xc_raw::{Raw, Rule, Word};
use xc_raw_parts::{
    Operator, Prefix, binary_operator, prefix_operator, span_of, specifier_words, star_words,
};
use xc_text_place::Span;
use xc_tree::{BinOp, Ty};
use xc_type_declarators::specifier_type;
use xc_type_literals::Texts;
use xc_type_rule::{Fault, is_number, is_uint, note_type};
use xc_type_rule_operators::Logic;

// Faults.

#[tactic(auto, using(xc_type_rule::proofs::Least::least_rules))]
fn note_where(noted: bool, span: Span, first: &mut Option<Fault>)
    ensures { first.new ≡ least_from first.old (spec.where_true noted (type_fault span)) }
{
    if noted {
        note_type(first, span);
    }
}

#[tactic(auto, using(xc_type_rule::proofs::Least::least_rules))]
fn note_zero(asked: bool, span: Span, op: BinOp, q: Part, first: &mut Option<Fault>)
    ensures { first.new ≡ least_from first.old (spec.where_true asked (spec.zero_divisor op q.value span)) }
{
    match op {
        BinOp::Div | BinOp::Rem => note_where(asked && q.value == Some(0), span, first),
        _ => {}
    }
}

#[tactic(auto, using(xc_type_rule::proofs::Least::least_rules))]
fn refused(span: Span, first: &mut Option<Fault>) -> Part
    ensures part { result ≡ spec.strange }
    ensures first { first.new ≡ least_from first.old (type_fault span) }
{
    note_type(first, span);
    strange()
}

#[tactic(auto, using(xc_type_rule::proofs::Least::least_rules))]
fn of_token(tokens: &[Token], texts: &Texts, node: &Raw, first: &mut Option<Fault>) -> Part
    ensures part { result ≡ (spec.piece_of_token tokens.now texts.now.constants.items node.now).part }
    ensures first { (asked : Bool) → first.new ≡ least_from first.old ((spec.piece_of_token tokens.now texts.now.constants.items node.now).faults asked) }
{
    match texts.constant(node.first as usize) {
        Some(number) => number_part(number),
        None => refused(span_of(tokens, node), first),
    }
}

fn unsigned_of(ty: &Ty) -> Option<bool>
    ensures { result ≡ spec.unsigned_of ty.now }
{
    if is_number(ty) {
        Some(is_uint(ty))
    } else {
        None
    }
}

// The faults of the specifiers are told where the cast is judged.
fn cast_unsigned(alloc: Global, words: &[Word], stars: &[Word]) -> Result<Option<bool>, AllocError>
    ensures { IfOk result (λ r. r ≡ spec.cast_unsigned words.now stars.now) }
{
    match stars {
        [] => {
            let mut told: Option<Fault> = None;
            let nowhere = Span { start: 0, end: 0 };
            match specifier_type(alloc, nowhere, true, words, None, &mut told)? {
                None => Ok(None),
                Some(ty) => Ok(unsigned_of(&ty)),
            }
        }
        _ => Ok(None),
    }
}

fn cast_to(
    alloc: Global,
    source: &[u8],
    tokens: &[Token],
    node: &Raw,
    specs: &Raw,
) -> Result<Option<bool>, AllocError>
    ensures { IfOk result (λ r. r ≡ spec.cast_to source.now tokens.now node.now (Some specs.now)) }
{
    let stars = star_words(alloc, source, tokens, specs.end, node.end)?;
    let words = specifier_words(alloc, source, tokens, specs)?;
    cast_unsigned(alloc, words.as_slice(), stars.as_slice())
}

// Nodes.

/// A part of a constant, which is evaluated if `asked`.
#[cycle(constant)]
#[tactic(auto, using(crate::proofs::Nodes::piece_rules), unfolding(crate::specs::Pieces::piece_by))]
fn piece(
    alloc: Global,
    source: &[u8],
    tokens: &[Token],
    texts: &Texts,
    node: &Raw,
    asked: bool,
    first: &mut Option<Fault>,
) -> Result<Part, AllocError>
    ensures part { IfOk result (λ r. r ≡ (spec.piece_in source.now tokens.now texts.now.constants.items node.now).part) }
    ensures first { OnOk result (first.new ≡ least_from first.old ((spec.piece_in source.now tokens.now texts.now.constants.items node.now).faults asked)) }
{
    match node.rule {
        Rule::Prim => enclosed_part(alloc, source, tokens, texts, node, asked, first),
        Rule::Unary => prefix_part(alloc, source, tokens, texts, node, asked, first),
        Rule::Binary(_) => operator_part(alloc, source, tokens, texts, node, asked, first),
        Rule::Cond => chosen_part(alloc, source, tokens, texts, node, asked, first),
        Rule::Cast => casted_part(alloc, source, tokens, texts, node, asked, first),
        _ => Ok(refused(span_of(tokens, node), first)),
    }
}

#[cycle(constant)]
#[tactic(auto, using(crate::proofs::Nodes::piece_rules), unfolding(crate::specs::Pieces::piece_by))]
fn enclosed_part(
    alloc: Global,
    source: &[u8],
    tokens: &[Token],
    texts: &Texts,
    node: &Raw,
    asked: bool,
    first: &mut Option<Fault>,
) -> Result<Part, AllocError>
    ensures part { IfOk result (λ r. r ≡ (spec.piece_by source.now tokens.now texts.now.constants.items node.now rule.Prim (inner_spec.pieces_in source.now tokens.now texts.now.constants.items (out-Raw node.now).parts)).part) }
    ensures first { OnOk result (first.new ≡ least_from first.old ((spec.piece_by source.now tokens.now texts.now.constants.items node.now rule.Prim (inner_spec.pieces_in source.now tokens.now texts.now.constants.items (out-Raw node.now).parts)).faults asked)) }
{
    match node.parts.as_slice() {
        [] => Ok(of_token(tokens, texts, node, first)),
        [p] => piece(alloc, source, tokens, texts, p, asked, first),
        _ => Ok(refused(span_of(tokens, node), first)),
    }
}

#[cycle(constant)]
#[tactic(auto, using(crate::proofs::Nodes::piece_rules), unfolding(crate::specs::Pieces::piece_by))]
fn prefix_part(
    alloc: Global,
    source: &[u8],
    tokens: &[Token],
    texts: &Texts,
    node: &Raw,
    asked: bool,
    first: &mut Option<Fault>,
) -> Result<Part, AllocError>
    ensures part { IfOk result (λ r. r ≡ (spec.piece_by source.now tokens.now texts.now.constants.items node.now rule.Unary (inner_spec.pieces_in source.now tokens.now texts.now.constants.items (out-Raw node.now).parts)).part) }
    ensures first { OnOk result (first.new ≡ least_from first.old ((spec.piece_by source.now tokens.now texts.now.constants.items node.now rule.Unary (inner_spec.pieces_in source.now tokens.now texts.now.constants.items (out-Raw node.now).parts)).faults asked)) }
{
    let span = span_of(tokens, node);
    match node.parts.as_slice() {
        [p] => match prefix_operator(source, tokens, node) {
            Some(Prefix::Plus) => piece(alloc, source, tokens, texts, p, asked, first),
            Some(Prefix::Value(op)) => {
                let p = piece(alloc, source, tokens, texts, p, asked, first)?;
                Ok(unary_part(op, p))
            }
            Some(Prefix::Step(_) | Prefix::Address | Prefix::Star) => Ok(refused(span, first)),
            None => Ok(refused(span, first)),
        },
        _ => Ok(refused(span, first)),
    }
}

#[cycle(constant)]
#[tactic(auto, using(crate::proofs::Nodes::piece_rules), unfolding(crate::specs::Pieces::piece_by))]
fn operator_part(
    alloc: Global,
    source: &[u8],
    tokens: &[Token],
    texts: &Texts,
    node: &Raw,
    asked: bool,
    first: &mut Option<Fault>,
) -> Result<Part, AllocError>
    ensures part { IfOk result (λ r. r ≡ (spec.binary_by source.now tokens.now node.now (inner_spec.pieces_in source.now tokens.now texts.now.constants.items (out-Raw node.now).parts)).part) }
    ensures first { OnOk result (first.new ≡ least_from first.old ((spec.binary_by source.now tokens.now node.now (inner_spec.pieces_in source.now tokens.now texts.now.constants.items (out-Raw node.now).parts)).faults asked)) }
{
    let span = span_of(tokens, node);
    match node.parts.as_slice() {
        [a, b] => match binary_operator(source, tokens, node) {
            Some(Operator::Value(op)) => {
                let p = piece(alloc, source, tokens, texts, a, asked, first)?;
                let q = piece(alloc, source, tokens, texts, b, asked, first)?;
                note_zero(asked, span, op, q, first);
                Ok(binary_part(op, p, q))
            }
            Some(Operator::And) => {
                let p = piece(alloc, source, tokens, texts, a, asked, first)?;
                let on = asked && goes_on(Logic::And, p.value);
                let q = piece(alloc, source, tokens, texts, b, on, first)?;
                Ok(logic_part(Logic::And, p, q))
            }
            Some(Operator::Or) => {
                let p = piece(alloc, source, tokens, texts, a, asked, first)?;
                let on = asked && goes_on(Logic::Or, p.value);
                let q = piece(alloc, source, tokens, texts, b, on, first)?;
                Ok(logic_part(Logic::Or, p, q))
            }
            None => Ok(refused(span, first)),
        },
        _ => Ok(refused(span, first)),
    }
}

#[cycle(constant)]
#[tactic(auto, using(crate::proofs::Nodes::piece_rules), unfolding(crate::specs::Pieces::piece_by))]
fn chosen_part(
    alloc: Global,
    source: &[u8],
    tokens: &[Token],
    texts: &Texts,
    node: &Raw,
    asked: bool,
    first: &mut Option<Fault>,
) -> Result<Part, AllocError>
    ensures part { IfOk result (λ r. r ≡ (spec.piece_by source.now tokens.now texts.now.constants.items node.now rule.Cond (inner_spec.pieces_in source.now tokens.now texts.now.constants.items (out-Raw node.now).parts)).part) }
    ensures first { OnOk result (first.new ≡ least_from first.old ((spec.piece_by source.now tokens.now texts.now.constants.items node.now rule.Cond (inner_spec.pieces_in source.now tokens.now texts.now.constants.items (out-Raw node.now).parts)).faults asked)) }
{
    match node.parts.as_slice() {
        [test, a, b] => {
            let test = piece(alloc, source, tokens, texts, test, asked, first)?;
            let holds = asked && goes_on(Logic::And, test.value);
            let fails = asked && goes_on(Logic::Or, test.value);
            let p = piece(alloc, source, tokens, texts, a, holds, first)?;
            let q = piece(alloc, source, tokens, texts, b, fails, first)?;
            Ok(cond_part(test, p, q))
        }
        _ => Ok(refused(span_of(tokens, node), first)),
    }
}

#[cycle(constant)]
#[tactic(auto, using(crate::proofs::Nodes::piece_rules), unfolding(crate::specs::Pieces::piece_by))]
fn casted_part(
    alloc: Global,
    source: &[u8],
    tokens: &[Token],
    texts: &Texts,
    node: &Raw,
    asked: bool,
    first: &mut Option<Fault>,
) -> Result<Part, AllocError>
    ensures part { IfOk result (λ r. r ≡ (spec.piece_by source.now tokens.now texts.now.constants.items node.now rule.Cast (inner_spec.pieces_in source.now tokens.now texts.now.constants.items (out-Raw node.now).parts)).part) }
    ensures first { OnOk result (first.new ≡ least_from first.old ((spec.piece_by source.now tokens.now texts.now.constants.items node.now rule.Cast (inner_spec.pieces_in source.now tokens.now texts.now.constants.items (out-Raw node.now).parts)).faults asked)) }
{
    match node.parts.as_slice() {
        [specs, a] => {
            let unsigned = cast_to(alloc, source, tokens, node, specs)?;
            let p = piece(alloc, source, tokens, texts, a, asked, first)?;
            Ok(cast_part(unsigned, p))
        }
        _ => Ok(refused(span_of(tokens, node), first)),
    }
}

/// The value of an integer constant expression. Where it is none, each part that a constant may not hold and each division
/// by 0 that is evaluated breaks a rule. What else it breaks, `found` tells.
#[tactic(auto, using(crate::proofs::Nodes::piece_rules))]
pub fn constant(
    alloc: Global,
    source: &[u8],
    tokens: &[Token],
    texts: &Texts,
    node: &Raw,
    first: &mut Option<Fault>,
) -> Result<Option<u64>, AllocError>
    ensures value { IfOk result (λ r. r ≡ spec.constant_value (spec.piece_in source.now tokens.now texts.now.constants.items node.now)) }
    ensures first { OnOk result (first.new ≡ least_from first.old (spec.constant_faults (spec.piece_in source.now tokens.now texts.now.constants.items node.now))) }
{
    let Part { value, pure, .. } = piece(alloc, source, tokens, texts, node, true, first)?;
    Ok(if pure { value } else { None })
}
