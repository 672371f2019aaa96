//! Calls, by what is found of their arguments.

ghost use Rattle.std.specs.Prelude.{◌≡◌, map, option_and_then, IfOk};
ghost use Rattle.xc_type_scopes.specs.Judge.{Judges};
ghost use Rattle.xc_type_scopes.specs.InnerTold.{Tells};
ghost use Rattle.xc_type_names.specs.Numbered.{reserved_of};
ghost use Rattle.xc_type_expressions.specs.Places.{alone_in};
ghost use Rattle.xc_type_expressions.specs.Judged.{judged};
ghost use Rattle.xc_type_expressions.specs.Calls as spec;

use crate::text::Text;
use sqlite_items::Items;
use std::alloc::{AllocError, Global};
use xc_raw::{Raw, Rule};
use xc_raw_parts::{span_of, spot};
use xc_text_place::Span;
use xc_type_names::{Reserved, reserved_of};
use xc_type_rule::{Fault, Found};
use xc_type_rule_calls::{Text as Format, access, call, misused, ninth, printed, update};
use xc_type_scopes::Env;
use xc_word::Kind;

/// The token that an expression is, where it is one.
pub(crate) fn alone(node: &Raw) -> Option<usize>
    ensures { result ≡ alone_in node.now }
{
    match node.rule {
        Rule::Prim => match node.parts.as_slice() {
            [] => Some(node.first as usize),
            _ => None,
        },
        _ => None,
    }
}

/// The name that an expression is, where it is one.
#[tactic(auto, using(crate::proofs::Roles::judge_rules))]
pub(crate) fn named_by(text: &Text, node: &Raw) -> Option<u32>
    ensures { result ≡ spec.named_by text.now (judged text.now node.now) }
{
    text.name_at(alone(node))
}

#[tactic(auto, using(crate::proofs::Roles::judge_rules))]
fn text_of(text: &Text, node: &Raw) -> Option<Format>
    ensures { result ≡ spec.text_of text.now (judged text.now node.now) }
{
    let token = alone(node)?;
    let literal = text.texts.literal(token)?;
    Some(Format {
        span: spot(text.tokens, token),
        number: literal.number,
        takes: literal.takes,
    })
}

fn is_printf(reserved: Option<Reserved>) -> bool
    ensures { result ≡ spec.is_printf reserved }
{
    matches!(reserved, Some(Reserved::Printf))
}

fn reserved_by(text: &Text, node: &Raw) -> Option<Reserved>
    ensures { result ≡ option_and_then reserved_of (spec.named_by text.now (judged text.now node.now)) }
{
    reserved_of(named_by(text, node)?)
}

/// The text of a `printf`, where a call begins with that name and a text.
pub(crate) fn format_of(text: &Text, f: &Raw, p: &Raw) -> Option<Format>
    ensures { result ≡ spec.format_of text.now (judged text.now f.now) (judged text.now p.now) }
{
    if is_printf(reserved_by(text, f)) {
        text_of(text, p)
    } else {
        None
    }
}

#[tactic(auto, using(crate::proofs::Roles::judge_rules))]
fn spans_of(alloc: Global, text: &Text, nodes: &[Raw]) -> Result<Items<Span>, AllocError>
    ensures { IfOk result (λ r. r ≡ spec.spans_of (map (judged text.now) nodes.now)) }
{
    let mut spans = Items::new(alloc);
    for node in nodes {
        spans.push(span_of(text.tokens, node))?;
    }
    Ok(spans)
}

/// A `printf` of this text and these values, which the nodes have.
#[tactic(auto, using(xc_type_rule::proofs::Least::least_rules))]
pub(crate) fn printing(
    alloc: Global,
    text: &Text,
    env: &mut Env,
    span: Span,
    format: Format,
    nodes: &[Raw],
    values: Vec<Found>,
    first: &mut Option<Fault>,
) -> Result<Found, AllocError>
    ensures { IfOk result (λ r. Judges (spec.printing span format (spec.spans_of (map (judged text.now) nodes.now)) values.items) env.old env.new first.old first.new r) }
{
    let spans = spans_of(alloc, text, nodes)?;
    env.pass(ninth(Some(format), spans.as_slice()));
    printed(alloc, span, Some(format), values, first)
}

// The only one, if there is one alone.
#[tactic(auto, using(crate::proofs::Few::few_rules))]
fn one_of(values: Vec<Found>) -> Option<Found>
    ensures { result ≡ spec.one_of values.items }
{
    let mut values = values;
    let last = values.pop()?;
    if values.len() == 0 {
        Some(last)
    } else {
        drop(last);
        None
    }
}

// The two, if there are no others.
#[tactic(auto, using(crate::proofs::Few::few_rules))]
fn two_of(values: Vec<Found>) -> Option<(Found, Found)>
    ensures { result ≡ spec.two_of values.items }
{
    let mut values = values;
    let last = values.pop()?;
    match one_of(values) {
        Some(one) => Some((one, last)),
        None => {
            drop(last);
            None
        }
    }
}

#[tactic(auto, using(xc_type_rule::proofs::Least::least_rules))]
fn accessing(
    alloc: Global,
    span: Span,
    kind: Kind,
    values: Vec<Found>,
    first: &mut Option<Fault>,
) -> Result<Found, AllocError>
    ensures { IfOk result (λ r. Tells (spec.accessing span kind values.items) first.old first.new r) }
{
    match one_of(values) {
        None => Ok(misused(span, first)),
        Some(p) => access(alloc, span, kind, p, first),
    }
}

#[tactic(auto, using(xc_type_rule::proofs::Least::least_rules))]
fn updating(
    alloc: Global,
    span: Span,
    kind: Kind,
    values: Vec<Found>,
    first: &mut Option<Fault>,
) -> Result<Found, AllocError>
    ensures { IfOk result (λ r. Tells (spec.updating span kind values.items) first.old first.new r) }
{
    match two_of(values) {
        None => Ok(misused(span, first)),
        Some((p, v)) => update(alloc, span, kind, p, v, first),
    }
}

#[tactic(auto, using(xc_type_rule::proofs::Least::least_rules), unfolding(crate::specs::Calls::calling_reserved))]
fn calling_reserved(
    alloc: Global,
    span: Span,
    reserved: Reserved,
    values: Vec<Found>,
    first: &mut Option<Fault>,
) -> Result<Found, AllocError>
    ensures { IfOk result (λ r. Tells (spec.calling_reserved span reserved values.items) first.old first.new r) }
{
    match reserved {
        Reserved::Printf => {
            drop(values);
            Ok(misused(span, first))
        }
        Reserved::ReadFe => accessing(alloc, span, Kind::ReadFe, values, first),
        Reserved::ReadFf => accessing(alloc, span, Kind::ReadFf, values, first),
        Reserved::ReadXx => accessing(alloc, span, Kind::ReadXx, values, first),
        Reserved::Purge => accessing(alloc, span, Kind::Purge, values, first),
        Reserved::WriteEf => updating(alloc, span, Kind::WriteEf, values, first),
        Reserved::WriteFf => updating(alloc, span, Kind::WriteFf, values, first),
        Reserved::WriteXf => updating(alloc, span, Kind::WriteXf, values, first),
        Reserved::FetchAdd => updating(alloc, span, Kind::Add, values, first),
    }
}

/// A call by a name, which `at` covers.
#[tactic(auto, using(xc_type_rule::proofs::Least::least_rules), unfolding(crate::specs::Calls::calling))]
pub(crate) fn calling(
    alloc: Global,
    env: &Env,
    span: Span,
    at: Span,
    name: u32,
    values: Vec<Found>,
    first: &mut Option<Fault>,
) -> Result<Found, AllocError>
    ensures { IfOk result (λ r. Judges (spec.calling span at name (reserved_of name) values.items) env.now env.now first.old first.new r) }
{
    match reserved_of(name) {
        Some(reserved) => calling_reserved(alloc, span, reserved, values, first),
        None => call(alloc, span, at, env.find(name), values, first),
    }
}
