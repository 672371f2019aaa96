//! Names, constants and members, by parts that are judged.

ghost use Rattle.std.specs.Prelude.{◌≡◌, IfOk};
ghost use Rattle.std.specs.Option.{option_copied};
ghost use Rattle.xc_type_scopes.specs.Judge.{Judges};
ghost use Rattle.xc_type_scopes.specs.InnerTold.{Tells};
ghost use Rattle.xc_type_expressions.specs.Places as spec;

use crate::text::Text;
use std::alloc::{AllocError, Global};
use xc_lex::Number;
use xc_raw::{Literal, Word};
use xc_raw_parts::word_at;
use xc_text_place::Span;
use xc_type_names::reserved_of;
use xc_type_rule::{Fault, Found, Member, note_type, unknown_place};
use xc_type_rule_operators::number;
use xc_type_rule_places::{arrow, arrow_owner, dot, dot_owner, name};
use xc_type_scopes::Env;

/// An expression of one name.
#[tactic(auto, using(xc_type_rule::proofs::Least::least_rules), unfolding(crate::specs::Places::named))]
pub fn named(
    alloc: Global,
    env: &Env,
    span: Span,
    number: Option<u32>,
    first: &mut Option<Fault>,
) -> Result<Found, AllocError>
    ensures { IfOk result (λ r. Judges (spec.named span number) env.now env.now first.old first.new r) }
{
    match number {
        None => Ok(unknown_place()),
        Some(number) => {
            if reserved_of(number).is_some() {
                note_type(first, span);
                return Ok(unknown_place());
            }
            name(alloc, span, env.find(number), first)
        }
    }
}

#[tactic(auto, using(xc_type_rule::proofs::Least::least_rules))]
fn constant(
    alloc: Global,
    span: Span,
    value: Option<Number>,
    first: &mut Option<Fault>,
) -> Result<Found, AllocError>
    ensures { IfOk result (λ r. Tells (spec.constant span value) first.old first.new r) }
{
    match value {
        None => Ok(unknown_place()),
        Some(Number { value, unsigned }) => number(alloc, span, value, unsigned),
    }
}

/// An expression of one token.
#[tactic(auto, using(xc_type_rule::proofs::Least::least_rules), unfolding(crate::specs::Places::of_word))]
pub(crate) fn of_token(
    alloc: Global,
    text: &Text,
    env: &Env,
    span: Span,
    token: usize,
    first: &mut Option<Fault>,
) -> Result<Found, AllocError>
    ensures { IfOk result (λ r. Judges (spec.of_token text.now span token) env.now env.now first.old first.new r) }
{
    match word_at(text.source, text.tokens, token) {
        Word::Name => named(alloc, env, span, text.name_of(token), first),
        Word::Literal(Literal::Number) => {
            let value = text.texts.constant(token);
            constant(alloc, span, value, first)
        }
        _ => {
            note_type(first, span);
            Ok(unknown_place())
        }
    }
}

fn member_in(env: &Env, owner: Option<u32>, name: Option<u32>) -> Option<&Member>
    ensures { option_copied result ≡ spec.member_in env.now owner name }
{
    env.structs().member(owner?, name?)
}

fn mixes_in(env: &Env, owner: Option<u32>) -> bool
    ensures { result ≡ spec.mixes_in env.now owner }
{
    match owner {
        None => false,
        Some(number) => env.structs().mixes(number),
    }
}

/// `a.name`
#[tactic(auto, using(xc_type_rule::proofs::Least::least_rules))]
pub fn dotted(
    alloc: Global,
    env: &Env,
    span: Span,
    at: Span,
    name: Option<u32>,
    a: Found,
    first: &mut Option<Fault>,
) -> Result<Found, AllocError>
    ensures { IfOk result (λ r. Judges (spec.dotted span at name a) env.now env.now first.old first.new r) }
{
    let owner = dot_owner(&a.known);
    let member = member_in(env, owner, name);
    dot(alloc, span, at, member, mixes_in(env, owner), a, first)
}

/// `p->name`
#[tactic(auto, using(xc_type_rule::proofs::Least::least_rules))]
pub fn arrowed(
    alloc: Global,
    env: &Env,
    span: Span,
    at: Span,
    name: Option<u32>,
    p: Found,
    first: &mut Option<Fault>,
) -> Result<Found, AllocError>
    ensures { IfOk result (λ r. Judges (spec.arrowed span at name p) env.now env.now first.old first.new r) }
{
    let owner = arrow_owner(&p.known);
    let member = member_in(env, owner, name);
    arrow(alloc, span, at, member, mixes_in(env, owner), p, first)
}
