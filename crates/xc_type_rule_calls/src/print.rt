//! Calls of `printf`.

ghost use Rattle.std.specs.Prelude.{◌≡◌, IfOk, OnOk, option_map, length};
ghost use Rattle.xc_tree.specs.Formats.{integers_taken};
ghost use Rattle.xc_type_rule.specs.Least.{least_from};
ghost use Rattle.xc_type_rule_calls.specs.Prints as spec;

use crate::arguments::{all_made, ruled};
use crate::calls::misused;
use std::alloc::{AllocError, Global};
use xc_hold::kept;
use xc_text_format::conversions;
use xc_text_place::Span;
use xc_tree::{ExprKind, Ty};
use xc_type_rule::{Fault, Found, Known, found_by, may_be_number, note_type};

/// The text of a `printf`: where it stands, its number among the texts, and how many integers it takes, or none where it
/// is no format.
#[derive(Drop, Clone, Copy)]
pub struct Text {
    pub span: Span,
    pub number: u32,
    pub takes: Option<usize>,
}

/// How many integers a text takes. None where it is no format.
#[tactic(auto, using(crate::proofs::Formats::format_rules))]
pub fn integers_taken(format: &[u8]) -> Option<usize>
    ensures { result ≡ integers_taken format.now }
{
    conversions(format)
}

fn all_numbers(args: &[Found]) -> bool
    ensures { result ≡ spec.all_numbers args.now }
{
    for arg in args {
        if !may_be_number(&arg.known) {
            return false;
        }
    }
    true
}

fn so_many(takes: Option<usize>, count: usize) -> bool
    ensures { result ≡ spec.so_many takes count }
{
    match takes {
        None => true,
        Some(takes) => takes == count,
    }
}

#[tactic(auto, unfolding(crate::specs::Prints::print_ruling))]
fn print_ruling(takes: Option<usize>, args: &[Found]) -> Option<Known>
    ensures { result ≡ spec.print_ruling takes args.now }
{
    let keeps = so_many(takes, args.len()) && all_numbers(args);
    ruled(keeps, Known::Value(Ty::Void))
}

fn is_short(takes: Option<usize>) -> bool
    ensures { result ≡ spec.is_short takes }
{
    match takes {
        None => false,
        Some(takes) => takes <= 8,
    }
}

#[tactic(auto, unfolding(crate::specs::Prints::print_kind))]
fn print_kind(alloc: Global, text: Text, args: Vec<Found>) -> Result<Option<ExprKind>, AllocError>
    ensures { IfOk result (λ r. r ≡ spec.print_kind text args.items) }
{
    if !is_short(text.takes) {
        return Ok(None);
    }
    match all_made(alloc, args)? {
        None => Ok(None),
        Some(args) => Ok(Some(ExprKind::Print {
            format: text.number,
            args,
        })),
    }
}

#[tactic(auto, using(xc_type_rule::proofs::Least::least_rules))]
fn note_format(text: Text, first: &mut Option<Fault>)
    ensures { first.new ≡ least_from first.old (spec.format_faults text) }
{
    if text.takes.is_none() {
        note_type(first, text.span);
    }
}

/// A call of `printf` with these arguments after its first one, which is the text, or none where no text stands there. It
/// is void.
#[tactic(auto, using(xc_type_rule::proofs::Least::least_rules), unfolding(crate::specs::Prints::print_part, crate::specs::Prints::print_faults))]
pub fn printed(
    alloc: Global,
    span: Span,
    text: Option<Text>,
    args: Vec<Found>,
    first: &mut Option<Fault>,
) -> Result<Found, AllocError>
    ensures part { IfOk result (λ r. r ≡ spec.print_part span text args.items) }
    ensures first { OnOk result (first.new ≡ least_from first.old (spec.print_faults span text args.items)) }
{
    match text {
        None => Ok(misused(span, first)),
        Some(text) => {
            note_format(text, first);
            let ruling = print_ruling(text.takes, args.as_slice());
            let (kind, ruling) = kept(print_kind(alloc, text, args), ruling)?;
            found_by(alloc, span, ruling, kind, first)
        }
    }
}

/// The byte where the ninth argument of a `printf` begins, which is one too many, where its text takes all of them.
/// `spans` has the bytes of each argument.
#[tactic(auto, unfolding(crate::specs::Prints::ninth_of))]
pub fn ninth(text: Option<Text>, spans: &[Span]) -> Option<u32>
    ensures { result ≡ spec.ninth_of text spans.now }
{
    match text {
        None => None,
        Some(text) => {
            if text.takes != Some(spans.len()) {
                return None;
            }
            match spans.get(8) {
                None => None,
                Some(span) => Some(span.start),
            }
        }
    }
}
