//! Members of structs.

ghost use Rattle.std.specs.Prelude.{◌≡◌, IfOk, OnOk, option_map};
ghost use Rattle.std.specs.Option.{option_copied};
ghost use Rattle.xc_tree.specs.Types.{struct_of};
ghost use Rattle.xc_type_rule.specs.Least.{least_from};
ghost use Rattle.xc_type_rule_places.specs.Rulings as rulings;
ghost use Rattle.xc_type_rule_places.specs.Places as spec;

use sqlite_items::Boxed;
use std::alloc::{AllocError, Global};
use xc_text_place::Span;
use xc_tree::{Expr, ExprKind, Ty};
use xc_type_rule::{
    Fault, Found, Known, Member, declared_place, is_unknown, may_be_place, note_name, note_type,
    unknown_place,
};

fn struct_of(ty: &Ty) -> Option<u32>
    ensures { result ≡ struct_of ty.now }
{
    match ty {
        Ty::Struct(number) => Some(*number),
        _ => None,
    }
}

/// The struct that `.` goes into, by number, if there is one.
pub fn dot_owner(known: &Known) -> Option<u32>
    ensures { result ≡ rulings.dot_owner known.now }
{
    match known {
        Known::Place { ty, .. } => struct_of(ty),
        _ => None,
    }
}

/// The struct that `->` goes into, by number, if there is one.
pub fn arrow_owner(known: &Known) -> Option<u32>
    ensures { result ≡ rulings.arrow_owner known.now }
{
    match known {
        Known::Value(Ty::Ptr(to)) => struct_of(to.get()),
        _ => None,
    }
}

fn lies_within(known: &Known) -> bool
    ensures { result ≡ rulings.lies_within known.now }
{
    match known {
        Known::Place { within, .. } => *within,
        _ => false,
    }
}

fn member_of(alloc: Global, off: u32, made: Option<Expr>) -> Result<Option<ExprKind>, AllocError>
    ensures { IfOk result (λ r. r ≡ option_map (spec.member_of off) made) }
{
    match made {
        None => Ok(None),
        Some(e) => Ok(Some(ExprKind::Member {
            base: Boxed::new(alloc, e)?,
            off,
        })),
    }
}

#[tactic(auto, unfolding(crate::specs::Places::member_part))]
fn member_part(
    alloc: Global,
    span: Span,
    within: bool,
    owner: Option<u32>,
    member: Option<&Member>,
    made: Option<Expr>,
) -> Result<Found, AllocError>
    ensures { IfOk result (λ r. r ≡ spec.member_part span within owner (option_copied member.entry) made) }
{
    match (owner, member) {
        (Some(_), Some(m)) => {
            let kind = member_of(alloc, m.off, made)?;
            declared_place(alloc, span, m.ty.as_ref(), within, kind)
        }
        (Some(_), None) => {
            drop(made);
            Ok(unknown_place())
        }
        (None, _) => {
            drop(made);
            Ok(unknown_place())
        }
    }
}

#[tactic(auto, using(xc_type_rule::proofs::Least::least_rules), unfolding(crate::specs::Places::member_faults))]
fn note_member(
    span: Span,
    at: Span,
    excused: bool,
    owner: Option<u32>,
    member: Option<&Member>,
    first: &mut Option<Fault>,
)
    ensures { first.new ≡ least_from first.old (spec.member_faults span at excused owner (option_copied member.entry)) }
{
    match (owner, member) {
        (Some(_), Some(_)) => {}
        (Some(_), None) => note_name(first, at),
        (None, _) => {
            if !excused {
                note_type(first, span);
            }
        }
    }
}

/// `a.name` of a place. `member` is what the struct has under the name, which `at` covers, if it has that, and `mixes` says
/// whether the struct mixes a pointer with a cell of another type.
pub fn dot(
    alloc: Global,
    span: Span,
    at: Span,
    member: Option<&Member>,
    mixes: bool,
    a: Found,
    first: &mut Option<Fault>,
) -> Result<Found, AllocError>
    ensures part { IfOk result (λ r. r ≡ spec.dot_part span (option_copied member.entry) mixes a) }
    ensures first { OnOk result (first.new ≡ least_from first.old (spec.dot_faults span at (option_copied member.entry) a)) }
{
    let Found { known, made } = a;
    let owner = dot_owner(&known);
    note_member(span, at, may_be_place(&known), owner, member, first);
    let within = lies_within(&known) || mixes;
    drop(known);
    member_part(alloc, span, within, owner, member, made)
}

/// `p->name` of a value, likewise.
pub fn arrow(
    alloc: Global,
    span: Span,
    at: Span,
    member: Option<&Member>,
    mixes: bool,
    p: Found,
    first: &mut Option<Fault>,
) -> Result<Found, AllocError>
    ensures part { IfOk result (λ r. r ≡ spec.arrow_part span (option_copied member.entry) mixes p) }
    ensures first { OnOk result (first.new ≡ least_from first.old (spec.arrow_faults span at (option_copied member.entry) p)) }
{
    let Found { known, made } = p;
    let owner = arrow_owner(&known);
    note_member(span, at, is_unknown(&known), owner, member, first);
    drop(known);
    member_part(alloc, span, mixes, owner, member, made)
}
