//! Declarators.

ghost use Rattle.std.specs.Prelude.{◌≡◌, ◌≤◌, ◌*◌, ◌^◌, length, IfOk};
ghost use Rattle.xc_type_rule.specs.Least.{least_from};
ghost use Rattle.xc_type_declarators.specs.Declarators as spec;
ghost use Rattle.xc_type_declarators.specs.Specifiers.{often};

use crate::specifiers::{Mark, marked};
use sqlite_items::Boxed;
use std::alloc::{AllocError, Global};
use xc_raw::{Qualifier, Word};
use xc_tree::{Span, Ty};
use xc_type_rule::{Fault, cells, is_plain, is_void, note_type};

// The most cells of a type, and the largest bound of an array.
const MOST: u64 = 4_194_304;

/// The most stars of a declarator, and the most bounds of one (C99 5.2.4.1 asks for 12 of both). A declarator that has
/// more is answered as want of memory: a type is copied, compared and dropped level by level.
pub const MOST_DERIVATIONS: usize = 64;

/// What a declarator makes of a type: none where it is unknown because of a fault, and not sound where the declarator
/// itself breaks a rule.
#[derive(Drop)]
pub struct Typing {
    pub ty: Option<Ty>,
    pub sound: bool,
}

/// A bound of an array. Its value is none where it is unknown because of a fault;
/// a negative one is its word modulo 2^64.
#[derive(Clone, Copy)]
pub struct Bound {
    pub span: Span,
    pub value: Option<u64>,
}

// A type in the making: so far its stars, and the qualifier of the last one.
#[derive(Drop)]
struct Pointed {
    ty: Option<Ty>,
    mark: Mark,
    sound: bool,
}

fn agrees(was: Mark, mark: Mark) -> bool
    ensures { result ≡ spec.agrees was mark }
{
    match (was, mark) {
        (Mark::Plain, _) => true,
        (Mark::Sync, Mark::Sync) => true,
        (Mark::Future, Mark::Future) => true,
        _ => false,
    }
}

fn closed(alloc: Global, p: Pointed) -> Result<Option<Ty>, AllocError>
    ensures { IfOk result (λ r. r ≡ spec.closed p) }
{
    let Pointed { ty, mark, sound: _ } = p;
    match ty {
        None => Ok(None),
        Some(ty) => Ok(Some(marked(alloc, mark, ty)?)),
    }
}

fn qualified(mark: Mark, p: Pointed) -> Pointed
    ensures { result ≡ spec.qualified mark p }
{
    let sound = p.sound && agrees(p.mark, mark);
    Pointed {
        ty: p.ty,
        mark,
        sound,
    }
}

fn may_be_pointed_to(ty: &Option<Ty>) -> bool
    ensures { result ≡ spec.may_be_pointed_to ty.now }
{
    match ty {
        None => true,
        Some(ty) => !is_void(ty),
    }
}

fn starred(alloc: Global, p: Pointed) -> Result<Pointed, AllocError>
    ensures { IfOk result (λ r. r ≡ spec.starred p) }
{
    let sound = p.sound && may_be_pointed_to(&p.ty);
    match closed(alloc, p)? {
        None => Ok(Pointed {
            ty: None,
            mark: Mark::Plain,
            sound,
        }),
        Some(to) => Ok(Pointed {
            ty: Some(Ty::Ptr(Boxed::new(alloc, to)?)),
            mark: Mark::Plain,
            sound,
        }),
    }
}

fn pointed_step(alloc: Global, p: Pointed, word: Word) -> Result<Pointed, AllocError>
    ensures { IfOk result (λ r. r ≡ spec.pointed_step p word) }
{
    match word {
        Word::Star => Ok(starred(alloc, p)?),
        Word::Qualifier(Qualifier::Sync) => Ok(qualified(Mark::Sync, p)),
        Word::Future => Ok(qualified(Mark::Future, p)),
        _ => Ok(p),
    }
}

fn typing_of(alloc: Global, p: Pointed) -> Result<Typing, AllocError>
    ensures { IfOk result (λ r. r ≡ spec.typing_of p) }
{
    if !p.sound {
        return Ok(Typing {
            ty: None,
            sound: false,
        });
    }
    Ok(Typing {
        ty: closed(alloc, p)?,
        sound: true,
    })
}

fn stars(words: &[Word]) -> usize
    ensures { result ≡ often spec.is_star words.now }
{
    words.iter().filter(|w| matches!(**w, Word::Star)).count()
}

/// What stars make of the type that specifiers give. The words are the stars and their qualifiers, in order. `base` is
/// none where it is unknown because of a fault.
#[tactic(auto, unfolding(crate::specs::Declarators::pointer_typing))]
pub fn pointer_typing(alloc: Global, base: Option<Ty>, words: &[Word]) -> Result<Typing, AllocError>
    ensures typing { IfOk result (λ r. r ≡ spec.pointer_typing base words.now) }
    ensures few { IfOk result (λ r. often spec.is_star words.now ≤ MOST_DERIVATIONS) }
{
    if stars(words) > MOST_DERIVATIONS {
        return Err(AllocError);
    }
    let mut pointed = Pointed {
        ty: base,
        mark: Mark::Plain,
        sound: true,
    };
    for word in words {
        pointed = pointed_step(alloc, pointed, *word)?;
    }
    typing_of(alloc, pointed)
}

fn number_of(b: Bound) -> Option<u32>
    ensures { result ≡ spec.number_of b }
{
    match b.value {
        Some(n) if 1 <= n && n <= MOST => Some(n as u32),
        _ => None,
    }
}

fn array_ty(alloc: Global, number: Option<u32>, of: Option<Ty>) -> Result<Option<Ty>, AllocError>
    ensures { IfOk result (λ r. r ≡ spec.array_ty number of) }
{
    match (number, of) {
        (Some(n), Some(of)) => Ok(Some(Ty::Array(n, Boxed::new(alloc, of)?))),
        _ => Ok(None),
    }
}

#[tactic(auto, using(crate::proofs::Bounds::array_rules))]
fn arrayed(alloc: Global, bounds: &[Bound], of: Option<Ty>) -> Result<Option<Ty>, AllocError>
    ensures ty { IfOk result (λ r. r ≡ spec.arrayed bounds.now of) }
    ensures few { IfOk result (λ r. length bounds.now ≤ MOST_DERIVATIONS) }
{
    if bounds.len() > MOST_DERIVATIONS {
        return Err(AllocError);
    }
    let mut ty = of;
    let mut left = bounds.len();
    'bounds: while left > 0 {
        left -= 1;
        ty = array_ty(alloc, number_of(bounds[left]), ty)?;
    }
    Ok(ty)
}

fn cells_at_least(sizes: &[u32], ty: &Option<Ty>) -> u64
    ensures { result ≡ spec.cells_at_least sizes.now ty.now }
{
    match ty {
        None => 1,
        Some(ty) => cells(sizes, ty) as u64,
    }
}

fn times(cells: u64, bound: Bound) -> u64
    requires { cells ≤ 2 ^ 22 }
    ensures { result ≡ cells * spec.or_one (spec.number_of bound) }
{
    match number_of(bound) {
        None => cells,
        Some(n) => cells * n as u64,
    }
}

#[tactic(auto, using(crate::proofs::Bounds::cell_rules))]
fn is_complete(sizes: &[u32], ty: &Option<Ty>, bounds: &[Bound]) -> bool
    ensures { result ≡ spec.is_complete sizes.now ty.now bounds.now }
{
    let mut cells = cells_at_least(sizes, ty);
    'bounds: for bound in bounds {
        if cells > MOST {
            return false;
        }
        cells = times(cells, *bound);
    }
    1 <= cells && cells <= MOST
}

fn if_sound(sound: bool, ty: Option<Ty>) -> Typing
    ensures { result ≡ spec.if_sound sound ty }
{
    if sound {
        Typing { ty, sound }
    } else {
        Typing { ty: None, sound }
    }
}

/// The type of an object or a member, where its stars give `typing`. `sizes` are those of the structs, 0 for one that
/// is not complete. The bounds are told by `note_bounds`.
#[tactic(auto, unfolding(crate::specs::Declarators::object_typing))]
pub fn object_typing(
    alloc: Global,
    sizes: &[u32],
    typing: Typing,
    bounds: &[Bound],
) -> Result<Typing, AllocError>
    ensures typing { IfOk result (λ r. r ≡ spec.object_typing sizes.now typing bounds.now) }
    ensures few { IfOk result (λ r. length bounds.now ≤ MOST_DERIVATIONS) }
{
    let Typing { ty, sound } = typing;
    let sound = sound && is_complete(sizes, &ty, bounds);
    let ty = arrayed(alloc, bounds, ty)?;
    Ok(if_sound(sound, ty))
}

/// The type of a parameter with brackets, where its stars give `typing`. The bounds are those behind its first
/// brackets; those that are written are told by `note_bounds`.
#[tactic(auto, unfolding(crate::specs::Declarators::array_parameter_typing))]
pub fn array_parameter_typing(
    alloc: Global,
    sizes: &[u32],
    typing: Typing,
    bounds: &[Bound],
) -> Result<Typing, AllocError>
    ensures typing { IfOk result (λ r. r ≡ spec.array_parameter_typing sizes.now typing bounds.now) }
    ensures few { IfOk result (λ r. length bounds.now ≤ MOST_DERIVATIONS) }
{
    let Typing { ty, sound } = typing;
    let sound = sound && is_complete(sizes, &ty, bounds);
    match arrayed(alloc, bounds, ty)? {
        None => Ok(if_sound(sound, None)),
        Some(of) => {
            let ty = Ty::Ptr(Boxed::new(alloc, of)?);
            Ok(if_sound(sound, Some(ty)))
        }
    }
}

fn may_be_result(ty: &Option<Ty>) -> bool
    ensures { result ≡ spec.may_be_result ty.now }
{
    match ty {
        None => true,
        Some(ty) => is_void(ty) || is_plain(ty),
    }
}

fn may_be_parameter(ty: &Option<Ty>) -> bool
    ensures { result ≡ spec.may_be_parameter ty.now }
{
    match ty {
        Some(Ty::Void | Ty::Array(_, _) | Ty::Struct(_)) => false,
        _ => true,
    }
}

/// The type of a function's result, where the stars of the function's declarator give `typing`.
#[tactic(auto, unfolding(crate::specs::Declarators::result_typing))]
pub fn result_typing(typing: Typing) -> Typing
    ensures { result ≡ spec.result_typing typing }
{
    let Typing { ty, sound } = typing;
    let sound = sound && may_be_result(&ty);
    if_sound(sound, ty)
}

/// The type of a parameter without brackets, where its stars give `typing`.
#[tactic(auto, unfolding(crate::specs::Declarators::scalar_typing))]
pub fn scalar_typing(typing: Typing) -> Typing
    ensures { result ≡ spec.scalar_typing typing }
{
    let Typing { ty, sound } = typing;
    let sound = sound && may_be_parameter(&ty);
    if_sound(sound, ty)
}

/// The type that a declarator gives, noted where it is not sound. `span` begins with the declarator's first token, or
/// with the specifiers' where a parameter's declarator is empty.
#[tactic(auto, using(xc_type_rule::proofs::Least::least_rules))]
pub fn told(span: Span, typing: Typing, first: &mut Option<Fault>) -> Option<Ty>
    ensures ty { result ≡ typing.ty }
    ensures first { first.new ≡ least_from first.old (spec.typing_faults span typing) }
{
    let Typing { ty, sound } = typing;
    if !sound {
        note_type(first, span);
    }
    ty
}

#[tactic(auto, using(xc_type_rule::proofs::Least::least_rules))]
fn note_bound(bound: Bound, first: &mut Option<Fault>)
    ensures { first.new ≡ least_from first.old (spec.bound_faults bound) }
{
    match bound.value {
        None => {}
        Some(n) => {
            if n < 1 || MOST < n {
                note_type(first, bound.span);
            }
        }
    }
}

/// Notes the bounds that are known and not from 1 to 2^22.
#[tactic(auto, using(crate::proofs::Bounds::bound_rules))]
pub fn note_bounds(bounds: &[Bound], first: &mut Option<Fault>)
    ensures { first.new ≡ least_from first.old (spec.bounds_faults bounds.now) }
{
    'bounds: for bound in bounds {
        note_bound(*bound, first);
    }
}
