//! What initialisers go to.

ghost use Rattle.std.specs.Prelude.{◌≡◌, unwrap_or, slice_get, IfOk};
ghost use Rattle.std.specs.Option.{option_copied};
ghost use Rattle.xc_tree.specs.declared.ty.Ty.{out-Ty};
ghost use Rattle.xc_type_rule.specs.Members.{members_of};
ghost use Rattle.xc_type_initialiser_objects.specs.Parts as spec;

use std::alloc::{AllocError, Global};
use xc_tree::{Ty, copy_ty};
use xc_type_rule::Member;
use xc_type_structs::Structs;

/// What an initialiser goes to: what lies so many cells into the object, and its type, which is none where it is
/// unknown because of a fault.
#[derive(Drop)]
pub struct Target {
    pub ty: Option<Ty>,
    pub off: u32,
}

/// What one of the initialisers between braces goes to. It is one too many where `there` does not hold.
#[derive(Drop)]
pub struct Part {
    pub target: Target,
    pub there: bool,
}

fn make_part(ty: Option<Ty>, off: u32, n: u32) -> Part
    ensures { result ≡ spec.part ty off n }
{
    let off = off.saturating_add(n);
    Part {
        target: Target { ty, off },
        there: true,
    }
}

fn no_part(off: u32) -> Part
    ensures { result ≡ spec.no_part off }
{
    Part {
        target: Target { ty: None, off },
        there: false,
    }
}

fn element_part(
    alloc: Global,
    structs: &Structs,
    off: u32,
    n: u32,
    of: &Ty,
    k: usize,
) -> Result<Part, AllocError>
    ensures { IfOk result (λ r. r ≡ spec.element_part structs.now off n of.now k) }
{
    if k < n as usize {
        let before = (k as u32).saturating_mul(structs.cells(of));
        let ty = copy_ty(alloc, of)?;
        return Ok(make_part(Some(ty), off, before));
    }
    Ok(no_part(off))
}

fn member_part(alloc: Global, off: u32, member: Option<&Member>) -> Result<Part, AllocError>
    ensures { IfOk result (λ r. r ≡ spec.member_part off (option_copied member.entry)) }
{
    match member {
        None => Ok(no_part(off)),
        Some(member) => match &member.ty {
            None => Ok(make_part(None, off, member.off)),
            Some(ty) => {
                let ty = copy_ty(alloc, ty)?;
                Ok(make_part(Some(ty), off, member.off))
            }
        },
    }
}

fn member_at(structs: &Structs, number: u32, k: usize) -> Option<&Member>
    ensures { option_copied result ≡ slice_get (members_of structs.now.members number) k }
{
    match structs.members().get(number as usize) {
        None => None,
        Some(members) => members.at(k),
    }
}

fn part_at(
    alloc: Global,
    structs: &Structs,
    off: u32,
    k: usize,
    ty: &Ty,
) -> Result<Part, AllocError>
    ensures { IfOk result (λ r. r ≡ spec.part_at structs.now off k (out-Ty ty.now)) }
{
    match ty {
        Ty::Array(n, of) => element_part(alloc, structs, off, *n, of.get(), k),
        Ty::Struct(number) => member_part(alloc, off, member_at(structs, *number, k)),
        _ => Ok(make_part(None, off, 0)),
    }
}

/// What the initialiser with this number, counted from 0, goes to between braces for this target.
#[tactic(auto, unfolding(crate::specs::Parts::part_of))]
pub fn part_of(alloc: Global, structs: &Structs, to: &Target, k: usize) -> Result<Part, AllocError>
    ensures { IfOk result (λ r. r ≡ spec.part_of structs.now to.now k) }
{
    match &to.ty {
        None => Ok(make_part(None, to.off, 0)),
        Some(ty) => part_at(alloc, structs, to.off, k, ty),
    }
}

/// Whether braces may initialise an object of this type.
pub fn may_be_braced(ty: &Option<Ty>) -> bool
    ensures { result ≡ spec.may_be_braced ty.now }
{
    match ty {
        None => true,
        Some(ty) => matches!(ty, Ty::Array(_, _) | Ty::Struct(_)),
    }
}
