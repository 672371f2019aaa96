//! The kinds of cells.

ghost use Rattle.std.specs.Prelude.{◌≡◌, IfOk};
ghost use Rattle.xc_tree.specs.Types.{holds_pointer};
ghost use Rattle.xc_type_structs.specs.Kinds as spec;
ghost use Rattle.xc_type_structs.specs.InnerKinds as inner_spec;

use std::alloc::{AllocError, Global};
use xc_tree::{Ty, copy_ty};
use xc_type_rule::same_ty;

/// Which kinds of cells there are: the first, whether a cell has a pointer, and whether some cells differ.
#[derive(Drop)]
pub struct Kinds {
    head: Option<Ty>,
    pointer: bool,
    varied: bool,
}

pub(crate) fn no_kinds() -> Kinds
    ensures { result ≡ spec.no_kinds }
{
    Kinds {
        head: None,
        pointer: false,
        varied: false,
    }
}

fn is_pointer(ty: &Ty) -> bool
    ensures { result ≡ inner_spec.is_pointer ty.now }
{
    match ty {
        Ty::Ptr(_) => true,
        _ => false,
    }
}

fn holds_pointer(ty: &Ty) -> bool
    ensures { result ≡ holds_pointer ty.now }
{
    match ty {
        Ty::Ptr(_) => true,
        Ty::Sync(of) => is_pointer(of.get()),
        Ty::Future(of) => is_pointer(of.get()),
        _ => false,
    }
}

fn one_kind(alloc: Global, ty: &Ty) -> Result<Kinds, AllocError>
    ensures { IfOk result (λ r. r ≡ spec.one_kind ty.now) }
{
    let pointer = holds_pointer(ty);
    Ok(Kinds {
        head: Some(copy_ty(alloc, ty)?),
        pointer,
        varied: false,
    })
}

fn copied(alloc: Global, kinds: &Kinds) -> Result<Kinds, AllocError>
    ensures { IfOk result (λ r. r ≡ kinds.now) }
{
    let head = match &kinds.head {
        None => None,
        Some(ty) => Some(copy_ty(alloc, ty)?),
    };
    Ok(Kinds {
        head,
        pointer: kinds.pointer,
        varied: kinds.varied,
    })
}

fn listed(alloc: Global, table: &[Kinds], number: u32) -> Result<Kinds, AllocError>
    ensures { IfOk result (λ r. r ≡ spec.listed table.now number) }
{
    match table.get(number as usize) {
        None => Ok(no_kinds()),
        Some(kinds) => Ok(copied(alloc, kinds)?),
    }
}

fn level_kinds(alloc: Global, table: &[Kinds], ty: &Ty) -> Result<Kinds, AllocError>
    ensures { IfOk result (λ r. r ≡ inner_spec.level_kinds table.now ty.now) }
{
    match ty {
        Ty::Void | Ty::Array(_, _) => Ok(no_kinds()),
        Ty::Struct(number) => Ok(listed(alloc, table, *number)?),
        _ => Ok(one_kind(alloc, ty)?),
    }
}

fn kinds_of(alloc: Global, table: &[Kinds], ty: &Ty) -> Result<Kinds, AllocError>
    ensures { IfOk result (λ r. r ≡ spec.kinds_of table.now ty.now) }
{
    let mut ty = ty;
    'levels: while let Ty::Array(_, of) = ty {
        ty = of.get();
    }
    level_kinds(alloc, table, ty)
}

/// The kinds of cells of a part, none where its type is unknown.
pub(crate) fn kinds_of_part(
    alloc: Global,
    table: &[Kinds],
    ty: &Option<Ty>,
) -> Result<Kinds, AllocError>
    ensures { IfOk result (λ r. r ≡ spec.kinds_of_part table.now ty.now) }
{
    match ty {
        None => Ok(no_kinds()),
        Some(ty) => Ok(kinds_of(alloc, table, ty)?),
    }
}

fn heads_differ(a: &Option<Ty>, b: &Option<Ty>) -> bool
    ensures { result ≡ spec.heads_differ a.now b.now }
{
    match (a, b) {
        (Some(a), Some(b)) => !same_ty(a, b),
        _ => false,
    }
}

/// The kinds of cells of two parts.
pub(crate) fn joined(a: Kinds, b: Kinds) -> Kinds
    ensures { result ≡ spec.joined a b }
{
    let varied = a.varied || b.varied || heads_differ(&a.head, &b.head);
    let pointer = a.pointer || b.pointer;
    let Kinds {
        head: first,
        pointer: _,
        varied: _,
    } = a;
    let Kinds {
        head: second,
        pointer: _,
        varied: _,
    } = b;
    let head = match first {
        Some(ty) => Some(ty),
        None => second,
    };
    Kinds {
        head,
        pointer,
        varied,
    }
}

/// Whether a cell has a pointer, and another one another type.
pub(crate) fn is_mixture(kinds: &Kinds) -> bool
    ensures { result ≡ spec.is_mixture kinds.now }
{
    kinds.pointer && kinds.varied
}
