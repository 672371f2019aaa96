//! Tests of types.

ghost use Rattle.std.specs.Prelude.{◌≡◌, IfOk};
ghost use Rattle.std.specs.Option.{option_copied};
ghost use Rattle.xc_tree.specs.Types.{same_ty, is_void, is_number, is_plain, is_pointer, both_numbers, fits, common_type, base};
ghost use Rattle.xc_tree_words.specs.Words.{is_uint};

use std::alloc::{AllocError, Global};
use xc_tree::{Ty, copy_ty};

/// Whether the two are one type.
pub fn same_ty(a: &Ty, b: &Ty) -> bool
    ensures { result ≡ same_ty a.now b.now }
{
    match (a, b) {
        (Ty::Void, Ty::Void) | (Ty::Int, Ty::Int) | (Ty::Uint, Ty::Uint) => true,
        (Ty::Ptr(a), Ty::Ptr(b)) => same_ty(a.get(), b.get()),
        (Ty::Array(n, a), Ty::Array(m, b)) => *n == *m && same_ty(a.get(), b.get()),
        (Ty::Struct(n), Ty::Struct(m)) => *n == *m,
        (Ty::Sync(a), Ty::Sync(b)) => same_ty(a.get(), b.get()),
        (Ty::Future(a), Ty::Future(b)) => same_ty(a.get(), b.get()),
        _ => false,
    }
}

/// Whether it is the type of what has no value.
pub fn is_void(ty: &Ty) -> bool
    ensures { result ≡ is_void ty.now }
{
    match ty {
        Ty::Void => true,
        _ => false,
    }
}

/// Whether it is an integer type without a qualifier.
pub fn is_number(ty: &Ty) -> bool
    ensures { result ≡ is_number ty.now }
{
    match ty {
        Ty::Int | Ty::Uint => true,
        _ => false,
    }
}

/// Whether it is the unsigned integer type.
pub fn is_uint(ty: &Ty) -> bool
    ensures { result ≡ is_uint ty.now }
{
    match ty {
        Ty::Uint => true,
        _ => false,
    }
}

/// Whether it is a pointer's type, without a qualifier.
pub fn is_pointer(ty: &Ty) -> bool
    ensures { result ≡ is_pointer ty.now }
{
    match ty {
        Ty::Ptr(_) => true,
        _ => false,
    }
}

/// Whether it is a scalar's type, without a qualifier.
pub fn is_plain(ty: &Ty) -> bool
    ensures { result ≡ is_plain ty.now }
{
    match ty {
        Ty::Int | Ty::Uint | Ty::Ptr(_) => true,
        _ => false,
    }
}

/// Whether both are integer types without a qualifier.
pub fn both_numbers(a: &Ty, b: &Ty) -> bool
    ensures { result ≡ both_numbers a.now b.now }
{
    is_number(a) && is_number(b)
}

/// Whether a value of the second type may be given to a plain object of the first (C99 6.5.16.1).
pub fn fits(to: &Ty, from: &Ty) -> bool
    ensures { result ≡ fits to.now from.now }
{
    if both_numbers(to, from) {
        return true;
    }
    is_pointer(to) && same_ty(to, from)
}

/// The common type of two integer types (C99 6.3.1.8).
pub fn common_type(alloc: Global, a: &Ty, b: &Ty) -> Result<Ty, AllocError>
    ensures { IfOk result (λ r. r ≡ common_type a.now b.now) }
{
    if same_ty(a, b) {
        return copy_ty(alloc, a);
    }
    Ok(Ty::Uint)
}

/// A scalar's type without its qualifier.
pub fn base_of(ty: &Ty) -> Option<&Ty>
    ensures { option_copied result ≡ base ty.now }
{
    match ty {
        Ty::Void | Ty::Array(_, _) | Ty::Struct(_) => None,
        Ty::Int | Ty::Uint | Ty::Ptr(_) => Some(ty),
        Ty::Sync(of) => Some(of.get()),
        Ty::Future(of) => Some(of.get()),
    }
}

/// The same, with a copy of that type.
pub fn base(alloc: Global, ty: &Ty) -> Result<Option<Ty>, AllocError>
    ensures { IfOk result (λ r. r ≡ base ty.now) }
{
    match base_of(ty) {
        None => Ok(None),
        Some(of) => Ok(Some(copy_ty(alloc, of)?)),
    }
}
