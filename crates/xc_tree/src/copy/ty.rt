//! Copies of types.

ghost use Rattle.std.specs.Prelude.{◌≡◌, IfOk};

use crate::Ty;
use sqlite_items::Boxed;
use std::alloc::{AllocError, Global};

/// A copy of a type.
#[cycle(copy_type)]
pub fn copy_ty(alloc: Global, ty: &Ty) -> Result<Ty, AllocError>
    ensures { IfOk result (λ r. r ≡ ty.now) }
{
    match ty {
        Ty::Void => Ok(Ty::Void),
        Ty::Int => Ok(Ty::Int),
        Ty::Uint => Ok(Ty::Uint),
        Ty::Ptr(to) => Ok(Ty::Ptr(copy_boxed_ty(alloc, to)?)),
        Ty::Array(n, of) => Ok(Ty::Array(*n, copy_boxed_ty(alloc, of)?)),
        Ty::Struct(n) => Ok(Ty::Struct(*n)),
        Ty::Sync(of) => Ok(Ty::Sync(copy_boxed_ty(alloc, of)?)),
        Ty::Future(of) => Ok(Ty::Future(copy_boxed_ty(alloc, of)?)),
    }
}

#[cycle(copy_type)]
fn copy_boxed_ty(alloc: Global, ty: &Boxed<Ty>) -> Result<Boxed<Ty>, AllocError>
    ensures { IfOk result (λ r. r ≡ ty.now) }
{
    Boxed::new(alloc, copy_ty(alloc, ty.get())?)
}
