//! Copies of types that may be unknown.

ghost use Rattle.std.specs.Prelude.{◌≡◌, IfOk};

use sqlite_items::Items;
use std::alloc::{AllocError, Global};
use xc_tree::{Ty, copy_ty};

/// A copy of a type, if it is known.
pub fn copy_known(alloc: Global, ty: &Option<Ty>) -> Result<Option<Ty>, AllocError>
    ensures { IfOk result (λ r. r ≡ ty.now) }
{
    match ty {
        None => Ok(None),
        Some(ty) => Ok(Some(copy_ty(alloc, ty)?)),
    }
}

/// Copies of several.
pub(crate) fn copy_all(alloc: Global, all: &[Option<Ty>]) -> Result<Items<Option<Ty>>, AllocError>
    ensures { IfOk result (λ r. r ≡ all.now) }
{
    let mut copies = Items::new(alloc);
    'types: for ty in all {
        copies.push(copy_known(alloc, ty)?)?;
    }
    Ok(copies)
}
