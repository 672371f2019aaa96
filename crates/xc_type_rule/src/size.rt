//! Sizes of types.

ghost use Rattle.std.specs.Prelude.{◌≡◌};
ghost use Rattle.xc_type_rule.specs.Cells.{cells, listed};

use xc_tree::Ty;

fn listed(sizes: &[u32], number: u32) -> u32
    ensures { result ≡ listed sizes.now number }
{
    match sizes.get(number as usize) {
        None => 0,
        Some(size) => *size,
    }
}

/// How many cells an object of this type takes, where the structs take so many. It ends at 2^32 - 1, which no object
/// comes to.
pub fn cells(sizes: &[u32], ty: &Ty) -> u32
    ensures { result ≡ cells sizes.now ty.now }
{
    match ty {
        Ty::Void => 0,
        Ty::Int | Ty::Uint | Ty::Ptr(_) | Ty::Sync(_) | Ty::Future(_) => 1,
        Ty::Array(n, of) => n.saturating_mul(cells(sizes, of.get())),
        Ty::Struct(s) => listed(sizes, *s),
    }
}
