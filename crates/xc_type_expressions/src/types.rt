//! What specifiers and declarators say.

use xc_text_place::Span;
use xc_tree::Ty;

/// The specifier of a struct: the struct's number, and whether it has no more cells than an object may have.
#[derive(Clone, Copy)]
pub struct Tagged {
    pub number: u32,
    pub fits: bool,
}

/// A declarator: the number of the name, where it stands, and the type, which is none after a fault.
#[derive(Drop)]
pub struct Declared {
    pub name: Option<u32>,
    pub at: Span,
    pub ty: Option<Ty>,
}
