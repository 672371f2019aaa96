//! The whole program.

ghost use Rattle.std.specs.Prelude.{◌≡◌, ◌<◌, IsTrue, slice_get, length, map};
ghost use Rattle.xc_tree.specs.Lists.{every};
ghost use Rattle.xc_tree.specs.Types.{is_object};
ghost use Rattle.xc_tree.specs.Statements.{stmt_ok};
ghost use Rattle.xc_tree.specs.Valid.{tree_ok, format_ok};

use crate::stmt::Stmt;
use crate::ty::Ty;
use sqlite_items::{Boxed, Items};
use xc_text_place::Span;

/// A global object: its first cells, each with its word and whether it is full. Cells past these are full and 0.
#[derive(Drop)]
pub struct Object {
    pub name: Span,
    pub ty: Ty,
    pub init: Items<(u64, bool)>,
}

/// A local object of a function. It is a value of its thread, or a segment where it has an address.
#[derive(Drop)]
pub struct Local {
    pub name: Span,
    pub ty: Ty,
    pub addressed: bool,
}

/// A function. The first `params` of its locals are its parameters. Functions are numbered in the order of their
/// definitions.
#[derive(Drop)]
pub struct Func {
    pub name: Span,
    pub params: u32,
    pub locals: Items<Local>,
    pub ret: Ty,
    pub body: Boxed<Stmt>,
}

/// A whole program that is well typed. `notes` has the places of the pragmas without effect.
#[derive(Drop)]
pub struct Tree {
    pub structs: Items<Items<Ty>>,
    pub globals: Items<Object>,
    pub funcs: Items<Func>,
    pub formats: Items<Items<u8>>,
    pub notes: Items<Span>,
    pub loops: u32,
    pub main: u32,
    pub ghost valid: { IsTrue (tree_ok structs globals funcs formats loops main) },
}

impl Tree {
    ghost use Rattle.xc_tree.specs.Around.{context_of, shapes_of, func_fits, global_fits};

    /// The function with this number.
    #[tactic(auto, using(crate::proofs::Parts::part_rules))]
    pub fn func(&self, at: u32) -> &Func
        requires { at < length self.now.funcs }
        ensures found { slice_get self.now.funcs at ≡ Some result.now }
        ensures typed { IsTrue (stmt_ok (context_of self.now result.now) result.now.body) }
        ensures valid { IsTrue (func_fits self.now result.now) }
    {
        &self.funcs.as_slice()[at as usize]
    }

    /// The function that a program begins with.
    #[tactic(auto, using(crate::proofs::Parts::part_rules))]
    pub fn main_func(&self) -> &Func
        ensures found { slice_get self.now.funcs self.now.main ≡ Some result.now }
        ensures plain { result.now.params ≡ 0 }
        ensures typed { IsTrue (stmt_ok (context_of self.now result.now) result.now.body) }
        ensures valid { IsTrue (func_fits self.now result.now) }
    {
        self.func(self.main)
    }

    /// The global with this number.
    #[tactic(auto, using(crate::proofs::Parts::part_rules))]
    pub fn global(&self, at: u32) -> &Object
        requires { at < length self.now.globals }
        ensures found { slice_get self.now.globals at ≡ Some result.now }
        ensures valid { IsTrue (global_fits self.now result.now) }
    {
        &self.globals.as_slice()[at as usize]
    }

    /// The text with this number.
    #[tactic(auto, using(crate::proofs::Parts::part_rules))]
    pub fn format(&self, at: u32) -> &[u8]
        requires { at < length self.now.formats }
        ensures found { slice_get self.now.formats at ≡ Some result.now }
        ensures valid { IsTrue (format_ok result.now) }
    {
        self.formats.as_slice()[at as usize].as_slice()
    }

    /// The types of the members of the struct with this number.
    #[tactic(auto, using(crate::proofs::Parts::part_rules))]
    pub fn members(&self, at: u32) -> &[Ty]
        requires { at < length self.now.structs }
        ensures found { slice_get self.now.structs at ≡ Some result.now }
        ensures valid { IsTrue (every (map (is_object (shapes_of self.now)) result.now)) }
    {
        self.structs.as_slice()[at as usize].as_slice()
    }
}
