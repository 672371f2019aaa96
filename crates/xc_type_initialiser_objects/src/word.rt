//! The words of a global's initialisers.

ghost use Rattle.std.specs.Prelude.{◌≡◌, IfOk};
ghost use Rattle.xc_type_initialiser_objects.specs.Words as spec;

use crate::inits::Inits;
use sqlite_items::Items;
use std::alloc::{AllocError, Global};
use xc_tree::{Expr, ExprKind, Ty};

/// A constant with this value in place of what is made.
#[tactic(auto, unfolding(crate::specs::Words::number_made, xc_type_rule::specs::Making::both))]
pub fn number_made(value: Option<u64>, made: Option<Expr>) -> Option<Expr>
    ensures { result ≡ spec.number_made value made }
{
    match value.zip(made) {
        None => None,
        Some((n, e)) => {
            let Expr { ty, span, kind } = e;
            drop(kind);
            Some(Expr {
                ty,
                span,
                kind: ExprKind::Const(n),
            })
        }
    }
}

fn pointer_to(g: u32) -> u64
    ensures { result ≡ spec.pointer_to g }
{
    (u64::from(g) + 1) << 32
}

fn global_of(e: &Expr) -> Option<u32>
    ensures { result ≡ spec.global_of e.now }
{
    match &e.kind {
        ExprKind::Global(g) => Some(*g),
        _ => None,
    }
}

fn is_zero(e: &Expr) -> bool
    ensures { result ≡ spec.is_zero e.now }
{
    match &e.kind {
        ExprKind::Const(n) => *n == 0,
        _ => false,
    }
}

fn has_bound(ty: &Ty, bound: u32) -> bool
    ensures { result ≡ spec.has_bound ty.now bound }
{
    let Ty::Ptr(to) = ty else {
        return false;
    };
    match to.get() {
        Ty::Array(n, _) => *n == bound,
        _ => false,
    }
}

fn array_named(array: &Expr, index: &Expr, bound: Option<u32>) -> Option<u32>
    ensures { result ≡ spec.array_named array.now index.now bound }
{
    if is_zero(index) && has_bound(&array.ty, bound?) {
        global_of(array)
    } else {
        None
    }
}

/// The word that an initialiser stands for, if it may stand at file scope.
#[tactic(auto, unfolding(crate::specs::Words::word_of))]
pub fn word_of(e: &Expr) -> Option<u64>
    ensures { result ≡ spec.word_of e.now }
{
    match &e.kind {
        ExprKind::Const(n) => Some(*n),
        ExprKind::Global(g) => Some(pointer_to(*g)),
        ExprKind::Index {
            base,
            index,
            bound,
            ..
        } => match array_named(base.get(), index.get(), *bound) {
            None => None,
            Some(g) => Some(pointer_to(g)),
        },
        _ => None,
    }
}

#[tactic(auto, unfolding(crate::specs::Words::init_word))]
fn init_word(init: &(u32, Expr)) -> Option<(u32, u64)>
    ensures { result ≡ spec.init_word init.now }
{
    match word_of(&init.1) {
        None => None,
        Some(word) => Some((init.0, word)),
    }
}

#[tactic(auto, using(crate::proofs::Words::word_rules))]
fn words_of(alloc: Global, inits: &[(u32, Expr)]) -> Result<Option<Items<(u32, u64)>>, AllocError>
    ensures { IfOk result (λ r. r ≡ spec.words_of inits.now) }
{
    let mut words = Items::new(alloc);
    'inits: for init in inits {
        match init_word(init) {
            None => return Ok(None),
            Some(word) => words.push(word)?,
        }
    }
    Ok(Some(words))
}

/// The words that the initialisers of a global stand for, with their offsets, if each was made and may stand at file
/// scope.
pub fn global_words(alloc: Global, inits: &Inits) -> Result<Option<Items<(u32, u64)>>, AllocError>
    ensures { IfOk result (λ r. r ≡ spec.global_words inits.now) }
{
    if inits.whole {
        words_of(alloc, inits.made.as_slice())
    } else {
        Ok(None)
    }
}
