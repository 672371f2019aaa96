//! The loop with a number.

ghost use Rattle.std.specs.Prelude.{◌≡◌, IsTrue, IfSome, option_copied};
ghost use Rattle.xc_form.specs.Normal.{is_loop};
ghost use Rattle.xc_form_unstable.specs.Unstable.{loop_in, loop_among, item_loop, item_loops};

use xc_tree::{Item, LoopId, Stmt, StmtKind};

/// The loop with this number in a statement.
#[cycle(find)]
#[tactic(auto, using(crate::proofs::Walks::walk_rules))]
pub(crate) fn loop_in(s: &Stmt, id: LoopId) -> Option<&Stmt>
    ensures found { option_copied result ≡ loop_in id s.now }
    ensures looped { IfSome result (λ t. IsTrue (is_loop t.now)) }
{
    match &s.kind {
        StmtKind::Block(all) => loop_among(all.as_slice(), id),
        StmtKind::If {
            test: _,
            then,
            other: None,
        } => loop_in(then.get(), id),
        StmtKind::If {
            test: _,
            then,
            other: Some(other),
        } => match loop_in(then.get(), id) {
            Some(inner) => Some(inner),
            None => loop_in(other.get(), id),
        },
        StmtKind::Loop {
            id: own,
            form: _,
            init,
            test: _,
            step: _,
            body,
            pragmas: _,
        } => {
            if *own == id {
                return Some(s);
            }
            match loop_among(init.as_slice(), id) {
                Some(inner) => Some(inner),
                None => loop_in(body.get(), id),
            }
        }
        StmtKind::Switch { value: _, items } => loop_in_items(items.as_slice(), id),
        StmtKind::Future {
            place: _,
            captures: _,
            body,
        } => loop_in(body.get(), id),
        StmtKind::Empty
        | StmtKind::Declare { local: _, init: _ }
        | StmtKind::Eval(_)
        | StmtKind::Return(_)
        | StmtKind::Break
        | StmtKind::Continue => None,
    }
}

#[cycle(find)]
#[tactic(auto, using(crate::proofs::Walks::walk_rules))]
fn loop_among(list: &[Stmt], id: LoopId) -> Option<&Stmt>
    ensures found { option_copied result ≡ loop_among id list.now }
    ensures looped { IfSome result (λ t. IsTrue (is_loop t.now)) }
{
    for s in list {
        if let Some(inner) = loop_in(s, id) {
            return Some(inner);
        }
    }
    None
}

#[cycle(find)]
#[tactic(auto, using(crate::proofs::Walks::walk_rules))]
fn loop_in_item(item: &Item, id: LoopId) -> Option<&Stmt>
    ensures found { option_copied result ≡ item_loop id item.now }
    ensures looped { IfSome result (λ t. IsTrue (is_loop t.now)) }
{
    match item {
        Item::At(_) | Item::Other => None,
        Item::Do(s) => loop_in(s, id),
    }
}

#[cycle(find)]
#[tactic(auto, using(crate::proofs::Walks::walk_rules))]
fn loop_in_items(list: &[Item], id: LoopId) -> Option<&Stmt>
    ensures found { option_copied result ≡ item_loops id list.now }
    ensures looped { IfSome result (λ t. IsTrue (is_loop t.now)) }
{
    for item in list {
        if let Some(inner) = loop_in_item(item, id) {
            return Some(inner);
        }
    }
    None
}
