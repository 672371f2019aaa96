//! What is known of the parts of a constant.

ghost use Rattle.std.specs.Prelude.{◌≡◌, ◌||◌};
ghost use Rattle.xc_tree.specs.Typed.{sort_of};
ghost use Rattle.xc_type_constants.specs.Pieces as spec;

use xc_lex::Number;
use xc_tree::{BinOp, UnOp};
use xc_tree_words::{binary, unary};
use xc_type_rule_operators::Logic;

/// What is known of a part of a constant: whether its type is unsigned, and its value, if they are known; and whether it and
/// its parts are what a constant may hold.
#[derive(Drop, Clone, Copy, PartialEq, Eq)]
pub struct Part {
    pub unsigned: Option<bool>,
    pub value: Option<u64>,
    pub pure: bool,
}

pub(crate) fn strange() -> Part
    ensures { result ≡ spec.strange }
{
    Part {
        unsigned: None,
        value: None,
        pure: false,
    }
}

pub(crate) fn number_part(number: Number) -> Part
    ensures { result ≡ spec.number_part number }
{
    Part {
        unsigned: Some(number.unsigned),
        value: Some(number.value),
        pure: true,
    }
}

pub(crate) fn unary_unsigned(op: UnOp, unsigned: Option<bool>) -> Option<bool>
    ensures { result ≡ spec.unary_unsigned op unsigned }
{
    match op {
        UnOp::Not => Some(false),
        UnOp::Neg | UnOp::Complement | UnOp::Cast => unsigned,
    }
}

pub(crate) fn unary_part(op: UnOp, p: Part) -> Part
    ensures { result ≡ spec.unary_part op p }
{
    Part {
        unsigned: unary_unsigned(op, p.unsigned),
        value: match p.value {
            None => None,
            Some(n) => Some(unary(op, n)),
        },
        pure: p.pure,
    }
}

pub(crate) fn works_unsigned(op: BinOp, a: bool, b: bool) -> bool
    ensures { result ≡ spec.works_unsigned (sort_of op) a b }
{
    match op {
        BinOp::Shl | BinOp::Shr => a,
        _ => a || b,
    }
}

pub(crate) fn gives_unsigned(op: BinOp, a: bool, b: bool) -> bool
    ensures { result ≡ spec.gives_unsigned (sort_of op) a b }
{
    match op {
        BinOp::Lt | BinOp::Gt | BinOp::Le | BinOp::Ge | BinOp::Eq | BinOp::Ne => false,
        _ => works_unsigned(op, a, b),
    }
}

pub(crate) fn both_work(op: BinOp, a: Option<bool>, b: Option<bool>) -> Option<bool>
    ensures { result ≡ spec.both (spec.works_unsigned (sort_of op)) a b }
{
    Some(works_unsigned(op, a?, b?))
}

pub(crate) fn both_give(op: BinOp, a: Option<bool>, b: Option<bool>) -> Option<bool>
    ensures { result ≡ spec.both (spec.gives_unsigned (sort_of op)) a b }
{
    Some(gives_unsigned(op, a?, b?))
}

pub(crate) fn value_by(
    op: BinOp,
    unsigned: Option<bool>,
    a: Option<u64>,
    b: Option<u64>,
) -> Option<u64>
    ensures { result ≡ spec.value_by op unsigned a b }
{
    binary(op, unsigned?, a?, b?)
}

pub(crate) fn binary_part(op: BinOp, p: Part, q: Part) -> Part
    ensures { result ≡ spec.binary_part op p q }
{
    let unsigned = both_work(op, p.unsigned, q.unsigned);
    Part {
        unsigned: both_give(op, p.unsigned, q.unsigned),
        value: value_by(op, unsigned, p.value, q.value),
        pure: p.pure && q.pure,
    }
}

pub(crate) fn goes_on(op: Logic, value: Option<u64>) -> bool
    ensures { result ≡ spec.goes_on op value }
{
    match (op, value) {
        (Logic::And, Some(n)) => n != 0,
        (Logic::Or, Some(n)) => n == 0,
        (_, None) => false,
    }
}

pub(crate) fn logic_value(op: Logic, a: Option<u64>, b: Option<u64>) -> Option<u64>
    ensures { result ≡ spec.logic_value op a b }
{
    let first = a?;
    if goes_on(op, Some(first)) {
        return b.map(|n| u64::from(n != 0));
    }
    Some(u64::from(first != 0))
}

pub(crate) fn logic_part(op: Logic, p: Part, q: Part) -> Part
    ensures { result ≡ spec.logic_part op p q }
{
    Part {
        unsigned: Some(false),
        value: logic_value(op, p.value, q.value),
        pure: p.pure && q.pure,
    }
}

pub(crate) fn either_unsigned(a: Option<bool>, b: Option<bool>) -> Option<bool>
    ensures { result ≡ spec.both (λ a b. a || b) a b }
{
    let (a, b) = (a?, b?);
    Some(a || b)
}

pub(crate) fn cond_part(test: Part, p: Part, q: Part) -> Part
    ensures { result ≡ spec.cond_part test p q }
{
    Part {
        unsigned: either_unsigned(p.unsigned, q.unsigned),
        value: match test.value {
            None => None,
            Some(0) => q.value,
            Some(_) => p.value,
        },
        pure: test.pure && (p.pure && q.pure),
    }
}

pub(crate) fn cast_part(unsigned: Option<bool>, p: Part) -> Part
    ensures { result ≡ spec.cast_part unsigned p }
{
    Part {
        unsigned,
        value: if unsigned.is_some() { p.value } else { None },
        pure: p.pure,
    }
}
