//! What the rules of two operands say, by their types.

ghost use Rattle.std.specs.Prelude.{◌≡◌, ◌&&◌, ◌||◌, not, cond, Some};
ghost use Rattle.xc_tree.specs.Types.{is_number};
ghost use Rattle.xc_tree_words.specs.Words.{is_uint};
ghost use Rattle.xc_tree.specs.Typed.{sort_of};
ghost use Rattle.xc_type_rule_operators.specs.Rulings as spec;
ghost use Rattle.xc_type_rule_operators.specs.Verdicts as verdicts;
ghost use Rattle.xc_type_rule_operators.specs.Verdicts.{told};

use xc_tree::{BinOp, Ty};
use xc_type_rule::{
    Known, both_numbers, fits, is_number, is_plain, is_pointer, is_uint, may_be_plain, same_ty,
};

/// What a rule says of the whole whatever the types of the operands are.
#[derive(Clone, Copy)]
pub(crate) enum Fixed {
    /// Its type is `int`.
    Int,
    /// Its type is `unsigned`.
    Uint,
    /// The rule may be kept, and the type is not known.
    Unknown,
    /// The rule is broken.
    Broken,
}

/// Which type a rule gives to the whole.
#[derive(Clone, Copy)]
pub(crate) enum Verdict {
    /// That of the left operand.
    Left,
    /// That of the right operand.
    Right,
    Other(Fixed),
}

const INT: Verdict = Verdict::Other(Fixed::Int);

const UINT: Verdict = Verdict::Other(Fixed::Uint);

const UNKNOWN: Verdict = Verdict::Other(Fixed::Unknown);

const BROKEN: Verdict = Verdict::Other(Fixed::Broken);

fn whole(said: Fixed) -> Option<Known>
    ensures { result ≡ verdicts.said_of said }
{
    match said {
        Fixed::Int => Some(Known::Value(Ty::Int)),
        Fixed::Uint => Some(Known::Value(Ty::Uint)),
        Fixed::Unknown => Some(Known::Unknown { place: false }),
        Fixed::Broken => None,
    }
}

/// What is known of the whole, by what is known of its operands.
pub(crate) fn told(verdict: Verdict, a: Known, b: Known) -> Option<Known>
    ensures { result ≡ told verdict a b }
{
    match verdict {
        Verdict::Left => {
            drop(b);
            Some(a)
        }
        Verdict::Right => {
            drop(a);
            Some(b)
        }
        Verdict::Other(f) => {
            drop((a, b));
            whole(f)
        }
    }
}

fn settled(certain: bool, verdict: Verdict, fine: bool) -> Verdict
    ensures { result ≡ cond certain verdict (Verdict.Other (cond fine Fixed.Unknown Fixed.Broken)) }
{
    if certain {
        return verdict;
    }
    if fine { UNKNOWN } else { BROKEN }
}

#[tactic(auto, unfolding(crate::specs::Rulings::ruled, crate::specs::Rulings::number_ruling))]
fn numbers(a: &Ty, b: &Ty) -> Verdict
    ensures { told result (Known.Value a.now) (Known.Value b.now) ≡ spec.number_ruling a.now b.now }
{
    if !both_numbers(a, b) {
        return BROKEN;
    }
    if same_ty(a, b) { Verdict::Left } else { UINT }
}

#[tactic(auto, unfolding(crate::specs::Rulings::ruled, crate::specs::Rulings::sum_ruling))]
fn sum(a: &Ty, b: &Ty) -> Verdict
    ensures { told result (Known.Value a.now) (Known.Value b.now) ≡ spec.sum_ruling a.now b.now }
{
    if both_numbers(a, b) {
        return numbers(a, b);
    }
    if is_pointer(a) && is_number(b) {
        return Verdict::Left;
    }
    if is_number(a) && is_pointer(b) {
        Verdict::Right
    } else {
        BROKEN
    }
}

#[tactic(auto, unfolding(crate::specs::Rulings::ruled, crate::specs::Rulings::difference_ruling))]
fn difference(a: &Ty, b: &Ty) -> Verdict
    ensures { told result (Known.Value a.now) (Known.Value b.now) ≡ spec.difference_ruling a.now b.now }
{
    if both_numbers(a, b) {
        return numbers(a, b);
    }
    if is_pointer(a) && is_number(b) {
        return Verdict::Left;
    }
    if is_pointer(a) && same_ty(a, b) {
        INT
    } else {
        BROKEN
    }
}

#[tactic(auto, unfolding(crate::specs::Rulings::ruled, crate::specs::Rulings::both_known))]
fn both_known(op: BinOp, a: &Ty, b: &Ty) -> Verdict
    ensures { told result (Known.Value a.now) (Known.Value b.now) ≡ spec.both_known (sort_of op) a.now b.now }
{
    match op {
        BinOp::Add => sum(a, b),
        BinOp::Sub => difference(a, b),
        BinOp::Shl | BinOp::Shr => {
            if both_numbers(a, b) {
                Verdict::Left
            } else {
                BROKEN
            }
        }
        BinOp::Lt | BinOp::Gt | BinOp::Le | BinOp::Ge | BinOp::Eq | BinOp::Ne => {
            if fits(a, b) { INT } else { BROKEN }
        }
        BinOp::Mul | BinOp::Div | BinOp::Rem | BinOp::BitAnd | BinOp::BitXor | BinOp::BitOr => {
            numbers(a, b)
        }
    }
}

/// The right operand is unknown.
#[tactic(auto, unfolding(crate::specs::Rulings::ruled, crate::specs::Rulings::unruled, crate::specs::Rulings::settled, crate::specs::Rulings::left_known))]
fn left_known(op: BinOp, a: &Ty) -> Verdict
    ensures { (k : Known) → told result (Known.Value a.now) k ≡ spec.left_known (sort_of op) a.now }
{
    match op {
        BinOp::Add => settled(is_pointer(a), Verdict::Left, is_number(a)),
        BinOp::Sub => settled(is_uint(a), Verdict::Left, is_plain(a)),
        BinOp::Shl | BinOp::Shr => settled(is_number(a), Verdict::Left, false),
        BinOp::Lt | BinOp::Gt | BinOp::Le | BinOp::Ge | BinOp::Eq | BinOp::Ne => {
            settled(is_plain(a), INT, false)
        }
        BinOp::Mul | BinOp::Div | BinOp::Rem | BinOp::BitAnd | BinOp::BitXor | BinOp::BitOr => {
            settled(is_uint(a), Verdict::Left, is_number(a))
        }
    }
}

/// The left operand is unknown.
#[tactic(auto, unfolding(crate::specs::Rulings::ruled, crate::specs::Rulings::unruled, crate::specs::Rulings::settled, crate::specs::Rulings::right_known))]
fn right_known(op: BinOp, b: &Ty) -> Verdict
    ensures { (k : Known) → told result k (Known.Value b.now) ≡ spec.right_known (sort_of op) b.now }
{
    match op {
        BinOp::Add => settled(is_pointer(b), Verdict::Right, is_number(b)),
        BinOp::Sub => settled(is_pointer(b), INT, is_number(b)),
        BinOp::Shl | BinOp::Shr => settled(false, Verdict::Right, is_number(b)),
        BinOp::Lt | BinOp::Gt | BinOp::Le | BinOp::Ge | BinOp::Eq | BinOp::Ne => {
            settled(is_plain(b), INT, false)
        }
        BinOp::Mul | BinOp::Div | BinOp::Rem | BinOp::BitAnd | BinOp::BitXor | BinOp::BitOr => {
            settled(is_uint(b), Verdict::Right, is_number(b))
        }
    }
}

#[tactic(auto, unfolding(crate::specs::Rulings::neither_known))]
fn neither_known(op: BinOp) -> Verdict
    ensures { (j k : Known) → told result j k ≡ Some (spec.neither_known (sort_of op)) }
{
    match op {
        BinOp::Lt | BinOp::Gt | BinOp::Le | BinOp::Ge | BinOp::Eq | BinOp::Ne => INT,
        _ => UNKNOWN,
    }
}

/// The verdict on an operator between two values.
#[tactic(auto, unfolding(crate::specs::Rulings::binary_ruling))]
pub(crate) fn binary_verdict(op: BinOp, a: &Known, b: &Known) -> Verdict
    ensures { told result a.now b.now ≡ spec.binary_ruling (sort_of op) a.now b.now }
{
    match (a, b) {
        (Known::Value(a), Known::Value(b)) => both_known(op, a, b),
        (Known::Value(a), Known::Unknown { .. }) => left_known(op, a),
        (Known::Unknown { .. }, Known::Value(b)) => right_known(op, b),
        (Known::Unknown { .. }, Known::Unknown { .. }) => neither_known(op),
        _ => BROKEN,
    }
}

#[tactic(auto, unfolding(crate::specs::Rulings::ruled, crate::specs::Rulings::branches_type))]
fn branches_type(a: &Ty, b: &Ty) -> Verdict
    ensures { told result (Known.Value a.now) (Known.Value b.now) ≡ spec.branches_type a.now b.now }
{
    if same_ty(a, b) {
        return Verdict::Left;
    }
    if both_numbers(a, b) { UINT } else { BROKEN }
}

/// Whether this is the type of both branches, one of which is unknown; `null` says whether the known one is a constant 0.
fn is_certain(ty: &Ty, null: bool) -> bool
    ensures { result ≡ (not (is_number ty.now) || (is_uint ty.now && not null)) }
{
    !is_number(ty) || (is_uint(ty) && !null)
}

#[tactic(auto, unfolding(crate::specs::Rulings::unruled, crate::specs::Rulings::settled, crate::specs::Rulings::branch_type, crate::specs::Rulings::branches_ruling))]
fn branches_verdict(a: &Known, b: &Known, nulls: (bool, bool)) -> Verdict
    ensures { told result a.now b.now ≡ spec.branches_ruling a.now b.now nulls }
{
    match (a, b) {
        (Known::Value(s), Known::Value(t)) => branches_type(s, t),
        (Known::Value(s), Known::Unknown { .. }) => {
            settled(is_certain(s, nulls.0), Verdict::Left, true)
        }
        (Known::Unknown { .. }, Known::Value(t)) => {
            settled(is_certain(t, nulls.1), Verdict::Right, true)
        }
        (Known::Unknown { .. }, Known::Unknown { .. }) => UNKNOWN,
        _ => BROKEN,
    }
}

/// The verdict on `?:`. `nulls` says which of the branches are constants 0.
#[tactic(auto, unfolding(crate::specs::Rulings::conditional_ruling))]
pub(crate) fn conditional_verdict(
    test: &Known,
    a: &Known,
    b: &Known,
    nulls: (bool, bool),
) -> Verdict
    ensures { told result a.now b.now ≡ spec.conditional_ruling test.now a.now b.now nulls }
{
    if may_be_plain(test) {
        return branches_verdict(a, b, nulls);
    }
    BROKEN
}
