//! Operators.

ghost use Rattle.std.specs.Prelude.{◌≡◌};
ghost use Rattle.xc_raw_parts.specs.Operators as spec;

use crate::spans::{behind, word_at};
use xc_lex::Token;
use xc_raw::{Access, AssignOp, BinaryOp, Complement, Raw, Sign, Step, Word};
use xc_tree::{BinOp, UnOp};

/// An operator between two operands.
#[derive(Clone, Copy, PartialEq, Eq)]
pub enum Operator {
    Value(BinOp),
    /// `&&`
    And,
    /// `||`
    Or,
}

/// An assignment's operator.
#[derive(Clone, Copy)]
pub enum Assignment {
    /// `=`
    Plain,
    /// Such as `+=`.
    With(BinOp),
}

/// An operator before its operand.
#[derive(Clone, Copy)]
pub enum Prefix {
    Step(Step),
    /// `&`
    Address,
    /// `*`
    Star,
    /// `+`
    Plus,
    Value(UnOp),
}

/// What stands behind an operand.
#[derive(Clone, Copy)]
pub enum Suffix {
    /// `[`
    Index,
    /// `(`
    Call,
    Access(Access),
    Step(Step),
}

fn binary_of(op: BinaryOp) -> Operator
    ensures { result ≡ spec.binary_of op }
{
    match op {
        BinaryOp::Divide => Operator::Value(BinOp::Div),
        BinaryOp::Remainder => Operator::Value(BinOp::Rem),
        BinaryOp::ShiftLeft => Operator::Value(BinOp::Shl),
        BinaryOp::ShiftRight => Operator::Value(BinOp::Shr),
        BinaryOp::Less => Operator::Value(BinOp::Lt),
        BinaryOp::Greater => Operator::Value(BinOp::Gt),
        BinaryOp::AtMost => Operator::Value(BinOp::Le),
        BinaryOp::AtLeast => Operator::Value(BinOp::Ge),
        BinaryOp::Equal => Operator::Value(BinOp::Eq),
        BinaryOp::Unequal => Operator::Value(BinOp::Ne),
        BinaryOp::BitXor => Operator::Value(BinOp::BitXor),
        BinaryOp::BitOr => Operator::Value(BinOp::BitOr),
        BinaryOp::And => Operator::And,
        BinaryOp::Or => Operator::Or,
    }
}

fn operator_of(word: Word) -> Option<Operator>
    ensures { result ≡ spec.operator_of word }
{
    match word {
        Word::Star => Some(Operator::Value(BinOp::Mul)),
        Word::Ampersand => Some(Operator::Value(BinOp::BitAnd)),
        Word::Sign(sign) => Some(Operator::Value(signed_op(sign))),
        Word::Binary(op) => Some(binary_of(op)),
        _ => None,
    }
}

fn signed_op(sign: Sign) -> BinOp
    ensures { result ≡ spec.signed_op sign }
{
    match sign {
        Sign::Plus => BinOp::Add,
        Sign::Minus => BinOp::Sub,
    }
}

/// The operator of a node `Binary`.
pub fn binary_operator(source: &[u8], tokens: &[Token], node: &Raw) -> Option<Operator>
    ensures { result ≡ spec.binary_operator source.now tokens.now node.now }
{
    operator_of(word_at(source, tokens, behind(node)? as usize))
}

fn updating_op(op: AssignOp) -> BinOp
    ensures { result ≡ spec.updating_op op }
{
    match op {
        AssignOp::Multiply => BinOp::Mul,
        AssignOp::Divide => BinOp::Div,
        AssignOp::Remainder => BinOp::Rem,
        AssignOp::Add => BinOp::Add,
        AssignOp::Subtract => BinOp::Sub,
        AssignOp::ShiftLeft => BinOp::Shl,
        AssignOp::ShiftRight => BinOp::Shr,
        AssignOp::And => BinOp::BitAnd,
        AssignOp::Xor => BinOp::BitXor,
        AssignOp::Or => BinOp::BitOr,
    }
}

fn assignment_of(word: Word) -> Option<Assignment>
    ensures { result ≡ spec.assignment_of word }
{
    match word {
        Word::Set => Some(Assignment::Plain),
        Word::Assign(op) => Some(Assignment::With(updating_op(op))),
        _ => None,
    }
}

/// The operator of a node `Assign`.
pub fn assign_operator(source: &[u8], tokens: &[Token], node: &Raw) -> Option<Assignment>
    ensures { result ≡ spec.assign_operator source.now tokens.now node.now }
{
    assignment_of(word_at(source, tokens, behind(node)? as usize))
}

fn prefix_of(word: Word) -> Option<Prefix>
    ensures { result ≡ spec.prefix_of word }
{
    match word {
        Word::Step(step) => Some(Prefix::Step(step)),
        Word::Ampersand => Some(Prefix::Address),
        Word::Star => Some(Prefix::Star),
        Word::Sign(Sign::Plus) => Some(Prefix::Plus),
        Word::Sign(Sign::Minus) => Some(Prefix::Value(UnOp::Neg)),
        Word::Complement(Complement::Bits) => Some(Prefix::Value(UnOp::Complement)),
        Word::Complement(Complement::Truth) => Some(Prefix::Value(UnOp::Not)),
        _ => None,
    }
}

/// The operator of a node `Unary`.
pub fn prefix_operator(source: &[u8], tokens: &[Token], node: &Raw) -> Option<Prefix>
    ensures { result ≡ spec.prefix_operator source.now tokens.now node.now }
{
    prefix_of(word_at(source, tokens, node.first as usize))
}

fn suffix_of(word: Word) -> Option<Suffix>
    ensures { result ≡ spec.suffix_of word }
{
    match word {
        Word::OpenBracket => Some(Suffix::Index),
        Word::Open => Some(Suffix::Call),
        Word::Access(access) => Some(Suffix::Access(access)),
        Word::Step(step) => Some(Suffix::Step(step)),
        _ => None,
    }
}

/// What stands behind the operand of a node `Postfix`.
pub fn postfix_operator(source: &[u8], tokens: &[Token], node: &Raw) -> Option<Suffix>
    ensures { result ≡ spec.postfix_operator source.now tokens.now node.now }
{
    suffix_of(word_at(source, tokens, behind(node)? as usize))
}

/// The operator by which `++` or `--` changes its operand.
pub fn step_op(step: Step) -> BinOp
    ensures { result ≡ spec.step_op step }
{
    match step {
        Step::Increment => BinOp::Add,
        Step::Decrement => BinOp::Sub,
    }
}
