//! Operators.

/// The binary operators of C99 6.5.5 to 6.5.12, in the order of its sections.
#[derive(Drop, Clone, Copy, PartialEq, Eq)]
pub enum BinOp {
    /// `*`
    Mul,
    /// `/`
    Div,
    /// `%`
    Rem,
    /// `+`
    Add,
    /// `-`
    Sub,
    /// `<<`
    Shl,
    /// `>>`
    Shr,
    /// `<`
    Lt,
    /// `>`
    Gt,
    /// `<=`
    Le,
    /// `>=`
    Ge,
    /// `==`
    Eq,
    /// `!=`
    Ne,
    /// `&`
    BitAnd,
    /// `^`
    BitXor,
    /// `|`
    BitOr,
}

/// The unary operators on values.
#[derive(Drop, Clone, Copy)]
pub enum UnOp {
    /// `-`
    Neg,
    /// `~`
    Complement,
    /// `!`
    Not,
    /// A cast to the type of the expression.
    Cast,
}
