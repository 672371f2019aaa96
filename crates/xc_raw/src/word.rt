//! Tokens as the grammar sees them.

ghost use Rattle.std.specs.Prelude.{◌≡◌, map, slice_range};
ghost use Rattle.xc_raw.specs.Words.{found, keyword_of, punctuator_of, word_of};

use xc_lex::{Token, TokenKind};

/// A token of the grammar. A comment names the punctuator.
#[derive(Clone, Copy, PartialEq, Eq)]
pub enum Word {
    Name,
    Literal(Literal),
    Pragma,
    Specifier(Specifier),
    Void,
    Qualifier(Qualifier),
    Future,
    Restrict,
    Struct,
    If,
    Else,
    While,
    Do,
    For,
    Return,
    Break,
    Continue,
    /// `(`
    Open,
    /// `)`
    Close,
    /// `[`
    OpenBracket,
    /// `]`
    CloseBracket,
    /// `{`
    OpenBrace,
    /// `}`
    CloseBrace,
    Access(Access),
    /// `?`
    Question,
    /// `:`
    Colon,
    /// `;`
    Semicolon,
    /// `,`
    Comma,
    /// `=`
    Set,
    Assign(AssignOp),
    /// `*`
    Star,
    /// `&`
    Ampersand,
    Sign(Sign),
    Complement(Complement),
    Step(Step),
    Binary(BinaryOp),
    /// One of C99's other keywords, which stand in no rule.
    Foreign,
}

/// A constant.
#[derive(Clone, Copy, PartialEq, Eq)]
pub enum Literal {
    Number,
    Text,
}

/// A specifier that is no qualifier, but `void` and `struct`.
#[derive(Clone, Copy, PartialEq, Eq)]
pub enum Specifier {
    Static,
    Int,
    Long,
    Signed,
    Unsigned,
}

/// A qualifier that is a specifier too, but `future`.
#[derive(Clone, Copy, PartialEq, Eq)]
pub enum Qualifier {
    Const,
    Sync,
}

/// `.` or `->`.
#[derive(Clone, Copy, PartialEq, Eq)]
pub enum Access {
    Dot,
    Arrow,
}

/// A compound assignment's operator.
#[derive(Clone, Copy, PartialEq, Eq)]
pub enum AssignOp {
    Multiply,
    Divide,
    Remainder,
    Add,
    Subtract,
    ShiftLeft,
    ShiftRight,
    And,
    Xor,
    Or,
}

/// `+` or `-`, before an operand or between two.
#[derive(Clone, Copy, PartialEq, Eq)]
pub enum Sign {
    Plus,
    Minus,
}

/// `~` or `!`.
#[derive(Clone, Copy, PartialEq, Eq)]
pub enum Complement {
    Bits,
    Truth,
}

/// `++` or `--`.
#[derive(Clone, Copy, PartialEq, Eq)]
pub enum Step {
    Increment,
    Decrement,
}

/// An operator that stands between two operands only.
#[derive(Clone, Copy, PartialEq, Eq)]
pub enum BinaryOp {
    Divide,
    Remainder,
    ShiftLeft,
    ShiftRight,
    Less,
    Greater,
    AtMost,
    AtLeast,
    Equal,
    Unequal,
    BitXor,
    BitOr,
    And,
    Or,
}

const KEYWORDS: [(&[u8], Word); 19] = [
    (b"static", Word::Specifier(Specifier::Static)),
    (b"int", Word::Specifier(Specifier::Int)),
    (b"long", Word::Specifier(Specifier::Long)),
    (b"signed", Word::Specifier(Specifier::Signed)),
    (b"unsigned", Word::Specifier(Specifier::Unsigned)),
    (b"void", Word::Void),
    (b"const", Word::Qualifier(Qualifier::Const)),
    (b"sync", Word::Qualifier(Qualifier::Sync)),
    (b"future", Word::Future),
    (b"restrict", Word::Restrict),
    (b"struct", Word::Struct),
    (b"if", Word::If),
    (b"else", Word::Else),
    (b"while", Word::While),
    (b"do", Word::Do),
    (b"for", Word::For),
    (b"return", Word::Return),
    (b"break", Word::Break),
    (b"continue", Word::Continue),
];

const PUNCTUATORS: [(&[u8], Word); 45] = [
    (b"(", Word::Open),
    (b")", Word::Close),
    (b"[", Word::OpenBracket),
    (b"]", Word::CloseBracket),
    (b"{", Word::OpenBrace),
    (b"}", Word::CloseBrace),
    (b";", Word::Semicolon),
    (b",", Word::Comma),
    (b"=", Word::Set),
    (b".", Word::Access(Access::Dot)),
    (b"->", Word::Access(Access::Arrow)),
    (b"?", Word::Question),
    (b":", Word::Colon),
    (b"*", Word::Star),
    (b"&", Word::Ampersand),
    (b"+", Word::Sign(Sign::Plus)),
    (b"-", Word::Sign(Sign::Minus)),
    (b"~", Word::Complement(Complement::Bits)),
    (b"!", Word::Complement(Complement::Truth)),
    (b"++", Word::Step(Step::Increment)),
    (b"--", Word::Step(Step::Decrement)),
    (b"/", Word::Binary(BinaryOp::Divide)),
    (b"%", Word::Binary(BinaryOp::Remainder)),
    (b"<<", Word::Binary(BinaryOp::ShiftLeft)),
    (b">>", Word::Binary(BinaryOp::ShiftRight)),
    (b"<", Word::Binary(BinaryOp::Less)),
    (b">", Word::Binary(BinaryOp::Greater)),
    (b"<=", Word::Binary(BinaryOp::AtMost)),
    (b">=", Word::Binary(BinaryOp::AtLeast)),
    (b"==", Word::Binary(BinaryOp::Equal)),
    (b"!=", Word::Binary(BinaryOp::Unequal)),
    (b"^", Word::Binary(BinaryOp::BitXor)),
    (b"|", Word::Binary(BinaryOp::BitOr)),
    (b"&&", Word::Binary(BinaryOp::And)),
    (b"||", Word::Binary(BinaryOp::Or)),
    (b"*=", Word::Assign(AssignOp::Multiply)),
    (b"/=", Word::Assign(AssignOp::Divide)),
    (b"%=", Word::Assign(AssignOp::Remainder)),
    (b"+=", Word::Assign(AssignOp::Add)),
    (b"-=", Word::Assign(AssignOp::Subtract)),
    (b"<<=", Word::Assign(AssignOp::ShiftLeft)),
    (b">>=", Word::Assign(AssignOp::ShiftRight)),
    (b"&=", Word::Assign(AssignOp::And)),
    (b"^=", Word::Assign(AssignOp::Xor)),
    (b"|=", Word::Assign(AssignOp::Or)),
];

/// The word of a text in a table, or `Foreign`.
fn found(table: &[(&[u8], Word)], text: &[u8]) -> Word
    ensures { result ≡ found (map (λ p. (p.0.now, p.1)) table.now) text.now }
{
    for pair in table {
        if pair.0 == text {
            return pair.1;
        }
    }
    Word::Foreign
}

#[tactic(auto, unfolding(crate::specs::Words::keyword_of))]
fn keyword_of(text: &[u8]) -> Word
    ensures { result ≡ keyword_of text.now }
{
    found(&KEYWORDS, text)
}

#[tactic(auto, unfolding(crate::specs::Words::punctuator_of))]
fn punctuator_of(text: &[u8]) -> Word
    ensures { result ≡ punctuator_of text.now }
{
    found(&PUNCTUATORS, text)
}

/// What a token of a source is to the grammar.
pub fn word_of(source: &[u8], token: Token) -> Word
    ensures { result ≡ word_of token.kind (slice_range source.now token.text.start token.text.end) }
{
    match token.kind {
        TokenKind::Name => Word::Name,
        TokenKind::Number => Word::Literal(Literal::Number),
        TokenKind::Text => Word::Literal(Literal::Text),
        TokenKind::Pragma => Word::Pragma,
        TokenKind::Keyword => keyword_of(token.text.of(source)),
        TokenKind::Punctuator => punctuator_of(token.text.of(source)),
    }
}
