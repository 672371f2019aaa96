//! What stands in a rule, and which words that can begin with.

ghost use Rattle.std.specs.Prelude.{◌≡◌};
ghost use Rattle.xc_parse_grammar.specs.Marks.{number, level_rank, operator_rank, is_specifier, is_qualifier, begins_expr, begins_stmt, begins_rule, begins, of_kind, accepts};

use xc_raw::{BinaryOp, Level, Rule, Word};

/// How tightly an expression binds at least: by the rules expr, assign, cond, those of binary operators, cast, unary
/// and postfix.
#[derive(Clone, Copy)]
pub enum Strength {
    Expr,
    Assign,
    Cond,
    Binary(Level),
    Cast,
    Unary,
    Postfix,
}

/// One of several nodes.
#[derive(Clone, Copy)]
pub enum Class {
    Node(Rule),
    /// At file scope.
    Item,
    BlockItem,
    Stmt,
    Init,
    At(Strength),
}

/// One of several words.
#[derive(Clone, Copy)]
pub enum Kind {
    /// A specifier that is one word.
    Specifier,
    Qualifier,
    Literal,
    Access,
    Step,
    /// The operators before a cast expression.
    Prefix,
    Assignment,
    Operator(Level),
}

/// What stands in a rule: a word without a value, one of several words, or a node.
#[derive(Clone, Copy)]
pub enum Item {
    Word(Word),
    Kind(Kind),
    Part(Class),
}

/// A number of each word that has no value, 0 for the others.
fn number(word: Word) -> u8
    ensures { result ≡ number word }
{
    match word {
        Word::Name => 1,
        Word::Pragma => 2,
        Word::Void => 3,
        Word::Future => 4,
        Word::Restrict => 5,
        Word::Struct => 6,
        Word::If => 7,
        Word::Else => 8,
        Word::While => 9,
        Word::Do => 10,
        Word::For => 11,
        Word::Return => 12,
        Word::Break => 13,
        Word::Continue => 14,
        Word::Open => 15,
        Word::Close => 16,
        Word::OpenBracket => 17,
        Word::CloseBracket => 18,
        Word::OpenBrace => 19,
        Word::CloseBrace => 20,
        Word::Question => 21,
        Word::Colon => 22,
        Word::Semicolon => 23,
        Word::Comma => 24,
        Word::Set => 25,
        Word::Star => 26,
        Word::Ampersand => 27,
        _ => 0,
    }
}

/// The levels counted from 3, the loosest.
pub fn level_rank(level: Level) -> u8
    ensures { result ≡ level_rank level }
{
    match level {
        Level::Or => 3,
        Level::And => 4,
        Level::BitOr => 5,
        Level::BitXor => 6,
        Level::BitAnd => 7,
        Level::Equality => 8,
        Level::Relation => 9,
        Level::Shift => 10,
        Level::Sum => 11,
        Level::Product => 12,
    }
}

/// The level of a word between two operands, or 0.
fn operator_rank(word: Word) -> u8
    ensures { result ≡ operator_rank word }
{
    match word {
        Word::Star => 12,
        Word::Ampersand => 7,
        Word::Sign(_) => 11,
        Word::Binary(op) => match op {
            BinaryOp::Divide | BinaryOp::Remainder => 12,
            BinaryOp::ShiftLeft | BinaryOp::ShiftRight => 10,
            BinaryOp::Less | BinaryOp::Greater | BinaryOp::AtMost | BinaryOp::AtLeast => 9,
            BinaryOp::Equal | BinaryOp::Unequal => 8,
            BinaryOp::BitXor => 6,
            BinaryOp::BitOr => 5,
            BinaryOp::And => 4,
            BinaryOp::Or => 3,
        },
        _ => 0,
    }
}

/// Whether a word is one of a kind.
pub fn of_kind(kind: Kind, word: Word) -> bool
    ensures { result ≡ of_kind kind word }
{
    match kind {
        Kind::Specifier => matches!(
            word,
            Word::Specifier(_) | Word::Void | Word::Qualifier(_) | Word::Future
        ),
        Kind::Qualifier => is_qualifier(word),
        Kind::Literal => matches!(word, Word::Literal(_)),
        Kind::Access => matches!(word, Word::Access(_)),
        Kind::Step => matches!(word, Word::Step(_)),
        Kind::Prefix => matches!(
            word,
            Word::Star | Word::Ampersand | Word::Sign(_) | Word::Complement(_)
        ),
        Kind::Assignment => matches!(word, Word::Set | Word::Assign(_)),
        Kind::Operator(level) => operator_rank(word) == level_rank(level),
    }
}

fn is_qualifier(word: Word) -> bool
    ensures { result ≡ is_qualifier word }
{
    matches!(word, Word::Qualifier(_) | Word::Restrict | Word::Future)
}

/// Whether specifiers begin with the word.
pub fn is_specifier(word: Word) -> bool
    ensures { result ≡ is_specifier word }
{
    matches!(
        word,
        Word::Specifier(_) | Word::Void | Word::Qualifier(_) | Word::Future | Word::Struct
    )
}

fn begins_expr(word: Word) -> bool
    ensures { result ≡ begins_expr word }
{
    matches!(
        word,
        Word::Name
            | Word::Literal(_)
            | Word::Open
            | Word::Star
            | Word::Ampersand
            | Word::Sign(_)
            | Word::Complement(_)
            | Word::Step(_)
    )
}

fn begins_stmt(word: Word) -> bool
    ensures { result ≡ begins_stmt word }
{
    match word {
        Word::Semicolon
        | Word::OpenBrace
        | Word::If
        | Word::While
        | Word::Do
        | Word::For
        | Word::Return
        | Word::Break
        | Word::Continue
        | Word::Future => true,
        word => begins_expr(word),
    }
}

/// Whether a node of the rule can begin with the word.
fn begins_rule(rule: Rule, word: Word) -> bool
    ensures { result ≡ begins_rule rule word }
{
    match rule {
        Rule::Unit => matches!(word, Word::Pragma) || is_specifier(word),
        Rule::Pragma => matches!(word, Word::Pragma),
        Rule::Declaration
        | Rule::Function
        | Rule::Specs
        | Rule::Member
        | Rule::Param
        | Rule::ForDeclaration => is_specifier(word),
        Rule::Struct => matches!(word, Word::Struct),
        Rule::Declr | Rule::Callee | Rule::Dinit => matches!(word, Word::Star | Word::Name),
        Rule::Initialisers | Rule::Block => matches!(word, Word::OpenBrace),
        Rule::Params => matches!(word, Word::Open),
        Rule::Sub => matches!(word, Word::Pragma) || begins_stmt(word),
        Rule::Eval | Rule::Clause => matches!(word, Word::Semicolon) || begins_expr(word),
        Rule::Step => matches!(word, Word::Close) || begins_expr(word),
        Rule::If => matches!(word, Word::If),
        Rule::While => matches!(word, Word::While),
        Rule::Do => matches!(word, Word::Do),
        Rule::For => matches!(word, Word::For),
        Rule::Return => matches!(word, Word::Return),
        Rule::Break => matches!(word, Word::Break),
        Rule::Continue => matches!(word, Word::Continue),
        Rule::Future => matches!(word, Word::Future),
        Rule::Place => matches!(word, Word::Name),
        Rule::Comma
        | Rule::Assign
        | Rule::Cond
        | Rule::Binary(_)
        | Rule::Cast
        | Rule::Unary
        | Rule::Postfix
        | Rule::Prim => begins_expr(word),
    }
}

/// Whether a node of the class can begin with the word.
pub fn begins(class: Class, word: Word) -> bool
    ensures { result ≡ begins class word }
{
    match class {
        Class::Node(rule) => begins_rule(rule, word),
        Class::Item => matches!(word, Word::Pragma) || is_specifier(word),
        Class::BlockItem => matches!(word, Word::Pragma) || is_specifier(word) || begins_stmt(word),
        Class::Stmt => begins_stmt(word),
        Class::Init => matches!(word, Word::OpenBrace) || begins_expr(word),
        Class::At(_) => begins_expr(word),
    }
}

/// Whether the item can begin with the word.
pub fn accepts(item: Item, word: Word) -> bool
    ensures { result ≡ accepts item word }
{
    match item {
        Item::Word(wanted) => number(wanted) == number(word),
        Item::Kind(kind) => of_kind(kind, word),
        Item::Part(class) => begins(class, word),
    }
}
