//! Places within the rules, and what can stand at them.

ghost use Rattle.std.specs.Prelude.{◌≡◌};
ghost use Rattle.xc_parse_grammar.specs.Spots.{steps, may_end, start};

use crate::marks::{Class, Item, Kind, Strength};
use xc_raw::{Level, Rule, Word};

/// A place within a rule: what was read of it is behind, and the rest is to come. The places named as rules are their
/// beginnings.
#[derive(Clone, Copy)]
pub enum Spot {
    Done,
    Ending,
    Closing,
    Clause,
    Unit,
    UnitMore,
    Pragma,
    Declaration,
    DeclarationFirst,
    DeclarationMore,
    DeclarationNext,
    Function,
    FunctionCallee,
    FunctionParams,
    FunctionBody,
    Specs,
    SpecsMore,
    Struct,
    StructName,
    StructBody,
    StructFirst,
    StructMore,
    Member,
    MemberNext,
    MemberMore,
    Declr,
    DeclrStars,
    DeclrBounds,
    DeclrBound,
    DeclrClose,
    Callee,
    CalleeStars,
    Dinit,
    DinitSet,
    DinitInit,
    Initialisers,
    InitialisersFirst,
    InitialisersMore,
    InitialisersNext,
    Params,
    ParamsFirst,
    ParamsMore,
    ParamsNext,
    Param,
    ParamDeclr,
    ParamStars,
    ParamFirst,
    ParamBound,
    ParamClose,
    ParamMore,
    ParamNext,
    Block,
    BlockMore,
    Sub,
    If,
    IfOpen,
    IfTest,
    IfClose,
    IfThen,
    IfElse,
    IfOther,
    While,
    WhileOpen,
    WhileTest,
    WhileClose,
    WhileBody,
    Do,
    DoBody,
    DoWhile,
    DoOpen,
    DoTest,
    DoClose,
    For,
    ForOpen,
    ForFirst,
    ForSecond,
    ForThird,
    ForBody,
    ForDeclaration,
    ForDeclarationNext,
    ForDeclarationMore,
    Step,
    Return,
    Break,
    Continue,
    Future,
    FuturePlace,
    FutureOpen,
    FutureFirst,
    FutureMore,
    FutureNext,
    FutureBody,
    Place,
    PlaceMore,
    PlaceIndex,
    PlaceClose,
    PlaceMember,
    Comma,
    CommaOp,
    CommaRight,
    Assign,
    AssignOp,
    AssignRight,
    Cond,
    CondQuestion,
    CondThen,
    CondColon,
    CondOther,
    Binary(Level),
    BinaryOp(Level),
    BinaryRight(Level),
    Cast,
    CastSpecs,
    CastAfter,
    CastStars,
    CastOperand,
    Unary,
    UnaryStep,
    UnaryOperand,
    Postfix,
    PostfixOp,
    PostfixIndex,
    PostfixClose,
    PostfixFirst,
    PostfixMore,
    PostfixNext,
    PostfixMember,
    Prim,
    PrimInner,
}

/// What can come next, and the place behind it.
pub fn steps(spot: Spot) -> &'static [(Item, Spot)]
    ensures { result.now ≡ steps spot }
{
    match spot {
        Spot::Done => &[],
        Spot::Ending => &[(Item::Word(Word::Semicolon), Spot::Done)],
        Spot::Closing => &[(Item::Word(Word::Close), Spot::Done)],
        Spot::Clause => &[
            (Item::Part(Class::At(Strength::Expr)), Spot::Ending),
            (Item::Word(Word::Semicolon), Spot::Done),
        ],
        Spot::Unit => &[(Item::Part(Class::Item), Spot::UnitMore)],
        Spot::UnitMore => &[(Item::Part(Class::Item), Spot::UnitMore)],
        Spot::Pragma => &[(Item::Word(Word::Pragma), Spot::Done)],
        Spot::Declaration => &[(Item::Part(Class::Node(Rule::Specs)), Spot::DeclarationFirst)],
        Spot::DeclarationFirst => &[
            (Item::Part(Class::Node(Rule::Dinit)), Spot::DeclarationMore),
            (Item::Word(Word::Semicolon), Spot::Done),
        ],
        Spot::DeclarationMore => &[
            (Item::Word(Word::Comma), Spot::DeclarationNext),
            (Item::Word(Word::Semicolon), Spot::Done),
        ],
        Spot::DeclarationNext => &[(Item::Part(Class::Node(Rule::Dinit)), Spot::DeclarationMore)],
        Spot::Function => &[(Item::Part(Class::Node(Rule::Specs)), Spot::FunctionCallee)],
        Spot::FunctionCallee => &[(Item::Part(Class::Node(Rule::Callee)), Spot::FunctionParams)],
        Spot::FunctionParams => &[(Item::Part(Class::Node(Rule::Params)), Spot::FunctionBody)],
        Spot::FunctionBody => &[
            (Item::Word(Word::Semicolon), Spot::Done),
            (Item::Part(Class::Node(Rule::Block)), Spot::Done),
        ],
        Spot::Specs => &[
            (Item::Kind(Kind::Specifier), Spot::SpecsMore),
            (Item::Part(Class::Node(Rule::Struct)), Spot::SpecsMore),
        ],
        Spot::SpecsMore => &[
            (Item::Kind(Kind::Specifier), Spot::SpecsMore),
            (Item::Part(Class::Node(Rule::Struct)), Spot::SpecsMore),
        ],
        Spot::Struct => &[(Item::Word(Word::Struct), Spot::StructName)],
        Spot::StructName => &[(Item::Word(Word::Name), Spot::StructBody)],
        Spot::StructBody => &[(Item::Word(Word::OpenBrace), Spot::StructFirst)],
        Spot::StructFirst => &[(Item::Part(Class::Node(Rule::Member)), Spot::StructMore)],
        Spot::StructMore => &[
            (Item::Part(Class::Node(Rule::Member)), Spot::StructMore),
            (Item::Word(Word::CloseBrace), Spot::Done),
        ],
        Spot::Member => &[(Item::Part(Class::Node(Rule::Specs)), Spot::MemberNext)],
        Spot::MemberNext => &[(Item::Part(Class::Node(Rule::Declr)), Spot::MemberMore)],
        Spot::MemberMore => &[
            (Item::Word(Word::Comma), Spot::MemberNext),
            (Item::Word(Word::Semicolon), Spot::Done),
        ],
        Spot::Declr => &[
            (Item::Word(Word::Star), Spot::DeclrStars),
            (Item::Word(Word::Name), Spot::DeclrBounds),
        ],
        Spot::DeclrStars => &[
            (Item::Kind(Kind::Qualifier), Spot::DeclrStars),
            (Item::Word(Word::Star), Spot::DeclrStars),
            (Item::Word(Word::Name), Spot::DeclrBounds),
        ],
        Spot::DeclrBounds => &[(Item::Word(Word::OpenBracket), Spot::DeclrBound)],
        Spot::DeclrBound => &[(Item::Part(Class::At(Strength::Cond)), Spot::DeclrClose)],
        Spot::DeclrClose => &[(Item::Word(Word::CloseBracket), Spot::DeclrBounds)],
        Spot::Callee => &[
            (Item::Word(Word::Star), Spot::CalleeStars),
            (Item::Word(Word::Name), Spot::Done),
        ],
        Spot::CalleeStars => &[
            (Item::Kind(Kind::Qualifier), Spot::CalleeStars),
            (Item::Word(Word::Star), Spot::CalleeStars),
            (Item::Word(Word::Name), Spot::Done),
        ],
        Spot::Dinit => &[(Item::Part(Class::Node(Rule::Declr)), Spot::DinitSet)],
        Spot::DinitSet => &[(Item::Word(Word::Set), Spot::DinitInit)],
        Spot::DinitInit => &[(Item::Part(Class::Init), Spot::Done)],
        Spot::Initialisers => &[(Item::Word(Word::OpenBrace), Spot::InitialisersFirst)],
        Spot::InitialisersFirst => &[(Item::Part(Class::Init), Spot::InitialisersMore)],
        Spot::InitialisersMore => &[
            (Item::Word(Word::Comma), Spot::InitialisersNext),
            (Item::Word(Word::CloseBrace), Spot::Done),
        ],
        Spot::InitialisersNext => &[
            (Item::Part(Class::Init), Spot::InitialisersMore),
            (Item::Word(Word::CloseBrace), Spot::Done),
        ],
        Spot::Params => &[(Item::Word(Word::Open), Spot::ParamsFirst)],
        Spot::ParamsFirst => &[
            (Item::Part(Class::Node(Rule::Param)), Spot::ParamsMore),
            (Item::Word(Word::Close), Spot::Done),
        ],
        Spot::ParamsMore => &[
            (Item::Word(Word::Comma), Spot::ParamsNext),
            (Item::Word(Word::Close), Spot::Done),
        ],
        Spot::ParamsNext => &[(Item::Part(Class::Node(Rule::Param)), Spot::ParamsMore)],
        Spot::Param => &[(Item::Part(Class::Node(Rule::Specs)), Spot::ParamDeclr)],
        Spot::ParamDeclr => &[
            (Item::Word(Word::Star), Spot::ParamStars),
            (Item::Word(Word::Name), Spot::ParamFirst),
            (Item::Word(Word::OpenBracket), Spot::ParamBound),
        ],
        Spot::ParamStars => &[
            (Item::Kind(Kind::Qualifier), Spot::ParamStars),
            (Item::Word(Word::Star), Spot::ParamStars),
            (Item::Word(Word::Name), Spot::ParamFirst),
            (Item::Word(Word::OpenBracket), Spot::ParamBound),
        ],
        Spot::ParamFirst => &[(Item::Word(Word::OpenBracket), Spot::ParamBound)],
        Spot::ParamBound => &[
            (Item::Part(Class::At(Strength::Cond)), Spot::ParamClose),
            (Item::Word(Word::CloseBracket), Spot::ParamMore),
        ],
        Spot::ParamClose => &[(Item::Word(Word::CloseBracket), Spot::ParamMore)],
        Spot::ParamMore => &[(Item::Word(Word::OpenBracket), Spot::ParamNext)],
        Spot::ParamNext => &[(Item::Part(Class::At(Strength::Cond)), Spot::ParamClose)],
        Spot::Block => &[(Item::Word(Word::OpenBrace), Spot::BlockMore)],
        Spot::BlockMore => &[
            (Item::Part(Class::BlockItem), Spot::BlockMore),
            (Item::Word(Word::CloseBrace), Spot::Done),
        ],
        Spot::Sub => &[
            (Item::Part(Class::Node(Rule::Pragma)), Spot::Sub),
            (Item::Part(Class::Stmt), Spot::Done),
        ],
        Spot::If => &[(Item::Word(Word::If), Spot::IfOpen)],
        Spot::IfOpen => &[(Item::Word(Word::Open), Spot::IfTest)],
        Spot::IfTest => &[(Item::Part(Class::At(Strength::Expr)), Spot::IfClose)],
        Spot::IfClose => &[(Item::Word(Word::Close), Spot::IfThen)],
        Spot::IfThen => &[(Item::Part(Class::Node(Rule::Sub)), Spot::IfElse)],
        Spot::IfElse => &[(Item::Word(Word::Else), Spot::IfOther)],
        Spot::IfOther => &[(Item::Part(Class::Node(Rule::Sub)), Spot::Done)],
        Spot::While => &[(Item::Word(Word::While), Spot::WhileOpen)],
        Spot::WhileOpen => &[(Item::Word(Word::Open), Spot::WhileTest)],
        Spot::WhileTest => &[(Item::Part(Class::At(Strength::Expr)), Spot::WhileClose)],
        Spot::WhileClose => &[(Item::Word(Word::Close), Spot::WhileBody)],
        Spot::WhileBody => &[(Item::Part(Class::Node(Rule::Sub)), Spot::Done)],
        Spot::Do => &[(Item::Word(Word::Do), Spot::DoBody)],
        Spot::DoBody => &[(Item::Part(Class::Node(Rule::Sub)), Spot::DoWhile)],
        Spot::DoWhile => &[(Item::Word(Word::While), Spot::DoOpen)],
        Spot::DoOpen => &[(Item::Word(Word::Open), Spot::DoTest)],
        Spot::DoTest => &[(Item::Part(Class::At(Strength::Expr)), Spot::DoClose)],
        Spot::DoClose => &[(Item::Word(Word::Close), Spot::Ending)],
        Spot::For => &[(Item::Word(Word::For), Spot::ForOpen)],
        Spot::ForOpen => &[(Item::Word(Word::Open), Spot::ForFirst)],
        Spot::ForFirst => &[
            (
                Item::Part(Class::Node(Rule::ForDeclaration)),
                Spot::ForSecond,
            ),
            (Item::Part(Class::Node(Rule::Clause)), Spot::ForSecond),
        ],
        Spot::ForSecond => &[(Item::Part(Class::Node(Rule::Clause)), Spot::ForThird)],
        Spot::ForThird => &[(Item::Part(Class::Node(Rule::Step)), Spot::ForBody)],
        Spot::ForBody => &[(Item::Part(Class::Node(Rule::Sub)), Spot::Done)],
        Spot::ForDeclaration => &[(
            Item::Part(Class::Node(Rule::Specs)),
            Spot::ForDeclarationNext,
        )],
        Spot::ForDeclarationNext => &[(
            Item::Part(Class::Node(Rule::Dinit)),
            Spot::ForDeclarationMore,
        )],
        Spot::ForDeclarationMore => &[
            (Item::Word(Word::Comma), Spot::ForDeclarationNext),
            (Item::Word(Word::Semicolon), Spot::Done),
        ],
        Spot::Step => &[
            (Item::Part(Class::At(Strength::Expr)), Spot::Closing),
            (Item::Word(Word::Close), Spot::Done),
        ],
        Spot::Return => &[(Item::Word(Word::Return), Spot::Clause)],
        Spot::Break => &[(Item::Word(Word::Break), Spot::Ending)],
        Spot::Continue => &[(Item::Word(Word::Continue), Spot::Ending)],
        Spot::Future => &[(Item::Word(Word::Future), Spot::FuturePlace)],
        Spot::FuturePlace => &[(Item::Part(Class::Node(Rule::Place)), Spot::FutureOpen)],
        Spot::FutureOpen => &[(Item::Word(Word::Open), Spot::FutureFirst)],
        Spot::FutureFirst => &[
            (Item::Word(Word::Name), Spot::FutureMore),
            (Item::Word(Word::Close), Spot::FutureBody),
        ],
        Spot::FutureMore => &[
            (Item::Word(Word::Comma), Spot::FutureNext),
            (Item::Word(Word::Close), Spot::FutureBody),
        ],
        Spot::FutureNext => &[(Item::Word(Word::Name), Spot::FutureMore)],
        Spot::FutureBody => &[(Item::Part(Class::Node(Rule::Block)), Spot::Done)],
        Spot::Place => &[(Item::Word(Word::Name), Spot::PlaceMore)],
        Spot::PlaceMore => &[
            (Item::Word(Word::OpenBracket), Spot::PlaceIndex),
            (Item::Kind(Kind::Access), Spot::PlaceMember),
        ],
        Spot::PlaceIndex => &[(Item::Part(Class::At(Strength::Expr)), Spot::PlaceClose)],
        Spot::PlaceClose => &[(Item::Word(Word::CloseBracket), Spot::PlaceMore)],
        Spot::PlaceMember => &[(Item::Word(Word::Name), Spot::PlaceMore)],
        Spot::Comma => &[(Item::Part(Class::At(Strength::Expr)), Spot::CommaOp)],
        Spot::CommaOp => &[(Item::Word(Word::Comma), Spot::CommaRight)],
        Spot::CommaRight => &[(Item::Part(Class::At(Strength::Assign)), Spot::Done)],
        Spot::Assign => &[(Item::Part(Class::At(Strength::Unary)), Spot::AssignOp)],
        Spot::AssignOp => &[(Item::Kind(Kind::Assignment), Spot::AssignRight)],
        Spot::AssignRight => &[(Item::Part(Class::At(Strength::Assign)), Spot::Done)],
        Spot::Cond => &[(
            Item::Part(Class::At(Strength::Binary(Level::Or))),
            Spot::CondQuestion,
        )],
        Spot::CondQuestion => &[(Item::Word(Word::Question), Spot::CondThen)],
        Spot::CondThen => &[(Item::Part(Class::At(Strength::Expr)), Spot::CondColon)],
        Spot::CondColon => &[(Item::Word(Word::Colon), Spot::CondOther)],
        Spot::CondOther => &[(Item::Part(Class::At(Strength::Cond)), Spot::Done)],
        Spot::Binary(level) => match level {
            Level::Or => &[(
                Item::Part(Class::At(Strength::Binary(Level::Or))),
                Spot::BinaryOp(Level::Or),
            )],
            Level::And => &[(
                Item::Part(Class::At(Strength::Binary(Level::And))),
                Spot::BinaryOp(Level::And),
            )],
            Level::BitOr => &[(
                Item::Part(Class::At(Strength::Binary(Level::BitOr))),
                Spot::BinaryOp(Level::BitOr),
            )],
            Level::BitXor => &[(
                Item::Part(Class::At(Strength::Binary(Level::BitXor))),
                Spot::BinaryOp(Level::BitXor),
            )],
            Level::BitAnd => &[(
                Item::Part(Class::At(Strength::Binary(Level::BitAnd))),
                Spot::BinaryOp(Level::BitAnd),
            )],
            Level::Equality => &[(
                Item::Part(Class::At(Strength::Binary(Level::Equality))),
                Spot::BinaryOp(Level::Equality),
            )],
            Level::Relation => &[(
                Item::Part(Class::At(Strength::Binary(Level::Relation))),
                Spot::BinaryOp(Level::Relation),
            )],
            Level::Shift => &[(
                Item::Part(Class::At(Strength::Binary(Level::Shift))),
                Spot::BinaryOp(Level::Shift),
            )],
            Level::Sum => &[(
                Item::Part(Class::At(Strength::Binary(Level::Sum))),
                Spot::BinaryOp(Level::Sum),
            )],
            Level::Product => &[(
                Item::Part(Class::At(Strength::Binary(Level::Product))),
                Spot::BinaryOp(Level::Product),
            )],
        },
        Spot::BinaryOp(level) => match level {
            Level::Or => &[(
                Item::Kind(Kind::Operator(Level::Or)),
                Spot::BinaryRight(Level::Or),
            )],
            Level::And => &[(
                Item::Kind(Kind::Operator(Level::And)),
                Spot::BinaryRight(Level::And),
            )],
            Level::BitOr => &[(
                Item::Kind(Kind::Operator(Level::BitOr)),
                Spot::BinaryRight(Level::BitOr),
            )],
            Level::BitXor => &[(
                Item::Kind(Kind::Operator(Level::BitXor)),
                Spot::BinaryRight(Level::BitXor),
            )],
            Level::BitAnd => &[(
                Item::Kind(Kind::Operator(Level::BitAnd)),
                Spot::BinaryRight(Level::BitAnd),
            )],
            Level::Equality => &[(
                Item::Kind(Kind::Operator(Level::Equality)),
                Spot::BinaryRight(Level::Equality),
            )],
            Level::Relation => &[(
                Item::Kind(Kind::Operator(Level::Relation)),
                Spot::BinaryRight(Level::Relation),
            )],
            Level::Shift => &[(
                Item::Kind(Kind::Operator(Level::Shift)),
                Spot::BinaryRight(Level::Shift),
            )],
            Level::Sum => &[(
                Item::Kind(Kind::Operator(Level::Sum)),
                Spot::BinaryRight(Level::Sum),
            )],
            Level::Product => &[(
                Item::Kind(Kind::Operator(Level::Product)),
                Spot::BinaryRight(Level::Product),
            )],
        },
        Spot::BinaryRight(level) => match level {
            Level::Or => &[(
                Item::Part(Class::At(Strength::Binary(Level::And))),
                Spot::Done,
            )],
            Level::And => &[(
                Item::Part(Class::At(Strength::Binary(Level::BitOr))),
                Spot::Done,
            )],
            Level::BitOr => &[(
                Item::Part(Class::At(Strength::Binary(Level::BitXor))),
                Spot::Done,
            )],
            Level::BitXor => &[(
                Item::Part(Class::At(Strength::Binary(Level::BitAnd))),
                Spot::Done,
            )],
            Level::BitAnd => &[(
                Item::Part(Class::At(Strength::Binary(Level::Equality))),
                Spot::Done,
            )],
            Level::Equality => &[(
                Item::Part(Class::At(Strength::Binary(Level::Relation))),
                Spot::Done,
            )],
            Level::Relation => &[(
                Item::Part(Class::At(Strength::Binary(Level::Shift))),
                Spot::Done,
            )],
            Level::Shift => &[(
                Item::Part(Class::At(Strength::Binary(Level::Sum))),
                Spot::Done,
            )],
            Level::Sum => &[(
                Item::Part(Class::At(Strength::Binary(Level::Product))),
                Spot::Done,
            )],
            Level::Product => &[(Item::Part(Class::At(Strength::Cast)), Spot::Done)],
        },
        Spot::Cast => &[(Item::Word(Word::Open), Spot::CastSpecs)],
        Spot::CastSpecs => &[(Item::Part(Class::Node(Rule::Specs)), Spot::CastAfter)],
        Spot::CastAfter => &[
            (Item::Word(Word::Star), Spot::CastStars),
            (Item::Word(Word::Close), Spot::CastOperand),
        ],
        Spot::CastStars => &[
            (Item::Kind(Kind::Qualifier), Spot::CastStars),
            (Item::Word(Word::Star), Spot::CastStars),
            (Item::Word(Word::Close), Spot::CastOperand),
        ],
        Spot::CastOperand => &[(Item::Part(Class::At(Strength::Cast)), Spot::Done)],
        Spot::Unary => &[
            (Item::Kind(Kind::Step), Spot::UnaryStep),
            (Item::Kind(Kind::Prefix), Spot::UnaryOperand),
        ],
        Spot::UnaryStep => &[(Item::Part(Class::At(Strength::Unary)), Spot::Done)],
        Spot::UnaryOperand => &[(Item::Part(Class::At(Strength::Cast)), Spot::Done)],
        Spot::Postfix => &[(Item::Part(Class::At(Strength::Postfix)), Spot::PostfixOp)],
        Spot::PostfixOp => &[
            (Item::Word(Word::OpenBracket), Spot::PostfixIndex),
            (Item::Word(Word::Open), Spot::PostfixFirst),
            (Item::Kind(Kind::Access), Spot::PostfixMember),
            (Item::Kind(Kind::Step), Spot::Done),
        ],
        Spot::PostfixIndex => &[(Item::Part(Class::At(Strength::Expr)), Spot::PostfixClose)],
        Spot::PostfixClose => &[(Item::Word(Word::CloseBracket), Spot::Done)],
        Spot::PostfixFirst => &[
            (Item::Part(Class::At(Strength::Assign)), Spot::PostfixMore),
            (Item::Word(Word::Close), Spot::Done),
        ],
        Spot::PostfixMore => &[
            (Item::Word(Word::Comma), Spot::PostfixNext),
            (Item::Word(Word::Close), Spot::Done),
        ],
        Spot::PostfixNext => &[(Item::Part(Class::At(Strength::Assign)), Spot::PostfixMore)],
        Spot::PostfixMember => &[(Item::Word(Word::Name), Spot::Done)],
        Spot::Prim => &[
            (Item::Word(Word::Name), Spot::Done),
            (Item::Kind(Kind::Literal), Spot::Done),
            (Item::Word(Word::Open), Spot::PrimInner),
        ],
        Spot::PrimInner => &[(Item::Part(Class::At(Strength::Expr)), Spot::Closing)],
    }
}

/// Whether the rule can end here.
pub fn may_end(spot: Spot) -> bool
    ensures { result ≡ may_end spot }
{
    matches!(
        spot,
        Spot::Done
            | Spot::UnitMore
            | Spot::SpecsMore
            | Spot::StructBody
            | Spot::DeclrBounds
            | Spot::DinitSet
            | Spot::ParamDeclr
            | Spot::ParamStars
            | Spot::ParamFirst
            | Spot::ParamMore
            | Spot::IfElse
            | Spot::PlaceMore
    )
}

/// Where a rule begins.
pub fn start(rule: Rule) -> Spot
    ensures { result ≡ start rule }
{
    match rule {
        Rule::Unit => Spot::Unit,
        Rule::Pragma => Spot::Pragma,
        Rule::Declaration => Spot::Declaration,
        Rule::Function => Spot::Function,
        Rule::Specs => Spot::Specs,
        Rule::Struct => Spot::Struct,
        Rule::Member => Spot::Member,
        Rule::Declr => Spot::Declr,
        Rule::Callee => Spot::Callee,
        Rule::Dinit => Spot::Dinit,
        Rule::Initialisers => Spot::Initialisers,
        Rule::Params => Spot::Params,
        Rule::Param => Spot::Param,
        Rule::Block => Spot::Block,
        Rule::Sub => Spot::Sub,
        Rule::Eval => Spot::Clause,
        Rule::Clause => Spot::Clause,
        Rule::If => Spot::If,
        Rule::While => Spot::While,
        Rule::Do => Spot::Do,
        Rule::For => Spot::For,
        Rule::ForDeclaration => Spot::ForDeclaration,
        Rule::Step => Spot::Step,
        Rule::Return => Spot::Return,
        Rule::Break => Spot::Break,
        Rule::Continue => Spot::Continue,
        Rule::Future => Spot::Future,
        Rule::Place => Spot::Place,
        Rule::Comma => Spot::Comma,
        Rule::Assign => Spot::Assign,
        Rule::Cond => Spot::Cond,
        Rule::Binary(level) => Spot::Binary(level),
        Rule::Cast => Spot::Cast,
        Rule::Unary => Spot::Unary,
        Rule::Postfix => Spot::Postfix,
        Rule::Prim => Spot::Prim,
    }
}
