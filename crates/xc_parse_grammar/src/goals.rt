//! What the parser still has to do, and what it does next.

ghost use Rattle.std.specs.Prelude.{◌≡◌};
ghost use Rattle.xc_parse_grammar.specs.Marks.{is_specifier, of_kind};
ghost use Rattle.xc_parse_grammar.specs.declared.marks.Kind.TheVariants as kind;
ghost use Rattle.xc_parse_grammar.specs.Plan.{opening, looser, picked, at_spot, planned, planned_read, statement, act_of, is_suffix, assignment, assignment_open, inside, rest, tail};

use crate::marks::{Class, Item, Kind, Strength, accepts, is_specifier, level_rank, of_kind};
use crate::spots::{Spot, may_end, start, steps};
use xc_raw::{Level, Rule, Word};

/// Where an assignment is read: where any may stand, or in a bracket behind `future NAME`, which may be a bound or an
/// index.
#[derive(Clone, Copy)]
pub enum Use {
    Plain,
    Bracket,
}

/// Something that is still to be read or built. The last node is the one at work.
#[derive(Clone, Copy)]
pub enum Goal {
    /// Go on with the last node at a place of its rule.
    At(Spot),
    /// Read a node of a class.
    Read(Class),
    /// Join the last node to the one before it.
    Join,
    Assignment(Use),
    /// The same, where its parenthesis comes.
    AssignmentOpen(Use),
    /// The same, of which a parenthesis was read: a cast or an expression.
    AssignmentInside(Use),
    /// A unary expression was read: an assignment, or operators.
    AssignmentRest(Use),
    /// A cond was read behind `future NAME [`.
    BracketEnd,
    BracketClose,
    /// A cast expression.
    Operand,
    OperandOpen,
    OperandInside,
    Unary,
    Suffix,
    /// Operators from the first level down to the second.
    Tail(Level, Level),
    CondRest,
    CommaRest,
    /// Specifiers were read at file scope.
    ItemRest,
    ItemDeclr,
    ItemStars,
    /// A declarator's name was read at file scope.
    ItemName,
    FutureWord,
    /// `future` was read in a block.
    FutureNext,
    FutureName,
    /// `future NAME` and brackets were read in a block: a place or a declarator.
    FutureRest,
}

/// What is done to the nodes at work.
#[derive(Clone, Copy)]
pub enum Shape {
    Keep,
    /// A node of a rule begins.
    Begin(Rule),
    /// The last node becomes a part of the one before it.
    Join,
    /// A node of a rule begins around the last node, its first part.
    Wrap(Rule),
    /// The last node is a cast.
    Cast,
    /// `future` was a specifier of a declaration: Future becomes Declaration around Specs.
    Specify,
    /// `future NAME ..` was a declarator: Future and Place become Declaration, with its Specs, and Dinit around Declr.
    Declare,
    /// Specs and Declr become Function, with its Specs and Callee.
    Call,
    /// Specs and Declr become Declaration, with its Specs, and an empty Dinit below the Declr.
    Enlist,
}

/// What to do at a goal: new goals in its place (the first one last), behind the next token or behind a change.
#[derive(Clone, Copy)]
pub enum Move {
    Wrong,
    Shift(&'static [Goal]),
    Do(Shape, &'static [Goal]),
    /// Behind the next token, the place.
    Next(Spot),
    /// A node of the class, joined, then the place.
    Part(Class, Spot),
    /// A node of the rule from its beginning.
    Begin(Rule),
    /// An operand, then operators down to a level.
    Operands(Level),
    /// An operator of the first level, then that level again.
    Operator(Level, Level),
    /// The next looser level.
    Looser(Level, Level),
}

/// What an expression begins with.
#[derive(Clone, Copy)]
pub enum Lead {
    Atom,
    Operator,
    Paren,
    Other,
}

fn opening(word: Word) -> Lead
    ensures { result ≡ opening word }
{
    match word {
        Word::Name | Word::Literal(_) => Lead::Atom,
        Word::Star | Word::Ampersand | Word::Sign(_) | Word::Complement(_) | Word::Step(_) => {
            Lead::Operator
        }
        Word::Open => Lead::Paren,
        _ => Lead::Other,
    }
}

fn is_suffix(word: Word) -> bool
    ensures { result ≡ is_suffix word }
{
    matches!(
        word,
        Word::OpenBracket | Word::Open | Word::Access(_) | Word::Step(_)
    )
}

/// The next looser level.
fn looser(level: Level) -> Level
    ensures { result ≡ looser level }
{
    match level {
        Level::Product => Level::Sum,
        Level::Sum => Level::Shift,
        Level::Shift => Level::Relation,
        Level::Relation => Level::Equality,
        Level::Equality => Level::BitAnd,
        Level::BitAnd => Level::BitXor,
        Level::BitXor => Level::BitOr,
        Level::BitOr => Level::And,
        Level::And | Level::Or => Level::Or,
    }
}

/// The rule of a statement, by its first word.
fn statement(word: Word) -> Rule
    ensures { result ≡ statement word }
{
    match word {
        Word::OpenBrace => Rule::Block,
        Word::If => Rule::If,
        Word::While => Rule::While,
        Word::Do => Rule::Do,
        Word::For => Rule::For,
        Word::Return => Rule::Return,
        Word::Break => Rule::Break,
        Word::Continue => Rule::Continue,
        Word::Future => Rule::Future,
        _ => Rule::Eval,
    }
}

/// The first step that the word allows.
fn picked(steps: &[(Item, Spot)], word: Word) -> Option<(Item, Spot)>
    ensures { result ≡ picked steps.now word }
{
    for step in steps {
        if accepts(step.0, word) {
            return Some(*step);
        }
    }
    None
}

fn at_spot(spot: Spot, word: Word) -> Move
    ensures { act_of result ≡ at_spot spot word }
{
    match picked(steps(spot), word) {
        Some((Item::Part(class), then)) => Move::Part(class, then),
        Some((_, then)) => Move::Next(then),
        None if may_end(spot) => Move::Do(Shape::Keep, &[]),
        None => Move::Wrong,
    }
}

fn planned_read(class: Class, word: Word) -> Move
    ensures { act_of result ≡ planned_read class word }
{
    match class {
        Class::Node(rule) => Move::Begin(rule),
        Class::Item => match word {
            Word::Pragma => Move::Begin(Rule::Pragma),
            _ => Move::Do(
                Shape::Begin(Rule::Specs),
                &[Goal::ItemRest, Goal::At(Spot::Specs)],
            ),
        },
        Class::BlockItem => match word {
            Word::Pragma => Move::Begin(Rule::Pragma),
            Word::Future => Move::Do(Shape::Begin(Rule::Future), &[Goal::FutureWord]),
            word if is_specifier(word) => Move::Begin(Rule::Declaration),
            _ => Move::Do(Shape::Keep, &[Goal::Read(Class::Stmt)]),
        },
        Class::Stmt => Move::Begin(statement(word)),
        Class::Init => match word {
            Word::OpenBrace => Move::Begin(Rule::Initialisers),
            _ => Move::Do(Shape::Keep, &[Goal::Assignment(Use::Plain)]),
        },
        Class::At(Strength::Expr) => Move::Do(
            Shape::Keep,
            &[Goal::CommaRest, Goal::Assignment(Use::Plain)],
        ),
        Class::At(Strength::Assign) => Move::Do(Shape::Keep, &[Goal::Assignment(Use::Plain)]),
        Class::At(Strength::Cond) => Move::Do(
            Shape::Keep,
            &[
                Goal::CondRest,
                Goal::Tail(Level::Product, Level::Or),
                Goal::Operand,
            ],
        ),
        Class::At(Strength::Binary(level)) => Move::Operands(level),
        Class::At(Strength::Cast) => Move::Do(Shape::Keep, &[Goal::Operand]),
        Class::At(Strength::Unary) => Move::Do(Shape::Keep, &[Goal::Unary]),
        Class::At(Strength::Postfix) => Move::Wrong,
    }
}

/// What to do at a goal, by the next word alone, which is `Foreign` at the end of the text.
pub fn plan(goal: Goal, word: Word) -> Move
    ensures { act_of result ≡ planned goal word }
{
    match goal {
        Goal::At(spot) => at_spot(spot, word),
        Goal::Read(class) => planned_read(class, word),
        Goal::Join => Move::Do(Shape::Join, &[]),
        Goal::Assignment(mode) => plan_assignment(mode, word),
        Goal::AssignmentOpen(mode) => plan_open(mode, word),
        Goal::AssignmentInside(mode) => plan_inside(mode, word),
        Goal::AssignmentRest(mode) => plan_rest(mode, word),
        Goal::BracketEnd => match word {
            Word::Comma => Move::Do(
                Shape::Keep,
                &[
                    Goal::At(Spot::FutureOpen),
                    Goal::Join,
                    Goal::At(Spot::PlaceClose),
                    Goal::Join,
                    Goal::CommaRest,
                ],
            ),
            _ => Move::Do(Shape::Join, &[Goal::BracketClose]),
        },
        Goal::BracketClose => match word {
            Word::CloseBracket => Move::Shift(&[Goal::FutureRest]),
            _ => Move::Wrong,
        },
        Goal::Operand => match opening(word) {
            Lead::Atom => Move::Do(
                Shape::Begin(Rule::Prim),
                &[Goal::Suffix, Goal::At(Spot::Prim)],
            ),
            Lead::Operator => { Move::Do(Shape::Begin(Rule::Unary), &[Goal::At(Spot::Unary)]) }
            Lead::Paren => Move::Do(Shape::Begin(Rule::Prim), &[Goal::OperandOpen]),
            Lead::Other => Move::Wrong,
        },
        Goal::OperandOpen => match word {
            Word::Open => Move::Shift(&[Goal::OperandInside]),
            _ => Move::Wrong,
        },
        Goal::OperandInside => {
            if is_specifier(word) {
                Move::Do(Shape::Cast, &[Goal::At(Spot::CastSpecs)])
            } else {
                Move::Do(Shape::Keep, &[Goal::Suffix, Goal::At(Spot::PrimInner)])
            }
        }
        Goal::Unary => match opening(word) {
            Lead::Atom | Lead::Paren => Move::Do(
                Shape::Begin(Rule::Prim),
                &[Goal::Suffix, Goal::At(Spot::Prim)],
            ),
            Lead::Operator => { Move::Do(Shape::Begin(Rule::Unary), &[Goal::At(Spot::Unary)]) }
            Lead::Other => Move::Wrong,
        },
        Goal::Suffix => {
            if is_suffix(word) {
                Move::Do(
                    Shape::Wrap(Rule::Postfix),
                    &[Goal::Suffix, Goal::At(Spot::PostfixOp)],
                )
            } else {
                Move::Do(Shape::Keep, &[])
            }
        }
        Goal::Tail(level, last) => plan_tail(level, last, word),
        Goal::CondRest => match word {
            Word::Question => { Move::Do(Shape::Wrap(Rule::Cond), &[Goal::At(Spot::CondQuestion)]) }
            _ => Move::Do(Shape::Keep, &[]),
        },
        Goal::CommaRest => match word {
            Word::Comma => Move::Do(
                Shape::Wrap(Rule::Comma),
                &[Goal::CommaRest, Goal::At(Spot::CommaOp)],
            ),
            _ => Move::Do(Shape::Keep, &[]),
        },
        Goal::ItemRest => match word {
            Word::Semicolon => Move::Do(
                Shape::Wrap(Rule::Declaration),
                &[Goal::At(Spot::DeclarationFirst)],
            ),
            _ => Move::Do(Shape::Begin(Rule::Declr), &[Goal::ItemDeclr]),
        },
        Goal::ItemDeclr => match word {
            Word::Star => Move::Shift(&[Goal::ItemStars]),
            Word::Name => Move::Shift(&[Goal::ItemName]),
            _ => Move::Wrong,
        },
        Goal::ItemStars => match word {
            Word::Star => Move::Shift(&[Goal::ItemStars]),
            Word::Name => Move::Shift(&[Goal::ItemName]),
            word if of_kind(Kind::Qualifier, word) => Move::Shift(&[Goal::ItemStars]),
            _ => Move::Wrong,
        },
        Goal::ItemName => match word {
            Word::Open => Move::Do(Shape::Call, &[Goal::At(Spot::FunctionParams)]),
            _ => Move::Do(
                Shape::Enlist,
                &[
                    Goal::At(Spot::DeclarationMore),
                    Goal::Join,
                    Goal::At(Spot::DinitSet),
                    Goal::Join,
                    Goal::At(Spot::DeclrBounds),
                ],
            ),
        },
        Goal::FutureWord => match word {
            Word::Future => Move::Shift(&[Goal::FutureNext]),
            _ => Move::Wrong,
        },
        Goal::FutureNext => match word {
            Word::Name => Move::Do(Shape::Begin(Rule::Place), &[Goal::FutureName]),
            _ => Move::Do(
                Shape::Specify,
                &[
                    Goal::At(Spot::DeclarationFirst),
                    Goal::Join,
                    Goal::At(Spot::SpecsMore),
                ],
            ),
        },
        Goal::FutureName => match word {
            Word::Name => Move::Shift(&[Goal::FutureRest]),
            _ => Move::Wrong,
        },
        Goal::FutureRest => match word {
            Word::OpenBracket => Move::Shift(&[Goal::Assignment(Use::Bracket)]),
            Word::Open | Word::Access(_) => Move::Do(
                Shape::Keep,
                &[
                    Goal::At(Spot::FutureOpen),
                    Goal::Join,
                    Goal::At(Spot::PlaceMore),
                ],
            ),
            _ => Move::Do(
                Shape::Declare,
                &[
                    Goal::At(Spot::DeclarationMore),
                    Goal::Join,
                    Goal::At(Spot::DinitSet),
                ],
            ),
        },
    }
}

fn plan_assignment(mode: Use, word: Word) -> Move
    ensures { act_of result ≡ assignment mode (opening word) }
{
    match opening(word) {
        Lead::Atom => match mode {
            Use::Plain => Move::Do(
                Shape::Begin(Rule::Prim),
                &[
                    Goal::AssignmentRest(Use::Plain),
                    Goal::Suffix,
                    Goal::At(Spot::Prim),
                ],
            ),
            Use::Bracket => Move::Do(
                Shape::Begin(Rule::Prim),
                &[
                    Goal::AssignmentRest(Use::Bracket),
                    Goal::Suffix,
                    Goal::At(Spot::Prim),
                ],
            ),
        },
        Lead::Operator => match mode {
            Use::Plain => Move::Do(
                Shape::Begin(Rule::Unary),
                &[Goal::AssignmentRest(Use::Plain), Goal::At(Spot::Unary)],
            ),
            Use::Bracket => Move::Do(
                Shape::Begin(Rule::Unary),
                &[Goal::AssignmentRest(Use::Bracket), Goal::At(Spot::Unary)],
            ),
        },
        Lead::Paren => match mode {
            Use::Plain => Move::Do(
                Shape::Begin(Rule::Prim),
                &[Goal::AssignmentOpen(Use::Plain)],
            ),
            Use::Bracket => Move::Do(
                Shape::Begin(Rule::Prim),
                &[Goal::AssignmentOpen(Use::Bracket)],
            ),
        },
        Lead::Other => Move::Wrong,
    }
}

fn plan_open(mode: Use, word: Word) -> Move
    ensures { act_of result ≡ assignment_open mode word }
{
    match (word, mode) {
        (Word::Open, Use::Plain) => Move::Shift(&[Goal::AssignmentInside(Use::Plain)]),
        (Word::Open, Use::Bracket) => Move::Shift(&[Goal::AssignmentInside(Use::Bracket)]),
        _ => Move::Wrong,
    }
}

fn plan_inside(mode: Use, word: Word) -> Move
    ensures { act_of result ≡ inside mode (is_specifier word) }
{
    match (is_specifier(word), mode) {
        (true, Use::Plain) => Move::Do(
            Shape::Cast,
            &[
                Goal::CondRest,
                Goal::Tail(Level::Product, Level::Or),
                Goal::At(Spot::CastSpecs),
            ],
        ),
        (true, Use::Bracket) => Move::Do(
            Shape::Cast,
            &[
                Goal::BracketEnd,
                Goal::CondRest,
                Goal::Tail(Level::Product, Level::Or),
                Goal::At(Spot::CastSpecs),
            ],
        ),
        (false, Use::Plain) => Move::Do(
            Shape::Keep,
            &[
                Goal::AssignmentRest(Use::Plain),
                Goal::Suffix,
                Goal::At(Spot::PrimInner),
            ],
        ),
        (false, Use::Bracket) => Move::Do(
            Shape::Keep,
            &[
                Goal::AssignmentRest(Use::Bracket),
                Goal::Suffix,
                Goal::At(Spot::PrimInner),
            ],
        ),
    }
}

fn plan_rest(mode: Use, word: Word) -> Move
    ensures { act_of result ≡ rest mode (of_kind kind.Assignment word) }
{
    match (of_kind(Kind::Assignment, word), mode) {
        (true, Use::Plain) => { Move::Do(Shape::Wrap(Rule::Assign), &[Goal::At(Spot::AssignOp)]) }
        (true, Use::Bracket) => Move::Do(
            Shape::Wrap(Rule::Assign),
            &[
                Goal::At(Spot::FutureOpen),
                Goal::Join,
                Goal::At(Spot::PlaceClose),
                Goal::Join,
                Goal::CommaRest,
                Goal::At(Spot::AssignOp),
            ],
        ),
        (false, Use::Plain) => Move::Do(
            Shape::Keep,
            &[Goal::CondRest, Goal::Tail(Level::Product, Level::Or)],
        ),
        (false, Use::Bracket) => Move::Do(
            Shape::Keep,
            &[
                Goal::BracketEnd,
                Goal::CondRest,
                Goal::Tail(Level::Product, Level::Or),
            ],
        ),
    }
}

fn plan_tail(level: Level, last: Level, word: Word) -> Move
    ensures { act_of result ≡ tail level last (of_kind (kind.Operator level) word) }
{
    if of_kind(Kind::Operator(level), word) {
        Move::Operator(level, last)
    } else if level_rank(level) <= level_rank(last) {
        Move::Do(Shape::Keep, &[])
    } else {
        Move::Looser(looser(level), last)
    }
}
