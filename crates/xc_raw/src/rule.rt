//! The rules that make nodes.

/// The rule of a node. Each variant has its production, in which a rule's name stands for a node of it, small names
/// for one of several nodes, and quoted text and capitals for tokens; `[ ]` is at most one time, `{ }` any number of
/// times. The parts of a node are the nodes in its production, in order; tokens are no parts.
///
/// ```text
/// item   = Pragma | Declaration | Function
/// init   = assign | Initialisers
/// stmt   = Block | Eval | If | While | Do | For | Return | Break | Continue | Future
/// expr   = Comma | assign
/// assign = Assign | cond
/// cond   = Cond | binary
/// binary = Binary | cast
/// cast   = Cast | unary
/// unary  = Unary | postfix
/// postfix = Postfix | Prim
/// qual   = "const" | "restrict" | "sync" | "future"
/// stars  = {"*" {qual}}
/// ```
///
/// So there is no node for a rule that only passes on another: where an `assign` is just a name, it is one `Prim`.
#[derive(Clone, Copy)]
pub enum Rule {
    /// `item {item}`: a text.
    Unit,
    /// `PRAGMA`: a pragma line at file scope, in a block or before a statement. It has no parts.
    Pragma,
    /// `Specs [Dinit {"," Dinit}] ";"`, at file scope or in a block.
    Declaration,
    /// `Specs Callee Params (";" | Block)`: a function is declared (three parts) or defined (four).
    Function,
    /// `spec {spec}`, where a spec is one of `static const sync future void int long signed unsigned` or a `Struct`.
    /// Its parts are the `Struct`s alone; every other token between them is one of those words.
    Specs,
    /// `"struct" NAME ["{" Member {Member} "}"]`: the name is the token at `first + 1`; no parts where there are no
    /// braces.
    Struct,
    /// `Specs Declr {"," Declr} ";"`.
    Member,
    /// `stars NAME {"[" cond "]"}`: the parts are the bounds. The name is the first token that is a Name.
    Declr,
    /// `stars NAME`: the declarator of a function. It has no parts; the name is the token at `end - 1`.
    Callee,
    /// `Declr ["=" init]`.
    Dinit,
    /// `"{" init {"," init} [","] "}"`.
    Initialisers,
    /// `"(" [Param {"," Param}] ")"`. A lone `void` is one `Param` of that one token.
    Params,
    /// `Specs stars [NAME] ["[" [cond] "]" {"[" cond "]"}]`: the parts are the specifiers and the bounds. Its
    /// declarator begins at `parts[0].end`, and is empty where that is the `end`. Where the first bound is left out,
    /// its `]` follows its `[`.
    Param,
    /// `"{" {Pragma | Declaration | stmt} "}"`.
    Block,
    /// `{Pragma} stmt`: the statement under an `if`, an `else` or a loop. The statement is the last part.
    Sub,
    /// `[expr] ";"`: an expression statement (one part), or the empty one (none).
    Eval,
    /// `"if" "(" expr ")" Sub ["else" Sub]`: two parts or three.
    If,
    /// `"while" "(" expr ")" Sub`.
    While,
    /// `"do" Sub "while" "(" expr ")" ";"`.
    Do,
    /// `"for" "(" (ForDeclaration | Clause) Clause Step Sub`: always four parts.
    For,
    /// `Specs Dinit {"," Dinit} ";"`: the first clause of a `for` that declares.
    ForDeclaration,
    /// `[expr] ";"`: the first or the second clause of a `for`.
    Clause,
    /// `[expr] ")"`: the third clause of a `for`, with its parenthesis.
    Step,
    /// `"return" [expr] ";"`.
    Return,
    /// `"break" ";"`.
    Break,
    /// `"continue" ";"`.
    Continue,
    /// `"future" Place "(" [NAME {"," NAME}] ")" Block`: two parts. The names are tokens between them.
    Future,
    /// `NAME {"[" expr "]" | "." NAME | "->" NAME}`: the parts are the indices; the tokens from `first` on tell
    /// which comes where.
    Place,
    /// `expr "," assign`.
    Comma,
    /// `unary aop assign`: the operator is the token at `parts[0].end`.
    Assign,
    /// `binary "?" expr ":" cond`.
    Cond,
    /// `left op right`, each at the level of C99 that its operator demands; levels associate to the left, and each
    /// operator has a node around its left part. The operator is the token at `parts[0].end`.
    Binary(Level),
    /// `"(" Specs stars ")" cast`: the stars stand from `parts[0].end` on.
    Cast,
    /// `("++" | "--") unary` or `("&" | "*" | "+" | "-" | "~" | "!") cast`: the operator is the token at `first`.
    Unary,
    /// `postfix` and one suffix: `"[" expr "]"` (two parts), `"(" [assign {"," assign}] ")"` (one part and the
    /// arguments), `"." NAME`, `"->" NAME`, `"++"` or `"--"` (one part). The token at `parts[0].end` tells which.
    Postfix,
    /// `NAME`, `NUMBER` or `STRING` (no parts), or `"(" expr ")"` (one part).
    Prim,
}

/// The levels of binary operators (C99 6.5.5 to 6.5.14), loosest first.
#[derive(Clone, Copy)]
pub enum Level {
    Or,
    And,
    BitOr,
    BitXor,
    BitAnd,
    Equality,
    Relation,
    Shift,
    Sum,
    Product,
}
