//! Statements, each by its parts.

ghost use Rattle.std.specs.Prelude.{◌≡◌, false, map, Some, IfOk};
ghost use Rattle.xc_raw.specs.declared.tree.Raw.{out-Raw};
ghost use Rattle.xc_type_rule.specs.Least.{least_from, fault_unless};
ghost use Rattle.xc_type_scopes.specs.Judge.{Judges};
ghost use Rattle.xc_type_expressions.specs.Judged.{span_in};
ghost use Rattle.xc_type_statement_parts.specs.Making as making;
ghost use Rattle.xc_type_statements.specs.Stated as spec;
ghost use Rattle.xc_type_statements.specs.Stated.{statement};
ghost use Rattle.xc_type_statement_parts.specs.Futures as futures;

use sqlite_items::Items;
use std::alloc::{AllocError, Global};
use xc_hold::kept;
use xc_raw::{Raw, Rule};
use xc_raw_parts::span_of;
use xc_text_place::Span;
use xc_tree::{Capture, Expr, LoopForm, Stmt, StmtKind};
use xc_type_expressions::{Text, value};
use xc_type_rule::{Fault, Found, may_be_plain, may_be_used, note_type};
use xc_type_scopes::Env;
use xc_type_statement_parts::{
    Answer, Begun, Copied, Header, awaited, begin_loop, block_made, captured, declaration,
    declared_copies, eval_made, followed, future_made, headed, if_made, loop_made, one, returned,
    returned_none, single, test_alone,
};

// Expressions.

/// A condition of the statement that `span` covers.
#[tactic(auto, using(crate::proofs::Parts::part_rules), unfolding(crate::specs::Stated::tested))]
fn tested(
    alloc: Global,
    text: &Text,
    env: &mut Env,
    node: &Raw,
    span: Span,
    first: &mut Option<Fault>,
) -> Result<Option<Expr>, AllocError>
    ensures { IfOk result (λ r. Judges (spec.tested text.now span node.now) env.old env.new first.old first.new r) }
{
    let Found { known, made } = value(alloc, text, env, node, first)?;
    if !may_be_plain(&known) {
        note_type(first, span);
    }
    drop(known);
    Ok(made)
}

/// An expression whose value is not used.
#[tactic(auto, using(crate::proofs::Parts::part_rules), unfolding(crate::specs::Stated::evaluated))]
fn evaluated(
    alloc: Global,
    text: &Text,
    env: &mut Env,
    node: &Raw,
    first: &mut Option<Fault>,
) -> Result<Option<Expr>, AllocError>
    ensures { IfOk result (λ r. Judges (spec.evaluated text.now node.now) env.old env.new first.old first.new r) }
{
    let Found { known, made } = value(alloc, text, env, node, first)?;
    if !may_be_used(&known) {
        note_type(first, span_of(text.tokens, node));
    }
    drop(known);
    Ok(made)
}

#[tactic(auto, using(crate::proofs::Parts::part_rules), unfolding(crate::specs::Stated::eval_by))]
fn eval_by(
    alloc: Global,
    text: &Text,
    env: &mut Env,
    node: &Raw,
    first: &mut Option<Fault>,
) -> Result<Option<Stmt>, AllocError>
    ensures { IfOk result (λ r. Judges (spec.eval_by text.now (span_in text.now node.now) (out-Raw node.now).parts) env.old env.new first.old first.new r) }
{
    let span = span_of(text.tokens, node);
    match node.parts.as_slice() {
        [] => Ok(Some(Stmt {
            span,
            kind: StmtKind::Empty,
        })),
        [e, ..] => {
            let made = evaluated(alloc, text, env, e, first)?;
            Ok(eval_made(span, made))
        }
    }
}

#[tactic(auto, using(crate::proofs::Parts::part_rules), unfolding(crate::specs::Stated::return_by))]
fn return_by(
    alloc: Global,
    text: &Text,
    env: &mut Env,
    node: &Raw,
    answer: &Answer,
    first: &mut Option<Fault>,
) -> Result<Option<Stmt>, AllocError>
    ensures { IfOk result (λ r. Judges (spec.return_by text.now (span_in text.now node.now) answer.now (out-Raw node.now).parts) env.old env.new first.old first.new r) }
{
    let span = span_of(text.tokens, node);
    match node.parts.as_slice() {
        [] => Ok(returned_none(span, answer, first)),
        [e, ..] => {
            let v = value(alloc, text, env, e, first)?;
            returned(alloc, span, answer, v, first)
        }
    }
}

// The clauses of a `for`.

#[tactic(auto, using(crate::proofs::Parts::part_rules), unfolding(crate::specs::Stated::clause_by))]
fn clause_by(
    alloc: Global,
    text: &Text,
    env: &mut Env,
    node: &Raw,
    first: &mut Option<Fault>,
) -> Result<Option<Items<Stmt>>, AllocError>
    ensures { IfOk result (λ r. Judges (spec.clause_by text.now (span_in text.now node.now) (out-Raw node.now).parts) env.old env.new first.old first.new r) }
{
    match node.parts.as_slice() {
        [] => Ok(Some(Items::new(alloc))),
        [e, ..] => {
            let made = evaluated(alloc, text, env, e, first)?;
            one(alloc, eval_made(span_of(text.tokens, node), made))
        }
    }
}

fn there<T>(made: Option<T>) -> Option<Option<T>>
    ensures { result ≡ spec.there made }
{
    match made {
        None => None,
        Some(made) => Some(Some(made)),
    }
}

#[tactic(auto, using(crate::proofs::Parts::part_rules), unfolding(crate::specs::Stated::test_clause))]
fn test_clause(
    alloc: Global,
    text: &Text,
    env: &mut Env,
    node: &Raw,
    span: Span,
    first: &mut Option<Fault>,
) -> Result<Option<Option<Expr>>, AllocError>
    ensures { IfOk result (λ r. Judges (spec.test_clause text.now span (out-Raw node.now).parts) env.old env.new first.old first.new r) }
{
    match node.parts.as_slice() {
        [] => Ok(Some(None)),
        [e, ..] => {
            let made = tested(alloc, text, env, e, span, first)?;
            Ok(there(made))
        }
    }
}

#[tactic(auto, using(crate::proofs::Parts::part_rules), unfolding(crate::specs::Stated::step_clause))]
fn step_clause(
    alloc: Global,
    text: &Text,
    env: &mut Env,
    node: &Raw,
    first: &mut Option<Fault>,
) -> Result<Option<Option<Expr>>, AllocError>
    ensures { IfOk result (λ r. Judges (spec.step_clause text.now (out-Raw node.now).parts) env.old env.new first.old first.new r) }
{
    match node.parts.as_slice() {
        [] => Ok(Some(None)),
        [e, ..] => {
            let made = evaluated(alloc, text, env, e, first)?;
            Ok(there(made))
        }
    }
}

/// `break` or `continue`.
#[tactic(auto, using(crate::proofs::Parts::part_rules))]
fn leaving(span: Span, kind: StmtKind, looping: bool, first: &mut Option<Fault>) -> Option<Stmt>
    ensures part { result ≡ Some (making.stmt span kind) }
    ensures first { first.new ≡ least_from first.old (fault_unless looping span) }
{
    if !looping {
        note_type(first, span);
    }
    Some(Stmt { span, kind })
}

// Lists of statements.

#[cycle(stated)]
#[tactic(auto, using(crate::proofs::Parts::part_rules), unfolding(crate::specs::Stated::in_order))]
fn in_order(
    alloc: Global,
    text: &Text,
    env: &mut Env,
    nodes: &[Raw],
    answer: &Answer,
    looping: bool,
    first: &mut Option<Fault>,
) -> Result<Option<Items<Stmt>>, AllocError>
    ensures { IfOk result (λ r. Judges (spec.in_order answer.now looping (map (statement text.now) nodes.now)) env.old env.new first.old first.new r) }
{
    let mut all = Some(Items::new(alloc));
    'nodes: for node in nodes {
        let more = stated(alloc, text, env, node, answer, looping, first)?;
        all = followed(all, more)?;
    }
    Ok(all)
}

/// The block that a node is, in a scope that has begun: the body of a function, or of a `future` statement.
#[cycle(stated)]
#[tactic(auto, using(crate::proofs::Parts::part_rules), unfolding(crate::specs::Stated::enclosed))]
pub fn body(
    alloc: Global,
    text: &Text,
    env: &mut Env,
    node: &Raw,
    answer: &Answer,
    looping: bool,
    first: &mut Option<Fault>,
) -> Result<Option<Stmt>, AllocError>
    ensures { IfOk result (λ r. Judges ((statement text.now node.now).body answer.now looping) env.old env.new first.old first.new r) }
{
    let all = in_order(
        alloc,
        text,
        env,
        node.parts.as_slice(),
        answer,
        looping,
        first,
    )?;
    env.pass_pragmas(alloc)?;
    Ok(block_made(span_of(text.tokens, node), all))
}

// Statements of statements.

#[cycle(stated)]
#[tactic(auto, using(crate::proofs::Parts::part_rules), unfolding(crate::specs::Stated::else_by))]
fn else_by(
    alloc: Global,
    text: &Text,
    env: &mut Env,
    nodes: &[Raw],
    answer: &Answer,
    looping: bool,
    first: &mut Option<Fault>,
) -> Result<Option<Option<Stmt>>, AllocError>
    ensures { IfOk result (λ r. Judges (spec.else_by answer.now looping (map (statement text.now) nodes.now)) env.old env.new first.old first.new r) }
{
    match nodes {
        [] => Ok(Some(None)),
        [node, ..] => {
            let made = stated(alloc, text, env, node, answer, looping, first)?;
            Ok(there(single(made)))
        }
    }
}

#[cycle(stated)]
#[tactic(auto, using(crate::proofs::Parts::part_rules), unfolding(crate::specs::Stated::if_by))]
fn if_by(
    alloc: Global,
    text: &Text,
    env: &mut Env,
    node: &Raw,
    answer: &Answer,
    looping: bool,
    first: &mut Option<Fault>,
) -> Result<Option<Stmt>, AllocError>
    ensures { IfOk result (λ r. Judges (spec.if_by text.now (span_in text.now node.now) answer.now looping (map (statement text.now) (out-Raw node.now).parts)) env.old env.new first.old first.new r) }
{
    let span = span_of(text.tokens, node);
    match node.parts.as_slice() {
        [test, then, others @ ..] => {
            let c = tested(alloc, text, env, test, span, first)?;
            let x = stated(alloc, text, env, then, answer, looping, first)?;
            let y = else_by(alloc, text, env, others, answer, looping, first)?;
            if_made(alloc, span, c, single(x), y)
        }
        _ => Ok(None),
    }
}

#[cycle(stated)]
#[tactic(auto, using(crate::proofs::Parts::part_rules), unfolding(crate::specs::Stated::while_by))]
fn while_by(
    alloc: Global,
    text: &Text,
    env: &mut Env,
    node: &Raw,
    answer: &Answer,
    first: &mut Option<Fault>,
) -> Result<Option<Stmt>, AllocError>
    ensures { IfOk result (λ r. Judges (spec.while_by text.now (span_in text.now node.now) answer.now (map (statement text.now) (out-Raw node.now).parts)) env.old env.new first.old first.new r) }
{
    let span = span_of(text.tokens, node);
    match node.parts.as_slice() {
        [test, inner, ..] => {
            let begun = begin_loop(alloc, text, env, span.start)?;
            let (c, begun) = kept(tested(alloc, text, env, test, span, first), begun)?;
            let x = stated(alloc, text, env, inner, answer, true, first);
            let (x, (begun, c)) = kept(x, (begun, c))?;
            loop_made(
                alloc,
                span,
                LoopForm::While,
                begun,
                test_alone(alloc, c),
                single(x),
            )
        }
        _ => Ok(None),
    }
}

#[cycle(stated)]
#[tactic(auto, using(crate::proofs::Parts::part_rules), unfolding(crate::specs::Stated::do_by))]
fn do_by(
    alloc: Global,
    text: &Text,
    env: &mut Env,
    node: &Raw,
    answer: &Answer,
    first: &mut Option<Fault>,
) -> Result<Option<Stmt>, AllocError>
    ensures { IfOk result (λ r. Judges (spec.do_by text.now (span_in text.now node.now) answer.now (map (statement text.now) (out-Raw node.now).parts)) env.old env.new first.old first.new r) }
{
    let span = span_of(text.tokens, node);
    match node.parts.as_slice() {
        [inner, test, ..] => {
            let begun = begin_loop(alloc, text, env, span.start)?;
            let x = stated(alloc, text, env, inner, answer, true, first);
            let (x, begun) = kept(x, begun)?;
            let c = tested(alloc, text, env, test, span, first);
            let (c, (begun, x)) = kept(c, (begun, x))?;
            loop_made(
                alloc,
                span,
                LoopForm::Do,
                begun,
                test_alone(alloc, c),
                single(x),
            )
        }
        _ => Ok(None),
    }
}

#[cycle(stated)]
#[tactic(auto, using(crate::proofs::Parts::part_rules), unfolding(crate::specs::Stated::clauses))]
fn clauses(
    alloc: Global,
    text: &Text,
    env: &mut Env,
    node: &Raw,
    answer: &Answer,
    first: &mut Option<Fault>,
) -> Result<Option<Header>, AllocError>
    ensures { IfOk result (λ r. Judges (spec.clauses text.now (span_in text.now node.now) answer.now (map (statement text.now) (out-Raw node.now).parts)) env.old env.new first.old first.new r) }
{
    let span = span_of(text.tokens, node);
    match node.parts.as_slice() {
        [init, test, step, ..] => {
            let i = stated(alloc, text, env, init, answer, true, first)?;
            let c = test_clause(alloc, text, env, test, span, first)?;
            let s = step_clause(alloc, text, env, step, first)?;
            Ok(headed(i, c, s))
        }
        _ => Ok(None),
    }
}

#[cycle(stated)]
#[tactic(auto, using(crate::proofs::Parts::part_rules), unfolding(crate::specs::Stated::repeated))]
fn repeated(
    alloc: Global,
    text: &Text,
    env: &mut Env,
    node: &Raw,
    answer: &Answer,
    first: &mut Option<Fault>,
) -> Result<Option<Stmt>, AllocError>
    ensures { IfOk result (λ r. Judges (spec.repeated answer.now (map (statement text.now) (out-Raw node.now).parts)) env.old env.new first.old first.new r) }
{
    match node.parts.as_slice() {
        [_, _, _, inner, ..] => {
            let x = stated(alloc, text, env, inner, answer, true, first)?;
            Ok(single(x))
        }
        _ => Ok(None),
    }
}

#[cycle(stated)]
#[tactic(auto, using(crate::proofs::Parts::part_rules), unfolding(crate::specs::Stated::for_inner))]
fn for_inner(
    alloc: Global,
    text: &Text,
    env: &mut Env,
    node: &Raw,
    answer: &Answer,
    begun: Begun,
    first: &mut Option<Fault>,
) -> Result<Option<Stmt>, AllocError>
    ensures { IfOk result (λ r. Judges (spec.for_inner text.now (span_in text.now node.now) answer.now begun (map (statement text.now) (out-Raw node.now).parts)) env.old env.new first.old first.new r) }
{
    let (header, begun) = kept(clauses(alloc, text, env, node, answer, first), begun)?;
    let x = repeated(alloc, text, env, node, answer, first);
    let (x, (begun, header)) = kept(x, (begun, header))?;
    let span = span_of(text.tokens, node);
    loop_made(alloc, span, LoopForm::For, begun, header, x)
}

/// The copies and the body of a `future` statement.
#[cycle(stated)]
#[tactic(auto, using(crate::proofs::Parts::part_rules), unfolding(xc_type_statement_parts::specs::Futures::threaded))]
fn threaded(
    alloc: Global,
    text: &Text,
    env: &mut Env,
    node: &Raw,
    answer: &Answer,
    copies: &[Copied],
    first: &mut Option<Fault>,
) -> Result<(Option<Items<Capture>>, Option<Stmt>), AllocError>
    ensures { IfOk result (λ r. Judges (futures.threaded copies.now ((statement text.now node.now).body answer.now false)) env.old env.new first.old first.new r) }
{
    let outside = env.begin_future(alloc)?;
    let captures = declared_copies(alloc, env, copies, first);
    let (captures, outside) = kept(captures, outside)?;
    let made = body(alloc, text, env, node, answer, false, first);
    let (made, (captures, outside)) = kept(made, (captures, outside))?;
    env.end_future(outside);
    Ok((captures, made))
}

// What a `future` statement copies, and its body.
#[cycle(stated)]
#[tactic(auto, using(crate::proofs::Parts::part_rules), unfolding(xc_type_statement_parts::specs::Futures::begins))]
fn begins(
    alloc: Global,
    text: &Text,
    env: &mut Env,
    block: &Raw,
    node: &Raw,
    answer: &Answer,
    first: &mut Option<Fault>,
) -> Result<(Option<Items<Capture>>, Option<Stmt>), AllocError>
    ensures { IfOk result (λ r. Judges (futures.begins text.now node.now ((statement text.now block.now).body answer.now false)) env.old env.new first.old first.new r) }
{
    let all = captured(alloc, text, env, node, first)?;
    threaded(alloc, text, env, block, answer, all.as_slice(), first)
}

#[cycle(stated)]
#[tactic(auto, using(crate::proofs::Parts::part_rules), unfolding(crate::specs::Stated::future_by))]
fn future_by(
    alloc: Global,
    text: &Text,
    env: &mut Env,
    node: &Raw,
    first: &mut Option<Fault>,
) -> Result<Option<Stmt>, AllocError>
    ensures { IfOk result (λ r. Judges (spec.future_by text.now node.now (map (statement text.now) (out-Raw node.now).parts)) env.old env.new first.old first.new r) }
{
    let span = span_of(text.tokens, node);
    match node.parts.as_slice() {
        [place, block, ..] => {
            let (made, answer) = awaited(alloc, text, env, place, span, first)?;
            let (captures, inner) = begins(alloc, text, env, block, node, &answer, first)?;
            future_made(alloc, span, made, captures, inner)
        }
        _ => Ok(None),
    }
}

// Nodes.

#[cycle(stated)]
#[tactic(auto, using(crate::proofs::Parts::part_rules), unfolding(crate::specs::Stated::plain_by))]
fn plain(
    alloc: Global,
    text: &Text,
    env: &mut Env,
    node: &Raw,
    answer: &Answer,
    looping: bool,
    first: &mut Option<Fault>,
) -> Result<Option<Stmt>, AllocError>
    ensures { IfOk result (λ r. Judges (spec.plain_by text.now node.now (out-Raw node.now).rule (map (statement text.now) (out-Raw node.now).parts) answer.now looping) env.old env.new first.old first.new r) }
{
    let span = span_of(text.tokens, node);
    match node.rule {
        Rule::Block => {
            env.enter()?;
            let made = body(alloc, text, env, node, answer, looping, first)?;
            env.leave();
            Ok(made)
        }
        Rule::Eval => eval_by(alloc, text, env, node, first),
        Rule::If => if_by(alloc, text, env, node, answer, looping, first),
        Rule::Return => return_by(alloc, text, env, node, answer, first),
        Rule::Break => Ok(leaving(span, StmtKind::Break, looping, first)),
        Rule::Continue => Ok(leaving(span, StmtKind::Continue, looping, first)),
        Rule::Future => future_by(alloc, text, env, node, first),
        _ => Ok(None),
    }
}

#[cycle(stated)]
#[tactic(auto, using(crate::proofs::Parts::part_rules), unfolding(crate::specs::Stated::stmt_by, crate::specs::Stated::for_by))]
fn stmt(
    alloc: Global,
    text: &Text,
    env: &mut Env,
    node: &Raw,
    answer: &Answer,
    looping: bool,
    first: &mut Option<Fault>,
) -> Result<Option<Stmt>, AllocError>
    ensures { IfOk result (λ r. Judges (spec.stmt_by text.now node.now (out-Raw node.now).rule (map (statement text.now) (out-Raw node.now).parts) answer.now looping) env.old env.new first.old first.new r) }
{
    match node.rule {
        Rule::While => while_by(alloc, text, env, node, answer, first),
        Rule::Do => do_by(alloc, text, env, node, answer, first),
        Rule::For => {
            let begun = begin_loop(alloc, text, env, span_of(text.tokens, node).start)?;
            env.enter()?;
            let made = for_inner(alloc, text, env, node, answer, begun, first)?;
            env.leave();
            Ok(made)
        }
        _ => {
            env.pass_pragmas(alloc)?;
            plain(alloc, text, env, node, answer, looping, first)
        }
    }
}

/// The statements that a node makes, where a `return` gives this answer, and there is a loop to leave or not.
#[cycle(stated)]
#[tactic(auto, using(crate::proofs::Parts::part_rules), unfolding(crate::specs::Stated::stated_by))]
pub fn stated(
    alloc: Global,
    text: &Text,
    env: &mut Env,
    node: &Raw,
    answer: &Answer,
    looping: bool,
    first: &mut Option<Fault>,
) -> Result<Option<Items<Stmt>>, AllocError>
    ensures { IfOk result (λ r. Judges ((statement text.now node.now).stated answer.now looping) env.old env.new first.old first.new r) }
{
    match node.rule {
        Rule::Pragma => {
            env.add_pragma(span_of(text.tokens, node))?;
            Ok(Some(Items::new(alloc)))
        }
        Rule::Declaration => {
            env.pass_pragmas(alloc)?;
            declaration(alloc, text, env, node.parts.as_slice(), first)
        }
        Rule::ForDeclaration => declaration(alloc, text, env, node.parts.as_slice(), first),
        Rule::Clause => clause_by(alloc, text, env, node, first),
        Rule::Sub => in_order(
            alloc,
            text,
            env,
            node.parts.as_slice(),
            answer,
            looping,
            first,
        ),
        _ => {
            let made = stmt(alloc, text, env, node, answer, looping, first)?;
            one(alloc, made)
        }
    }
}
