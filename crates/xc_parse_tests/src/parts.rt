//! Nodes that are made by hand, over the tokens of a text.

use sqlite_items::Items;
use std::alloc::{AllocError, Global};
use std::test::Fail;
use xc_lex::{Tokens, lex};
use xc_raw::{Access, Qualifier, Raw, Rule, Specifier, Word};
use xc_raw_parts::{
    Operator, PlaceStep, binary_operator, captured_names, parameter_name, place_steps, span_of,
    specifier_words, star_words,
};
use xc_text_place::Span;
use xc_tree::BinOp;

fn tokens_of(alloc: Global, source: &[u8]) -> Result<Tokens, Fail> {
    if source.len() > 99 {
        return Err("long".into());
    }
    Ok(lex(alloc, source).ok().ok_or("tokens")?)
}

fn node(alloc: Global, rule: Rule, first: u32, end: u32) -> Raw {
    Raw {
        rule,
        first,
        end,
        parts: Items::new(alloc),
    }
}

/// A node over these parts, each a rule with its tokens.
fn over(
    alloc: Global,
    rule: Rule,
    first: u32,
    end: u32,
    parts: &[(Rule, u32, u32)],
) -> Result<Raw, AllocError> {
    let mut whole = node(alloc, rule, first, end);
    for (rule, first, end) in parts {
        whole.parts.push(node(alloc, *rule, *first, *end))?;
    }
    Ok(whole)
}

/// The operator of two operands, the first of which ends before this token.
fn operator(
    alloc: Global,
    source: &[u8],
    tokens: &Tokens,
    end: u32,
) -> Result<Option<Operator>, AllocError> {
    let whole = over(alloc, Rule::Comma, 0, end, &[(Rule::Prim, 0, end)])?;
    Ok(binary_operator(source, tokens.as_slice(), &whole))
}

#[test]
fn operators_of_a_text(rt: HostRuntime) -> Result<(), Fail> {
    let source = b"* / % + - << >> < > <= >= == != & ^ | && ||";
    let tokens = tokens_of(rt.alloc(), source)?;
    let wanted = [
        Operator::Value(BinOp::Mul),
        Operator::Value(BinOp::Div),
        Operator::Value(BinOp::Rem),
        Operator::Value(BinOp::Add),
        Operator::Value(BinOp::Sub),
        Operator::Value(BinOp::Shl),
        Operator::Value(BinOp::Shr),
        Operator::Value(BinOp::Lt),
        Operator::Value(BinOp::Gt),
        Operator::Value(BinOp::Le),
        Operator::Value(BinOp::Ge),
        Operator::Value(BinOp::Eq),
        Operator::Value(BinOp::Ne),
        Operator::Value(BinOp::BitAnd),
        Operator::Value(BinOp::BitXor),
        Operator::Value(BinOp::BitOr),
        Operator::And,
        Operator::Or,
    ];
    let mut all = tokens.len() == wanted.len();
    for (index, sign) in wanted.iter().enumerate() {
        all = all && operator(rt.alloc(), source, &tokens, index as u32)? == Some(*sign);
    }
    assert!(rt; all);
    Ok(())
}

#[test]
fn a_macro_stands_where_its_name_does(rt: HostRuntime) -> Result<(), Fail> {
    let tokens = tokens_of(rt.alloc(), b"#define N a b\nx N")?;
    let whole = node(rt.alloc(), Rule::Eval, 0, 3);
    let span = span_of(tokens.as_slice(), &whole);
    drop(whole);
    assert!(rt; span == Span { start: 14, end: 17 });
    Ok(())
}

/// The names that a future statement copies.
fn are_captured(alloc: Global, tokens: &Tokens, names: &[usize]) -> Result<bool, AllocError> {
    let parts = [(Rule::Place, 0, 1), (Rule::Block, 6, 8)];
    let future = over(alloc, Rule::Future, 0, 8, &parts)?;
    let captured = captured_names(alloc, tokens.as_slice(), &future)?;
    Ok(captured.as_slice() == names)
}

/// The name of a parameter with these parts.
fn name_of(
    alloc: Global,
    tokens: &Tokens,
    parts: &[(Rule, u32, u32)],
    first: u32,
    end: u32,
) -> Result<Option<usize>, AllocError> {
    let parameter = over(alloc, Rule::Param, first, end, parts)?;
    Ok(parameter_name(tokens.as_slice(), &parameter))
}

#[test]
fn names_of_a_future_and_of_parameters(rt: HostRuntime) -> Result<(), Fail> {
    let alloc = rt.alloc();
    let tokens = tokens_of(alloc, b"f (a, b) {} int *x[n] int [n]")?;
    let captured = are_captured(alloc, &tokens, &[2, 4])?;
    let named = [(Rule::Specs, 8, 9), (Rule::Prim, 12, 13)];
    let named = name_of(alloc, &tokens, &named, 8, 14)?;
    let unnamed = [(Rule::Specs, 14, 15), (Rule::Prim, 16, 17)];
    let unnamed = name_of(alloc, &tokens, &unnamed, 14, 18)?;
    assert!(rt; captured && named == Some(10) && unnamed.is_none());
    Ok(())
}

/// Whether these are the steps of `.a[i]->b`.
fn are_three(steps: &[PlaceStep]) -> bool {
    let [dot, index, arrow] = steps else {
        return false;
    };
    let dots = matches!(
        dot,
        PlaceStep::Member {
            access: Access::Dot,
            name: 2
        }
    );
    let arrows = matches!(
        arrow,
        PlaceStep::Member {
            access: Access::Arrow,
            name: 7
        }
    );
    dots && matches!(index, PlaceStep::Index) && arrows
}

fn steps_fit(alloc: Global, source: &[u8], tokens: &Tokens) -> Result<bool, AllocError> {
    let place = over(alloc, Rule::Place, 0, 8, &[(Rule::Prim, 4, 5)])?;
    let steps = place_steps(alloc, source, tokens.as_slice(), &place)?;
    Ok(are_three(steps.as_slice()))
}

#[test]
fn steps_of_a_place(rt: HostRuntime) -> Result<(), Fail> {
    let source = b"x.a[i]->b";
    let tokens = tokens_of(rt.alloc(), source)?;
    let fit = steps_fit(rt.alloc(), source, &tokens)?;
    assert!(rt; fit);
    Ok(())
}

/// The words of the first nine tokens, of which a struct takes all but the first and the last.
fn specifiers_fit(
    alloc: Global,
    source: &[u8],
    tokens: &Tokens,
    wanted: &[Word],
) -> Result<bool, AllocError> {
    let specs = over(alloc, Rule::Specs, 0, 9, &[(Rule::Struct, 1, 8)])?;
    let words = specifier_words(alloc, source, tokens.as_slice(), &specs)?;
    Ok(words.as_slice() == wanted)
}

#[test]
fn words_of_a_declaration(rt: HostRuntime) -> Result<(), Fail> {
    let source = b"const struct p { int a; } int * const * x;";
    let tokens = tokens_of(rt.alloc(), source)?;
    let wanted = [
        Word::Qualifier(Qualifier::Const),
        Word::Struct,
        Word::Specifier(Specifier::Int),
    ];
    let specifiers = specifiers_fit(rt.alloc(), source, &tokens, &wanted)?;
    let stars = star_words(rt.alloc(), source, tokens.as_slice(), 9, 14)?;
    let wanted = [Word::Star, Word::Qualifier(Qualifier::Const), Word::Star];
    let fit = specifiers && stars.as_slice() == wanted.as_slice();
    drop(stars);
    assert!(rt; fit);
    Ok(())
}
