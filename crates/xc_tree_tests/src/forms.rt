use crate::texts::{accepted, first_loop};
use std::alloc::{AllocError, Global};
use std::test::Fail;
use xc_form::{
    Effect, Header, Step, effects_of, effects_of_expr, is_concurrent, normal_form, pure_functions,
};
use xc_tree::{BinOp, Local, NotNormal, Stmt, StmtKind, Tree};

pub const fn header(order: BinOp, down: bool, size: u64) -> Result<Header, NotNormal> {
    let step = Step { down, size };
    Ok(Header {
        index: 0,
        order,
        step,
    })
}

/// The normal form of a loop, and whether it is concurrent.
#[derive(Clone, Copy)]
struct Form {
    normal: Result<Header, NotNormal>,
    concurrent: bool,
}

fn form_of(alloc: Global, locals: &[Local], s: &Stmt) -> Result<Option<Form>, AllocError> {
    match &s.kind {
        StmtKind::Loop { .. } => {
            let normal = normal_form(alloc, &[], locals, s)?;
            let concurrent = is_concurrent(alloc, &[], locals, s)?;
            Ok(Some(Form { normal, concurrent }))
        }
        _ => Ok(None),
    }
}

/// The form of the first loop of `main`.
fn form_in(alloc: Global, tree: &Tree) -> Result<Option<Form>, AllocError> {
    let main = tree.main_func();
    match first_loop(main.body.get()) {
        Some(s) => form_of(alloc, main.locals.as_slice(), s),
        None => Ok(None),
    }
}

/// The same for a body of `main`.
fn form_of_body(alloc: Global, body: &str) -> Result<Form, Fail> {
    let source = format!(in alloc; "int main() {{ {body} }}")?;
    let tree = accepted(alloc, source.as_str())?;
    let form = form_in(alloc, &tree);
    drop(tree);
    Ok(form?.ok_or("a loop")?)
}

#[test]
fn loops_in_normal_form(rt: HostRuntime) -> Result<(), Fail> {
    let rows: [(&str, Result<Header, NotNormal>); 22] = [
        (
            "int i; for (i = 0; i < 9; i++) ;",
            header(BinOp::Lt, false, 1),
        ),
        (
            "for (int i = 0; i <= 9; i += 2) ;",
            header(BinOp::Le, false, 2),
        ),
        ("for (int i = 9; i > 0; --i) ;", header(BinOp::Gt, true, 1)),
        (
            "for (int i = 9; i >= 0; i = i - 3) ;",
            header(BinOp::Ge, true, 3),
        ),
        (
            "for (int i = 0; i < 9; i = i + 1048576) ;",
            header(BinOp::Lt, false, 1_048_576),
        ),
        (
            "for (int i = 0; i < 9; i++) while (1) break;",
            header(BinOp::Lt, false, 1),
        ),
        (
            "for (int i = 0; i < 9; i++) { future int f; future f() { return 1; } }",
            header(BinOp::Lt, false, 1),
        ),
        ("while (1) ;", Err(NotNormal::While)),
        ("do ; while (1);", Err(NotNormal::Do)),
        ("for (;;) ;", Err(NotNormal::Index)),
        (
            "int i; &i; for (i = 0; i < 9; i++) ;",
            Err(NotNormal::Index),
        ),
        (
            "unsigned i; for (i = 0; i < 9; i++) ;",
            Err(NotNormal::Index),
        ),
        ("for (int i = 0; i != 9; i++) ;", Err(NotNormal::Test)),
        ("for (int i = 0; ; i++) ;", Err(NotNormal::Test)),
        ("for (int i = 0; i < 9u; i++) ;", Err(NotNormal::Bound)),
        (
            "int i, n; for (i = 0; i < n; i++) n = 1;",
            Err(NotNormal::Bound),
        ),
        ("for (int i = 0; i < 9; i--) ;", Err(NotNormal::Step)),
        ("for (int i = 0; i < 9; i += 0) ;", Err(NotNormal::Step)),
        (
            "for (int i = 0; i < 9; i += 1048577) ;",
            Err(NotNormal::Step),
        ),
        (
            "for (int i = 0; i < 9; i++) i = 2;",
            Err(NotNormal::Assigned),
        ),
        (
            "for (int i = 0; i < 9; i++) if (i) break;",
            Err(NotNormal::Exit),
        ),
        (
            "for (int i = 0; i < 9; i++) while (1) return 0;",
            Err(NotNormal::Exit),
        ),
    ];
    for (body, wanted) in rows {
        let got = form_of_body(rt.alloc(), body)?;
        assert!(rt; got.normal == wanted, "of {body}");
    }
    Ok(())
}

#[test]
fn concurrent_loops(rt: HostRuntime) -> Result<(), Fail> {
    let rows = [
        (
            "\n#pragma mta assert parallel\nfor (int i = 0; i < 9; i++) ;",
            true,
        ),
        ("for (int i = 0; i < 9; i++) ;", false),
        (
            "\n#pragma mta assert parallel\n#pragma mta loop serial\nfor (int i = 0; i < 9; i++) ;",
            false,
        ),
        ("\n#pragma mta assert parallel\nwhile (1) ;", false),
        (
            "\n#pragma mta assert parallel\nfor (int i = 0; i < 9; i++) { int k = i; k++; }",
            true,
        ),
        (
            "int k; \n#pragma mta assert parallel\nfor (int i = 0; i < 9; i++) k = i;",
            false,
        ),
        (
            "int k, *p = &k; \n#pragma mta assert parallel\nfor (int i = 0; i < 9; i++) *p = i;",
            true,
        ),
        (
            "future int f[9]; \n#pragma mta assert parallel\nfor (int i = 0; i < 9; i++) { int k = i; future f[i](k) { k++; return k; } }",
            true,
        ),
    ];
    for (body, wanted) in rows {
        let got = form_of_body(rt.alloc(), body)?;
        assert!(rt; got.concurrent == wanted, "of {body}");
    }
    Ok(())
}

/// Whether a loop, and the step of its header, have these effects.
fn have_effects(
    alloc: Global,
    s: &Stmt,
    wanted: &[Effect],
    stepped: &[Effect],
) -> Result<bool, AllocError> {
    let all = effects_of(alloc, s)?;
    let one = match &s.kind {
        StmtKind::Loop {
            step: Some(step),
            ..
        } => effects_of_expr(alloc, step)?,
        _ => return Ok(false),
    };
    Ok(all.as_slice() == wanted && one.as_slice() == stepped)
}

fn effects_fit(
    alloc: Global,
    tree: &Tree,
    wanted: &[Effect],
    stepped: &[Effect],
) -> Result<bool, AllocError> {
    match first_loop(tree.main_func().body.get()) {
        Some(s) => have_effects(alloc, s, wanted, stepped),
        None => Ok(false),
    }
}

#[test]
fn effects_come_in_order(rt: HostRuntime) -> Result<(), Fail> {
    let tree = accepted(
        rt.alloc(),
        "int main() { int i; for (i = 0; i < 9; i++) { int k = i; printf(\"%d\", k); } }",
    )?;
    let wanted = [
        Effect::Loop(0),
        Effect::Set(0),
        Effect::Declare(1),
        Effect::Print,
        Effect::Set(0),
    ];
    let fit = effects_fit(rt.alloc(), &tree, &wanted, &[Effect::Set(0)]);
    drop(tree);
    assert!(rt; fit == Ok(true));
    Ok(())
}

fn are_pure(alloc: Global, tree: &Tree, wanted: &[bool]) -> Result<bool, AllocError> {
    let pures = pure_functions(alloc, tree.funcs.as_slice())?;
    Ok(pures.as_slice() == wanted)
}

#[test]
fn functions_that_are_pure(rt: HostRuntime) -> Result<(), Fail> {
    let tree = accepted(
        rt.alloc(),
        "int x; int f(int a) { int b = a; return b + 1; } int g() { return f(1); } int h() { x = 1; return 0; } int main() { printf(\"\"); return h(); }",
    )?;
    let fit = are_pure(rt.alloc(), &tree, &[true, true, false, false]);
    drop(tree);
    assert!(rt; fit == Ok(true));
    Ok(())
}
