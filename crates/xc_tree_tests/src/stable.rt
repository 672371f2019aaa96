use crate::texts::{accepted, first_loop};
use std::alloc::{AllocError, Global};
use std::test::Fail;
use xc_form::pure_functions;
use xc_form_stable::{Breach, Rule, first_unstable};
use xc_tree::{Stmt, StmtKind, Tree};

/// Where a loop of `main` first breaks a rule of stable loops.
fn broken_by(alloc: Global, tree: &Tree, s: &Stmt) -> Result<Option<Breach>, AllocError> {
    match &s.kind {
        StmtKind::Loop { .. } => {
            let pures = pure_functions(alloc, tree.funcs.as_slice())?;
            let main = tree.main_func();
            first_unstable(alloc, pures.as_slice(), main.locals.as_slice(), s)
        }
        _ => Ok(None),
    }
}

/// The same of the first loop of a body of `main`: the rule.
fn rule_of_body(alloc: Global, body: &str) -> Result<Option<Rule>, Fail> {
    let source = format!(in alloc;
        "int a[9], b[9], g; sync int s; int *q; int h(int x) {{ return x + 1; }} int k() {{ return a[0]; }} int main() {{ int i, j, n; int *p; {body} }}"
    )?;
    let tree = accepted(alloc, source.as_str())?;
    let breach = match first_loop(tree.main_func().body.get()) {
        Some(s) => broken_by(alloc, &tree, s),
        None => Ok(None),
    };
    drop(tree);
    Ok(breach?.map(|b| b.rule))
}

#[test]
fn stable_loops(rt: HostRuntime) -> Result<(), Fail> {
    let rows: [(&str, Option<Rule>); 20] = [
        ("for (i = 0; i < 9; i++) a[i] = b[i] + h(i);", None),
        ("for (i = 0; i < 9; i++) a[b[i]] = i;", None),
        (
            "for (i = 0; i < 9; i++) { a[b[i]] = i; p[i] = 1; }",
            Some(Rule::Address),
        ),
        (
            "for (i = 0; i < 9; i++) { a[b[i]] = i; b[i] = 1; }",
            Some(Rule::Address),
        ),
        (
            "for (i = (g = 0); i < 9; i++) j += a[g];",
            Some(Rule::Address),
        ),
        ("for (i = 0; i < 9; i++) j += a[b[a[i]]];", None),
        (
            "for (i = 0; i < 9; i++) { n = i; a[n] = 1; }",
            Some(Rule::Address),
        ),
        (
            "for (i = 0; i < 9; i++) a[i + 4 / 2] = 1;",
            Some(Rule::Address),
        ),
        ("for (i = 0; i < 9; i++) { q[i] = 1; }", Some(Rule::Address)),
        (
            "for (i = 0; i < 9; i++) for (j = 0; j < n; j += 2) a[j] = i;",
            None,
        ),
        (
            "for (i = 0; i < 9; i++) { n = i; for (j = 0; j < n; j += 2) ; }",
            Some(Rule::Call),
        ),
        (
            "for (i = 0; i < 9; i++) { n = i; for (j = 0; j < n; j++) ; }",
            Some(Rule::Address),
        ),
        (
            "for (i = 0; i < 9; i++) for (j = 0; j <= i + 3; j += 2) a[j] = i;",
            None,
        ),
        (
            "for (i = 0; i < 9; i++) { for (j = 0; j < 9; j++) ; a[j] = i; }",
            Some(Rule::Address),
        ),
        ("for (i = 0; i < 9; i++) while (n) n--;", Some(Rule::Call)),
        ("for (i = 0; i < 9; i++) { int c[3]; }", Some(Rule::Call)),
        ("for (i = k(); i < 9; i++) ;", Some(Rule::Call)),
        ("for (i = 0; i < 9; i++) { k(); s = 1; }", Some(Rule::Sync)),
        ("for (i = 0; i < 9; i++) readxx(&s);", Some(Rule::Sync)),
        (
            "for (i = 0; i < 9; i++) {\n#pragma mta assert parallel\n for (int x = 0; x < 9; x++) a[x] = i; }",
            Some(Rule::Sync),
        ),
    ];
    for (body, wanted) in rows {
        let found = rule_of_body(rt.alloc(), body)?;
        assert!(rt; found == wanted, "{body}");
    }
    Ok(())
}
