//! What the tree of a text holds.

use crate::draw::draw;
use crate::texts::{accepted, tree_of, with_main};
use std::alloc::Global;
use std::process::Abort;
use std::test::Fail;
use xc_tree::{Stmt, StmtKind, Tree, Ty};

const SEGMENT: u64 = 4_294_967_296;

fn name_of(ty: &Ty) -> &'static str {
    match ty {
        Ty::Void => "void",
        Ty::Int => "signed",
        Ty::Uint => "unsigned",
        Ty::Struct(_) => "struct",
        Ty::Ptr(_) => "pointer",
        Ty::Array(_, _) => "array",
        Ty::Sync(_) => "sync",
        Ty::Future(_) => "future",
    }
}

fn first_type(tree: &Tree) -> &'static str {
    match tree.globals.as_slice().first() {
        Some(global) => name_of(&global.ty),
        None => "no global",
    }
}

/// The type of the first global, and none where there is a fault.
fn type_in(alloc: Global, source: &str) -> Result<&'static str, Fail> {
    match tree_of(alloc, source.as_bytes())? {
        Ok(tree) => {
            let name = first_type(&tree);
            drop(tree);
            Ok(name)
        }
        Err(_) => Ok("none"),
    }
}

/// The rows of C99 6.7.2 paragraph 2, and others: the type that is wanted, and the words.
const TYPE_WORDS: &str = "signed int
signed signed
signed signed int
unsigned unsigned
unsigned unsigned int
signed long
signed signed long
signed long int
signed signed long int
unsigned unsigned long
unsigned unsigned long int
signed long long
signed signed long long
signed long long int
signed signed long long int
unsigned unsigned long long
unsigned unsigned long long int
struct struct s { int a; }
unsigned long unsigned int long
signed const int const
sync int sync
future future unsigned future
none const
none sync
none int int
none long long long
none signed unsigned
none unsigned unsigned
none void int
none void void
none sync struct s { int a; }
none future void
none sync future int";

/// A line has the type of an object, or `none`, and the words that declare it.
fn check_words(rt: &impl Abort, alloc: Global, line: &str) -> Result<(), Fail> {
    let (wanted, words) = line.split_once(' ').ok_or("a line")?;
    let source = format!(in alloc; "{words} x; int main() {{ return 0; }}")?;
    let got = type_in(alloc, source.as_str())?;
    assert_eq!(rt; got, wanted, "of {words}");
    Ok(())
}

#[test]
fn lists_of_type_words(rt: HostRuntime) -> Result<(), Fail> {
    for line in TYPE_WORDS.lines() {
        check_words(&rt, rt.alloc(), line)?;
    }
    Ok(())
}

fn last_cells(tree: &Tree, wanted: &[(u64, bool)]) -> bool {
    match tree.globals.as_slice().last() {
        Some(global) => global.init.as_slice() == wanted,
        None => false,
    }
}

/// Whether these are the first cells of the last global: the others are full and 0.
fn cells_fit(alloc: Global, source: &str, wanted: &[(u64, bool)]) -> Result<bool, Fail> {
    let whole = with_main(alloc, source)?;
    let tree = accepted(alloc, whole.as_str())?;
    let fit = last_cells(&tree, wanted);
    drop(tree);
    Ok(fit)
}

#[test]
fn cells_of_globals(rt: HostRuntime) -> Result<(), Fail> {
    let rows: [(&str, &[(u64, bool)]); 24] = [
        ("int x = 2 * 3 - 5;", &[(1, true)]),
        ("int x = -(unsigned)1 > 0;", &[(1, true)]),
        ("int x = -1 > 0;", &[]),
        ("int x = 1 << 3 | 1;", &[(9, true)]),
        ("int x = 1 ? 2 : 3 / 0;", &[(2, true)]),
        ("int x = 0 && 3 / 0;", &[]),
        ("int x = 1 || 3 / 0;", &[(1, true)]),
        ("#define N 017\nint x = N;", &[(15, true)]),
        ("unsigned x = 18446744073709551615u;", &[(u64::MAX, true)]),
        ("int x = 0xFFFFFFFFFFFFFFFF > 0;", &[(1, true)]),
        ("int x = 7ul - 8 > 0;", &[(1, true)]),
        (
            "int a[2][3] = {{1}, {2, -3}};",
            &[
                (1, true),
                (0, true),
                (0, true),
                (2, true),
                (u64::MAX - 2, true),
            ],
        ),
        (
            "struct s { int a[2]; int b; } x = {{7}, 8};",
            &[(7, true), (0, true), (8, true)],
        ),
        (
            "int g, a[3], *p[3] = {0, &g, a};",
            &[(0, true), (SEGMENT, true), (2 * SEGMENT, true)],
        ),
        ("int *p = 2 - 2;", &[]),
        ("int a[4] = {0, 7, 0};", &[(0, true), (7, true)]),
        ("int a[3] = {1, 0, 3};", &[(1, true), (0, true), (3, true)]),
        ("int a[4194304];", &[]),
        ("sync int x;", &[(0, false)]),
        ("sync int x = 1;", &[(1, true)]),
        ("sync int a[3] = {1, 2};", &[(1, true), (2, true)]),
        (
            "struct s { int a; sync int b; int c; } x[2];",
            &[(0, true), (0, false), (0, true), (0, true), (0, false)],
        ),
        ("struct s { int a; sync int b; } x = {1};", &[(1, true)]),
        (
            "struct s { int a; sync int b; } x = {1, 2};",
            &[(1, true), (2, true)],
        ),
    ];
    for (source, wanted) in rows {
        let fit = cells_fit(rt.alloc(), source, wanted)?;
        assert!(rt; fit, "of {source}");
    }
    Ok(())
}

/// Draws the first statement that is an expression.
fn draw_first(out: &mut String, body: &Stmt) -> bool {
    let StmtKind::Block(items) = &body.kind else {
        return false;
    };
    for item in items.as_slice() {
        if let StmtKind::Eval(e) = &item.kind {
            return draw(out, e);
        }
    }
    false
}

/// The first expression of `main`, with these declarations before its body and these statements in it.
fn drawn(alloc: Global, before: &str, body: &str) -> Result<String, Fail> {
    let source = format!(in alloc; "{before} int main() {{ {body} return 0; }}")?;
    let tree = accepted(alloc, source.as_str())?;
    let mut out = String::new(alloc);
    let whole = draw_first(&mut out, tree.main_func().body.get());
    drop(tree);
    if whole {
        Ok(out)
    } else {
        Err("no expression".into())
    }
}

/// Declarations, statements, and what is drawn of the first expression in them.
const EXPRESSIONS: &str = r#"@int x; x = 1;@iset 0 iconst 1
@int x, *p = &x; x = 1;@iwritexf pauto 0 iconst 1
sync int s;@s = 5;@iwriteef pglobal 0 iconst 5
sync int s;@int x; x = s;@iset 0 ireadfe pglobal 0
future int f;@f;@ireadff pglobal 0
@+5u;@uconst 5
@5 + 1u;@u+ iconst 5 uconst 1
@-1u;@uneg uconst 1
@1u < 2;@i< uconst 1 iconst 2
@1 << 2u;@i<< iconst 1 uconst 2
@(int)1u;@icast uconst 1
@(unsigned)1u;@ucast uconst 1
@1, 2u;@ucomma iconst 1 uconst 2
@1 || 2u && 3;@ior iconst 1 iand uconst 2 iconst 3
@1 ? 2 : 3u;@ucond iconst 1 iconst 2 uconst 3
int *p;@1 ? 0 : p;@pcond iconst 1 pconst 0 preadxx pglobal 0
int *p;@p < 0;@i< preadxx pglobal 0 pconst 0
int *p;@!p;@i! preadxx pglobal 0
int a[5];@a[1];@ireadxx pindex 5 pglobal 0 iconst 1
int a[5];@&a[1];@pindex 6 pglobal 0 iconst 1
int *p;@p[1];@ireadxx pindex preadxx pglobal 0 iconst 1
int *p;@*p;@ireadxx pindex preadxx pglobal 0 iconst 0
int *p, a[5];@p = a;@pwritexf pglobal 0 pindex 5 pglobal 1 iconst 0
struct s { int a; int b; } x;@x.b;@ireadxx pmember 1 pglobal 0
struct s { int a; int b; }; struct t { struct s a; int b; } x;@x.b;@ireadxx pmember 2 pglobal 0
struct s { int a; struct s *b; } x;@x.b->a;@ireadxx pmember 0 preadxx pmember 1 pglobal 0
sync int s;@s += 2;@inew i+ pglobal 0 iconst 2
sync int s;@s--;@iold i- pglobal 0 iconst 1
sync int s;@++s;@inew i+ pglobal 0 iconst 1
@int x; x *= 2;@inew i* ilocal 0 iconst 2
sync int s;@readfe(&s);@ireadfe pglobal 0
int s;@readff(&s);@ireadff pglobal 0
int s;@writeef(&s, 7);@vwriteef pglobal 0 iconst 7
sync int s;@purge(&s);@vpurge pglobal 0
int a;@int_fetch_add(&a, 2);@ifetchadd pglobal 0 iconst 2
void f(unsigned a, int * sync p) { }@f(9, 0);@vcall 0 iconst 9 pconst 0
int f(int a[3]) { return a[0]; } int b[3];@f(b);@icall 0 pindex 3 pglobal 0 iconst 0
@printf("%d%%%lu\n", 9, 0);@vprint 0 iconst 9 iconst 0"#;

/// A line has declarations, statements and what is drawn, with `@` between them.
fn check_drawn(rt: &impl Abort, alloc: Global, line: &str) -> Result<(), Fail> {
    let (before, rest) = line.split_once('@').ok_or("a line")?;
    let (body, wanted) = rest.split_once('@').ok_or("a line")?;
    let got = drawn(alloc, before, body)?;
    assert_eq!(rt; got.as_str().trim_end(), wanted, "of {before} {body}");
    Ok(())
}

#[test]
fn expressions_as_they_are_made(rt: HostRuntime) -> Result<(), Fail> {
    for line in EXPRESSIONS.lines() {
        check_drawn(&rt, rt.alloc(), line)?;
    }
    Ok(())
}

fn locals_fit(tree: &Tree, wanted: &[bool]) -> bool {
    let locals = tree.main_func().locals.as_slice();
    let mut fit = locals.len() == wanted.len();
    for (local, addressed) in locals.iter().zip(wanted.iter()) {
        fit = fit && local.addressed == *addressed;
    }
    fit
}

/// An object has an address by its type or by its use.
#[test]
fn locals_with_addresses(rt: HostRuntime) -> Result<(), Fail> {
    let source =
        "int main() { int a; struct s { int x; } b; unsigned c, d[2]; &c; sync int e; return 0; }";
    let tree = accepted(rt.alloc(), source)?;
    let fit = locals_fit(&tree, &[false, true, true, true, true]);
    drop(tree);
    assert!(rt; fit);
    Ok(())
}

fn are_formats(tree: &Tree, wanted: &[&[u8]]) -> bool {
    let formats = tree.formats.as_slice();
    let mut fit = formats.len() == wanted.len();
    for (format, bytes) in formats.iter().zip(wanted.iter()) {
        fit = fit && format.as_slice() == *bytes;
    }
    fit
}

/// A text of a macro is one text, wherever the macro stands.
#[test]
fn formats_of_a_text(rt: HostRuntime) -> Result<(), Fail> {
    let source =
        "#define S \"\\t%d\\\"\\n\"\nint main() { printf(S, 1); printf(\"\\\\%%\"); printf(S, 2); return 0; }";
    let tree = accepted(rt.alloc(), source)?;
    let wanted: [&[u8]; 2] = [b"\t%d\"\n", b"\\%%"];
    let fit = are_formats(&tree, &wanted);
    drop(tree);
    assert!(rt; fit);
    Ok(())
}

/// How many globals, functions, loops and notes there are, and the number of `main`.
fn counts_of(alloc: Global, source: &str) -> Result<[usize; 5], Fail> {
    let tree = accepted(alloc, source)?;
    let counts = [
        tree.globals.len(),
        tree.funcs.len(),
        tree.loops as usize,
        tree.notes.len(),
        tree.main as usize,
    ];
    drop(tree);
    Ok(counts)
}

// The product of two matrices, a histogram of its diagonal and two recurrences.
const MATRICES: &str = "#include <stdio.h>
#define N 32
int a[N][N], b[N][N], c[N][N];
int h[8], p[N], q[N];
int main(void)
{
  int i, j, k, s;
  for (i = 0; i < N; i++)
    for (j = 0; j < N; j++) {
      a[i][j] = i + j;
      b[i][j] = i - j;
    }
  for (i = 0; i < N; i++)
    for (j = 0; j < N; j++) {
      s = 0;
      for (k = 0; k < N; k++)
        s += a[i][k] * b[k][j];
      c[i][j] = s;
    }
  for (i = 0; i < N; i++)
    h[(c[i][i] >> 5) & 7] += 1;
  s = 0;
  for (i = 0; i < N; i++) {
    s += c[i][0];
    p[i] = s;
  }
  for (i = 1; i < N; i++)
    q[i] = q[i - 1] + 2;
  for (i = 0; i < 8; i++)
    printf(\"%ld\\n\", h[i]);
  printf(\"%ld %ld\\n\", p[N - 1], q[N - 1]);
  return 0;
}
";

#[test]
fn parts_of_a_program(rt: HostRuntime) -> Result<(), Fail> {
    let rows: [(&str, [usize; 5]); 8] = [
        (MATRICES, [6, 1, 9, 0, 0]),
        ("int main() { return 0; }", [0, 1, 0, 0, 0]),
        (
            "int a[3], b = 2; int f(int x); int main(void) { return f(b); } int f(int x) { return x; }",
            [2, 2, 0, 0, 0],
        ),
        (
            "int f() { return 1; } int main() { return f(); }",
            [0, 2, 0, 0, 1],
        ),
        ("int main() { while (1) break; return 0; }", [0, 1, 1, 0, 0]),
        (
            "int main() { for (;;) while (1) ; do ; while (1); }",
            [0, 1, 3, 0, 0],
        ),
        (
            "int main() {\n#pragma mta use 3 streams\nfor (;;) ;\n#pragma mta use 4 streams\n}",
            [0, 1, 1, 1, 0],
        ),
        (
            "int main() {\n#pragma mta assert nodep x\nfor (int x = 0;;) ;\n#pragma omp\nwhile (1) ; }",
            [0, 1, 2, 2, 0],
        ),
    ];
    for (source, wanted) in rows {
        let got = counts_of(rt.alloc(), source)?;
        assert!(rt; got == wanted, "of {source}");
    }
    Ok(())
}
