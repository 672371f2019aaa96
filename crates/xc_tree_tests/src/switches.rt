//! `switch`, which no text makes yet: the loops around it, what it does, its copies and its lowering.

use crate::forms::header;
use sqlite_items::{Boxed, Items};
use std::alloc::{AllocError, Global};
use std::test::Fail;
use xc_form::{Effect, Header, effects_of, normal_form};
use xc_hold::both;
use xc_tree::{
    BinOp, Expr, ExprKind, Item, LoopForm, Marks, NotNormal, Pragmas, Schedule, Span, Stmt,
    StmtKind, Ty, copy_stmt,
};
use xc_type_lowering::lower_stmt;
use xc_word::Kind;

const NOWHERE: Span = Span { start: 0, end: 0 };

/// What stands behind `case 1`.
#[derive(Clone, Copy)]
enum Chosen {
    Break,
    Continue,
    Return,
    /// An assignment of local 0, whose address is not taken.
    Set,
    /// The same where each local is an object.
    Write,
}

fn value(kind: ExprKind) -> Expr {
    Expr {
        ty: Ty::Int,
        span: NOWHERE,
        kind,
    }
}

fn does(kind: StmtKind) -> Stmt {
    Stmt {
        span: NOWHERE,
        kind,
    }
}

fn number(alloc: Global, n: u64) -> Result<Boxed<Expr>, AllocError> {
    Boxed::new(alloc, value(ExprKind::Const(n)))
}

fn local(alloc: Global, x: u32) -> Result<Boxed<Expr>, AllocError> {
    Boxed::new(alloc, value(ExprKind::Local(x)))
}

fn object(alloc: Global, x: u32) -> Result<Boxed<Expr>, AllocError> {
    let ty = Ty::Ptr(Boxed::new(alloc, Ty::Int)?);
    let place = Expr {
        ty,
        span: NOWHERE,
        kind: ExprKind::Auto(x),
    };
    Boxed::new(alloc, place)
}

fn set(alloc: Global, x: u32, n: u64) -> Result<ExprKind, AllocError> {
    Ok(ExprKind::Set {
        local: x,
        value: number(alloc, n)?,
    })
}

fn write(alloc: Global, x: u32, n: u64) -> Result<ExprKind, AllocError> {
    let (place, value) = both(object(alloc, x), number(alloc, n))?;
    Ok(ExprKind::Write {
        kind: Kind::WriteXf,
        place,
        value,
    })
}

fn read(alloc: Global, x: u32) -> Result<ExprKind, AllocError> {
    Ok(ExprKind::Read {
        kind: Kind::ReadXx,
        place: object(alloc, x)?,
    })
}

fn statement(alloc: Global, chosen: Chosen) -> Result<StmtKind, AllocError> {
    match chosen {
        Chosen::Break => Ok(StmtKind::Break),
        Chosen::Continue => Ok(StmtKind::Continue),
        Chosen::Return => Ok(StmtKind::Return(None)),
        Chosen::Set => Ok(StmtKind::Eval(value(set(alloc, 0, 3)?))),
        Chosen::Write => Ok(StmtKind::Eval(value(write(alloc, 0, 3)?))),
    }
}

/// `case 1: chosen default:`
fn items(alloc: Global, chosen: Chosen) -> Result<Items<Item>, AllocError> {
    let mut items = Items::new(alloc);
    items.push(Item::At(1))?;
    items.push(Item::Do(does(statement(alloc, chosen)?)))?;
    items.push(Item::Other)?;
    Ok(items)
}

/// `switch (value) { case 1: chosen default: }`
fn chooses(
    alloc: Global,
    value_kind: Result<ExprKind, AllocError>,
    chosen: Chosen,
) -> Result<Stmt, AllocError> {
    let (items, kind) = both(items(alloc, chosen), value_kind)?;
    Ok(does(StmtKind::Switch {
        value: value(kind),
        items,
    }))
}

/// `i < 9`, where `i` is local 0.
fn test(alloc: Global) -> Result<Expr, AllocError> {
    let (a, b) = both(local(alloc, 0), number(alloc, 9))?;
    Ok(value(ExprKind::Binary {
        op: BinOp::Lt,
        a,
        b,
    }))
}

/// `i++`
fn step(alloc: Global) -> Result<Expr, AllocError> {
    let (place, one) = both(local(alloc, 0), number(alloc, 1))?;
    Ok(value(ExprKind::Update {
        op: BinOp::Add,
        post: true,
        place,
        value: one,
    }))
}

fn no_pragmas(alloc: Global) -> Pragmas {
    Pragmas {
        marks: Marks::PARALLEL,
        nodep: Items::new(alloc),
        noalias: Items::new(alloc),
        streams: 8,
        schedule: Schedule::Block,
        given: Items::new(alloc),
    }
}

/// `for (i = 0; i < 9; i++) body`
fn counts(alloc: Global, body: Boxed<Stmt>) -> Result<Stmt, AllocError> {
    let mut init = Items::new(alloc);
    init.push(does(StmtKind::Eval(value(set(alloc, 0, 0)?))))?;
    let (test, step) = both(test(alloc), step(alloc))?;
    Ok(does(StmtKind::Loop {
        id: 0,
        form: LoopForm::For,
        init,
        test: Some(test),
        step: Some(step),
        body,
        pragmas: no_pragmas(alloc),
    }))
}

/// The normal form of a loop whose body is a `switch`.
fn form_around(alloc: Global, chosen: Chosen) -> Result<Result<Header, NotNormal>, AllocError> {
    let body = chooses(alloc, Ok(ExprKind::Local(1)), chosen)?;
    let s = counts(alloc, Boxed::new(alloc, body)?)?;
    let form = match &s.kind {
        StmtKind::Loop { .. } => normal_form(alloc, &[], &[], &s),
        _ => Ok(Err(NotNormal::While)),
    };
    drop(s);
    form
}

#[test]
fn loops_around_a_switch(rt: HostRuntime) -> Result<(), Fail> {
    let normal = header(BinOp::Lt, false, 1);
    let rows = [
        (Chosen::Break, normal),
        (Chosen::Continue, normal),
        (Chosen::Return, Err(NotNormal::Exit)),
        (Chosen::Set, Err(NotNormal::Assigned)),
    ];
    for (chosen, wanted) in rows {
        let got = form_around(rt.alloc(), chosen)?;
        assert!(rt; got == wanted);
    }
    Ok(())
}

#[test]
fn a_switch_acts_by_its_value_first(rt: HostRuntime) -> Result<(), Fail> {
    let alloc = rt.alloc();
    let s = chooses(alloc, set(alloc, 1, 2), Chosen::Set)?;
    let effects = effects_of(alloc, &s);
    drop(s);
    let in_order = effects?.as_slice() == [Effect::Set(1), Effect::Set(0)].as_slice();
    assert!(rt; in_order);
    Ok(())
}

/// Whether a `switch` has `case 1`, an assignment of local 0 and `default`.
fn sets_local(items: &[Item]) -> bool {
    match items {
        [Item::At(1), Item::Do(s), Item::Other] => match &s.kind {
            StmtKind::Eval(e) => matches!(&e.kind, ExprKind::Set { local: 0, .. }),
            _ => false,
        },
        _ => false,
    }
}

/// Whether a statement is a `switch` by local 1 with such items.
fn is_lowered(s: &Stmt) -> bool {
    match &s.kind {
        StmtKind::Switch { value, items } => {
            matches!(&value.kind, ExprKind::Local(1)) && sets_local(items.as_slice())
        }
        _ => false,
    }
}

#[test]
fn a_switch_is_copied_and_lowered(rt: HostRuntime) -> Result<(), Fail> {
    let alloc = rt.alloc();
    let s = chooses(alloc, read(alloc, 1), Chosen::Write)?;
    let lowered = lower_stmt(alloc, &[false, false], &s);
    drop(s);
    let lowered = lowered?;
    let copied = copy_stmt(alloc, &lowered);
    let first = is_lowered(&lowered);
    drop(lowered);
    let copied = copied?;
    let second = is_lowered(&copied);
    drop(copied);
    assert!(rt; first && second);
    Ok(())
}
