use sqlite_items::Items;
use std::alloc::Global;
use std::test::Fail;
use xc_lin::{Affine, Range, Region, Term, TooWide, Var, extremes, gcd, has_points};

/// A variable times a coefficient, plus a constant.
fn line(alloc: Global, var: Var, coeff: i32, constant: i32) -> Result<Affine, TooWide> {
    let constant = Affine::from_constant(alloc, i64::from(constant))?;
    Affine::from_var(alloc, var)
        .scale(i64::from(coeff))?
        .add(&constant)
}

fn is_line(form: &Affine, var: Var, coeff: i64, constant: i64) -> bool {
    let [term] = form.terms() else {
        return false;
    };
    term.var == var && term.coeff == coeff && form.constant() == constant
}

#[test]
fn greatest_common_divisors(rt: HostRuntime) {
    for (a, b, divisor) in [
        (12, 18, 6),
        (0, 0, 0),
        (7, 0, 7),
        (0, 7, 7),
        (1 << 63, 6, 2),
    ] {
        assert_eq!(rt; gcd(a, b), divisor);
    }
}

fn sums_fit(alloc: Global, i: Var) -> Result<bool, TooWide> {
    let sum = line(alloc, i, 2, 1)?.add(&line(alloc, i, 3, 0)?)?;
    Ok(is_line(&sum, i, 5, 1) && is_line(&sum.scale(-3)?, i, -15, -3))
}

fn widest_fits(alloc: Global, i: Var) -> Result<bool, TooWide> {
    let widest = line(alloc, i, 1 << 20, 0)?;
    let wider = widest.add(&line(alloc, i, 1, 0)?);
    let nothing = widest.subtract(&widest)?;
    Ok(wider.is_err() && nothing.terms().is_empty())
}

#[test]
fn sums_and_products(rt: HostRuntime) -> Result<(), Fail> {
    let i = Var::Index(0);
    let sums = sums_fit(rt.alloc(), i)?;
    let widest = widest_fits(rt.alloc(), i)?;
    assert!(rt; sums && widest);
    Ok(())
}

/// A form with so many symbols and this constant.
fn symbols(alloc: Global, count: u32, constant: i64) -> Result<Affine, TooWide> {
    let mut form = Affine::from_constant(alloc, constant)?;
    for number in 0..count {
        form = form.add(&Affine::from_var(alloc, Var::Symbol(number)))?;
    }
    Ok(form)
}

#[test]
fn limits_of_forms(rt: HostRuntime) {
    let alloc = rt.alloc();
    for (count, constant, fits) in [(8, 1 << 31, true), (9, 0, false), (0, (1 << 31) + 1, false)] {
        assert_eq!(rt; symbols(alloc, count, constant).is_ok(), fits);
    }
}

/// Two forms over an own index, an inner index and a symbol, each with a constant at the end, with the
/// ranges of the three variables and what every point of the box was tried to give.
#[derive(Clone, Copy)]
struct Trial {
    a: [i32; 4],
    b: [i32; 4],
    ranges: [(i64, i64); 3],
    low: bool,
    extremes: (i128, i128),
}

fn form(alloc: Global, parts: [i32; 4]) -> Result<Affine, TooWide> {
    let [own, inner, symbol, constant] = parts;
    line(alloc, Var::Index(0), own, constant)?
        .add(&line(alloc, Var::Index(1), inner, 0)?)?
        .add(&line(alloc, Var::Symbol(0), symbol, 0)?)
}

fn region(alloc: Global, ranges: [(i64, i64); 3], low: bool) -> Result<Region, Fail> {
    let vars = [Var::Index(0), Var::Index(1), Var::Symbol(0)];
    let mut known = Items::new(alloc);
    for (var, (lo, hi)) in vars.into_iter().zip(ranges) {
        known.push((var, Range { lo, hi }))?;
    }
    Ok(Region {
        ranges: known,
        low,
        own: 0,
    })
}

fn tried(alloc: Global, row: &Trial) -> Result<Option<(i128, i128)>, Fail> {
    let (a, b) = (form(alloc, row.a)?, form(alloc, row.b)?);
    let over = region(alloc, row.ranges, row.low)?;
    if has_points(&a, &b, &over) {
        Ok(Some(extremes(&a, &b, &over)))
    } else {
        Ok(None)
    }
}

#[test]
fn extremes_of_boxes(rt: HostRuntime) -> Result<(), Fail> {
    let next = Trial {
        a: [1, 0, 0, 0],
        b: [1, 0, 0, 1],
        ranges: [(0, 9), (0, 0), (0, 0)],
        low: true,
        extremes: (-10, -2),
    };
    let mixed = Trial {
        a: [2, -3, 1, 5],
        b: [-1, 4, 1, 0],
        ranges: [(-2, 3), (1, 4), (-5, 5)],
        low: true,
        extremes: (-28, 5),
    };
    let steep = Trial {
        a: [-3, 0, 2, -1],
        b: [5, 0, -2, 0],
        ranges: [(1, 4), (2, 2), (-3, 2)],
        low: true,
        extremes: (-42, -6),
    };
    let inner = Trial {
        a: [0, 1, 0, 0],
        b: [0, 1, 3, 0],
        ranges: [(0, 1), (7, 7), (-4, 1)],
        low: true,
        extremes: (-3, 12),
    };
    let highs = [(0, 8), (-27, 6), (-40, -4), (-3, 12)];
    let rows = [next, mixed, steep, inner];
    for (row, high) in rows.iter().zip(highs.iter()) {
        assert_eq!(rt; tried(rt.alloc(), row)?, Some(row.extremes));
        let turned = Trial {
            low: false,
            extremes: *high,
            ..*row
        };
        assert_eq!(rt; tried(rt.alloc(), &turned)?, Some(turned.extremes));
        let single = Trial {
            ranges: [(3, 3), (0, 0), (0, 0)],
            ..*row
        };
        assert_eq!(rt; tried(rt.alloc(), &single)?, None);
    }
    Ok(())
}
