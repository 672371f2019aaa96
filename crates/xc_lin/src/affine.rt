//! Affine forms: a constant plus coefficients times indices and symbols.
ghost use Rattle.std.specs.Prelude.{◌≡◌, ◌+ℤ◌, ◌*ℤ◌, ◌^◌, ◌<◌, ◌≤◌, ℤ, ◌-ℤ◌, pos, negsuc, neg_ℤ, [], ◌∷◌, ◌++◌, IsTrue, IfOk, OnOk, IsOk, ◌↔◌, unsigned_abs, length, map, All};
ghost use Rattle.xc_lin.specs.Affine.{has_var, coefficient_of, same_var, IsSingle, IsCoefficient, AreNarrow, IsNarrow, merged, nonzero, plus, scaled, times, value_of};
ghost use Rattle.xc_lin.specs.InnerAffine.{met};

use crate::LoopId;
use smallvec::SmallVec;
use std::alloc::Global;
use std::marker::Model;
use thiserror::Error;

/// What a subscript depends on.
#[derive(Clone, Copy, PartialEq, Eq)]
pub enum Var {
    /// The index of a loop.
    Index(LoopId),
    /// A local that does not change in the loop.
    Symbol(u32),
    /// A global that does not change in the loop.
    GlobalSymbol(u32),
}

/// A variable times a coefficient.
#[derive(Clone, Copy)]
pub struct Term {
    pub var: Var,
    pub coeff: i64,
}

impl Default for Term {
    fn default() -> Term {
        Term {
            var: Var::Index(0),
            coeff: 0,
        }
    }
}

/// A form passes a limit: more than 8 terms, a coefficient above 2^20 or a constant above 2^31 in size.
#[derive(Clone, Copy, Debug, PartialEq, Eq, Error)]
#[error("the affine form is too wide")]
pub struct TooWide;

/// An affine form within the limits: at most 8 terms, no variable twice, no coefficient 0 or above
/// 2^20 in size, and a constant of at most 2^31 in size. It takes no memory.
#[derive(Drop)]
pub struct Affine {
    terms: SmallVec<Term, 8>,
    constant: i64,
}

impl Model for Affine {
    ghost use Rattle.std.specs.Prelude.{◌≡◌};
    ghost use Rattle.xc_lin.specs.Affine.{Form, IsNarrow, IsSingle};

    ghost Value = { Form };

    ghost view = { λ a. record { terms = a.terms.items; constant = a.constant } };

    ghost invariant = { λ a. IsNarrow (record { terms = a.terms.items; constant = a.constant }) × IsSingle a.terms.items × (a.terms.capacity ≡ 8) };
}

impl Var {
    /// Whether this is that variable.
    fn is(self, other: Var) -> bool
        ensures { result ≡ same_var self other }
    {
        self == other
    }
}

/// What a variable is multiplied with.
fn coefficient(terms: &[Term], var: Var) -> i64
    ensures value { result ≡ coefficient_of terms.now var }
    ensures narrow { All (λ term. IsCoefficient term.coeff) terms.now → unsigned_abs result ≤ 2 ^ 20 }
{
    for term in terms {
        if term.var == var {
            return term.coeff;
        }
    }
    0
}

/// Whether a variable stands in some terms.
fn has(terms: &[Term], var: Var) -> bool
    ensures { result ≡ has_var terms.now var }
{
    for term in terms {
        if term.var == var {
            return true;
        }
    }
    false
}

/// The terms of two forms, those with one variable together.
fn merge(alloc: Global, a: &[Term], b: &[Term]) -> SmallVec<Term, 17>
    requires few_first { length a.now ≤ 8 }
    requires few_second { length b.now ≤ 8 }
    requires narrow_first { All (λ term. IsCoefficient term.coeff) a.now }
    requires narrow_second { All (λ term. IsCoefficient term.coeff) b.now }
    ensures items { result.items ≡ merged a.now b.now }
    ensures few { length result.items ≤ 16 }
    ensures room { result.capacity ≡ 17 }
{
    let mut terms = SmallVec::new(alloc);
    for term in a {
        let coeff = term.coeff + coefficient(b, term.var);
        terms.push_reserved(Term {
            var: term.var,
            coeff,
        });
    }
    for other in b {
        if !has(a, other.var) {
            terms.push_reserved(*other);
        }
    }
    terms
}

/// A coefficient or a constant times a number.
fn product(a: i64, b: i64) -> i64
    requires first { unsigned_abs a ≤ 2 ^ 31 }
    requires second { unsigned_abs b ≤ 2 ^ 31 }
    ensures { result ≡ a *ℤ b }
{
    a * b
}

/// The terms times a number.
fn scale_terms(alloc: Global, terms: &[Term], by: i64) -> SmallVec<Term, 8>
    requires few { length terms.now ≤ 8 }
    requires narrow { All (λ term. IsCoefficient term.coeff) terms.now }
    requires small { unsigned_abs by ≤ 2 ^ 31 }
    ensures { result.items ≡ map (scaled by) terms.now }
{
    let mut scaled = SmallVec::new(alloc);
    for term in terms {
        let coeff = product(term.coeff, by);
        scaled.push_reserved(Term {
            var: term.var,
            coeff,
        });
    }
    scaled
}

/// Appends a term that is not 0, where that passes no limit.
fn put(terms: &mut SmallVec<Term, 8>, term: Term) -> Result<(), TooWide>
    requires room { terms.old.capacity ≡ 8 }
    requires narrow { AreNarrow terms.old.items }
    ensures ok { OnOk result (terms.new.items ≡ terms.old.items ++ nonzero (term ∷ [])) }
    ensures kept { OnOk result (AreNarrow terms.new.items) }
    ensures wide { AreNarrow (terms.old.items ++ nonzero (term ∷ [])) → IsOk result }
    ensures room { terms.new.capacity ≡ 8 }
{
    if term.coeff == 0 {
        return Ok(());
    }
    if terms.len() == 8 || term.coeff.unsigned_abs() > 1 << 20 {
        return Err(TooWide);
    }
    terms.push_reserved(term);
    Ok(())
}

impl Affine {
    /// The form of these terms, where it is within the limits.
    fn of_terms(alloc: Global, all: &[Term], constant: i64) -> Result<Affine, TooWide>
        requires { IsSingle all.now }
        ensures ok { IfOk result (λ form. form ≡ record { terms = nonzero all.now; constant = constant }) }
        ensures fits { IsOk result ↔ IsNarrow (record { terms = nonzero all.now; constant = constant }) }
    {
        if constant.unsigned_abs() > 1 << 31 {
            return Err(TooWide);
        }
        let mut terms = SmallVec::new(alloc);
        for term in all {
            put(&mut terms, *term)?;
        }
        Ok(Affine { terms, constant })
    }

    /// A form without terms.
    pub fn from_constant(alloc: Global, constant: i64) -> Result<Affine, TooWide>
        ensures ok { IfOk result (λ form. form ≡ record { terms = []; constant = constant }) }
        ensures fits { IsOk result ↔ (unsigned_abs constant ≤ 2 ^ 31) }
    {
        Affine::of_terms(alloc, &[], constant)
    }

    /// A variable alone.
    pub fn from_var(alloc: Global, var: Var) -> Affine
        ensures { result ≡ record { terms = record { var = var; coeff = pos 1 } ∷ []; constant = pos 0 } }
    {
        let mut terms = SmallVec::new(alloc);
        terms.push_reserved(Term { var, coeff: 1 });
        Affine { terms, constant: 0 }
    }

    /// The terms, each variable once.
    pub fn terms(&self) -> &[Term]
        ensures terms { result.now ≡ self.now.terms }
        ensures narrow { IsNarrow self.now }
        ensures single { IsSingle self.now.terms }
    {
        self.terms.as_slice()
    }

    /// The constant.
    pub fn constant(&self) -> i64
        ensures { result ≡ self.now.constant }
    {
        self.constant
    }

    /// What a variable is multiplied with, 0 where it does not stand.
    pub fn coefficient(&self, var: Var) -> i64
        ensures value { result ≡ coefficient_of self.now.terms var }
        ensures narrow { unsigned_abs result ≤ 2 ^ 20 }
    {
        coefficient(self.terms.as_slice(), var)
    }

    /// The terms of two forms, and a variable where they do not have it.
    pub(crate) fn met(&self, other: &Affine, var: Var) -> SmallVec<Term, 17>
        ensures items { result.items ≡ met self.now.terms other.now.terms var }
        ensures few { length result.items ≤ 17 }
        ensures single_first { IsSingle self.now.terms }
        ensures single_second { IsSingle other.now.terms }
    {
        let alloc = *self.terms.allocator();
        let mut terms = merge(alloc, self.terms.as_slice(), other.terms.as_slice());
        if !has(terms.as_slice(), var) {
            terms.push_reserved(Term { var, coeff: 1 });
        }
        terms
    }

    /// The form times a number. It takes no memory.
    pub fn scale(&self, by: i64) -> Result<Affine, TooWide>
        requires { unsigned_abs by ≤ 2 ^ 31 }
        ensures narrow { IsNarrow self.now }
        ensures ok { IfOk result (λ product. product ≡ times self.now by) }
        ensures fits { IsOk result ↔ IsNarrow (times self.now by) }
        ensures value { IfOk result (λ product. (at : Var → ℤ) → value_of product at ≡ (value_of self.now at *ℤ by)) }
    {
        let alloc = *self.terms.allocator();
        let terms = scale_terms(alloc, self.terms.as_slice(), by);
        let constant = product(self.constant, by);
        Affine::of_terms(alloc, terms.as_slice(), constant)
    }

    /// The form with all signs turned. It takes no memory.
    pub fn negate(&self) -> Affine
        ensures form { result ≡ times self.now (negsuc 0) }
        ensures value { (at : Var → ℤ) → value_of result at ≡ neg_ℤ (value_of self.now at) }
    {
        self.scale(-1).unwrap()
    }

    /// The difference of two forms. It takes no memory.
    pub fn subtract(&self, other: &Affine) -> Result<Affine, TooWide>
        ensures ok { IfOk result (λ difference. difference ≡ plus self.now (times other.now (negsuc 0))) }
        ensures fits { IsOk result ↔ IsNarrow (plus self.now (times other.now (negsuc 0))) }
        ensures value { IfOk result (λ difference. (at : Var → ℤ) → value_of difference at ≡ (value_of self.now at -ℤ value_of other.now at)) }
    {
        self.add(&other.negate())
    }

    /// The sum of two forms. It takes no memory.
    pub fn add(&self, other: &Affine) -> Result<Affine, TooWide>
        ensures ok { IfOk result (λ sum. sum ≡ plus self.now other.now) }
        ensures fits { IsOk result ↔ IsNarrow (plus self.now other.now) }
        ensures value { IfOk result (λ sum. (at : Var → ℤ) → value_of sum at ≡ (value_of self.now at +ℤ value_of other.now at)) }
    {
        let alloc = *self.terms.allocator();
        let terms = merge(alloc, self.terms.as_slice(), other.terms.as_slice());
        Affine::of_terms(alloc, terms.as_slice(), self.constant + other.constant)
    }
}
