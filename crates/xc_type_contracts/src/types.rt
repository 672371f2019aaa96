ghost use Rattle.std.specs.Prelude.{◌≡◌, [], ◌∷◌, IfOk, OnOk};
ghost use Rattle.xc_tree.specs.Kinds.{read_kind as read_kind_of, write_kind as write_kind_of};
ghost use Rattle.xc_tree.specs.Types.{common_type as common_type_of};
ghost use Rattle.xc_type_rule.specs.Least.{least_from};
ghost use Rattle.xc_type_rule.specs.Values as values;

use std::alloc::{AllocError, Global};
use xc_text_place::Span;
use xc_tree::Ty;
use xc_type_rule::{Fault, Found, Known, common_type, note_lost, rvalue};
use xc_word::Kind;

pub fn read_kind(ty: &Ty) -> Kind
    ensures { result ≡ read_kind_of ty.now }
{
    ty.read_kind()
}

pub fn write_kind(ty: &Ty) -> Kind
    ensures { result ≡ write_kind_of ty.now }
{
    ty.write_kind()
}

pub fn common(alloc: Global, a: &Ty, b: &Ty) -> Result<Ty, AllocError>
    ensures { IfOk result (λ r. r ≡ common_type_of a.now b.now) }
{
    common_type(alloc, a, b)
}

pub fn note(first: &mut Option<Fault>, fault: Fault)
    ensures { first.new ≡ least_from first.old (fault ∷ []) }
{
    xc_type_rule::note(first, fault);
}

pub fn value(alloc: Global, sizes: &[u32], span: Span, part: Found) -> Result<Found, AllocError>
    ensures { IfOk result (λ r. r ≡ values.rvalue sizes.now span part) }
{
    rvalue(alloc, sizes, span, part)
}

pub fn lost(inner: Span, known: &Known, first: &mut Option<Fault>)
    ensures { first.new ≡ least_from first.old (values.rvalue_faults inner known.now) }
{
    note_lost(inner, known, first);
}
