//! The first cells of a global object without initialisers.

ghost use Rattle.std.specs.Prelude.{◌≡◌, [], fold, replicate, unwrap_or, slice_get, IfOk, OnOk};
ghost use Rattle.xc_tree.specs.Lists.{joined};
ghost use Rattle.xc_type_initialiser_objects.specs.Cells as spec;
ghost use Rattle.xc_type_initialiser_objects.specs.InnerCells as inner_spec;

use crate::cells::{Laid, no_cells, put, skip};
use sqlite_items::Items;
use std::alloc::{AllocError, Global};
use xc_tree::Ty;
use xc_type_rule::is_plain;
use xc_type_structs::{Members, Structs};

/// How deep arrays and structs may lie in one another in an object (C99 5.2.4.1 asks for 63 structs). One that is
/// deeper is answered as want of memory: its cells are found level by level.
pub const MOST_LEVELS: u32 = 1024;

// `deep` bounds the levels of structs, and `room` all levels.
#[cycle(lay)]
#[tactic(auto, using(crate::proofs::Starting::start_rules))]
fn lay(
    structs: &Structs,
    ty: &Ty,
    deep: usize,
    room: u32,
    laid: &mut Laid,
) -> Result<(), AllocError>
    ensures { OnOk result (laid.new ≡ fold inner_spec.with_cell laid.old (spec.start_of (spec.starts_within deep structs.now.members) ty.now)) }
{
    if room == 0 {
        return Err(AllocError);
    }
    match ty {
        Ty::Void => Ok(()),
        Ty::Int | Ty::Uint | Ty::Ptr(_) => put(laid, 0, true),
        Ty::Sync(_) | Ty::Future(_) => put(laid, 0, false),
        Ty::Array(n, of) => lay_array(structs, *n, of.get(), deep, room - 1, laid),
        Ty::Struct(number) => lay_struct(structs, *number, deep, room - 1, laid),
    }
}

#[cycle(lay)]
#[tactic(auto, using(crate::proofs::Starting::start_rules))]
fn lay_array(
    structs: &Structs,
    n: u32,
    of: &Ty,
    deep: usize,
    room: u32,
    laid: &mut Laid,
) -> Result<(), AllocError>
    ensures { OnOk result (laid.new ≡ fold inner_spec.with_cell laid.old (joined (replicate n (spec.start_of (spec.starts_within deep structs.now.members) of.now)))) }
{
    if is_plain(of) {
        return Ok(skip(laid, u64::from(n))?);
    }
    'elements: for _ in 0..n {
        lay(structs, of, deep, room, laid)?;
    }
    Ok(())
}

#[cycle(lay)]
#[tactic(auto, using(crate::proofs::Starting::start_rules), unfolding(crate::specs::Cells::starts_within))]
fn lay_struct(
    structs: &Structs,
    number: u32,
    deep: usize,
    room: u32,
    laid: &mut Laid,
) -> Result<(), AllocError>
    ensures { OnOk result (laid.new ≡ fold inner_spec.with_cell laid.old (unwrap_or (slice_get (spec.starts_within deep structs.now.members) number) [])) }
{
    if deep == 0 {
        return Ok(());
    }
    match structs.members().get(number as usize) {
        None => Ok(()),
        Some(members) => lay_members(structs, members, deep - 1, room, laid),
    }
}

#[cycle(lay)]
#[tactic(auto, using(crate::proofs::Starting::start_rules))]
fn lay_members(
    structs: &Structs,
    members: &Members,
    deep: usize,
    room: u32,
    laid: &mut Laid,
) -> Result<(), AllocError>
    ensures { OnOk result (laid.new ≡ fold inner_spec.with_cell laid.old (spec.struct_start (spec.starts_within deep structs.now.members) members.now)) }
{
    'members: for k in 0..members.len() {
        if let Some(member) = members.at(k) {
            lay_typed(structs, &member.ty, deep, room, laid)?;
        }
    }
    Ok(())
}

#[cycle(lay)]
#[tactic(auto, using(crate::proofs::Starting::start_rules))]
fn lay_typed(
    structs: &Structs,
    ty: &Option<Ty>,
    deep: usize,
    room: u32,
    laid: &mut Laid,
) -> Result<(), AllocError>
    ensures { OnOk result (laid.new ≡ fold inner_spec.with_cell laid.old (spec.typed_start (spec.starts_within deep structs.now.members) ty.now)) }
{
    match ty {
        None => skip(laid, 1),
        Some(ty) => lay(structs, ty, deep, room, laid),
    }
}

/// The first cells of a global of this type that has no initialiser. They are found level by level: more than
/// `MOST_LEVELS` levels are answered as want of memory.
#[tactic(auto, using(crate::proofs::Starting::start_rules), unfolding(crate::specs::Cells::started))]
pub fn started(alloc: Global, structs: &Structs, ty: &Ty) -> Result<Items<(u64, bool)>, AllocError>
    ensures { IfOk result (λ r. r ≡ spec.started structs.now ty.now) }
{
    let mut laid = no_cells(alloc);
    lay(structs, ty, structs.members().len(), MOST_LEVELS, &mut laid)?;
    Ok(laid.first)
}
