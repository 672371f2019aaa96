//! The tree of a text that breaks no rule.

ghost use Rattle.std.specs.Prelude.{◌≡◌, IfOk, IfErr};
ghost use Rattle.xc_welltyped_unit.specs.Files.{IsTyped};
ghost use Rattle.xc_type.specs.Checked as spec;
ghost use Rattle.xc_type.specs.InnerChecked as inner_spec;
ghost use Rattle.xc_type.specs.declared.fault.CheckFault.TheVariants.{NoMemory};

use crate::fault::CheckFault;
use sqlite_items::Items;
use std::alloc::{AllocError, Global};
use xc_hold::kept;
use xc_text_place::Span;
use xc_tree::{Tree, Ty};
use xc_type_scopes::Env;
use xc_type_statement_parts::{followed, one};
use xc_type_structs::Members;
use xc_type_unit::{FileScope, Whole, copy_known};

fn type_at(alloc: Global, members: &Members, at: usize) -> Result<Option<Ty>, AllocError>
    ensures { IfOk result (λ r. r ≡ inner_spec.type_at members.now at) }
{
    match members.at(at) {
        None => Ok(None),
        Some(member) => copy_known(alloc, &member.ty),
    }
}

#[tactic(auto, using(crate::proofs::Types::type_rules))]
fn known_types(alloc: Global, members: &Members) -> Result<Option<Items<Ty>>, AllocError>
    ensures { IfOk result (λ r. r ≡ spec.known_types members.now) }
{
    let mut all = Some(Items::new(alloc));
    'members: for at in 0..members.len() {
        let ty = type_at(alloc, members, at)?;
        all = followed(all, one(alloc, ty)?)?;
    }
    Ok(all)
}

#[tactic(auto, using(crate::proofs::Types::type_rules))]
fn struct_types(alloc: Global, structs: &[Members]) -> Result<Option<Items<Items<Ty>>>, AllocError>
    ensures { IfOk result (λ r. r ≡ spec.struct_types structs.now) }
{
    let mut all = Some(Items::new(alloc));
    'structs: for members in structs {
        let types = known_types(alloc, members)?;
        all = followed(all, one(alloc, types)?)?;
    }
    Ok(all)
}

/// The types of the structs, where all are known, and the notes.
fn structs_and_notes(
    alloc: Global,
    env: &Env,
) -> Result<(Option<Items<Items<Ty>>>, Items<Span>), AllocError>
    ensures structs { IfOk result (λ r. r.0 ≡ spec.struct_types env.now.structs.members) }
    ensures notes { IfOk result (λ r. r.1 ≡ env.now.notes) }
{
    let notes = Items::from_slice(alloc, env.notes())?;
    kept(struct_types(alloc, env.structs().members()), notes)
}

/// The tree.
#[tactic(auto, using(crate::proofs::Trees::tree_rules))]
pub(crate) fn made(
    alloc: Global,
    whole: Whole,
    formats: Items<Items<u8>>,
) -> Result<Tree, CheckFault>
    requires { IsTyped whole.scope whole.main formats }
    ensures tree { IfOk result (spec.IsMade whole.scope whole.main formats) }
    ensures fault { IfErr result (λ e. e ≡ NoMemory) }
{
    let Whole { scope, main } = whole;
    let FileScope {
        env,
        globals,
        cells: _,
        defined: _,
        funcs,
    } = scope;
    let copied = structs_and_notes(alloc, &env);
    let loops = env.loops();
    drop(env);
    let others = (globals, funcs, formats);
    let ((structs, notes), (globals, funcs, formats)) = kept(copied, others)?;
    match main.zip(funcs.zip(structs)) {
        None => unreachable!(),
        Some((main, (funcs, structs))) => Ok(Tree {
            structs,
            globals,
            funcs,
            formats,
            notes,
            loops,
            main,
        }),
    }
}
