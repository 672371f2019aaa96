//! The pragmas directly before a loop.

ghost use Rattle.std.specs.Prelude.{◌≡◌, IfOk, OnOk};
ghost use Rattle.std.specs.Option.{option_copied};
ghost use Rattle.xc_tree.specs.Types.{holds_pointer};
ghost use Rattle.xc_type_pragmas.specs.Said.{pragma_of};
ghost use Rattle.xc_type_pragmas.specs.Set.{settings_of};
ghost use Rattle.xc_type_statement_parts.specs.Pragmas as spec;

use sqlite_items::Items;
use std::alloc::{AllocError, Global};
use xc_hold::kept;
use xc_text_place::Span;
use xc_tree::{Pragmas, Root, Ty};
use xc_type_expressions::Text;
use xc_type_pragmas::{Named, Pragma, Said, Settings, loop_settings, read_pragma};
use xc_type_rule::{Thing, base_of, is_pointer};
use xc_type_scopes::Env;

/// A loop that begins: its number, and what the pragmas directly before it set.
#[derive(Drop)]
pub struct Begun {
    pub id: u32,
    pub pragmas: Pragmas,
}

fn name_in(pragma: Pragma) -> Option<Span>
    ensures { result ≡ spec.name_in pragma }
{
    match pragma {
        Pragma::Nodep(name) => Some(name),
        Pragma::Noalias(name) => Some(name),
        _ => None,
    }
}

fn holds_pointer(ty: &Ty) -> bool
    ensures { result ≡ holds_pointer ty.now }
{
    match base_of(ty) {
        None => false,
        Some(of) => is_pointer(of),
    }
}

fn object_of(ty: &Option<Ty>, object: Root, pointer: Root) -> Named
    ensures { result ≡ spec.object_of ty.now object pointer }
{
    match ty {
        Some(ty) if holds_pointer(ty) => Named::Pointer { object, pointer },
        _ => Named::Object(object),
    }
}

fn named_by(thing: Option<&Thing>) -> Named
    ensures { result ≡ spec.named_by (option_copied thing.entry) }
{
    match thing {
        Some(Thing::Global { number, ty }) => {
            object_of(ty, Root::Global(*number), Root::GlobalPointer(*number))
        }
        Some(Thing::Local { number, ty }) => {
            object_of(ty, Root::Local(*number), Root::LocalPointer(*number))
        }
        Some(Thing::Func { .. }) => Named::Nothing,
        None => Named::Nothing,
    }
}

fn thing_of<'a>(text: &Text, env: &'a Env, pragma: Pragma) -> Option<&'a Thing>
    ensures { option_copied result ≡ spec.thing_of text.now env.now pragma }
{
    let at = name_in(pragma)?;
    let name = text.names.number_of(at.of(text.source))?;
    env.find(name)
}

// The pragma that stands there.
fn pragma_at(source: &[u8], at: Span) -> Pragma
    ensures { result ≡ pragma_of source.now at }
{
    if at.end as usize <= source.len() {
        return read_pragma(source, at);
    }
    let end = source.len() as u32;
    read_pragma(
        source,
        Span {
            start: at.start,
            end,
        },
    )
}

fn said_at(text: &Text, env: &Env, at: Span) -> Said
    ensures { result ≡ spec.said_at text.now env.now at }
{
    let pragma = pragma_at(text.source, at);
    let named = named_by(thing_of(text, env, pragma));
    Said {
        span: at,
        pragma,
        named,
    }
}

fn said(alloc: Global, text: &Text, env: &Env) -> Result<Items<Said>, AllocError>
    ensures { IfOk result (λ r. r ≡ spec.said text.now env.now) }
{
    let mut all = Items::new(alloc);
    'spans: for at in env.before() {
        all.push(said_at(text, env, *at))?;
    }
    Ok(all)
}

fn settings(alloc: Global, text: &Text, env: &Env) -> Result<Settings, AllocError>
    ensures { IfOk result (λ r. r ≡ settings_of (spec.said text.now env.now)) }
{
    let all = said(alloc, text, env)?;
    loop_settings(alloc, all.as_slice())
}

/// The loop begins whose keyword stands at `at`.
#[tactic(auto, unfolding(crate::specs::Pragmas::begun))]
pub fn begin_loop(alloc: Global, text: &Text, env: &mut Env, at: u32) -> Result<Begun, AllocError>
    ensures part { IfOk result (λ r. r ≡ (spec.begun text.now at env.old).part) }
    ensures env { OnOk result (env.new ≡ (spec.begun text.now at env.old).env) }
{
    let Settings { pragmas, notes } = settings(alloc, text, env)?;
    let (id, pragmas) = kept(env.add_loop(alloc, at, notes), pragmas)?;
    Ok(Begun { id, pragmas })
}
