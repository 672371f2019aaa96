//! Initialisers, each by its parts.

ghost use Rattle.std.specs.Prelude.{map, IfOk, OnOk};
ghost use Rattle.xc_raw.specs.declared.tree.Raw.{out-Raw};
ghost use Rattle.xc_raw.specs.declared.rule.Rule.TheVariants as rule;
ghost use Rattle.xc_type_scopes.specs.Judge.{Judges};
ghost use Rattle.xc_type_initialisers.specs.Initialisers as spec;
ghost use Rattle.xc_type_initialisers.specs.InnerInitialisers as inner_spec;

use crate::lasting::{held, lasting};
use sqlite_items::Items;
use std::alloc::{AllocError, Global};
use xc_raw::{Raw, Rule};
use xc_raw_parts::span_of;
use xc_tree::{Expr, Ty};
use xc_type_expressions::{Text, value};
use xc_type_initialiser_objects::{
    Inits, Part, Target, global_words, may_be_braced, note_type_unless, part_of, value_made,
};
use xc_type_rule::Fault;
use xc_type_scopes::Env;

// Expressions.

// What an expression that makes `made` gives an object, which stands at file scope or not.
#[tactic(auto, using(crate::proofs::Turns::leaf_rules), unfolding(crate::specs::Initialisers::placed))]
fn placed(
    alloc: Global,
    text: &Text,
    env: &mut Env,
    node: &Raw,
    outermost: bool,
    ty: &Option<Ty>,
    made: Option<Expr>,
    first: &mut Option<Fault>,
) -> Result<Option<Expr>, AllocError>
    ensures { IfOk result (λ r. Judges (spec.placed text.now node.now outermost ty.now made) env.old env.new first.old first.new r) }
{
    if outermost {
        Ok(lasting(alloc, text, node, held(ty), made, first)?)
    } else {
        Ok(made)
    }
}

// An expression as an initialiser.
#[tactic(auto, using(crate::proofs::Turns::leaf_rules), unfolding(crate::specs::Initialisers::valued, crate::specs::Initialisers::fitted))]
fn valued(
    alloc: Global,
    text: &Text,
    env: &mut Env,
    node: &Raw,
    outermost: bool,
    to: &Target,
    inits: &mut Inits,
    first: &mut Option<Fault>,
) -> Result<(), AllocError>
    ensures { OnOk result (inner_spec.Gives (spec.valued text.now node.now outermost to.now) env.old env.new first.old first.new inits.old inits.new) }
{
    let v = value(alloc, text, env, node, first)?;
    let made = value_made(alloc, span_of(text.tokens, node), &to.ty, v, first)?;
    let made = placed(alloc, text, env, node, outermost, &to.ty, made, first)?;
    inits.add(to.off, made)
}

// Initialisers of what they go to, at file scope or not.

// A node is one in braces, or an expression.
#[cycle(given)]
#[tactic(auto, using(crate::proofs::Turns::turn_rules), unfolding(crate::specs::Initialisers::given_by))]
fn given(
    alloc: Global,
    text: &Text,
    env: &mut Env,
    node: &Raw,
    outermost: bool,
    to: &Target,
    inits: &mut Inits,
    first: &mut Option<Fault>,
) -> Result<(), AllocError>
    ensures { OnOk result (inner_spec.Gives ((spec.initialiser text.now node.now).given outermost to.now) env.old env.new first.old first.new inits.old inits.new) }
{
    match node.rule {
        Rule::Initialisers => braced(alloc, text, env, node, outermost, to, inits, first),
        _ => valued(alloc, text, env, node, outermost, to, inits, first),
    }
}

// One in braces, which a scalar may not have.
#[cycle(given)]
#[tactic(auto, using(crate::proofs::Turns::turn_rules), unfolding(crate::specs::Initialisers::given_by, crate::specs::Initialisers::braced))]
fn braced(
    alloc: Global,
    text: &Text,
    env: &mut Env,
    node: &Raw,
    outermost: bool,
    to: &Target,
    inits: &mut Inits,
    first: &mut Option<Fault>,
) -> Result<(), AllocError>
    ensures { OnOk result (inner_spec.Gives (spec.given_by text.now node.now rule.Initialisers (map (spec.initialiser text.now) (out-Raw node.now).parts) outermost to.now) env.old env.new first.old first.new inits.old inits.new) }
{
    in_turn(
        alloc,
        text,
        env,
        node.parts.as_slice(),
        outermost,
        to,
        inits,
        first,
    )?;
    note_type_unless(may_be_braced(&to.ty), span_of(text.tokens, node), first);
    Ok(())
}

// Those between braces, each for the next part.
#[cycle(given)]
#[tactic(auto, using(crate::proofs::Turns::turn_rules))]
fn in_turn(
    alloc: Global,
    text: &Text,
    env: &mut Env,
    nodes: &[Raw],
    outermost: bool,
    to: &Target,
    inits: &mut Inits,
    first: &mut Option<Fault>,
) -> Result<(), AllocError>
    ensures { OnOk result (inner_spec.Gives (spec.in_turn outermost to.now 0 (map (spec.initialiser text.now) nodes.now)) env.old env.new first.old first.new inits.old inits.new) }
{
    'nodes: for (k, node) in nodes.iter().enumerate() {
        one_of(alloc, text, env, node, outermost, to, k, inits, first)?;
    }
    Ok(())
}

// The one with this number between braces. One that no part is left for is one too many.
#[cycle(given)]
#[tactic(auto, using(crate::proofs::Turns::turn_rules))]
fn one_of(
    alloc: Global,
    text: &Text,
    env: &mut Env,
    node: &Raw,
    outermost: bool,
    to: &Target,
    k: usize,
    inits: &mut Inits,
    first: &mut Option<Fault>,
) -> Result<(), AllocError>
    ensures { OnOk result (inner_spec.Gives (spec.one_of outermost to.now k (spec.initialiser text.now node.now)) env.old env.new first.old first.new inits.old inits.new) }
{
    let Part { target, there } = part_of(alloc, env.structs(), to, k)?;
    let outcome = given(alloc, text, env, node, outermost, &target, inits, first);
    drop(target);
    outcome?;
    note_type_unless(there, span_of(text.tokens, node), first);
    Ok(())
}

// Objects.

#[tactic(auto, using(crate::proofs::Turns::turn_rules))]
fn whole_object(
    alloc: Global,
    text: &Text,
    env: &mut Env,
    node: &Raw,
    outermost: bool,
    ty: Option<Ty>,
    first: &mut Option<Fault>,
) -> Result<Inits, AllocError>
    ensures { IfOk result (λ r. Judges (spec.whole_object text.now node.now outermost ty) env.old env.new first.old first.new r) }
{
    let mut inits = Inits::new(alloc);
    let to = Target { ty, off: 0 };
    let outcome = given(alloc, text, env, node, outermost, &to, &mut inits, first);
    drop(to);
    outcome?;
    Ok(inits)
}

/// The expressions that a local of this type begins with, by their offsets in ascending order. There are none after a
/// fault.
#[tactic(auto, using(crate::proofs::Turns::turn_rules), unfolding(crate::specs::Initialisers::local_inits))]
pub fn local_inits(
    alloc: Global,
    text: &Text,
    env: &mut Env,
    node: &Raw,
    ty: Option<Ty>,
    first: &mut Option<Fault>,
) -> Result<Option<Items<(u32, Expr)>>, AllocError>
    ensures { IfOk result (λ r. Judges (spec.local_inits text.now node.now ty) env.old env.new first.old first.new r) }
{
    let inits = whole_object(alloc, text, env, node, false, ty, first)?;
    Ok(inits.if_whole())
}

/// The words that a global of this type begins with, likewise. A number wants a constant, and a pointer 0, `&` of a
/// global's name or the name of a global array; all else breaks a rule.
#[tactic(auto, using(crate::proofs::Turns::turn_rules), unfolding(crate::specs::Initialisers::global_inits))]
pub fn global_inits(
    alloc: Global,
    text: &Text,
    env: &mut Env,
    node: &Raw,
    ty: Option<Ty>,
    first: &mut Option<Fault>,
) -> Result<Option<Items<(u32, u64)>>, AllocError>
    ensures { IfOk result (λ r. Judges (spec.global_inits text.now node.now ty) env.old env.new first.old first.new r) }
{
    let inits = whole_object(alloc, text, env, node, true, ty, first)?;
    global_words(alloc, &inits)
}
