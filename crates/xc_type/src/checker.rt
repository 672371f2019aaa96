//! The call that checks a text.

ghost use Rattle.std.specs.Prelude.{◌≡◌, ◌≤◌, ◌<◌, ◌^◌, length, IfOk, IfErr};
ghost use Rattle.std.specs.List.{All};
ghost use Rattle.xc_lex.specs.Source.{IsSpelled};
ghost use Rattle.xc_parse.specs.Texts.{words_of, Parsed};
ghost use Rattle.xc_tree_sizes.specs.Nodes.{IsSmall};
ghost use Rattle.xc_type.specs.Checked as spec;
ghost use Rattle.xc_type.specs.InnerChecked as inner_spec;

use crate::fault::{CheckFault, placed};
use crate::made::made;
use std::alloc::Global;
use xc_lex::{Token, Tokens};
use xc_raw::Raw;
use xc_text_place::position;
use xc_tree::Tree;
use xc_type_expressions::Text;
use xc_type_literals::{Texts, texts_of};
use xc_type_names::Names;
use xc_type_unit::{Whole, outer};

/// What the declarations of a text make, or its first fault.
#[tactic(auto, using(crate::proofs::Faults::fault_rules))]
fn judged(alloc: Global, text: &Text, raw: &Raw) -> Result<Whole, CheckFault>
    requires { length text.now.source.now ≤ 2 ^ 20 }
    ensures whole { IfOk result (inner_spec.IsWhole text.now raw.now) }
    ensures fault { IfErr result (spec.IsFaultIn text.now raw.now) }
{
    let mut first = None;
    let whole = outer(alloc, text, raw, &mut first)?;
    if let Some(fault) = first {
        drop(whole);
        return Err(placed(text.source, fault));
    }
    if let Some(at) = whole.scope.env.over() {
        drop(whole);
        return Err(CheckFault::Count(position(text.source, at as usize)));
    }
    Ok(whole)
}

/// The same, of a source with these tokens.
#[tactic(auto, using(crate::proofs::Faults::fault_rules))]
fn checked(
    alloc: Global,
    source: &[u8],
    tokens: &[Token],
    text: &Text,
    raw: &Raw,
) -> Result<Whole, CheckFault>
    requires short { length source.now ≤ 2 ^ 20 }
    requires text { spec.IsText source.now tokens.now text.now }
    ensures whole { IfOk result (inner_spec.IsWholeOf source.now tokens.now raw.now) }
    ensures fault { IfErr result (spec.IsFault source.now tokens.now raw.now) }
{
    judged(alloc, text, raw)
}

/// The typed tree of a text, or its first fault: of all its faults of names and types the first in the text, a name
/// before a type at one place; where there is none, the first place at which a count passes its limit.
#[tactic(auto, using(crate::proofs::Faults::fault_rules))]
pub fn check(alloc: Global, source: &[u8], tokens: &Tokens, raw: Raw) -> Result<Tree, CheckFault>
    requires short { length source.now ≤ 2 ^ 20 }
    requires few { length tokens.now ≤ 2 ^ 20 }
    requires spelled { All (IsSpelled source.now) tokens.now }
    requires parsed { Parsed (words_of source.now tokens.now) raw }
    ensures tree { IfOk result (spec.IsTree source.now tokens.now raw) }
    ensures small { IfOk result IsSmall }
    ensures fault { IfErr result (spec.IsFault source.now tokens.now raw) }
{
    let tokens = tokens.as_slice();
    let names = Names::new(alloc, source, tokens)?;
    let texts = texts_of(alloc, source, tokens)?;
    let text = Text {
        source,
        tokens,
        names: &names,
        texts: &texts,
    };
    let whole = checked(alloc, source, tokens, &text, &raw)?;
    let Texts { formats, .. } = texts;
    made(alloc, whole, formats)
}
