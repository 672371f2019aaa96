//! What may be a pointer to a global by the text alone.

ghost use Rattle.std.specs.Prelude.{◌≡◌, is_some, map};
ghost use Rattle.xc_type_expressions.specs.Places.{name_of};
ghost use Rattle.xc_raw.specs.declared.tree.Raw.{out-Raw};
ghost use Rattle.xc_raw.specs.declared.rule.Rule.TheVariants as rule;
ghost use Rattle.xc_type_initialisers.specs.Forms as spec;

use xc_raw::{Raw, Rule};
use xc_raw_parts::{Prefix, prefix_operator};
use xc_type_expressions::Text;

/// Whether an expression is a name, and whether it is a name or `&` of one.
#[derive(Clone, Copy)]
pub(crate) struct Form {
    pub(crate) name: bool,
    pub(crate) pointer: bool,
}

fn no_form() -> Form
    ensures { result ≡ spec.no_form }
{
    Form {
        name: false,
        pointer: false,
    }
}

fn token_form(text: &Text, node: &Raw) -> Form
    ensures { result ≡ spec.token_form (is_some (name_of text.now (out-Raw node.now).first)) }
{
    let named = text.name_of(node.first as usize).is_some();
    Form {
        name: named,
        pointer: named,
    }
}

fn prefix_form(prefix: Option<Prefix>, of: Form) -> Form
    ensures { result ≡ spec.prefix_form prefix of }
{
    match prefix {
        Some(Prefix::Address) => Form {
            name: false,
            pointer: of.name,
        },
        _ => no_form(),
    }
}

/// What an expression is in this respect.
#[cycle(form)]
#[tactic(auto, using(crate::proofs::Turns::form_rules), unfolding(crate::specs::Forms::form_by))]
pub(crate) fn form_of(text: &Text, node: &Raw) -> Form
    ensures { result ≡ spec.form_in text.now node.now }
{
    match node.rule {
        Rule::Prim => enclosed_form(text, node),
        Rule::Unary => unary_form(text, node),
        _ => no_form(),
    }
}

#[cycle(form)]
#[tactic(auto, using(crate::proofs::Turns::form_rules), unfolding(crate::specs::Forms::form_by))]
fn enclosed_form(text: &Text, node: &Raw) -> Form
    ensures { result ≡ spec.form_by text.now node.now rule.Prim (map (spec.form_in text.now) (out-Raw node.now).parts) }
{
    match node.parts.as_slice() {
        [] => token_form(text, node),
        [part] => form_of(text, part),
        _ => no_form(),
    }
}

#[cycle(form)]
#[tactic(auto, using(crate::proofs::Turns::form_rules), unfolding(crate::specs::Forms::form_by))]
fn unary_form(text: &Text, node: &Raw) -> Form
    ensures { result ≡ spec.form_by text.now node.now rule.Unary (map (spec.form_in text.now) (out-Raw node.now).parts) }
{
    match node.parts.as_slice() {
        [part] => {
            let of = form_of(text, part);
            prefix_form(prefix_operator(text.source, text.tokens, node), of)
        }
        _ => no_form(),
    }
}
