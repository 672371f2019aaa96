//! Faults, and the least of them.

ghost use Rattle.std.specs.Prelude.{◌≡◌, [], ◌∷◌};
ghost use Rattle.xc_type_rule.specs.Least.{is_before, least_from, name_fault, type_fault};

use xc_text_place::Span;

/// Which rules a fault breaks.
#[derive(Drop, Clone, Copy)]
pub enum Breach {
    /// Those of names and scopes (C99 6.2.1).
    Name,
    /// Those of types, and all others (C99 6.5 to 6.9).
    Typing,
}

/// A rule that is broken. The token to blame stands at this byte of the source.
#[derive(Drop, Clone, Copy)]
pub struct Fault {
    pub at: u32,
    pub breach: Breach,
}

fn is_before(a: Fault, b: Fault) -> bool
    ensures { result ≡ is_before a b }
{
    match (a.breach, b.breach) {
        (Breach::Name, Breach::Typing) => a.at <= b.at,
        _ => a.at < b.at,
    }
}

/// One more fault: `first` is the least of all.
#[tactic(auto, unfolding(crate::specs::Least::least_from))]
pub fn note(first: &mut Option<Fault>, fault: Fault)
    ensures { first.new ≡ least_from first.old (fault ∷ []) }
{
    match *first {
        Some(was) => {
            if is_before(fault, was) {
                *first = Some(fault);
            }
        }
        None => {
            *first = Some(fault);
        }
    }
}

/// A rule of types is broken by what covers these bytes.
pub fn note_type(first: &mut Option<Fault>, span: Span)
    ensures { first.new ≡ least_from first.old (type_fault span) }
{
    note(
        first,
        Fault {
            at: span.start,
            breach: Breach::Typing,
        },
    )
}

/// A rule of names is broken by the name that covers these bytes.
pub fn note_name(first: &mut Option<Fault>, span: Span)
    ensures { first.new ≡ least_from first.old (name_fault span) }
{
    note(
        first,
        Fault {
            at: span.start,
            breach: Breach::Name,
        },
    )
}
