//! Scopes.

ghost use Rattle.std.specs.Prelude.{◌≡◌, map, OnOk, []};
ghost use Rattle.std.specs.Option.{option_copied};
ghost use Rattle.xc_type_names.specs.Scoped.{found_in, entered, left, declared_in, is_new, in_one, or_else, has_none};

use indexmap::IndexMap;
use std::alloc::{AllocError, Global};
use std::marker::Model;

fn in_one<T: Drop>(scope: &IndexMap<u32, T>, name: u32) -> Option<&T>
    ensures { option_copied result ≡ in_one name scope.now.entries }
{
    scope.get(&name)
}

fn later<'a, T: Drop>(here: Option<&'a T>, was: Option<&'a T>) -> Option<&'a T>
    ensures { option_copied result ≡ or_else (option_copied here.entry) (option_copied was.entry) }
{
    match here {
        None => was,
        Some(thing) => Some(thing),
    }
}

fn find_in<T: Drop>(scopes: &[IndexMap<u32, T>], name: u32) -> Option<&T>
    ensures { option_copied result ≡ found_in name (map (λ m. m.entries) scopes.now) }
{
    let mut found = None;
    for scope in scopes {
        found = later(in_one(scope, name), found);
    }
    found
}

#[tactic(auto, using(crate::proofs::Ends::new_rules))]
fn is_new_in<T: Drop>(scopes: &[IndexMap<u32, T>], name: u32) -> bool
    ensures { result ≡ is_new name (map (λ m. m.entries) scopes.now) }
{
    match scopes {
        [] => true,
        [.., last] => in_one(last, name).is_none(),
    }
}

/// Scopes, outermost first, which contracts see as lists of names with what they stand for. A name is a number. A
/// look-up takes time by how deep the scopes are, and not by how many names they have.
#[derive(Drop)]
pub struct Scopes<T: Drop> {
    scopes: Vec<IndexMap<u32, T>>,
    alloc: Global,
}

impl<T: Drop> Model for Scopes<T> {
    ghost use Rattle.std.specs.Prelude.{map, List, ℕ};
    ghost use Rattle.std.specs.Coded.{coded_list, coded×, coded_ℕ};

    ghost Value = { List (List (ℕ × T)) };

    ghost coded = { coded_list (coded_list (coded× coded_ℕ T.code)) };

    ghost view = { λ s. map (λ m. m.entries) s.scopes.items };
}

impl<T: Drop> Scopes<T> {
    /// No scopes.
    pub fn new(alloc: Global) -> Scopes<T>
        ensures { result ≡ [] }
    {
        Scopes {
            scopes: Vec::new(alloc),
            alloc,
        }
    }

    /// What a name stands for, in the innermost scope that has it.
    pub fn find(&self, name: u32) -> Option<&T>
        ensures { option_copied result ≡ found_in name self.now }
    {
        find_in(self.scopes.as_slice(), name)
    }

    /// Whether the innermost scope lacks this name.
    pub fn is_new(&self, name: u32) -> bool
        ensures { result ≡ is_new name self.now }
    {
        let scopes = self.scopes.as_slice();
        is_new_in(scopes, name)
    }

    /// Whether there is no scope.
    pub fn is_empty(&self) -> bool
        ensures { result ≡ has_none self.now }
    {
        match self.scopes.as_slice() {
            [] => true,
            _ => false,
        }
    }

    /// A new scope, innermost.
    pub fn enter(&mut self) -> Result<(), AllocError>
        ensures { OnOk result (self.new ≡ entered self.old) }
    {
        let scope = IndexMap::new(self.alloc);
        self.scopes.push(scope)?;
        Ok(())
    }

    /// The innermost scope ends.
    pub fn leave(&mut self)
        ensures { self.new ≡ left self.old }
    {
        let _ = self.scopes.pop();
    }

    /// A name of the innermost scope, which stands for this from now on.
    #[tactic(auto, using(crate::proofs::Ends::end_rules))]
    pub fn declare(&mut self, name: u32, thing: T) -> Result<(), AllocError>
        ensures { OnOk result (self.new ≡ declared_in name thing self.old) }
    {
        match self.scopes.pop() {
            None => Ok(()),
            Some(scope) => {
                let mut scope = scope;
                scope.insert(name, thing)?;
                self.scopes.push(scope)?;
                Ok(())
            }
        }
    }
}
