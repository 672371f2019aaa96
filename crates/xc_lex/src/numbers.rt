//! Numbers by names.

ghost use Rattle.std.specs.Prelude.{◌≡◌, ℕ, List, IsSome, OnOk, IfErr, None};
ghost use Rattle.xc_lex.specs.Numbering.{number_in};

use crate::stop::Stop;
use std::alloc::{AllocError, AllocFailed, Global};
use std::collections::HashMap;

/// The number of each name.
#[derive(Drop)]
pub struct Numbers {
    map: HashMap<Vec<u8>, usize>,
}

impl Numbers {
    /// No names.
    pub fn new(alloc: Global) -> Numbers
        ensures { (name : List ℕ) → number_in result name ≡ None }
    {
        Numbers {
            map: HashMap::new(alloc),
        }
    }

    /// The number of a name.
    pub fn get(&self, name: &[u8]) -> Option<usize>
        ensures { result ≡ number_in self.now name.now }
    {
        self.map.get(name).copied()
    }

    /// Gives a name a number.
    pub fn insert(&mut self, alloc: Global, name: &[u8], number: usize) -> Result<(), Stop>
        ensures named { OnOk result (IsSome (number_in self.new name.now)) }
        ensures others { OnOk result ((q : List ℕ) → IsSome (number_in self.old q) → IsSome (number_in self.new q)) }
        ensures err { IfErr result (λ e. e ≡ Stop.NoMemory) }
    {
        let key = Vec::from_slice(alloc, name)?;
        self.map.insert(key, number)?;
        Ok(())
    }
}
