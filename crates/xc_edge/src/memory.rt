//! A shelf and a sink in memory, which fail when they are told to. The calls of each are numbered from 0.
ghost use Rattle.std.specs.Prelude.{◌≡◌, ◌+◌, ◌-◌, ◌<◌, ◌≤◌, ◌≢◌, ◌⊎◌, ◌↔◌, ◌++◌, ◌∷◌, ℕ, List, Option, [], None, Some, length, take, map, min, vec_len, string_bytes, IfOk, IsErr, IsErrOf, IsSomeAnd, OnOk, OnErr, IfSome, Contains};
ghost use Rattle.std.specs.Option.{option_copied};
ghost use Rattle.xc_edge.specs.Counts.{raised};
ghost use Rattle.xc_edge.specs.ShelfState.{entries};
ghost use Rattle.xc_edge.specs.InnerShelfState.{file_named, name_count, IsToFail, next_call};
ghost use Rattle.xc_edge.specs.InnerSinkState.{IsRefused, next_put};

use crate::shelf::{Fetch, Shelf};
use crate::sink::{Failed, Sink};
use std::alloc::{AllocError, Global};
use std::marker::Model;

/// Files in memory. A fetch fails where no file has the name, and where its number is on a list.
/// Of two files with one name the first counts.
#[derive(Drop)]
pub struct MemShelf {
    alloc: Global,
    files: Vec<(String, Vec<u8>)>,
    failing: Vec<u64>,
    failed: Vec<String>,
    calls: u64,
    taken: u64,
}

impl Model for MemShelf {
    ghost use Rattle.std.specs.Prelude.{map, string_bytes};
    ghost use Rattle.xc_edge.specs.ShelfState.{ShelfState, entries};

    ghost Value = { ShelfState };

    ghost view = { λ s. record {
      files = entries s.files.items;
      failing = s.failing.items;
      failed = map (λ name. string_bytes name) s.failed.items;
      calls = s.calls;
      taken = s.taken;
    } };
}

impl MemShelf {
    /// A shelf of these files, on which the calls with the numbers in `failing` fail.
    pub fn new(alloc: Global, files: Vec<(String, Vec<u8>)>, failing: Vec<u64>) -> MemShelf
        ensures { result ≡ record { files = entries files.items; failing = failing.items; failed = []; calls = 0; taken = 0 } }
    {
        MemShelf {
            alloc,
            files,
            failing,
            failed: Vec::new(alloc),
            calls: 0,
            taken: 0,
        }
    }

    /// Keeps a name whose fetch failed.
    fn keep(&mut self, name: &str) -> Result<(), AllocError>
        ensures ok { OnOk result (self.new ≡ record self.old { failed = self.old.failed ++ name.now ∷ [] }) }
        ensures err { OnErr result (self.new ≡ self.old) }
    {
        self.failed.push(String::from_str(self.alloc, name)?)?;
        Ok(())
    }
}

/// The bytes of the first file of this name.
fn first_named<'a>(files: &'a [(String, Vec<u8>)], name: &str) -> Option<&'a [u8]>
    ensures { option_copied result ≡ file_named (entries files.now) name.now }
{
    for file in files {
        if file.0.as_str() == name {
            return Some(file.1.as_slice());
        }
    }
    None
}

impl Shelf for MemShelf {
    ghost files = { λ s. Some (file_named s.files) };

    ghost faults = { λ s name. name_count s.failed name };

    ghost taken = { λ s. s.taken };

    #[tactic(auto, using(crate::proofs::NameCounts::name_counts))]
    fn fetch(&mut self, name: &str, limit: usize) -> Result<Vec<u8>, Fetch>
        ensures whole { IfOk result (λ text. file_named self.old.files name.now ≡ Some text.items) }
        ensures within { IfOk result (λ text. vec_len text ≤ limit) }
        ensures taken { IfOk result (λ text. self.new ≡ record (next_call self.old) { taken = raised self.old.taken (vec_len text) }) }

        // A fetch fails where it is to fail, and else is too long where the file is.
        ensures fails { IsToFail self.old name.now → IsErrOf result Fetch.Failed ⊎ IsErrOf result Fetch.NoMemory }
        ensures failed { IsErrOf result Fetch.Failed → IsToFail self.old name.now }
        ensures counted { IsErrOf result Fetch.Failed → name_count self.new.failed name.now ≡ name_count self.old.failed name.now + 1 }
        ensures others_kept { (other : List ℕ) → other ≢ name.now → name_count self.new.failed other ≡ name_count self.old.failed other }
        ensures failed_kept { IsErrOf result Fetch.Failed → self.new ≡ record (next_call self.old) { failed = self.old.failed ++ name.now ∷ [] } }
        ensures long { IsErrOf result Fetch.Long ↔ ((¬ Contains self.old.failing self.old.calls) × IsSomeAnd (file_named self.old.files name.now) (λ text. limit < length text)) }
        ensures long_taken { IsErrOf result Fetch.Long → self.new ≡ record (next_call self.old) { taken = raised self.old.taken (limit + 1) } }
        ensures taken_kept { self.old.taken ≤ self.new.taken }
        ensures no_memory { IsErrOf result Fetch.NoMemory → self.new ≡ next_call self.old }
    {
        let call = self.calls;
        self.calls = call.saturating_add(1);
        if self.failing.contains(&call) {
            self.keep(name)?;
            return Err(Fetch::Failed);
        }
        match first_named(&self.files, name) {
            None => {
                self.keep(name)?;
                Err(Fetch::Failed)
            }
            Some(text) if text.len() > limit => {
                self.taken = self.taken.saturating_add(limit as u64 + 1);
                Err(Fetch::Long)
            }
            Some(text) => {
                let copy = Vec::from_slice(self.alloc, text)?;
                self.taken = self.taken.saturating_add(copy.len() as u64);
                Ok(copy)
            }
        }
    }
}

/// Bytes in memory, with room for so many. A put fails where its number is on a list, and one of a
/// piece that is not empty where no room is left.
#[derive(Drop)]
pub struct MemSink {
    written: Vec<u8>,
    room: usize,
    failing: Vec<u64>,
    faults: u64,
    calls: u64,
}

impl Model for MemSink {
    ghost use Rattle.std.specs.Prelude.{◌≤◌, length, vec_capacity};
    ghost use Rattle.xc_edge.specs.SinkState.{SinkState};

    ghost Value = { SinkState };

    ghost view = { λ s. record {
      written = s.written.items;
      room = s.room;
      failing = s.failing.items;
      faults = s.faults;
      calls = s.calls;
    } };

    ghost invariant = { λ s. (length s.written.items ≤ s.room) × (s.room ≤ vec_capacity s.written) };
}

impl MemSink {
    /// An empty sink that takes its room at once, and on which the calls with the numbers in `failing` fail.
    pub fn new(alloc: Global, room: usize, failing: Vec<u64>) -> Result<MemSink, AllocError>
        ensures { IfOk result (λ sink. sink ≡ record { written = []; room = room; failing = failing.items; faults = 0; calls = 0 }) }
    {
        Ok(MemSink {
            written: Vec::with_capacity(alloc, room)?,
            room,
            failing,
            faults: 0,
            calls: 0,
        })
    }

    /// What is written.
    pub fn bytes(&self) -> &[u8]
        ensures { result.now ≡ self.now.written }
    {
        &self.written
    }
}

impl Sink for MemSink {
    ghost written = { λ s. Some s.written };

    ghost faults = { λ s. s.faults };

    fn put(&mut self, piece: &[u8]) -> Result<usize, Failed>
        ensures fails { IsErr result ↔ IsRefused self.old piece.now }
        ensures takes { IfOk result (λ n. n ≡ min (length piece.now) (self.old.room - length self.old.written)) }
        ensures appends { IfOk result (λ n. self.new ≡ record (next_put self.old) { written = self.old.written ++ take n piece.now }) }
        ensures faults_kept { self.old.faults ≤ self.new.faults }
        ensures counts { OnErr result (self.new ≡ record (next_put self.old) { faults = raised self.old.faults 1 }) }
    {
        let call = self.calls;
        self.calls = call.saturating_add(1);
        let taken = piece.len().min(self.room - self.written.len());
        if self.failing.contains(&call) || (taken == 0 && !piece.is_empty()) {
            self.faults = self.faults.saturating_add(1);
            return Err(Failed);
        }
        self.written.extend_from_slice(&piece[..taken]).unwrap();
        Ok(taken)
    }
}
