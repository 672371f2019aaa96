//! The real outside: files and standard streams of the system. They tell no content.
ghost use Rattle.std.specs.Prelude.{◌≡◌, ◌+◌, ◌<◌, ◌≤◌, ℕ, None, length, vec_len, IfOk, IfSome, IsErrOf};
ghost use Rattle.xc_edge.specs.Counts.{Rises};

use crate::shelf::{Fetch, Shelf};
use crate::sink::{Failed, Sink};
use std::alloc::Global;
use std::fs;
use std::io::Read;
use std::rt::Files;

/// The files of the system, each named by its path.
#[derive(Drop)]
pub struct DirShelf<'a, R: Files> {
    alloc: Global,
    rt: &'a R,
    faults: u64,
    taken: u64,
}

impl<'a, R: Files> DirShelf<'a, R> {
    /// A shelf that has read nothing yet.
    pub fn new(alloc: Global, rt: &'a R) -> DirShelf<'a, R>
        ensures no_faults { result.faults ≡ 0 }
        ensures none_taken { result.taken ≡ 0 }
    {
        DirShelf {
            alloc,
            rt,
            faults: 0,
            taken: 0,
        }
    }
}

/// All that a file of at most `limit` bytes has left; of a longer one it reads one byte more. It
/// counts the bytes.
fn read_within<F: Read>(
    alloc: Global,
    file: &mut F,
    limit: usize,
    taken: &mut u64,
) -> Result<Vec<u8>, Fetch>
    ensures whole { IfOk result (λ text. IfSome (F.remaining file.old) (λ bytes. text.items ≡ bytes)) }
    ensures within { IfOk result (λ text. vec_len text ≤ limit) }
    ensures long { IsErrOf result Fetch.Long → Rises (limit + 1) taken.old taken.new }
    ensures long_file { IsErrOf result Fetch.Long → IfSome (F.remaining file.old) (λ bytes. limit < length bytes) }
    ensures taken_kept { taken.old ≤ taken.new }
    ensures takes_little { taken.new ≤ taken.old + limit + 1 }
{
    let mut text = Vec::new(alloc);
    let mut chunk = [0u8; 8192];
    loop {
        let room = limit - text.len();
        let wanted = chunk.len().min(room.saturating_add(1));
        let count = file.read(&mut chunk[..wanted]).map_err(|_| Fetch::Failed)?;
        *taken = taken.saturating_add(count as u64);
        if count > room {
            return Err(Fetch::Long);
        }
        if count == 0 {
            return Ok(text);
        }
        text.extend_from_slice(&chunk[..count])?;
    }
}

/// Opens a file and reads it.
fn read_file<R: Files>(
    alloc: Global,
    rt: &R,
    name: &str,
    limit: usize,
    taken: &mut u64,
) -> Result<Vec<u8>, Fetch>
    ensures within { IfOk result (λ text. vec_len text ≤ limit) }
    ensures long { IsErrOf result Fetch.Long → Rises (limit + 1) taken.old taken.new }
    ensures taken_kept { taken.old ≤ taken.new }
    ensures takes_little { taken.new ≤ taken.old + limit + 1 }
{
    let mut file = fs::open(rt, name).map_err(|_| Fetch::Failed)?;
    read_within(alloc, &mut file, limit, taken)
}

impl<R: Files> Shelf for DirShelf<'_, R> {
    ghost files = { λ _. None };

    ghost faults = { λ s _. s.faults };

    ghost taken = { λ s. s.taken };

    fn fetch(&mut self, name: &str, limit: usize) -> Result<Vec<u8>, Fetch> {
        let result = read_file(self.alloc, self.rt, name, limit, &mut self.taken);
        if let Err(Fetch::Failed) = &result {
            self.faults = self.faults.saturating_add(1);
        }
        result
    }
}

/// Standard output or standard error.
#[derive(Drop)]
pub struct StdSink<P> {
    to: P,
    faults: u64,
}

impl<P: Print> StdSink<P> {
    /// A sink to which nothing was put yet.
    pub fn new(to: P) -> StdSink<P>
        ensures { result.faults ≡ 0 }
    {
        StdSink { to, faults: 0 }
    }
}

impl<P: Print> Sink for StdSink<P> {
    ghost written = { λ _. None };

    ghost faults = { λ s. s.faults };

    fn put(&mut self, piece: &[u8]) -> Result<usize, Failed> {
        match self.to.write_some(piece) {
            Ok(count) if count > 0 || piece.is_empty() => Ok(count),
            _ => {
                self.faults = self.faults.saturating_add(1);
                Err(Failed)
            }
        }
    }
}
