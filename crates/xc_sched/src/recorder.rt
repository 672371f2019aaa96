//! A chooser whose answers are recorded.

ghost use Rattle.std.specs.Prelude.{◌≡◌, [], None};

use crate::chooser::Chooser;
use crate::ready::Ready;
use crate::recorded::Recorded;
use std::alloc::Global;
use std::marker::Model;

/// Why an answer was not recorded.
#[derive(Clone, Copy, Debug, PartialEq, Eq)]
pub enum Loss {
    NoMemory,
    /// A schedule's text has no run of more than 2^31 steps of one stream.
    Steps,
    /// A schedule's text has no such stream.
    Stream(u32),
}

/// Answers what its inner chooser answers, and records that until the first loss.
///
/// Contracts see the inner chooser, the recorded streams, step by step, and the first loss.
#[derive(Drop)]
pub struct Recorder<C> {
    inner: C,
    taken: Recorded,
    lost: Option<Loss>,
}

impl<C> Model for Recorder<C> {
    ghost use Rattle.std.specs.Prelude.{List, ℕ, Option};
    ghost use Rattle.xc_sched.specs.declared.recorder.Loss.{Loss};

    ghost Value = { C × List ℕ × Option Loss };

    ghost view = { λ r. (r.inner, r.taken, r.lost) };
}

impl<C> Recorder<C> {
    /// Nothing is recorded.
    pub fn new(alloc: Global, inner: C) -> Recorder<C>
        ensures { result ≡ (inner, [], None) }
    {
        Recorder {
            inner,
            taken: Recorded::new(alloc),
            lost: None,
        }
    }

    /// The first loss.
    pub fn lost(&self) -> Option<Loss>
        ensures { result ≡ self.now.2 }
    {
        self.lost
    }

    /// What was recorded before the first loss.
    pub fn taken(&self) -> &Recorded
        ensures { result.now ≡ self.now.1 }
    {
        &self.taken
    }

    /// The inner chooser.
    pub fn inner(&self) -> &C
        ensures { result.now ≡ self.now.0 }
    {
        &self.inner
    }
}

impl<C: Chooser> Chooser for Recorder<C> {
    ghost use Rattle.std.specs.Prelude.{◌≡◌};
    ghost use Rattle.xc_sched.specs.Losses.{Records};

    ghost picks = { λ old streams answer new. C.picks old.0 streams answer new.0 × Records old.1 old.2 answer new.1 new.2 };

    fn next(&mut self, ready: &Ready) -> Option<u32> {
        let answer = self.inner.next(ready);
        if let Some(stream) = answer
            && self.lost.is_none()
        {
            self.lost = self.taken.push(stream).err();
        }
        answer
    }
}
