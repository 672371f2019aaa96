//! Where texts go.
ghost use Rattle.std.specs.Prelude.{◌≡◌, ◌+◌, ◌<◌, ◌≤◌, ℕ, List, Option, [], length, take, IfOk, IsOk, OnOk, OnErr, SomeIndex};
ghost use Rattle.xc_edge.specs.Counts.{Rises};
ghost use Rattle.xc_edge.specs.Gained.{gained};

use thiserror::Error;

/// A sink took nothing of a piece.
#[derive(Clone, Copy, Debug, PartialEq, Eq, Error)]
#[error("the text could not be written")]
pub struct Failed;

/// Something that takes bytes one after another.
pub trait Sink {
    /// The bytes that it took, where it tells them.
    ghost written: { Self → Option (List ℕ) };

    /// How often a put failed.
    ghost faults: { Self → ℕ };

    /// Appends the first bytes of `piece`, and says how many.
    fn put(&mut self, piece: &[u8]) -> Result<usize, Failed>
        ensures within { IfOk result (λ n. n ≤ length piece.now) }
        ensures progress { IfOk result (λ n. 0 < length piece.now → 0 < n) }
        ensures appends { IfOk result (λ n. written self.new ≡ gained (written self.old) (take n piece.now)) }
        ensures no_fault { OnOk result (faults self.new ≡ faults self.old) }
        ensures nothing { OnErr result (written self.new ≡ written self.old) }
        ensures failed { OnErr result (Rises 1 (faults self.old) (faults self.new)) }
        ensures faults_kept { faults self.old ≤ faults self.new };
}

/// Puts all of a text, piece after piece, and stops at the first failure.
pub fn put_all<S: Sink>(sink: &mut S, text: &[u8]) -> Result<(), Failed>
    ensures whole { OnOk result (S.written sink.new ≡ gained (S.written sink.old) text.now) }
    ensures no_fault { OnOk result (S.faults sink.new ≡ S.faults sink.old) }
    ensures part { OnErr result (SomeIndex text.now (λ n. S.written sink.new ≡ gained (S.written sink.old) (take n text.now))) }
    ensures failed { OnErr result (Rises 1 (S.faults sink.old) (S.faults sink.new)) }
    ensures faults_kept { S.faults sink.old ≤ S.faults sink.new }
    ensures empty { text.now ≡ [] → IsOk result }
    ensures no_put { text.now ≡ [] → sink.new ≡ sink.old }
{
    let mut put = 0;
    while put < text.len() {
        put += sink.put(&text[put..])?;
    }
    Ok(())
}
