//! A record of accesses in the order in which they were made.

ghost use Rattle.std.specs.Prelude.{◌≡◌, ◌≢◌, ◌<◌, ◌+◌, ◌↔◌, ℕ, Some, IsTrue, swap, length, slice_get};
ghost use Rattle.xc_commute_histories.specs.History.{of_owner, gathered};
ghost use Rattle.xc_commute.specs.Touch.{On, Conflict, is_read};
ghost use Rattle.xc_commute.specs.Replay.{thread_of, CanSwap, Keeps};

use xc_word::{Access, Kind};

/// An access and the thread that made it.
#[derive(Clone, Copy, Debug, PartialEq, Eq)]
pub struct Event {
    pub thread: u32,
    pub act: Access,
}

/// A read that leaves the state of its cell.
fn reads(kind: Kind) -> bool
    ensures { result ≡ is_read kind }
{
    matches!(kind, Kind::ReadXx | Kind::ReadFf)
}

/// Whether two accesses conflict: they name one cell, and are not both reads that leave its state.
pub fn conflict(a: &Access, b: &Access) -> bool
    ensures { IsTrue result ↔ Conflict (On a.now) (On b.now) }
{
    a.place == b.place && !(reads(a.kind) && reads(b.kind))
}

/// Exchanges events k and k + 1. It takes no memory of the host.
pub fn swap(events: &mut [Event], k: usize)
    requires within { k + 1 < length events.old }
    requires free { (a b : Event)
        → slice_get events.old k ≡ Some a → slice_get events.old (k + 1) ≡ Some b
        → CanSwap a b }
    ensures after { events.new ≡ swap events.old k (k + 1) }
    ensures kept { Keeps (λ run. swap run k (k + 1)) events.old events.new }
{
    events.swap(k, k + 1);
}

/// Moves the events of owner to the front, in their order, and answers how many they are.
fn part(events: &mut [Event], owner: u32) -> usize
    ensures order { events.new ≡ gathered thread_of owner events.old }
    ensures count { result ≡ length (of_owner thread_of owner events.old) }
{
    if events.len() < 2 {
        return if events.len() == 1 && events[0].thread == owner {
            1
        } else {
            0
        };
    }
    let middle = events.len() / 2;
    let first = part(&mut events[..middle], owner);
    let second = part(&mut events[middle..], owner);
    events[first..middle + second].rotate_left(middle - first);
    first + second
}

/// Moves the events of owner to the front, in their order. It takes no memory of the host.
pub fn gather(events: &mut [Event], owner: u32)
    requires { (j k : ℕ) (a b : Event)
        → j < k → slice_get events.old j ≡ Some a → slice_get events.old k ≡ Some b
        → a.thread ≢ owner → b.thread ≡ owner → CanSwap a b }
    ensures after { events.new ≡ gathered thread_of owner events.old }
    ensures kept { Keeps (gathered (λ x. thread_of x.0) owner) events.old events.new }
{
    part(events, owner);
}
