//! The theorems, for any code.

ghost use Rattle.std.specs.Prelude.{ℕ, List};
ghost use Rattle.xc_isa.specs.Effects.{Regs};
ghost use Rattle.xc_isa_streams.specs.Parts.{Ask, Act, Parts};
ghost use Rattle.xc_isa_streams.specs.Local.{Own};
ghost use Rattle.xc_isa_streams.specs.Promises.{RunsStand};
ghost use Rattle.xc_isa_streams_protocols.specs.Protocol.{Settles, Keeps, StepsAreCounted};
ghost use Rattle.xc_isa_streams_protocols.specs.Alone.{StreamsAlone, StreamsComeOn};
ghost use Rattle.xc_isa_streams_protocols.specs.Holding.{IsInvariant, Holds};

use xc_isa_streams::Streams;

/// A protocol for the threads of code: what one may ask in each of its states, where each answer leads, where it ends, what its steps
/// between two actions may weigh, and where in the code it then stands. Each position has a weight: 1 counts steps.
pub trait Protocol: Streams {
    ghost State: { Type 0 };

    ghost may: { State → Ask → Type 0 };

    ghost goes: { State → Ask → ℕ → State → Type 0 };

    ghost last: { State → Type 0 };

    ghost weight: { ℕ → ℕ };

    ghost cost: { State → ℕ };

    ghost stood: { State → ℕ → Regs → Own → Type 0 };
}

/// What a thread does alone is what its protocol allows, at no more than its costs, wherever in the code the thread begins.
pub fn protocol_is_kept<P: Protocol>()
    requires { Settles P.may P.goes P.cost P.class_of P.code P.weight P.last P.stood }
    ensures { Keeps P.may P.goes P.cost P.class_of P.code P.weight P.last P.stood }
{}

/// By the weight 1 a thread's steps are counted.
pub fn steps_are_counted<S: Streams>()
    ensures { StepsAreCounted S.class_of S.code }
{}

/// From any stage, one stream alone comes silently to its next action, its end, its trap, or to where it waits for what it asks next;
/// and where its thread can make no more than so many steps by its actions, it does so within them.
pub fn streams_alone<S: Streams>()
    requires { RunsStand S.class_of S.code }
    ensures alone { StreamsAlone S.class_of S.code }
    ensures comes_on { StreamsComeOn S.class_of S.code }
{}

/// A statement of the actions so far and of both parts of the memory.
pub trait Invariant: Streams {
    ghost inv: { List (ℕ × Act) → Parts → Type 0 };
}

/// What each action of a thread keeps, holds after any interleaving.
pub fn invariant_holds<I: Invariant>()
    requires stand { RunsStand I.class_of I.code }
    requires kept { IsInvariant I.class_of I.code I.inv }
    ensures { Holds I.class_of I.code I.inv }
{}
