//! Small programs, and what the definitions of the meaning say of them. The crate has no code.
#![tactic(auto)]

ghost use Rattle.xc_meaning_samples.specs.Samples.{MoreSamples, Samples};
ghost use Rattle.xc_meaning_samples.specs.SerialSamples.{SerialSamples};
ghost use Rattle.xc_meaning_samples.specs.QuietSample.{TwoThreadsAreQuiet};

/// Small programs do what they should, and cost what they should. A program is Quiet in which one thread declares an array while the
/// other one stands in an open loop. Serial runs have their five answers.
pub fn samples()
    ensures runs { Samples }
    ensures more { MoreSamples }
    ensures quiet { TwoThreadsAreQuiet }
    ensures answers { SerialSamples }
{}
