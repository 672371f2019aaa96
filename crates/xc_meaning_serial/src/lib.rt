//! What a serial run of a program answers (`IsAnswer`): its figures, or why it has none. The crate has definitions alone.
#![tactic(auto)]
