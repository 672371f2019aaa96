//! Tests of the tagged memory, of schedules, of instructions and assembly, and of the code that is generated.
#![tactic(auto)]

#[cfg(test)]
mod codes;
#[cfg(test)]
mod memory;
#[cfg(test)]
mod schedules;
#[cfg(test)]
mod texts;
