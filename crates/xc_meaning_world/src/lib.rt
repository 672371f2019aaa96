//! What a thread asks of the memory and of the output, and what they answer: the actions of threads, and lists of them that
//! the memory allows. The crate has definitions alone.
#![tactic(auto)]
