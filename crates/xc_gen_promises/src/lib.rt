//! What is promised of the code of a program (`Faithful`, `NoStuck`, `Ends`). The crate has definitions alone.
#![tactic(auto)]
