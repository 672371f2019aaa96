//! What expressions, specifiers, structs and declarators without faults give.
#![tactic(auto)]
