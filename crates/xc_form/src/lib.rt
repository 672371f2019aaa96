//! What a loop does, and the loops that may be planned: unchanging expressions, pure functions, normal form, Concurrent
//! loops.
#![tactic(auto)]

mod change;
mod concurrent;
mod effect;
mod normal;
mod pure;

pub use change::{is_assigned, is_unchanging};
pub use concurrent::is_concurrent;
pub use effect::{Effect, effects_of, effects_of_expr, root_of};
pub use normal::{Header, Step, normal_form};
pub use pure::pure_functions;
pub use xc_tree::NotNormal;
