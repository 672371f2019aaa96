//! What statements are made of (C99 6.7 and 6.8): declarations, the pragmas before a loop, the places and copies of `future`
//! statements, what a `return` gives, and how each is put together. Each call that allocates answers `AllocError` for want of
//! memory alone; what it changes is then as it may be.
#![tactic(auto)]

mod answer;
mod declarations;
mod futures;
mod make;
mod pragmas;

pub use answer::{Answer, returned, returned_none};
pub use declarations::{declaration, declare};
pub use futures::{Copied, awaited, captured, declared_copies};
pub use make::{
    Header, block_made, eval_made, followed, future_made, headed, if_made, loop_made, one, single,
    test_alone,
};
pub use pragmas::{Begun, begin_loop};
