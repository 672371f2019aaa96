//! The forms of a schedule's text.

/// How the lines of a schedule name streams.
#[derive(Clone, Copy)]
pub(crate) enum Form {
    /// By their numbers: `schedule 1`.
    Streams,
    /// By a processor and a slot of it: `schedule 2`.
    Slots,
}
