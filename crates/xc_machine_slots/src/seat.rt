//! Seats: what a machine has under each number of a slot.

ghost use Rattle.std.specs.Prelude.{◌≡◌, ◌≤◌, ◌+◌, ◌-◌, ◌*◌, ◌++◌, length, map, replicate, OnOk, IfOk};
ghost use Rattle.xc_isa.specs.Machine.{slots_each, free_slots};
ghost use Rattle.xc_machine_slots.specs.Seats.{slot_of, is_free as is_free_seat, is_idle as is_idle_seat};

use crate::room::SLOTS_EACH;
use crate::stream::Stream;
use std::alloc::{AllocError, Global};

/// What there is under a number.
#[derive(Clone, Copy)]
pub enum Seat {
    /// No slot.
    Absent,
    /// A slot without a stream.
    Free,
    /// A slot with a stream.
    Taken(Stream),
}

impl Seat {
    /// Whether a stream may start here.
    pub fn is_free(&self) -> bool
        ensures { result ≡ is_free_seat self.now }
    {
        match self {
            Seat::Free => true,
            Seat::Absent | Seat::Taken(_) => false,
        }
    }

    /// Whether there is no stream.
    pub fn is_idle(&self) -> bool
        ensures { result ≡ is_idle_seat self.now }
    {
        match self {
            Seat::Absent | Seat::Free => true,
            Seat::Taken(_) => false,
        }
    }
}

/// Appends so many equal seats.
fn push_seats(seats: &mut Vec<Seat>, seat: Seat, count: u32) -> Result<(), AllocError>
    ensures { OnOk result (seats.new.items ≡ seats.old.items ++ replicate count seat) }
{
    for _ in 0..count {
        seats.push(seat)?;
    }
    Ok(())
}

/// Processors of so many free slots each.
pub fn free_seats(alloc: Global, processors: u32, streams: u32) -> Result<Vec<Seat>, AllocError>
    requires some { 1 ≤ processors }
    requires few { streams ≤ slots_each }
    ensures seats { IfOk result (λ seats. map slot_of seats.items ≡ free_slots processors streams) }
    ensures count { IfOk result (λ seats. length seats.items ≡ 128 * (processors - 1) + streams) }
{
    let mut seats = Vec::new(alloc);
    push_seats(&mut seats, Seat::Free, streams)?;
    for _ in 1..processors {
        push_seats(&mut seats, Seat::Absent, SLOTS_EACH as u32 - streams)?;
        push_seats(&mut seats, Seat::Free, streams)?;
    }
    Ok(seats)
}
