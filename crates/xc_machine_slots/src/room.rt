//! The slot in which a stream starts.

ghost use Rattle.std.specs.Prelude.{◌≡◌, ◌<◌, ◌≤◌, ◌*◌, ◌^◌, length, map, position, IfSome};
ghost use Rattle.xc_isa.specs.Machine.{live_in as live_in_slots, slots_each, free_slot};
ghost use Rattle.xc_machine_slots.specs.Seats.{slot_of};
ghost use Rattle.xc_machine_slots.specs.Seats.{is_free};
ghost use Rattle.xc_machine_slots.specs.Picks.{less_busy as less_busy_room, IsRoomOf};

use crate::seat::Seat;

/// How many slots a processor may have.
pub(crate) const SLOTS_EACH: usize = 128;

/// The lowest free slot of a processor, and how many streams the processor runs.
#[derive(Clone, Copy)]
struct Room {
    slot: usize,
    live: u32,
}

/// How many streams there are.
fn live_in(seats: &[Seat]) -> u32
    requires { length seats.now < 2 ^ 32 }
    ensures { result ≡ live_in_slots (map slot_of seats.now) }
{
    let mut live = 0;
    for seat in seats {
        if !seat.is_idle() {
            live += 1;
        }
    }
    live
}

fn lowest_free(seats: &[Seat]) -> Option<usize>
    ensures { result ≡ position (λ o. is_free o) seats.now }
{
    seats.iter().position(|seat| seat.is_free())
}

/// What a processor has for a new stream. None: no free slot.
fn room_of(seats: &[Seat], processor: usize) -> Option<Room>
    requires there { slots_each * processor ≤ length seats.now }
    requires few { length seats.now ≤ 8192 }
    ensures { IsRoomOf (map slot_of seats.now) processor result }
{
    let first = processor * SLOTS_EACH;
    let rest = &seats[first..];
    let own = &rest[..rest.len().min(SLOTS_EACH)];
    let Some(free) = lowest_free(own) else {
        return None;
    };
    Some(Room {
        slot: first + free,
        live: live_in(own),
    })
}

/// The room whose processor runs fewer streams, and the former where both run as many.
fn less_busy(best: Option<Room>, other: Option<Room>) -> Option<Room>
    ensures { result ≡ less_busy_room best other }
{
    match (best, other) {
        (Some(best), Some(other)) => Some(if other.live < best.live { other } else { best }),
        (Some(best), None) => Some(best),
        (None, other) => other,
    }
}

/// The lowest free slot of the processor that, of those with a free slot, runs the fewest streams; of these the lowest.
pub fn pick(seats: &[Seat]) -> Option<usize>
    requires { length seats.now ≤ 8192 }
    ensures slot { result ≡ free_slot (map slot_of seats.now) }
    ensures within { IfSome result (λ k. k < length seats.now) }
{
    let mut best: Option<Room> = None;
    for processor in 0..(seats.len() + SLOTS_EACH - 1) / SLOTS_EACH {
        best = less_busy(best, room_of(seats, processor));
    }
    match best {
        Some(room) => Some(room.slot),
        None => None,
    }
}
