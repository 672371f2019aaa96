//! The streams that are ready.

ghost use Rattle.std.specs.Prelude.{◌≡◌, ◌<◌, ◌≤◌, ◌-◌, ◌*◌, ◌^◌, false, Some, length, replicate, drop, slice_get, slice_set, IfOk, IfSome};
ghost use Rattle.std.specs.List.{slice_index_or};
ghost use Rattle.std.specs.Int.RustNames.{count_ones};
ghost use Rattle.xc_sched.specs.Streams.{streams_from, streams_of, lowest_from};
ghost use Rattle.xc_sched.specs.Bits.{word_flags, flags_of};

use std::alloc::{AllocError, Global};
use std::marker::Model;

/// Which of a number of streams are ready.
///
/// Contracts see a list with a flag for each stream.
#[derive(Drop)]
pub struct Ready {
    words: Vec<u64>,
    streams: u32,
    count: u32,
}

impl Model for Ready {
    ghost use Rattle.std.specs.Prelude.{List, Bool, take};
    ghost use Rattle.xc_sched.specs.Bits.{flags_of, KeepsFlags};

    ghost Value = { List Bool };

    ghost view = { λ r. take r.streams (flags_of r.words.items) };

    ghost invariant = { λ r. KeepsFlags r.streams r.count r.words.items };
}

impl Ready {
    /// None of the streams is ready.
    pub fn new(alloc: Global, streams: u32) -> Result<Ready, AllocError>
        ensures { IfOk result (λ r. r ≡ replicate streams false) }
    {
        let words = vec![in alloc; 0u64; streams.div_ceil(64) as usize]?;
        Ok(Ready {
            words,
            streams,
            count: 0,
        })
    }

    /// Makes a stream ready, or not ready.
    pub fn set(&mut self, s: u32, on: bool)
        requires { s < length self.old }
        ensures { self.new ≡ slice_set self.old s on }
    {
        if is_on(&self.words, s) == on {
            return;
        }
        self.words[s as usize / 64] ^= 1 << (s % 64);
        if on {
            self.count += 1;
        } else {
            self.count -= 1;
        }
    }

    /// How many streams are ready, in constant time.
    pub fn count(&self) -> u32
        ensures { result ≡ length (streams_of self.now) }
    {
        self.count
    }

    /// The ready stream with this place among the ready ones, in ascending order from 0.
    pub fn nth(&self, k: u32) -> Option<u32>
        ensures { result ≡ slice_get (streams_of self.now) k }
    {
        nth_one(&self.words, k)
    }

    /// Whether a stream is ready; false for one that does not exist.
    pub fn has(&self, s: u32) -> bool
        ensures { result ≡ slice_index_or self.now s false }
    {
        s < self.streams && is_on(&self.words, s)
    }

    /// The lowest ready stream that is not below `s`.
    pub(crate) fn lowest_from(&self, s: u32) -> Option<u32>
        ensures lowest { result ≡ lowest_from s (streams_of self.now) }
        ensures below { IfSome result (λ t. t < 2 ^ 32 - 1) }
    {
        lowest_bit_from(&self.words, s)
    }
}

/// Whether bit `s` of the words is set.
fn is_on(words: &[u64], s: u32) -> bool
    requires { s < 64 * length words.now }
    ensures { result ≡ slice_index_or (flags_of words.now) s false }
{
    words[s as usize / 64] >> (s % 64) & 1 == 1
}

/// The place of the set bit that has `k` set bits below it.
fn nth_one(words: &[u64], k: u32) -> Option<u32>
    requires { 64 * length words.now ≤ 2 ^ 32 }
    ensures { result ≡ slice_get (streams_of (flags_of words.now)) k }
{
    let mut left = k;
    for (i, word) in words.iter().enumerate() {
        let ones = word.count_ones();
        if left < ones {
            return Some(64 * i as u32 + nth_in_word(*word, left));
        }
        left -= ones;
    }
    None
}

/// The place of the set bit of a word that has `k` set bits below it.
fn nth_in_word(word: u64, k: u32) -> u32
    requires { k < count_ones word }
    ensures is { slice_get (streams_of (word_flags word)) k ≡ Some result }
    ensures below { result < 64 }
{
    let mut rest = word;
    let mut left = k;
    while left > 0 {
        rest &= rest - 1;
        left -= 1;
    }
    rest.trailing_zeros()
}

/// The place of the lowest set bit that is not below `s`.
fn lowest_bit_from(words: &[u64], s: u32) -> Option<u32>
    requires { 64 * length words.now ≤ 2 ^ 32 }
    ensures { result ≡ lowest_from s (streams_of (flags_of words.now)) }
{
    let first = s as usize / 64;
    if first >= words.len() {
        return None;
    }
    let high = words[first] >> (s % 64);
    if high != 0 {
        return Some(s + high.trailing_zeros());
    }
    lowest_bit_in(words, first + 1)
}

/// The place of the lowest set bit of the words from one on.
fn lowest_bit_in(words: &[u64], first: usize) -> Option<u32>
    requires room { 64 * length words.now ≤ 2 ^ 32 }
    requires within { first ≤ length words.now }
    ensures { result ≡ slice_get (streams_from (64 * first) (flags_of (drop first words.now))) 0 }
{
    for i in first..words.len() {
        if words[i] != 0 {
            return Some(64 * i as u32 + words[i].trailing_zeros());
        }
    }
    None
}
