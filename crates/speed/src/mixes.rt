//! The mixes: lists of calls of one kind each, and one of all kinds. `tools/speed/plain/mixes.rs` makes the same lists.

use calls::Call;
use port::Store;
use std::alloc::{AllocError, Global};

/// How many calls a list has.
pub const CALLS: u32 = 2_048;

/// The words that are read over and over: 512 lines, two to a set.
const HELD_WORDS: u32 = 4_096;

/// A kind of list.
#[derive(Clone, Copy)]
pub enum Mix {
    /// Reads of words that the cache holds.
    Hits,
    /// Reads of lines that it does not hold; each ends the fill of the one before.
    Misses,
    Writes,
    /// Writes of the display unit, and a snoop after each.
    Masters,
    /// Reads of the display unit.
    Settled,
    /// Writes that have settled when the call returns.
    Unposted,
    All,
}

impl Mix {
    /// The mix of that name.
    pub fn named(name: &str) -> Option<Mix> {
        match name {
            "hits" => Some(Mix::Hits),
            "misses" => Some(Mix::Misses),
            "writes" => Some(Mix::Writes),
            "masters" => Some(Mix::Masters),
            "settled" => Some(Mix::Settled),
            "unposted" => Some(Mix::Unposted),
            "all" => Some(Mix::All),
            _ => None,
        }
    }
}

// A number without a pattern for each number.
fn scattered(number: u32) -> u32 {
    let once = number.wrapping_add(1).wrapping_mul(0x9e37_79b1);
    let twice = (once ^ (once >> 15)).wrapping_mul(0x85eb_ca6b);
    twice ^ (twice >> 13)
}

// A place among so many.
fn among(number: u32, places: u32) -> u32 {
    scattered(number).checked_rem(places).unwrap_or(0)
}

// A write to one of so many words, by each kind of lanes in turn.
fn store(number: u32, words: u32) -> Store {
    Store::new(
        among(number, words),
        (number % 3) as u8 + 1,
        (scattered(number) >> 16) as u16,
    )
}

// A word of one of so many lines: of each set in turn, and of lines so far apart that the sets cannot keep them.
fn far(number: u32, lines: u32) -> u32 {
    let line = number.wrapping_mul(769).checked_rem(lines).unwrap_or(0);
    line.wrapping_mul(8).wrapping_add(number % 8)
}

// The calls of all kinds: half of them reads, a lock and a grant in each row of 32, one flush in a list.
fn any_call(number: u32, words: u32) -> Call {
    let held = among(number, HELD_WORDS);
    match number % 32 {
        3 | 7 | 12 | 18 | 25 | 29 => Call::Write(store(number, words)),
        5 | 15 => Call::Advance,
        8 => Call::Lock,
        9 => Call::LockedRead(among(number, words)),
        10 => Call::LockedWrite(store(number, words)),
        11 => Call::Unlock,
        13 => Call::Unposted(store(number, words)),
        20 => Call::Ask,
        21 => Call::MasterRead(among(number, words)),
        22 => Call::MasterWrite(store(number, HELD_WORDS)),
        23 => Call::Snoop(among(number - 1, HELD_WORDS)),
        24 => Call::Give,
        30 => Call::Read(far(number, words / 8)),
        31 if number == 31 => Call::Flush,
        _ => Call::Read(held),
    }
}

// A call of a list that the display unit makes: it asks first, and gives the bus back at the end.
fn granted(number: u32, call: Call) -> Call {
    if number == 0 {
        Call::Ask
    } else if number == CALLS - 1 {
        Call::Give
    } else {
        call
    }
}

// The call of that number in the list, on a board of so many words.
fn call_at(mix: Mix, number: u32, words: u32) -> Call {
    match mix {
        Mix::Hits => Call::Read(among(number, HELD_WORDS)),
        Mix::Misses => Call::Read(far(number, words / 8)),
        Mix::Writes => Call::Write(store(number, words)),
        Mix::Masters if number % 2 == 0 => granted(number, Call::MasterWrite(store(number, words))),
        Mix::Masters => granted(number, Call::Snoop(among(number - 1, words))),
        Mix::Settled => granted(number, Call::MasterRead(among(number, words))),
        Mix::Unposted => Call::Unposted(store(number, words)),
        Mix::All => any_call(number, words),
    }
}

/// The list of a mix, for a board of so many words.
pub fn make_list(alloc: Global, mix: Mix, words: u32) -> Result<Vec<Call>, AllocError> {
    (0..CALLS)
        .map(move |number| call_at(mix, number, words))
        .collect(alloc)
}
