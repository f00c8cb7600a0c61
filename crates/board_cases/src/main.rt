//! Tries the board and the write buffer: every kind of call, two boards alike, buffers over buffers.
#![tactic(auto)]

use banks::{Line, RamBank};
use board::{compare, run};
use calls::Call;
use joined_map::JoinedMap;
use port::{Port, Store};
use printed::{AnswerText, Printed};
use std::alloc::{AllocError, Global};
use std::io;
use write_buffer::WriteBuffer;

/// Every kind of call, most of them taken and refused, on 128 words of which word 37 is unreadable.
static EVERY_KIND: [Call; 40] = [
    Call::Read(2),
    Call::Write(Store {
        word: 2,
        lanes: 3,
        value: 9,
    }),
    Call::Write(Store {
        word: 2,
        lanes: 1,
        value: 0xabcd,
    }),
    Call::Read(2),
    Call::Write(Store {
        word: 128,
        lanes: 0,
        value: 0,
    }),
    Call::Write(Store {
        word: 127,
        lanes: 0,
        value: 0,
    }),
    Call::Unposted(Store {
        word: 127,
        lanes: 2,
        value: 0x1234,
    }),
    Call::Unposted(Store {
        word: 127,
        lanes: 4,
        value: 0,
    }),
    Call::Read(127),
    Call::Read(128),
    Call::Read(37),
    Call::Advance,
    Call::Unlock,
    Call::LockedRead(2),
    Call::LockedWrite(Store {
        word: 2,
        lanes: 3,
        value: 0,
    }),
    Call::Write(Store {
        word: 3,
        lanes: 3,
        value: 5,
    }),
    Call::Lock,
    Call::Lock,
    Call::Ask,
    Call::Read(3),
    Call::Read(999),
    Call::Unposted(Store {
        word: 3,
        lanes: 3,
        value: 6,
    }),
    Call::LockedRead(3),
    Call::LockedWrite(Store {
        word: 3,
        lanes: 2,
        value: 0x0700,
    }),
    Call::LockedRead(3),
    Call::LockedRead(37),
    Call::Advance,
    Call::Snoop(3),
    Call::Flush,
    Call::MasterRead(3),
    Call::Unlock,
    Call::Give,
    Call::Ask,
    Call::Lock,
    Call::Ask,
    Call::Write(Store {
        word: 4,
        lanes: 3,
        value: 1,
    }),
    Call::MasterRead(3),
    Call::Snoop(128),
    Call::Give,
    Call::MasterWrite(Store {
        word: 3,
        lanes: 3,
        value: 0,
    }),
];

/// The display's writes, past the waiting line.
static MASTER_WRITES: [Call; 9] = [
    Call::Unposted(Store {
        word: 5,
        lanes: 3,
        value: 0x1111,
    }),
    Call::Write(Store {
        word: 5,
        lanes: 1,
        value: 0x0022,
    }),
    Call::Ask,
    Call::MasterRead(5),
    Call::MasterWrite(Store {
        word: 5,
        lanes: 3,
        value: 0x3333,
    }),
    Call::MasterRead(5),
    Call::Read(5),
    Call::MasterWrite(Store {
        word: 128,
        lanes: 0,
        value: 0,
    }),
    Call::Give,
];

/// A settled word, and the word that the processor sees.
static SETTLED_AND_SEEN: [Call; 5] = [
    Call::Write(Store {
        word: 2,
        lanes: 3,
        value: 9,
    }),
    Call::Ask,
    Call::MasterRead(2),
    Call::Read(2),
    Call::MasterRead(2),
];

/// Four writes wait, and the fifth sends the first of them below.
static FIVE_WRITES: [Call; 10] = [
    Call::Ask,
    Call::Write(Store {
        word: 0,
        lanes: 3,
        value: 1,
    }),
    Call::Write(Store {
        word: 1,
        lanes: 3,
        value: 2,
    }),
    Call::Write(Store {
        word: 2,
        lanes: 3,
        value: 3,
    }),
    Call::Write(Store {
        word: 3,
        lanes: 3,
        value: 4,
    }),
    Call::MasterRead(0),
    Call::Write(Store {
        word: 4,
        lanes: 3,
        value: 5,
    }),
    Call::MasterRead(0),
    Call::MasterRead(1),
    Call::Give,
];

// Zeroed RAM of that many lines, with word 37 unreadable.
fn make_ram(alloc: Global, lines: usize) -> Result<Vec<Line>, AllocError> {
    let mut records = vec![in alloc; Line::ZEROED; lines]?;
    if let Some(line) = records.get_mut(37 / 8) {
        line.readable[37 % 8] = false;
    }
    Ok(records)
}

// Runs a list on a board over the port, and prints each answer.
fn try_list<P: Port + Drop>(
    rt: &HostRuntime,
    title: &str,
    port: P,
    calls: &[Call],
) -> io::Result<()> {
    let outcome = run(rt.alloc(), port, calls)?;
    let floor = outcome.board.floor();
    println!(rt; "{title}: board on floor {floor}")?;
    for (number, (call, answer)) in (1u64..).zip(calls.iter().zip(outcome.answers.iter())) {
        rt.println(Printed::Answered(number, *call, *answer))?;
    }
    let waiting = outcome.board.waiting();
    println!(rt; "  waiting {waiting}")
}

// Runs a list on two boards over ports of different kinds, and prints the answers side by side.
fn try_pair<P: Port + Drop, Q: Port + Drop>(
    rt: &HostRuntime,
    title: &str,
    one: P,
    other: Q,
    calls: &[Call],
) -> io::Result<()> {
    let (first, second) = compare(rt.alloc(), one, other, calls)?;
    println!(rt; "{title}:")?;
    let answers = first.answers.iter().zip(second.answers.iter());
    for (number, (call, (one, other))) in (1u64..).zip(calls.iter().zip(answers)) {
        let one = AnswerText(*one);
        let other = AnswerText(*other);
        println!(rt; "{number} {call} {one} and {other}")?;
    }
    Ok(())
}

// Runs a list over a buffer on the port.
fn try_buffer<P: Port + Drop>(
    rt: &HostRuntime,
    title: &str,
    port: P,
    calls: &[Call],
) -> io::Result<()> {
    try_list(rt, title, WriteBuffer::new(port), calls)
}

// Two banks of eight lines as one map.
fn try_halves(rt: &HostRuntime, title: &str, calls: &[Call]) -> io::Result<()> {
    let mut low = make_ram(rt.alloc(), 8)?;
    let mut high = vec![in rt.alloc(); Line::ZEROED; 8]?;
    let map = JoinedMap::new(RamBank::new(&mut low), RamBank::new(&mut high));
    try_stacked(rt, title, map, calls)
}

// Runs a list over a buffer on a buffer on the port.
fn try_stacked<P: Port + Drop>(
    rt: &HostRuntime,
    title: &str,
    port: P,
    calls: &[Call],
) -> io::Result<()> {
    try_buffer(rt, title, WriteBuffer::new(port), calls)
}

fn main(rt: HostRuntime) -> io::Result<()> {
    let mut whole = make_ram(rt.alloc(), 16)?;
    let mut low = make_ram(rt.alloc(), 8)?;
    let mut high = vec![in rt.alloc(); Line::ZEROED; 8]?;
    let map = JoinedMap::new(RamBank::new(&mut low), RamBank::new(&mut high));
    try_pair(
        &rt,
        "a RAM bank and a map of two halves",
        RamBank::new(&mut whole),
        map,
        &EVERY_KIND,
    )?;
    let mut lines = make_ram(rt.alloc(), 16)?;
    try_buffer(
        &rt,
        "display over a buffer",
        RamBank::new(&mut lines),
        &MASTER_WRITES,
    )?;
    let mut lines = make_ram(rt.alloc(), 16)?;
    try_buffer(
        &rt,
        "settled and seen",
        RamBank::new(&mut lines),
        &SETTLED_AND_SEEN,
    )?;
    let mut lines = make_ram(rt.alloc(), 16)?;
    try_buffer(&rt, "five writes", RamBank::new(&mut lines), &FIVE_WRITES)?;
    try_halves(&rt, "buffer over buffer over map", &FIVE_WRITES)?;
    try_halves(&rt, "every kind over buffers", &EVERY_KIND)
}
