//! Tries cache and buffer piled either way, two caches, and no stage: calls that fall between two words of one fill, on two boards side by side.
#![tactic(auto)]

use banks::{Line, RamBank};
use board::compare;
use cache::Cache;
use calls::Call;
use port::{Port, Store};
use printed::AnswerText;
use std::alloc::{AllocError, Global};
use std::io;
use write_buffer::WriteBuffer;

// A line whose words hold 100 and their own number, so that an answer tells which word it came from.
fn make_line(number: u8, cacheable: bool, protect: bool) -> Line {
    let word = 100 + 8 * u16::from(number);
    Line {
        words: [
            word,
            word + 1,
            word + 2,
            word + 3,
            word + 4,
            word + 5,
            word + 6,
            word + 7,
        ],
        cacheable,
        protect,
        readable: [true; 8],
    }
}

// A plain line, an uncacheable one, a protected one, and one whose word 29 is unreadable.
fn make_ram(alloc: Global) -> Result<Vec<Line>, AllocError> {
    let mut unreadable = make_line(3, true, false);
    unreadable.readable[5] = false;
    let lines = vec![in alloc;
        make_line(0, true, false),
        make_line(1, false, false),
        make_line(2, true, true),
        unreadable,
    ]?;
    Ok(lines)
}

// A read begins a fill and an advance fetches one word more; then come the calls between, and reads of the two words
// that were fetched and of two that were not.
fn make_calls(alloc: Global, word: u32, between: &[Call]) -> Result<Vec<Call>, AllocError> {
    let mut calls = Vec::new(alloc);
    calls.extend_from_slice(&[Call::Read(word), Call::Advance])?;
    calls.extend_from_slice(between)?;
    calls.extend_from_slice(&[
        Call::Read(word),
        Call::Read(word ^ 1),
        Call::Read(word ^ 2),
        Call::Read(word ^ 7),
    ])?;
    Ok(calls)
}

// Runs the calls on boards over two ports, and prints the answers side by side.
fn try_pair<P: Port + Drop, Q: Port + Drop>(
    rt: &HostRuntime,
    one: P,
    other: Q,
    calls: &[Call],
) -> io::Result<()> {
    let (first, second) = compare(rt.alloc(), one, other, calls)?;
    let answers = first.answers.iter().zip(second.answers.iter());
    for (number, (call, (one, other))) in (1u64..).zip(calls.iter().zip(answers)) {
        let one = AnswerText(*one);
        let other = AnswerText(*other);
        println!(rt; "{number} {call} {one} and {other}")?;
    }
    Ok(())
}

fn try_orders<P: Port + Drop, Q: Port + Drop>(
    rt: &HostRuntime,
    one: P,
    other: Q,
    calls: &[Call],
) -> io::Result<()> {
    println!(rt; "  a cache over a buffer, and a buffer over a cache:")?;
    try_pair(
        rt,
        Cache::new(WriteBuffer::new(one)),
        WriteBuffer::new(Cache::new(other)),
        calls,
    )
}

fn try_bare<P: Port + Drop, Q: Port + Drop>(
    rt: &HostRuntime,
    one: P,
    other: Q,
    calls: &[Call],
) -> io::Result<()> {
    println!(rt; "  a cache over a cache, and no stage:")?;
    try_pair(rt, Cache::new(Cache::new(one)), other, calls)
}

// Tries calls between two words of the fill that a read of the word begins, on both pairs of piles.
fn try_case(rt: &HostRuntime, title: &str, word: u32, between: &[Call]) -> io::Result<()> {
    let calls = make_calls(rt.alloc(), word, between)?;
    println!(rt; "{title}:")?;
    let mut one = make_ram(rt.alloc())?;
    let mut other = make_ram(rt.alloc())?;
    try_orders(rt, RamBank::new(&mut one), RamBank::new(&mut other), &calls)?;
    let mut one = make_ram(rt.alloc())?;
    let mut other = make_ram(rt.alloc())?;
    try_bare(rt, RamBank::new(&mut one), RamBank::new(&mut other), &calls)
}

fn main(rt: HostRuntime) -> io::Result<()> {
    let writes = [
        Call::Write(Store::new(3, 1, 0x0307)),
        Call::Write(Store::new(5, 3, 900)),
    ];
    try_case(&rt, "writes to the line under fill", 2, &writes)?;
    try_case(&rt, "a snoop of it", 2, &[Call::Snoop(4)])?;
    try_case(&rt, "a flush", 2, &[Call::Flush])?;
    // Two boards may answer differently where the display writes while writes wait. Here none waits, so the book
    // leaves no choice.
    let display = [
        Call::Ask,
        Call::MasterWrite(Store::new(2, 3, 15)),
        Call::Give,
    ];
    try_case(&rt, "a write by the display", 2, &display)?;
    let uncacheable = [
        Call::Read(9),
        Call::Write(Store::new(9, 3, 900)),
        Call::Read(9),
    ];
    try_case(
        &rt,
        "reads and a write of an uncacheable line",
        2,
        &uncacheable,
    )?;
    let protected = [
        Call::Write(Store::new(18, 3, 900)),
        Call::Write(Store::new(16, 3, 900)),
    ];
    try_case(&rt, "writes to a protected line under fill", 18, &protected)?;
    let unreadable = [Call::Write(Store::new(27, 3, 900)), Call::Read(29)];
    try_case(
        &rt,
        "an unreadable word in the line under fill",
        26,
        &unreadable,
    )
}
