//! The fault that this card is built to exclude: the display clears a digit while the cache fills its line.
#![tactic(auto)]

use banks::{Line, RamBank};
use cache::Cache;
use port::Port;
use printed::Printed;
use replay::{Row, replay};
use std::io;
use write_buffer::WriteBuffer;

fn print_row(rt: &HostRuntime, moment: &str, row: Option<Row>) -> io::Result<()> {
    match row {
        Some(row) => println!(rt; "{moment}: [{row}]"),
        None => println!(rt; "{moment}: not read"),
    }
}

// Replays the calls on the card's stages over a memory, and prints each answer and both readings of the row.
fn replay_on<P: Port + Drop>(
    rt: &HostRuntime,
    title: &str,
    memory: P,
    clears: bool,
) -> io::Result<()> {
    let told = replay(rt.alloc(), Cache::new(WriteBuffer::new(memory)), clears)?;
    println!(rt; "{title}")?;
    for (number, (call, answer)) in (1u64..).zip(told.calls.iter().zip(told.answers.iter())) {
        rt.println(Printed::Answered(number, *call, *answer))?;
    }
    print_row(rt, "row before", told.before)?;
    print_row(rt, "row after", told.after)
}

fn main(rt: HostRuntime) -> io::Result<()> {
    let mut lines = vec![in rt.alloc(); Line::ZEROED; 4]?;
    replay_on(
        &rt,
        "the display clears the hundreds between two words of a fill",
        RamBank::new(&mut lines),
        true,
    )?;
    let mut lines = vec![in rt.alloc(); Line::ZEROED; 4]?;
    replay_on(
        &rt,
        "the same calls without the clear",
        RamBank::new(&mut lines),
        false,
    )
}
