//! Tests the cache directory as the old program did when it started: flushes, fills some lines, and reads back what stands in the ways.
#![tactic(auto)]

use banks::{EpromBank, RamBank};
use card::{stock_image, stock_lines};
use directory::WayState;
use directory_walk::{SetTold, test_directory};
use fault::Fault;
use joined_map::JoinedMap;
use port::Port;
use std::io;
use write_buffer::WriteBuffer;

/// The first words of the lines that are filled; from line 2,048 on they are EPROM. Five of set 5, of which the last replaces the first,
/// two of set 7, and two that cannot be kept: line 4 with an unreadable word, and line 2,047, which may not be cached.
static FILLED: [u32; 9] = [
    5 * 8,
    261 * 8,
    517 * 8,
    773 * 8,
    2_053 * 8,
    7 * 8,
    2_055 * 8,
    4 * 8,
    2_047 * 8,
];

/// The sets that are walked: two with filled lines, three with none, and one past the end.
static WALKED: [u32; 6] = [5, 7, 4, 6, 255, 256];

fn print_way(
    rt: &HostRuntime,
    set: u32,
    way: u32,
    told: &Result<WayState, Fault>,
) -> io::Result<()> {
    match told {
        Ok(told) => {
            // Flags are printed as 0 and 1, as the old program reads them.
            let valid = told.valid as u8;
            let protect = told.protect as u8;
            let tag = told.tag;
            let m0 = told.lru.m0 as u8;
            let m1 = told.lru.m1 as u8;
            let m2 = told.lru.m2 as u8;
            println!(rt;
                "set {set} way {way}: valid {valid} protect {protect} tag {tag} marks {m0}{m1}{m2}"
            )
        }
        Err(fault) => println!(rt; "set {set} way {way}: {fault}"),
    }
}

fn print_set(rt: &HostRuntime, told: &SetTold) -> io::Result<()> {
    for (way, answer) in (0u32..).zip(told.ways.iter()) {
        print_way(rt, told.set, way, answer)?;
    }
    Ok(())
}

// Tests the directory of a cache over the memory, and prints what was refused and what stands in the ways.
fn print_test<P: Port + Drop>(rt: &HostRuntime, memory: P) -> io::Result<()> {
    let (outcome, found) = test_directory(rt.alloc(), WriteBuffer::new(memory), &FILLED, &WALKED)?;
    for (number, answer) in (1u32..).zip(outcome.answers.iter()) {
        if let Err(fault) = answer {
            println!(rt; "call {number}: {fault}")?;
        }
    }
    for told in found.sets.iter() {
        print_set(rt, told)?;
    }
    print_way(rt, 5, 4, &outcome.board.port().inspect(5, 4))?;
    let valid = found.valid;
    println!(rt; "valid ways {valid}")
}

fn main(rt: HostRuntime) -> io::Result<()> {
    let mut lines = stock_lines(rt.alloc())?;
    let image = stock_image(rt.alloc())?;
    let memory = JoinedMap::new(RamBank::new(&mut lines), EpromBank::new(&image));
    print_test(&rt, memory)
}
