//! Gives a board each mix of calls so many times, and prints the sum of its answers. `tools/speed/run` times it beside a plain model.
#![tactic(auto)]

mod mixes;

use banks::{EpromBank, Line, RamBank};
use board::Board;
use book::Answer;
use cache::Cache;
use calls::Call;
use fault::Fault;
use joined_map::JoinedMap;
use mixes::{Mix, make_list};
use port::Port;
use std::alloc::Global;
use std::{env, io};
use write_buffer::WriteBuffer;

/// The bytes of EPROM, in 64 lines.
const EPROM_BYTES: usize = 1_024;

// An answer as a number.
fn told(answer: Result<Answer, Fault>) -> u32 {
    match answer {
        Ok(Answer::Done) => 1,
        Ok(Answer::Word(value)) => u32::from(value),
        Err(fault) => {
            let number = u32::from(u8::from(fault.refusal));
            fault.place ^ (number << 24) ^ (u32::from(fault.floor) << 16)
        }
    }
}

// The sum of the answers to a list that is given so many times.
fn give<P: Port>(board: &mut Board<P>, list: &[Call], rounds: u32) -> u32 {
    let mut sum = 0u32;
    for _ in 0..rounds {
        for call in list {
            sum = sum.wrapping_mul(31).wrapping_add(told(board.call(*call)));
        }
    }
    sum
}

// The same on a board over this port, once words are written and lines held, with what waits and what is read in the end.
fn run_on<P: Port + Drop>(alloc: Global, port: P, mix: Mix, rounds: u32) -> io::Result<u32> {
    let mut board = Board::new(port);
    let words = board.words();
    let writes = make_list(alloc, Mix::Writes, words)?;
    let reads = make_list(alloc, Mix::Hits, words)?;
    let list = make_list(alloc, mix, words)?;
    give(&mut board, &writes, 1);
    give(&mut board, &reads, 1);
    let sum = give(&mut board, &list, rounds).wrapping_add(board.waiting());
    Ok(sum.wrapping_add(give(&mut board, &reads, 1)))
}

// Two stages more over a memory, and so on up to twelve. A function for each height, since each is a type of its own.
fn two_more<M: Port>(memory: M) -> Cache<WriteBuffer<M>> {
    Cache::new(WriteBuffer::new(memory))
}

fn run_on_2<M: Port + Drop>(alloc: Global, memory: M, mix: Mix, rounds: u32) -> io::Result<u32> {
    run_on(alloc, two_more(memory), mix, rounds)
}

fn run_on_4<M: Port + Drop>(alloc: Global, memory: M, mix: Mix, rounds: u32) -> io::Result<u32> {
    run_on_2(alloc, two_more(memory), mix, rounds)
}

fn run_on_6<M: Port + Drop>(alloc: Global, memory: M, mix: Mix, rounds: u32) -> io::Result<u32> {
    run_on_4(alloc, two_more(memory), mix, rounds)
}

fn run_on_8<M: Port + Drop>(alloc: Global, memory: M, mix: Mix, rounds: u32) -> io::Result<u32> {
    run_on_6(alloc, two_more(memory), mix, rounds)
}

fn run_on_10<M: Port + Drop>(alloc: Global, memory: M, mix: Mix, rounds: u32) -> io::Result<u32> {
    run_on_8(alloc, two_more(memory), mix, rounds)
}

fn run_on_12<M: Port + Drop>(alloc: Global, memory: M, mix: Mix, rounds: u32) -> io::Result<u32> {
    run_on_10(alloc, two_more(memory), mix, rounds)
}

// Runs a mix on a board over that many stages, where they are even and at most twelve.
fn run_over<M: Port + Drop>(
    alloc: Global,
    memory: M,
    stages: u32,
    mix: Mix,
    rounds: u32,
) -> io::Result<u32> {
    match stages {
        0 => run_on(alloc, memory, mix, rounds),
        4 => run_on_4(alloc, memory, mix, rounds),
        6 => run_on_6(alloc, memory, mix, rounds),
        8 => run_on_8(alloc, memory, mix, rounds),
        10 => run_on_10(alloc, memory, mix, rounds),
        12 => run_on_12(alloc, memory, mix, rounds),
        _ => run_on_2(alloc, memory, mix, rounds),
    }
}

// Runs a mix on a card of that many lines of RAM.
fn run_mix(alloc: Global, lines: usize, stages: u32, mix: Mix, rounds: u32) -> io::Result<u32> {
    let mut ram = vec![in alloc; Line::ZEROED; lines]?;
    let eprom = vec![in alloc; 0x5au8; EPROM_BYTES]?;
    let memory = JoinedMap::new(RamBank::new(&mut ram), EpromBank::new(&eprom));
    run_over(alloc, memory, stages, mix, rounds)
}

// The number that an argument says, or 0.
fn number(argument: Option<String>) -> u32 {
    argument
        .and_then(|text| text.parse::<u32>().ok())
        .unwrap_or(0)
}

// speed LINES STAGES ROUNDS MIX..
fn main(rt: HostRuntime) -> io::Result<()> {
    let mut arguments = env::args(&rt)?;
    arguments.next();
    let lines = number(arguments.next());
    let stages = number(arguments.next());
    let rounds = number(arguments.next());
    for name in arguments {
        match Mix::named(&name) {
            None => println!(rt; "{name} is no mix")?,
            Some(mix) => {
                let sum = run_mix(rt.alloc(), lines as usize, stages, mix, rounds)?;
                println!(rt; "{name} {sum:08X}")?;
            }
        }
    }
    Ok(())
}
