//! A first program of one's own: memory, a pile over it, a list of calls, and what the cache and the write buffer hold after it.
#![tactic(auto)]

use banks::{EpromBank, Line, RamBank};
use board::run;
use cache::Cache;
use calls::Call;
use joined_map::JoinedMap;
use port::{Port, Store};
use printed::Printed;
use std::io;
use write_buffer::WriteBuffer;

// Stages go on here, in a function that is generic over the memory: such a pile proves, whatever it stands on.
fn try_pile<M: Port + Drop>(rt: &HostRuntime, memory: M) -> io::Result<()> {
    let calls = [
        Call::Write(Store::new(2, 3, 0x0950)),
        Call::Read(2),
        Call::Read(40),
        Call::Flush,
        Call::Read(3),
        Call::Write(Store::new(3, 1, 0x0007)),
    ];
    let outcome = run(rt.alloc(), Cache::new(WriteBuffer::new(memory)), &calls)?;
    for (number, (call, answer)) in (1u64..).zip(calls.iter().zip(outcome.answers.iter())) {
        rt.println(Printed::Answered(number, *call, *answer))?;
    }
    let cache = outcome.board.into_port();
    for way in 0..4 {
        if let Ok(state) = cache.inspect(0, way) {
            println!(rt; "set 0 way {way}: {state:?}")?;
        }
    }
    let (buffer, _) = cache.into_parts();
    let (_, mut queue) = buffer.into_parts();
    for _ in 0..queue.waiting() {
        if let Some(write) = queue.pop() {
            println!(rt; "waits: {write:?}")?;
        }
    }
    Ok(())
}

fn main(rt: HostRuntime) -> io::Result<()> {
    let mut lines = vec![in rt.alloc(); Line::ZEROED; 4]?;
    if let Some(line) = lines.first_mut() {
        line.words[3] = 0x1234;
    }
    let image = [0xFF; 32];
    try_pile(
        &rt,
        JoinedMap::new(RamBank::new(&mut lines), EpromBank::new(&image)),
    )
}
