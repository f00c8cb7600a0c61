//! Tries the bench cards on boards over the card's stages, and prints what comes out.
#![tactic(auto)]

use banks::{EpromBank, Line, RamBank};
use bench::locate;
use board::Board;
use book::Answer;
use cache::Cache;
use calls::Call;
use card::{AnswerText, stock_image, stock_lines};
use fault::Fault;
use joined_map::JoinedMap;
use port::{Port, Store};
use std::io;
use write_buffer::WriteBuffer;

/// Five lines of set 0.
static FIVE_LINES: [u32; 5] = [0, 256, 512, 768, 1_024];

fn print_answer(rt: &HostRuntime, what: &str, answer: Result<Answer, Fault>) -> io::Result<()> {
    let answer = AnswerText(answer);
    println!(rt; "  {what}: {answer}")
}

fn print_way(rt: &HostRuntime, line: u32, way: Option<u32>) -> io::Result<()> {
    match way {
        Some(way) => println!(rt; "  line {line}: way {way}"),
        None => println!(rt; "  line {line}: no way"),
    }
}

// Begins a fill with a read, and lets it go on for some steps.
fn fill_from<P: Port>(board: &mut Board<P>, word: u32, steps: u32) {
    let _ = board.call(Call::Read(word));
    for _ in 0..steps {
        let _ = board.call(Call::Advance);
    }
}

// Lets all writes settle.
fn settle<P: Port>(board: &mut Board<P>) {
    let _ = board.call(Call::Lock);
    let _ = board.call(Call::Unlock);
}

// Whether the cache holds a word after some steps of a fill from another. A write that waits in the buffer shows it: a read
// that is not answered by the cache goes below, and sends the write on.
fn is_held<P: Port>(board: &mut Board<P>, first: u32, steps: u32, word: u32) -> bool {
    let _ = board.call(Call::Flush);
    settle(board);
    fill_from(board, first, steps);
    let _ = board.call(Call::Write(Store::new(0, 3, 0)));
    let _ = board.call(Call::Read(word));
    board.waiting() > 0
}

// The offset in a line that a step of a fill brings: held after the step, and not before it.
fn offset_at_step<P: Port>(board: &mut Board<P>, line: u32, first: u32, step: u32) -> Option<u32> {
    (0..8u32).find(|offset| {
        let word = line.wrapping_mul(8).wrapping_add(*offset);
        let before = step > 0 && is_held(board, first, step - 1, word);
        !before && is_held(board, first, step, word)
    })
}

// The set and the tag of the first valid way.
fn first_valid<P: Port>(cache: &Cache<P>) -> Option<(u32, u32)> {
    (0..256u32)
        .flat_map(|set| (0..4u32).map(move |way| (set, way)))
        .find_map(|(set, way)| match cache.inspect(set, way) {
            Ok(told) if told.valid => Some((set, told.tag)),
            _ => None,
        })
}

// The way that holds a line.
fn way_of<P: Port>(cache: &Cache<P>, line: u32) -> Option<u32> {
    let at = locate(line.wrapping_mul(8));
    (0..4u32).find(|way| {
        cache
            .inspect(at.set, *way)
            .is_ok_and(|told| told.valid && told.tag == at.tag)
    })
}

// Where the cache keeps the line of word 20,003, and at which offset in it a fill from that word begins.
fn try_where<P: Port>(rt: &HostRuntime, board: &mut Board<Cache<P>>) -> io::Result<()> {
    let _ = board.call(Call::Flush);
    fill_from(board, 20_003, 7);
    let Some((set, tag)) = first_valid(board.port()) else {
        return println!(rt; "word 20003: not kept");
    };
    let line = tag.wrapping_mul(256).wrapping_add(set);
    match offset_at_step(board, line, 20_003, 0) {
        Some(offset) => println!(rt;
            "word 20003: line {line}, place {offset}, set {set}, tag {tag}"
        ),
        None => println!(rt; "word 20003: not in line {line}"),
    }
}

// Fills some lines after a flush, and prints the way that each goes into.
fn try_lines<P: Port>(
    rt: &HostRuntime,
    board: &mut Board<Cache<P>>,
    lines: &[u32],
) -> io::Result<()> {
    let _ = board.call(Call::Flush);
    for line in lines {
        fill_from(board, line.wrapping_mul(8), 7);
        print_way(rt, *line, way_of(board.port(), *line))?;
    }
    Ok(())
}

// After four lines of a set a snoop drops line 256, and line 1,024 is filled.
fn try_snoop<P: Port>(rt: &HostRuntime, board: &mut Board<Cache<P>>) -> io::Result<()> {
    println!(rt; "four lines filled after a flush:")?;
    try_lines(rt, board, &FIVE_LINES[..4])?;
    print_answer(rt, "snoop of line 256", board.call(Call::Snoop(256 * 8)))?;
    print_way(rt, 256, way_of(board.port(), 256))?;
    fill_from(board, 1_024 * 8, 7);
    print_way(rt, 1_024, way_of(board.port(), 1_024))
}

// The offsets that a fill from offset 5 of line 2,500 brings, step by step.
fn try_order<P: Port>(rt: &HostRuntime, board: &mut Board<P>) -> io::Result<()> {
    print!(rt; "fill from place 5:")?;
    for step in 0..8u32 {
        match offset_at_step(board, 2_500, 20_005, step) {
            Some(offset) => print!(rt; " {offset}")?,
            None => print!(rt; " none")?,
        }
    }
    println!(rt; "")
}

// The cards of the cache, on a board over a cache over a buffer.
fn try_cache<P: Port + Drop>(rt: &HostRuntime, memory: P) -> io::Result<()> {
    let mut board = Board::new(Cache::new(WriteBuffer::new(memory)));
    try_where(rt, &mut board)?;
    println!(rt; "five lines filled after a flush:")?;
    try_lines(rt, &mut board, &FIVE_LINES)?;
    try_snoop(rt, &mut board)?;
    try_order(rt, &mut board)
}

// Some lanes of ABCD over 1234.
fn try_lanes<P: Port>(
    rt: &HostRuntime,
    board: &mut Board<P>,
    what: &str,
    lanes: u8,
) -> io::Result<()> {
    let _ = board.call(Call::Unposted(Store::new(2, 3, 0x1234)));
    let _ = board.call(Call::Write(Store::new(2, lanes, 0xabcd)));
    print_answer(rt, what, board.call(Call::Read(2)))
}

// Writes a value to a word, and prints how many writes wait then.
fn post<P: Port>(rt: &HostRuntime, board: &mut Board<P>, word: u32, value: u16) -> io::Result<()> {
    let _ = board.call(Call::Write(Store::new(word, 3, value)));
    let waiting = board.waiting();
    println!(rt; "  write {value:04X} to word {word}: {waiting} waiting")
}

// Prints a word as the display unit sees it, which reads settled memory.
fn print_settled<P: Port>(rt: &HostRuntime, board: &mut Board<P>, word: u32) -> io::Result<()> {
    match board.master_cycle(word) {
        Ok(value) => println!(rt; "  settled word {word}: {value:04X}"),
        Err(fault) => print_answer(rt, "settled word", Err(fault)),
    }
}

// Four writes wait, and the fifth sends the first below.
fn try_five_writes<P: Port>(rt: &HostRuntime, board: &mut Board<P>) -> io::Result<()> {
    println!(rt; "five writes:")?;
    settle(board);
    post(rt, board, 8, 1)?;
    post(rt, board, 9, 2)?;
    post(rt, board, 10, 3)?;
    post(rt, board, 11, 4)?;
    print_settled(rt, board, 8)?;
    post(rt, board, 12, 5)?;
    print_settled(rt, board, 8)?;
    print_settled(rt, board, 9)
}

// A write that waits is seen by the processor, and has not settled.
fn try_seen<P: Port>(rt: &HostRuntime, board: &mut Board<P>) -> io::Result<()> {
    println!(rt; "settled and seen:")?;
    settle(board);
    post(rt, board, 16, 9)?;
    print_settled(rt, board, 16)?;
    print_answer(rt, "read of word 16", board.call(Call::Read(16)))
}

// A byte waits over 1111, and then the display unit writes 3333.
fn try_overtaken<P: Port>(rt: &HostRuntime, board: &mut Board<P>) -> io::Result<()> {
    println!(rt; "low byte of 0022 waiting over 1111, then 3333 from the display unit:")?;
    let _ = board.call(Call::Unposted(Store::new(24, 3, 0x1111)));
    let _ = board.call(Call::Write(Store::new(24, 1, 0x0022)));
    let _ = board.call(Call::Ask);
    let _ = board.call(Call::MasterWrite(Store::new(24, 3, 0x3333)));
    let _ = board.call(Call::Give);
    print_answer(rt, "read of word 24", board.call(Call::Read(24)))
}

// The ends of the card's memory, and lanes that there are not.
fn try_ends<P: Port>(rt: &HostRuntime, board: &mut Board<P>) -> io::Result<()> {
    let words = board.words();
    println!(rt; "the card's {words} words:")?;
    print_answer(rt, "read of word 16895", board.call(Call::Read(16_895)))?;
    print_answer(rt, "read of word 16896", board.call(Call::Read(16_896)))?;
    let three = board.call(Call::Write(Store::new(2, 3, 0)));
    print_answer(rt, "write by lanes 3", three)?;
    let none = board.call(Call::Write(Store::new(2, 0, 0)));
    print_answer(rt, "write by lanes 0", none)?;
    let four = board.call(Call::Write(Store::new(2, 4, 0)));
    print_answer(rt, "write by lanes 4", four)
}

// The cards of the write buffer and of lanes, on a board over a cache over a buffer.
fn try_writes<P: Port + Drop>(rt: &HostRuntime, memory: P) -> io::Result<()> {
    let mut board = Board::new(Cache::new(WriteBuffer::new(memory)));
    println!(rt; "ABCD over 1234:")?;
    try_lanes(rt, &mut board, "lanes 1", 1)?;
    try_lanes(rt, &mut board, "lanes 2", 2)?;
    try_five_writes(rt, &mut board)?;
    try_seen(rt, &mut board)?;
    try_overtaken(rt, &mut board)?;
    try_ends(rt, &mut board)
}

fn main(rt: HostRuntime) -> io::Result<()> {
    // Enough RAM for word 20,003, which the card's own memory does not have.
    let mut lines = vec![in rt.alloc(); Line::ZEROED; 4_096]?;
    try_cache(&rt, RamBank::new(&mut lines))?;
    let mut lines = stock_lines(rt.alloc())?;
    let image = stock_image(rt.alloc())?;
    try_writes(
        &rt,
        JoinedMap::new(RamBank::new(&mut lines), EpromBank::new(&image)),
    )
}
