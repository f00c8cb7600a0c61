//! Tries banks and maps: their ends, lanes, unreadable words, marks and sizes.
#![tactic(auto)]

use banks::{EpromBank, Line, RamBank, eprom_size, ram_size};
use fault::Fault;
use joined_map::{JoinedMap, map_size};
use port::{Port, Store};
use std::alloc::{AllocError, Global};
use std::io;

// Zeroed RAM of that many lines, with word 37 unreadable.
fn make_ram(alloc: Global, lines: usize) -> Result<Vec<Line>, AllocError> {
    let mut records = vec![in alloc; Line::ZEROED; lines]?;
    if let Some(line) = records.get_mut(37 / 8) {
        line.readable[37 % 8] = false;
    }
    Ok(records)
}

// An image of that many bytes, the last of them 12 and the one before it 34 in hexadecimal.
fn make_eprom(alloc: Global, length: usize) -> Result<Vec<u8>, AllocError> {
    let mut bytes = vec![in alloc; 0u8; length]?;
    if let [.., low, high] = bytes.as_mut_slice() {
        *low = 0x34;
        *high = 0x12;
    }
    Ok(bytes)
}

// Prints what was asked, and then what it gave as `show` prints it, or why it was refused.
fn print_answer<T: Drop, F: FnOnce(T) -> io::Result<()> + Drop>(
    rt: &HostRuntime,
    what: &str,
    answer: Result<T, Fault>,
    show: F,
) -> io::Result<()>
    requires { F.IsAlwaysCallable show }
{
    print!(rt; "  {what}: ")?;
    match answer {
        Ok(value) => show(value),
        Err(fault) => println!(rt; "{fault}"),
    }
}

fn print_word(rt: &HostRuntime, what: &str, answer: Result<u16, Fault>) -> io::Result<()> {
    print_answer(rt, what, answer, |value| println!(rt; "{value:04X}"))
}

fn print_done(rt: &HostRuntime, what: &str, answer: Result<(), Fault>) -> io::Result<()> {
    print_answer(rt, what, answer, |()| println!(rt; "ok"))
}

fn print_marks(
    rt: &HostRuntime,
    what: &str,
    answer: Result<(bool, bool), Fault>,
) -> io::Result<()> {
    print_answer(rt, what, answer, |(cacheable, protect)| {
        println!(rt; "cacheable {cacheable} protected {protect}")
    })
}

fn print_size(rt: &HostRuntime, what: &str, answer: Result<u32, Fault>) -> io::Result<()> {
    print_answer(rt, what, answer, |words| println!(rt; "{words} words"))
}

// Reads and writes about the end and by all lanes.
fn try_words<P: Port>(rt: &HostRuntime, port: &mut P) -> io::Result<()> {
    print_word(rt, "read 16895", port.read(16_895))?;
    print_word(rt, "read 16896", port.read(16_896))?;
    print_word(rt, "read 37", port.read(37))?;
    print_word(rt, "read 8037", port.read(8_037))?;
    print_done(
        rt,
        "write 2 lanes 3 of 1234",
        port.write(Store::new(2, 3, 0x1234)),
    )?;
    print_done(
        rt,
        "write 2 lanes 1 of ABCD",
        port.write(Store::new(2, 1, 0xabcd)),
    )?;
    print_done(rt, "write 2 lanes 0", port.write(Store::new(2, 0, 0)))?;
    print_done(rt, "write 2 lanes 4", port.write(Store::new(2, 4, 0)))?;
    print_done(
        rt,
        "write 16896 lanes 4",
        port.write(Store::new(16_896, 4, 0)),
    )?;
    print_done(
        rt,
        "write 16894 lanes 3 of 5678",
        port.write(Store::new(16_894, 3, 0x5678)),
    )?;
    print_word(rt, "read 2", port.read(2))?;
    print_word(rt, "read 16894", port.read(16_894))
}

// The other calls and questions.
fn try_others<P: Port>(rt: &HostRuntime, port: &mut P) -> io::Result<()> {
    print_word(rt, "settled read 37", port.settled_read(37))?;
    print_word(rt, "settled read 16896", port.settled_read(16_896))?;
    print_done(
        rt,
        "outside write 3 lanes 2 of ABCD",
        port.outside_write(Store::new(3, 2, 0xabcd)),
    )?;
    print_done(
        rt,
        "outside write 16896 lanes 3",
        port.outside_write(Store::new(16_896, 3, 0)),
    )?;
    print_done(
        rt,
        "outside write 3 lanes 4",
        port.outside_write(Store::new(3, 4, 0)),
    )?;
    print_word(rt, "settled read 3", port.settled_read(3))?;
    print_done(rt, "snoop 16895", port.snoop(16_895))?;
    print_done(rt, "snoop 16896", port.snoop(16_896))?;
    print_marks(rt, "marks of 0", port.marks(0))?;
    print_marks(rt, "marks of 2111", port.marks(2_111))?;
    print_marks(rt, "marks of 2112", port.marks(2_112))?;
    port.advance();
    port.flush();
    let waiting = port.waiting();
    println!(rt; "  waiting: {waiting}")
}

fn try_port<P: Port>(rt: &HostRuntime, name: &str, port: &mut P) -> io::Result<()> {
    let words = port.words();
    let floor = port.floor();
    println!(rt; "{name}: {words} words, floor {floor}")?;
    try_words(rt, port)?;
    try_others(rt, port)
}

// The four kinds of port, each with 16,896 words.
fn try_ports(rt: &HostRuntime) -> io::Result<()> {
    let mut lines = make_ram(rt.alloc(), 2_112)?;
    try_port(rt, "RAM bank", &mut RamBank::new(&mut lines))?;
    let image = make_eprom(rt.alloc(), 33_792)?;
    try_port(rt, "EPROM bank", &mut EpromBank::new(&image))?;
    let mut lines = make_ram(rt.alloc(), 2_048)?;
    let image = make_eprom(rt.alloc(), 1_024)?;
    try_port(
        rt,
        "joined map",
        &mut JoinedMap::new(RamBank::new(&mut lines), EpromBank::new(&image)),
    )?;
    let mut low = make_ram(rt.alloc(), 1_000)?;
    let mut middle = make_ram(rt.alloc(), 1_048)?;
    let inner = JoinedMap::new(RamBank::new(&mut low), RamBank::new(&mut middle));
    try_port(
        rt,
        "map of maps",
        &mut JoinedMap::new(inner, EpromBank::new(&image)),
    )
}

// What the size question of a bank or a map answers, and a read of the last word that any port can have.
fn try_size<P: Port>(
    rt: &HostRuntime,
    what: &str,
    size: Result<u32, Fault>,
    port: &mut P,
) -> io::Result<()> {
    print_size(rt, what, size)?;
    print_word(rt, "read 8388607", port.read(8_388_607))
}

// A RAM bank of that many lines.
fn try_ram(rt: &HostRuntime, what: &str, lines: usize) -> io::Result<()> {
    let mut lines = make_ram(rt.alloc(), lines)?;
    let size = ram_size(&lines);
    try_size(rt, what, size, &mut RamBank::new(&mut lines))
}

// An EPROM bank of that many bytes.
fn try_eprom(rt: &HostRuntime, what: &str, length: usize) -> io::Result<()> {
    let image = make_eprom(rt.alloc(), length)?;
    try_size(rt, what, eprom_size(&image), &mut EpromBank::new(&image))
}

// A map of two RAM banks.
fn try_map(rt: &HostRuntime, what: &str, low: usize, high: usize) -> io::Result<()> {
    let mut low = make_ram(rt.alloc(), low)?;
    let mut high = make_ram(rt.alloc(), high)?;
    let low = RamBank::new(&mut low);
    let high = RamBank::new(&mut high);
    let size = map_size(&low, &high);
    try_size(rt, what, size, &mut JoinedMap::new(low, high))
}

fn main(rt: HostRuntime) -> io::Result<()> {
    try_ports(&rt)?;
    println!(rt; "sizes:")?;
    try_ram(&rt, "RAM of no line", 0)?;
    try_ram(&rt, "RAM of 1048577 lines", 1_048_577)?;
    try_ram(&rt, "RAM of 1048576 lines", 1_048_576)?;
    try_eprom(&rt, "EPROM of no byte", 0)?;
    try_eprom(&rt, "EPROM of 17 bytes", 17)?;
    try_eprom(&rt, "EPROM of 16777232 bytes", 16_777_232)?;
    try_eprom(&rt, "EPROM of 16777216 bytes", 16_777_216)?;
    try_map(&rt, "map of nothing", 0, 0)?;
    try_map(&rt, "map of 1048577 lines", 1_048_576, 1)?;
    try_map(&rt, "map of 1048576 lines", 524_288, 524_288)
}
