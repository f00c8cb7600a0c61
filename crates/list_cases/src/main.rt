//! Tries call lists of every kind, length and fault, and prints what each is read as.
#![tactic(auto)]

use calls::{Reader, Stop, read_list};
use std::alloc::AllocError;
use std::io;

/// A list by its words, with what it tries.
struct Case {
    name: &'static str,
    words: &'static [u32],
}

static CASES: [Case; 46] = [
    Case {
        name: "no word",
        words: &[],
    },
    Case {
        name: "read",
        words: &[0x007f_ffff],
    },
    Case {
        name: "write",
        words: &[0x1180_0002, 0xf000_0950],
    },
    Case {
        name: "unposted",
        words: &[0x2080_0002, 0xf000_ffff],
    },
    Case {
        name: "advance",
        words: &[0x3000_0000],
    },
    Case {
        name: "lock",
        words: &[0x4000_0000],
    },
    Case {
        name: "locked-read",
        words: &[0x5000_0025],
    },
    Case {
        name: "locked-write",
        words: &[0x6100_0001, 0xf000_0001],
    },
    Case {
        name: "unlock",
        words: &[0x7000_0000],
    },
    Case {
        name: "ask",
        words: &[0x8000_0000],
    },
    Case {
        name: "master-read",
        words: &[0x9000_0003],
    },
    Case {
        name: "master-write",
        words: &[0xa1ff_ffff, 0xf000_0000],
    },
    Case {
        name: "give",
        words: &[0xb000_0000],
    },
    Case {
        name: "snoop",
        words: &[0xc000_4200],
    },
    Case {
        name: "flush",
        words: &[0xd000_0000],
    },
    Case {
        name: "lanes 0 are well-formed",
        words: &[0x1000_0002, 0xf000_0950],
    },
    Case {
        name: "kind 14 first",
        words: &[0xe000_0000, 0, 0],
    },
    Case {
        name: "kind 14 middle",
        words: &[0, 0xe000_0000, 0],
    },
    Case {
        name: "kind 14 last",
        words: &[0, 0, 0xe000_0000],
    },
    Case {
        name: "stray data first",
        words: &[0xf000_0000, 0, 0],
    },
    Case {
        name: "stray data middle",
        words: &[0, 0xf000_0000, 0],
    },
    Case {
        name: "stray data last",
        words: &[0, 0, 0xf000_0000],
    },
    Case {
        name: "stray data after data",
        words: &[0x1180_0002, 0xf000_0950, 0xf000_0950],
    },
    Case {
        name: "lanes in a read first",
        words: &[0x0080_0000, 0, 0],
    },
    Case {
        name: "lanes in a read middle",
        words: &[0, 0x0100_0000, 0],
    },
    Case {
        name: "lanes in a read last",
        words: &[0, 0, 0x0180_0000],
    },
    Case {
        name: "bit 25 in a read",
        words: &[0x0200_0000],
    },
    Case {
        name: "bit 27 in a snoop",
        words: &[0xc800_0000],
    },
    Case {
        name: "bit 25 in a write",
        words: &[0x1380_0002, 0xf000_0950],
    },
    Case {
        name: "bit 26 in a master-write",
        words: &[0xa580_0002, 0xf000_0950],
    },
    Case {
        name: "bit 27 in a locked-write",
        words: &[0, 0x6980_0002, 0xf000_0950],
    },
    Case {
        name: "word in an advance first",
        words: &[0x3000_0001, 0, 0],
    },
    Case {
        name: "word in a lock middle",
        words: &[0, 0x4040_0000, 0],
    },
    Case {
        name: "word in an unlock last",
        words: &[0, 0, 0x7000_0001],
    },
    Case {
        name: "word in an ask",
        words: &[0x8000_0001],
    },
    Case {
        name: "lanes in a give",
        words: &[0xb080_0000],
    },
    Case {
        name: "bit 27 in a flush",
        words: &[0xd800_0000],
    },
    Case {
        name: "data missing first",
        words: &[0x1180_0002, 0, 0],
    },
    Case {
        name: "data missing middle",
        words: &[0, 0x2180_0002, 0],
    },
    Case {
        name: "data missing last",
        words: &[0, 0, 0x6180_0002],
    },
    Case {
        name: "data missing before a bad word",
        words: &[0xa180_0002, 0xe000_0000],
    },
    Case {
        name: "bit 16 in data first",
        words: &[0x1180_0002, 0xf001_0950, 0],
    },
    Case {
        name: "bit 27 in data middle",
        words: &[0, 0x1180_0002, 0xf800_0950, 0],
    },
    Case {
        name: "bit 20 in data last",
        words: &[0, 0, 0x1180_0002, 0xf010_0950],
    },
    Case {
        name: "bad call before bad data",
        words: &[0x1380_0002, 0xf001_0950],
    },
    Case {
        name: "the first of two is told",
        words: &[0, 0xf000_0000, 0xe000_0000],
    },
];

// The outcome of a list: its calls, or their number where there are many.
fn print_list(rt: &HostRuntime, name: &str, bytes: &[u8]) -> io::Result<()> {
    match read_list(rt.alloc(), bytes) {
        Ok(calls) => {
            let count = calls.len();
            if count > 4 {
                println!(rt; "{name}: {count} calls")
            } else {
                println!(rt; "{name}: {calls:?}")
            }
        }
        Err(Stop::Refused(fault)) => println!(rt; "{name}: {fault}"),
        Err(Stop::Memory) => Err(AllocError.into()),
    }
}

// The answers of a reader by itself, one after another.
fn print_reader(rt: &HostRuntime, bytes: &[u8], answers: u8) -> io::Result<()> {
    let mut reader = Reader::new(bytes);
    for _ in 0..answers {
        match reader.next_call() {
            Ok(Some(call)) => println!(rt; "reader: {call:?}")?,
            Ok(None) => println!(rt; "reader: the end")?,
            // By parts, since a list has no floor to tell.
            Err(fault) => {
                let refusal = fault.refusal;
                let place = fault.place;
                println!(rt; "reader: refused {refusal} at {place}")?
            }
        }
    }
    Ok(())
}

// A list of that many bytes, all 0 but for the last one.
fn print_long(rt: &HostRuntime, name: &str, length: usize, last: u8) -> io::Result<()> {
    let mut bytes = vec![in rt.alloc(); 0u8; length]?;
    if let Some(byte) = bytes.last_mut() {
        *byte = last;
    }
    print_list(rt, name, &bytes)
}

fn main(rt: HostRuntime) -> io::Result<()> {
    for case in &CASES {
        let mut bytes = Vec::new(rt.alloc());
        for word in case.words {
            bytes.extend_from_slice(&word.to_le_bytes())?;
        }
        print_list(&rt, case.name, &bytes)?;
    }
    print_long(&rt, "3 bytes", 3, 0)?;
    print_long(&rt, "16383 bytes", 16_383, 0)?;
    print_long(&rt, "16384 bytes", 16_384, 0)?;
    print_long(&rt, "16384 bytes, the last word bad", 16_384, 0xe0)?;
    print_long(&rt, "16385 bytes", 16_385, 0)?;
    print_long(&rt, "16388 bytes", 16_388, 0)?;
    print_reader(&rt, &[5, 0, 0, 0, 0, 0, 0, 0xe0, 0, 0, 0, 0], 3)?;
    print_reader(&rt, &[0, 0, 0, 0xd0], 3)?;
    print_reader(&rt, &[0, 0, 0], 2)
}
