//! Reads a call list from standard input, runs it on the card, and prints what it came to.
#![tactic(auto)]

use card::{print_card, read_input, stock_image, stock_lines};
use clap::Command;
use clap::error::ErrorKind;
use std::alloc::AllocError;
use std::env::{Env, FillError};
use std::process::ExitCode;

const ABOUT: &str =
    "Runs a call list on a model of the card's memory, and prints each call with its answer.";

const READS: &str =
    "The list is read from standard input: 32-bit list words, the low byte first, 16,384 bytes at most.
docs/FORMATS.md says how a list is written and what is printed, docs/REFUSALS.md what each number means.";

/// The bytes of the longest argument that is read, and what stands for a longer one. The program knows none that is nearly so long.
const ARGUMENT_BYTES: usize = 4_096;

const LONGER: &[u8] = b"(over 4,096 bytes)";

// The arguments, without the program's own name: the name need not be text. In an argument, what is no text is read as U+FFFD.
fn arguments(rt: &HostRuntime) -> Result<Vec<String>, AllocError> {
    let alloc = rt.alloc();
    let mut words = Vec::new(alloc);
    let mut bytes = [0; ARGUMENT_BYTES];
    for number in 1..usize::MAX {
        let word: &[u8] = match rt.arg(number, &mut bytes) {
            Ok(length) => &bytes[..length],
            Err(FillError::TooLong) => LONGER,
            Err(FillError::NotPresent) => break,
        };
        words.push(String::from_utf8_lossy(alloc, word)?)?;
    }
    Ok(words)
}

// Answers a request for help or an unknown argument, and tells the status with which the program ends; where there is neither, the list is run.
// Where memory fails, the library's own status is 2, as for an unknown argument, so the kind of its error is asked first.
fn answer_arguments(rt: &HostRuntime) -> anyhow::Result<Option<ExitCode>> {
    let words = arguments(rt)?;
    if words.is_empty() {
        return Ok(None);
    }
    let command = Command::new(rt.alloc(), "headcard")
        .about(ABOUT)
        .after_help(READS)
        .no_binary_name(true)
        .bin_name("headcard")?;
    let Err(told) = command.try_get_matches_from(words.as_slice()) else {
        return Ok(None);
    };
    if told.kind() == ErrorKind::OutOfMemory {
        return Err(AllocError.into());
    }
    told.print(rt)?;
    Ok(Some(ExitCode::from(told.exit_code() as u8)))
}

// Runs the list on the card. Kept apart from `main`: after the reading of arguments there, the compiler moved the cache's tables, 30 KB, a dozen
// times, and kept a place on the stack for each.
#[inline(never)]
fn run_list(rt: &HostRuntime) -> anyhow::Result<()> {
    let alloc = rt.alloc();
    let list = read_input(alloc, rt.stdin())?;
    let mut lines = stock_lines(alloc)?;
    let image = stock_image(alloc)?;
    let (_, written) = print_card(alloc, rt.stdout(), &mut lines, &image, &list);
    written?;
    Ok(())
}

fn main(rt: HostRuntime) -> anyhow::Result<ExitCode> {
    if let Some(status) = answer_arguments(&rt)? {
        return Ok(status);
    }
    run_list(&rt)?;
    Ok(ExitCode::SUCCESS)
}
