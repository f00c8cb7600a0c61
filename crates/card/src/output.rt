//! Everything that is written for a call list.
ghost use Rattle.std.specs.Prelude.{◌≡◌, length, Ok, OnOk, MatchResult};
ghost use Rattle.std.specs.Io.KnownBytes.{Appends};
ghost use Rattle.calls.specs.Whole.{Told};
ghost use Rattle.card.specs.Card.{card_size, calls_to_run, NeverAnOldDigitOnTheCard};
ghost use Rattle.card.specs.Output.{answered_lines, output_of, Wrote};

use super::whole::{CardRun, NotRun, card_words, run_card};
use banks::Line;
use book::Answer;
use calls::{Call, Stop};
use fault::Fault;
use printed::Printed;
use std::alloc::{AllocError, Global};
use std::io;
use std::io::{BufWriter, Write};

// Writes each call with its answer, numbered from 1.
fn write_answers<W: Write>(
    writer: &mut W,
    calls: &[Call],
    answers: &[Result<Answer, Fault>],
) -> io::Result<()>
    ensures { OnOk result (Appends (W.contents writer.old) (W.contents writer.new) (answered_lines 1 calls.now answers.now)) }
{
    for i in 0..calls.len().min(answers.len()) {
        writer.writeln(Printed::Answered(i as u64 + 1, calls[i], answers[i]))?;
    }
    Ok(())
}

// Writes how many words the board has, unless it cannot be made, and then what the list came to.
fn write_outcome<W: Write>(
    writer: &mut W,
    words: Result<u32, Fault>,
    outcome: &Result<CardRun, NotRun>,
) -> io::Result<()>
    ensures { Wrote (output_of words outcome.now) result (W.contents writer.old) (λ _. W.contents writer.new) }
{
    if let Ok(words) = words {
        writer.writeln(Printed::Words(words))?;
    }
    match outcome {
        Ok(run) => {
            write_answers(writer, &run.calls, &run.answers)?;
            writer.writeln(Printed::Waiting(run.waiting))
        }
        Err(none) => match none.stop {
            Stop::Refused(fault) => writer.writeln(Printed::Refused(fault)),
            Stop::Memory => Err(AllocError.into()),
        },
    }
}

// The same through a buffer, of which nothing is left when the writer comes back.
fn write_buffered<W: Write + Drop>(
    alloc: Global,
    writer: W,
    words: Result<u32, Fault>,
    outcome: &Result<CardRun, NotRun>,
) -> io::Result<W>
    ensures { Wrote (output_of words outcome.now) result (W.contents writer) W.contents }
{
    let mut buffer = BufWriter::new(alloc, writer)?;
    write_outcome(&mut buffer, words, outcome)?;
    Ok(buffer.into_inner()?)
}

/// Runs a call list on a card of the caller's RAM records and EPROM bytes, and writes what it came to: how many words the board has; each call with
/// its answer, numbered from 1; how many writes wait. A list or a card that is refused is written as a line of its own. The writer comes back with all
/// of it.
pub fn print_card<'a, W: Write + Drop>(
    alloc: Global,
    writer: W,
    lines: &'a mut [Line],
    image: &[u8],
    list: &[u8],
) -> (Result<CardRun<'a>, NotRun<'a>>, io::Result<W>)
    ensures calls { MatchResult result.0 (λ run. calls_to_run list.now lines.old image.now ≡ Ok run.calls.items) (λ none. Told none.stop (calls_to_run list.now lines.old image.now)) }
    ensures promise { MatchResult result.0 (λ run. NeverAnOldDigitOnTheCard lines.old image.now run.calls.items run.answers.items run.waiting run.remains run.lines.now) (λ none. none.lines.now ≡ lines.old) }
    ensures caller { MatchResult result.0 (λ run. run.lines.ghost_name ≡ lines.entry.ghost_name) (λ none. none.lines.ghost_name ≡ lines.entry.ghost_name) }
    ensures output { Wrote (output_of (card_size (length lines.old) (length image.now)) result.0) result.1 (W.contents writer) W.contents }
{
    let words = card_words(lines, image);
    let outcome = run_card(alloc, lines, image, list);
    let written = write_buffered(alloc, writer, words, &outcome);
    (outcome, written)
}
