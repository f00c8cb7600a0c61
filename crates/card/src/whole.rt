//! A whole list run on the whole card.
ghost use Rattle.std.specs.Prelude.{◌≡◌, length, Ok, MatchResult};
ghost use Rattle.calls.specs.Whole.{Told};
ghost use Rattle.card.specs.Card.{card_size, SizesAddUp, calls_to_run, NeverAnOldDigitOnTheCard};

use super::stages::{Remains, run_on_stages};
use banks::{EpromBank, Line, RamBank, eprom_size, joint_size, ram_size};
use book::Answer;
use calls::{Call, Stop, read_list};
use fault::Fault;
use joined_map::JoinedMap;
use std::alloc::Global;

/// What a list of calls came to. The calls and their answers are two lists, as the promise about them speaks of two.
#[derive(Drop)]
pub struct CardRun<'a> {
    /// The caller's records, with what memory holds now.
    pub lines: &'a mut [Line],
    pub calls: Vec<Call>,
    /// The answer to each call.
    pub answers: Vec<Result<Answer, Fault>>,
    /// How many writes wait in the end.
    pub waiting: u32,
    /// The writes that wait in the end, and the tables of the cache.
    pub remains: Remains,
}

/// No call was run, and the caller's records are as they were.
#[derive(Drop)]
pub struct NotRun<'a> {
    pub lines: &'a mut [Line],
    pub stop: Stop,
}

/// How many words a card of these records and bytes has, or why it cannot be made. Records and bytes are the caller's, and stay two slices.
#[tactic(auto, using(crate::proofs::Sizes::sizes_add_up))]
pub fn card_words(lines: &[Line], image: &[u8]) -> Result<u32, Fault>
    ensures value { result ≡ card_size (length lines.now) (length image.now) }
    ensures law { SizesAddUp }
{
    let ram = ram_size(lines)?;
    let eprom = eprom_size(image)?;
    joint_size(ram, eprom)
}

// The calls of a list that can be run on a card of these records and bytes.
fn calls_to_run(alloc: Global, lines: &[Line], image: &[u8], list: &[u8]) -> Result<Vec<Call>, Stop>
    ensures { MatchResult result (λ calls. calls_to_run list.now lines.now image.now ≡ Ok calls.items) (λ stop. Told stop (calls_to_run list.now lines.now image.now)) }
{
    let calls = read_list(alloc, list)?;
    card_words(lines, image)?;
    Ok(calls)
}

/// Runs a call list on a card of the caller's RAM records and EPROM bytes.
pub fn run_card<'a>(
    alloc: Global,
    lines: &'a mut [Line],
    image: &[u8],
    list: &[u8],
) -> Result<CardRun<'a>, NotRun<'a>>
    ensures calls { MatchResult result (λ run. calls_to_run list.now lines.old image.now ≡ Ok run.calls.items) (λ none. Told none.stop (calls_to_run list.now lines.old image.now)) }
    ensures promise { MatchResult result (λ run. NeverAnOldDigitOnTheCard lines.old image.now run.calls.items run.answers.items run.waiting run.remains run.lines.now) (λ none. none.lines.now ≡ lines.old) }
    ensures caller { MatchResult result (λ run. run.lines.ghost_name ≡ lines.entry.ghost_name) (λ none. none.lines.ghost_name ≡ lines.entry.ghost_name) }
{
    let calls = match calls_to_run(alloc, lines, image, list) {
        Ok(calls) => calls,
        Err(stop) => return Err(NotRun { lines, stop }),
    };
    let memory = JoinedMap::new(RamBank::new(lines), EpromBank::new(image));
    match run_on_stages(alloc, memory, &calls) {
        Ok(ran) => {
            let (ram, _) = ran.memory.into_sides();
            Ok(CardRun {
                lines: ram.into_lines(),
                calls,
                answers: ran.answers,
                waiting: ran.waiting,
                remains: ran.remains,
            })
        }
        Err(failed) => {
            let (ram, _) = failed.value.into_sides();
            Err(NotRun {
                lines: ram.into_lines(),
                stop: Stop::Memory,
            })
        }
    }
}
