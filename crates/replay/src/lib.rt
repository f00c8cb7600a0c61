//! The incident: the display clears a digit while the cache fills its line. Its calls, and the rows that the processor reads.
#![tactic(auto)]

ghost use Rattle.std.specs.Prelude.{◌≡◌, IfOk, MatchResult};
ghost use Rattle.replay.specs.Rows.{word_at, row_at};
ghost use Rattle.replay.specs.Incident.{incident_calls, RowStands, MadeOnABoard, RowsAreTheAnswers, ReadsTheNewestRow};

use board::run;
use book::Answer;
use calls::Call;
use fault::Fault;
use port::{Port, Store};
use row::BLANK;
use std::alloc::{AllocError, AllocFailed, Global};

mod row;

pub use row::Row;

/// The words of the row, side by side in line 2.
const HUNDREDS: u32 = 16;

const TENS: u32 = 17;

const ONES: u32 = 18;

/// The processor stores 1 9 5 and reads it. Then the line is forgotten, a read begins to fetch it again, an advance
/// fetches one word more, and the display is granted the bus.
const UP_TO_THE_GRANT: [Call; 10] = [
    Call::Unposted(Store {
        word: HUNDREDS,
        lanes: 3,
        value: 1,
    }),
    Call::Unposted(Store {
        word: TENS,
        lanes: 3,
        value: 9,
    }),
    Call::Unposted(Store {
        word: ONES,
        lanes: 3,
        value: 5,
    }),
    Call::Read(HUNDREDS),
    Call::Read(TENS),
    Call::Read(ONES),
    Call::Flush,
    Call::Read(HUNDREDS),
    Call::Advance,
    Call::Ask,
];

/// The display clears the hundreds.
const CLEAR: Call = Call::MasterWrite(Store {
    word: HUNDREDS,
    lanes: 3,
    value: BLANK,
});

/// The display gives the bus back, and the processor reads the whole row.
const FROM_THERE_ON: [Call; 4] = [
    Call::Give,
    Call::Read(HUNDREDS),
    Call::Read(TENS),
    Call::Read(ONES),
];

/// The answers to the first reading of the row begin here.
const FIRST_READING: usize = 3;

/// The answers to the last one begin here, and one later where the display clears the hundreds.
const LAST_READING: usize = 11;

/// The calls, their answers, and the row as it was read before and after the display had the bus. Calls and answers are two lists, as the promise
/// about them speaks of two.
#[derive(Drop)]
pub struct Replayed<P: Port> {
    pub calls: Vec<Call>,
    pub answers: Vec<Result<Answer, Fault>>,
    pub before: Option<Row>,
    pub after: Option<Row>,
    /// The port as the calls left it.
    pub port: P,
}

// The calls of the incident, with the display's clear or without it.
fn make_calls(alloc: Global, clears: bool) -> Result<Vec<Call>, AllocError>
    ensures { IfOk result (λ calls. calls.items ≡ incident_calls clears) }
{
    let mut calls = Vec::new(alloc);
    calls.extend_from_slice(&UP_TO_THE_GRANT)?;
    if clears {
        calls.push(CLEAR)?;
    }
    calls.extend_from_slice(&FROM_THERE_ON)?;
    Ok(calls)
}

// The word that was answered at a place.
fn word_at(answers: &[Result<Answer, Fault>], place: usize) -> Option<u16>
    ensures { result ≡ word_at answers.now place }
{
    match answers.get(place)? {
        Ok(Answer::Word(value)) => Some(*value),
        _ => None,
    }
}

// The row that was answered from a place on.
fn row_at(answers: &[Result<Answer, Fault>], first: usize) -> Option<Row>
    ensures { result ≡ row_at answers.now first }
{
    Some(Row {
        hundreds: word_at(answers, first)?,
        tens: word_at(answers, first + 1)?,
        ones: word_at(answers, first + 2)?,
    })
}

/// Replays the incident on a board over a port, with the display's clear or without it. Where there is no memory no call is made, and the port comes
/// back as it was.
pub fn replay<P: Port>(alloc: Global, port: P, clears: bool) -> Result<Replayed<P>, AllocFailed<P>>
    ensures calls { IfOk result (λ told. told.calls.items ≡ incident_calls clears) }
    ensures made { MatchResult result (λ told. MadeOnABoard P.Port port (incident_calls clears) told.answers.items told.port) (λ failed. failed.value ≡ port) }
    ensures taken { IfOk result (λ told. RowsAreTheAnswers clears told.answers.items told.before told.after) }
    ensures rows { IfOk result (λ told. RowStands (P.state port) → ReadsTheNewestRow clears told.before told.after) }
{
    let Ok(calls) = make_calls(alloc, clears) else {
        return Err(AllocFailed { value: port });
    };
    let outcome = run(alloc, port, &calls)?;
    let answers = outcome.answers;
    let before = row_at(&answers, FIRST_READING);
    let after = row_at(&answers, LAST_READING + usize::from(clears));
    let left = outcome.board.into_port();
    Ok(Replayed {
        calls,
        answers,
        before,
        after,
        port: left,
    })
}
