//! Whole lists of calls, and the promise that they keep.
ghost use Rattle.std.specs.Prelude.{◌≡◌, ◌<◌, ◌≤◌, length, take, drop, IfOk, MatchResult};
ghost use Rattle.book.specs.Promise.{NeverAnOldDigit, BothKeep, ThePromiseIsNotEmpty};

use super::board::Board;
use book::Answer;
use calls::Call;
use fault::Fault;
use port::Port;
use std::alloc::{AllocError, AllocFailed, Global};

/// A board after a list of calls, and what it answered to each.
#[derive(Drop)]
pub struct Outcome<P: Port> {
    pub board: Board<P>,
    pub answers: Vec<Result<Answer, Fault>>,
}

/// A run that was not begun, since the caller lent less room than there are calls. The port is as it was.
#[derive(Drop)]
pub struct NoRoom<P: Port> {
    pub port: P,
}

/// Makes a board on a port and gives it every call of a list. The answers go into the room that the caller lends, one for each call from its start;
/// what lies past them stays. Where there is less room than there are calls no call is made, and room and port are as they were. No memory is needed.
#[tactic(auto, using(book::proofs::Running::the_promise_is_not_empty))]
pub fn run_in<P: Port>(
    port: P,
    calls: &[Call],
    room: &mut [Result<Answer, Fault>],
) -> Result<Board<P>, NoRoom<P>>
    ensures promise { MatchResult result (λ board. NeverAnOldDigit P.Port port calls.now (take (length calls.now) room.new) board.mode board.port) (λ none. none.port ≡ port) }
    ensures refused { MatchResult result (λ _. length calls.now ≤ length room.old) (λ _. length room.old < length calls.now) }
    ensures beyond { MatchResult result (λ _. drop (length calls.now) room.new ≡ drop (length calls.now) room.old) (λ _. room.new ≡ room.old) }
    ensures size { length room.new ≡ length room.old }
    ensures law { ThePromiseIsNotEmpty }
{
    if room.len() < calls.len() {
        return Err(NoRoom { port });
    }
    let mut board = Board::new(port);
    for i in 0..calls.len() {
        room[i] = board.call(calls[i]);
    }
    Ok(board)
}

/// Makes a board on a port and gives it every call of a list. Where there is no memory for the answers no call is made, and the port comes back as it was.
#[tactic(auto, using(book::proofs::Running::the_promise_is_not_empty))]
pub fn run<P: Port>(alloc: Global, port: P, calls: &[Call]) -> Result<Outcome<P>, AllocFailed<P>>
    ensures promise { MatchResult result (λ run. NeverAnOldDigit P.Port port calls.now run.answers.items run.board.mode run.board.port) (λ failed. failed.value ≡ port) }
    ensures law { ThePromiseIsNotEmpty }
{
    match room_for(alloc, calls) {
        Ok(room) => Ok(run_into(port, calls, room)),
        Err(_) => Err(AllocFailed { value: port }),
    }
}

/// Room for the answers to as many calls.
pub fn room_for(alloc: Global, calls: &[Call]) -> Result<Vec<Result<Answer, Fault>>, AllocError>
    ensures { IfOk result (λ room. length room.items ≡ length calls.now) }
{
    vec![in alloc; Ok(Answer::Done); calls.len()]
}

// Makes the calls, where there is just the room for all their answers.
fn run_into<P: Port>(port: P, calls: &[Call], room: Vec<Result<Answer, Fault>>) -> Outcome<P>
    requires room { length room.items ≡ length calls.now }
    ensures promise { NeverAnOldDigit P.Port port calls.now result.answers.items result.board.mode result.board.port }
{
    let mut answers = room;
    match run_in(port, calls, &mut answers) {
        Ok(board) => Outcome { board, answers },
        Err(_) => unreachable!("there is room for every answer"),
    }
}

/// Gives every call of a list to two boards on ports of any kinds, one after the other. Where there is no memory for the answers no call is made, and
/// both ports come back as they were.
#[tactic(auto, using(book::proofs::Running::the_promise_is_not_empty))]
pub fn compare<P: Port, Q: Port>(
    alloc: Global,
    one: P,
    other: Q,
    calls: &[Call],
) -> Result<(Outcome<P>, Outcome<Q>), AllocFailed<(P, Q)>>
    ensures promise { MatchResult result (λ runs. BothKeep P.Port Q.Port one other calls.now runs.0.answers.items runs.1.answers.items runs.0.board.mode runs.1.board.mode runs.0.board.port runs.1.board.port) (λ failed. (failed.value.0 ≡ one) × (failed.value.1 ≡ other)) }
    ensures law { ThePromiseIsNotEmpty }
{
    let Ok(room) = room_for(alloc, calls) else {
        return Err(AllocFailed {
            value: (one, other),
        });
    };
    let Ok(other_room) = room_for(alloc, calls) else {
        return Err(AllocFailed {
            value: (one, other),
        });
    };
    let first = run_into(one, calls, room);
    let second = run_into(other, calls, other_room);
    Ok((first, second))
}
