//! The old program's start-up test: the cache is flushed, lines are filled, and the directory is walked through a board.
#![tactic(auto)]

ghost use Rattle.std.specs.Prelude.{◌≡◌, ◌≤◌, [], length, IfOk, MatchResult, map, vec_len, vec_capacity};
ghost use Rattle.directory_walk.specs.Walks.{told_of, EveryWayIsTold, Walked};
ghost use Rattle.directory_walk.specs.StartUp.{fill, start_up_calls, DirectoryTested};

use board::{Board, Outcome, run};
use cache::Cache;
use calls::Call;
use directory::WayState;
use fault::Fault;
use port::Port;
use std::alloc::{AllocError, AllocFailed, Global};

/// What the directory told of the four ways of a set.
#[derive(Drop)]
pub struct SetTold {
    pub set: u32,
    pub ways: [Result<WayState, Fault>; 4],
}

/// What the directory told of some sets, and how many of all its ways are valid.
#[derive(Drop)]
pub struct Walk {
    pub sets: Vec<SetTold>,
    pub valid: u32,
}

// Asks about each way of a set.
fn ask_set<P: Port>(cache: &Cache<P>, set: u32) -> SetTold
    ensures { result ≡ told_of cache.now set }
{
    SetTold {
        set,
        ways: [
            cache.inspect(set, 0),
            cache.inspect(set, 1),
            cache.inspect(set, 2),
            cache.inspect(set, 3),
        ],
    }
}

// Asks about each of some sets, where there is room for all that is told.
fn ask_sets<P: Port>(cache: &Cache<P>, sets: &[u32], room: Vec<SetTold>) -> Vec<SetTold>
    requires empty { (room.items ≡ []) × (vec_len room ≡ 0) }
    requires room { length sets.now ≤ vec_capacity room }
    ensures { result.items ≡ map (told_of cache.now) sets.now }
{
    let mut told = room;
    for set in sets {
        told.push_reserved(ask_set(cache, *set));
    }
    told
}

// Asks about every way of some sets, where there is room for all that is told.
fn walk_into<P: Port>(board: &Board<Cache<P>>, sets: &[u32], room: Vec<SetTold>) -> Walk
    requires empty { (room.items ≡ []) × (vec_len room ≡ 0) }
    requires room { length sets.now ≤ vec_capacity room }
    ensures { Walked board.now.port sets.now result }
{
    let cache = board.port();
    Walk {
        sets: ask_sets(cache, sets, room),
        valid: cache.valid_ways(),
    }
}

/// Asks about every way of some sets, through the board's view of its cache.
pub fn walk_sets<P: Port>(
    alloc: Global,
    board: &Board<Cache<P>>,
    sets: &[u32],
) -> Result<Walk, AllocError>
    ensures walked { IfOk result (λ walk. Walked board.now.port sets.now walk) }
    ensures law { EveryWayIsTold }
{
    let room = Vec::with_capacity(alloc, sets.len())?;
    Ok(walk_into(board, sets, room))
}

// A read begins the fill of a word's line, and each advance brings one of the seven other words.
fn fill(word: u32) -> [Call; 8]
    ensures { result ≡ fill word }
{
    [
        Call::Read(word),
        Call::Advance,
        Call::Advance,
        Call::Advance,
        Call::Advance,
        Call::Advance,
        Call::Advance,
        Call::Advance,
    ]
}

// The calls of the test: the cache is flushed, and the lines of some words are filled one after another.
fn make_calls(alloc: Global, words: &[u32]) -> Result<Vec<Call>, AllocError>
    ensures { IfOk result (λ calls. calls.items ≡ start_up_calls words.now) }
{
    let mut calls = Vec::new(alloc);
    calls.push(Call::Flush)?;
    for word in words {
        calls.extend_from_slice(&fill(*word))?;
    }
    Ok(calls)
}

/// Makes the test on a board over a cache over a port: fills the lines of some words, and walks some sets. Where there is no memory no call is made, and
/// the port comes back as it was.
pub fn test_directory<P: Port>(
    alloc: Global,
    below: P,
    words: &[u32],
    sets: &[u32],
) -> Result<(Outcome<Cache<P>>, Walk), AllocFailed<P>>
    ensures { MatchResult result (λ tested. DirectoryTested P.Port below words.now sets.now tested.0.answers.items tested.0.board.mode tested.0.board.port tested.1) (λ failed. failed.value ≡ below) }
{
    let Ok(calls) = make_calls(alloc, words) else {
        return Err(AllocFailed { value: below });
    };
    let Ok(room) = Vec::with_capacity(alloc, sets.len()) else {
        return Err(AllocFailed { value: below });
    };
    match run(alloc, Cache::new(below), &calls) {
        Ok(outcome) => {
            let walk = walk_into(&outcome.board, sets, room);
            Ok((outcome, walk))
        }
        Err(failed) => Err(AllocFailed {
            value: failed.value.into_parts().0,
        }),
    }
}
