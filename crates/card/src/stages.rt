//! The stages of the card, and a list of calls run on them.
ghost use Rattle.std.specs.Prelude.{◌≡◌, ◌<◌, ◌≤◌, length, take, drop, MatchResult};
ghost use Rattle.port.specs.Meaning.{waiting_answer};
ghost use Rattle.directory.specs.Dirs.{valid_ways};
ghost use Rattle.cache_tables.specs.Rules.{model};
ghost use Rattle.cache.specs.Doing.{inspect_answer};
ghost use Rattle.card.specs.Card.{card_floor};
ghost use Rattle.card.specs.Stages.{pile_state, RunOnTheStages};

use board::{Board, NoRoom, room_for, run_in};
use book::Answer;
use cache::{Cache, inspect};
use cache_tables::Tables;
use calls::Call;
use directory::WayState;
use fault::Fault;
use port::Port;
use std::alloc::{AllocFailed, Global};
use write_buffer::{Queue, WriteBuffer};

/// What the stages hold when they are taken off a memory: the writes that wait still, and the tables of the cache.
#[derive(Drop)]
pub struct Remains {
    pub queue: Queue,
    pub tables: Tables,
}

/// The floor of the card's cache, which stands on a buffer, a map and the banks.
const CACHE_FLOOR: u8 = 3;

impl Remains {
    /// What stands in a way of a set, as the card's cache tells it. Both are numbers, since any number is answered.
    pub fn inspect(&self, set: u32, way: u32) -> Result<WayState, Fault>
        ensures { result ≡ inspect_answer (model self.now.tables).dir card_floor set way }
    {
        inspect(&self.tables, CACHE_FLOOR, set, way)
    }

    /// How many ways of the cache are valid.
    pub fn valid_ways(&self) -> u32
        ensures { result ≡ valid_ways (model self.now.tables).dir }
    {
        self.tables.directory.valid_ways()
    }
}

/// A memory after a list of calls was run on the stages over it.
#[derive(Drop)]
pub struct StagesRun<M: Port> {
    pub memory: M,
    pub remains: Remains,
    pub answers: Vec<Result<Answer, Fault>>,
    pub waiting: u32,
}

/// The same, where the answers went into room that the caller lent.
#[derive(Drop)]
pub struct StagesLeft<M: Port> {
    pub memory: M,
    pub remains: Remains,
    pub waiting: u32,
}

// Takes the stages off the memory, with all that they hold.
fn take_off<M: Port>(board: Board<Cache<WriteBuffer<M>>>) -> StagesLeft<M>
    ensures memory { result.memory ≡ board.port.below.below }
    ensures queue { result.remains.queue ≡ board.port.below.queue }
    ensures tables { result.remains.tables ≡ board.port.tables }
    ensures waiting { result.waiting ≡ waiting_answer (pile_state M.Port board.port) }
{
    let waiting = board.waiting();
    let (buffer, tables) = board.into_port().into_parts();
    let (memory, queue) = buffer.into_parts();
    StagesLeft {
        memory,
        remains: Remains { queue, tables },
        waiting,
    }
}

/// Runs calls on a board over a cache over a write buffer over a memory, and hands the memory back. The answers go into the room that the caller lends,
/// one for each call from its start. Where there is less room than there are calls no call is made, and room and memory are as they were.
pub fn run_on_stages_in<M: Port>(
    memory: M,
    calls: &[Call],
    room: &mut [Result<Answer, Fault>],
) -> Result<StagesLeft<M>, NoRoom<M>>
    ensures promise { MatchResult result (λ left. RunOnTheStages M.Port memory calls.now (take (length calls.now) room.new) left.waiting left.remains left.memory) (λ none. none.port ≡ memory) }
    ensures refused { MatchResult result (λ _. length calls.now ≤ length room.old) (λ _. length room.old < length calls.now) }
    ensures beyond { MatchResult result (λ _. drop (length calls.now) room.new ≡ drop (length calls.now) room.old) (λ _. room.new ≡ room.old) }
    ensures size { length room.new ≡ length room.old }
{
    match run_in(Cache::new(WriteBuffer::new(memory)), calls, room) {
        Ok(board) => Ok(take_off(board)),
        Err(none) => Err(NoRoom {
            port: none.port.into_parts().0.into_parts().0,
        }),
    }
}

/// The same, with room of its own for the answers. Where there is no memory for them no call is made, and the memory comes back as it was.
pub fn run_on_stages<M: Port>(
    alloc: Global,
    memory: M,
    calls: &[Call],
) -> Result<StagesRun<M>, AllocFailed<M>>
    ensures { MatchResult result (λ ran. RunOnTheStages M.Port memory calls.now ran.answers.items ran.waiting ran.remains ran.memory) (λ failed. failed.value ≡ memory) }
{
    match room_for(alloc, calls) {
        Ok(room) => Ok(run_into(memory, calls, room)),
        Err(_) => Err(AllocFailed { value: memory }),
    }
}

// The same, where there is just the room for all answers.
fn run_into<M: Port>(memory: M, calls: &[Call], room: Vec<Result<Answer, Fault>>) -> StagesRun<M>
    requires room { length room.items ≡ length calls.now }
    ensures { RunOnTheStages M.Port memory calls.now result.answers.items result.waiting result.remains result.memory }
{
    let mut answers = room;
    match run_on_stages_in(memory, calls, &mut answers) {
        Ok(left) => StagesRun {
            memory: left.memory,
            remains: left.remains,
            answers,
            waiting: left.waiting,
        },
        Err(_) => unreachable!("there is room for every answer"),
    }
}
