//! The board: a port behind a lock and a grant, and the promise that it never shows an old digit.
#![tactic(auto)]

mod board;
mod whole;

pub use board::{Board, Grant, Lock};
pub use book::{Answer, Mode};
pub use whole::{NoRoom, Outcome, compare, room_for, run, run_in};
