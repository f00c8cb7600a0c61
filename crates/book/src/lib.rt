//! The board's book: what a board answers and leaves, call by call and over whole lists, and the promise about old digits.
#![tactic(auto)]

mod answer;

pub use answer::{Answer, Mode};
