//! The write buffer: a stage that holds up to four processor writes back from the port below.
#![tactic(auto)]

mod buffer;
mod queue;
mod sending;

pub use buffer::WriteBuffer;
pub use queue::Queue;
