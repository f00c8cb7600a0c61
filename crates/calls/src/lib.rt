//! Call lists: what a list of 32-bit words asks of the board, and the reader that takes it apart.
#![tactic(auto)]

mod call;
mod error;
mod reader;
mod whole;

pub use call::{Call, Cargo};
pub use error::Stop;
pub use reader::{MOST_BYTES, Reader};
pub use whole::read_list;
