//! The ports that all piles stand on: banks of RAM and of EPROM.
#![tactic(auto)]

mod eprom;
mod line;
mod ram;
mod sizes;

pub use eprom::EpromBank;
pub use line::Line;
pub use ram::RamBank;
pub use sizes::{eprom_size, joint_size, ram_size, size_of_lines};
