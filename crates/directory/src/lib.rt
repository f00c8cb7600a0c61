//! The directory of the cache and its line buffer: plain tables, which know of no port.
#![tactic(auto)]

mod directory;
mod fills;
mod lru;
mod sets;

pub use directory::{Directory, WayState};
pub use fills::Fill;
pub use lru::{LruBits, NoSuchWay, WayNumber};
pub use sets::Way;

#[cfg(test)]
mod tests;
