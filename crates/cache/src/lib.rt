//! The cache: a stage that keeps lines of the port below in a directory of 256 sets.
#![tactic(auto)]

mod cache;
mod questions;

pub use cache::Cache;
pub use questions::inspect;
