//! What a cache keeps, and its rules: the directory with the line buffer, and what each call makes of them.
#![tactic(auto)]

mod tables;

pub use tables::Tables;
