//! The directory of the cache: 256 sets.
ghost use Rattle.std.specs.Prelude.{◌≡◌, ℕ, ◌<◌, false};
ghost use Rattle.directory.specs.declared.lru.WayNumber.{WayNumber as Number};
ghost use Rattle.directory.specs.Dirs.{number_of_sets, view_of, twins, set_of, tag_of};

use super::sets::SetRecord;

mod changes;
mod questions;

pub use questions::WayState;

/// The directory. A line belongs to the set of its number modulo 256, and its number div 256 is its tag;
/// whatever is called, a tag stands at most once among the valid ways of a set.
#[derive(Drop)]
pub struct Directory {
    sets: [SetRecord; 256],
    ghost apart: { (i : ℕ) (j k : Number) → twins (view_of sets) i j k ≡ false },
}

// How many sets there are.
const SETS: u32 = 256;

fn set_of(line: u32) -> usize
    ensures value { result ≡ set_of line }
    ensures small { result < number_of_sets }
{
    (line % SETS) as usize
}

fn tag_of(line: u32) -> u32
    ensures { result ≡ tag_of line }
{
    line / SETS
}
