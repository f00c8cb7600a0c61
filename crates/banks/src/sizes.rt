//! How many words a bank or a map of what the caller has would have, or why it has none.
ghost use Rattle.std.specs.Prelude.{◌≡◌, ◌+◌, ◌/◌, length};
ghost use Rattle.banks.specs.Sizes.{size_of_lines, lines_of_bytes, UnfitSizesHaveNoWords};

use super::line::Line;
use fault::{Fault, Refusal};

/// The most lines of a port, which make 8,388,608 words.
const MOST_LINES: usize = 1_048_576;

/// How many words that many lines make, or why a port of them has none.
#[tactic(auto, using(crate::proofs::Numbers::unfit_sizes))]
pub fn size_of_lines(lines: usize) -> Result<u32, Fault>
    ensures value { result ≡ size_of_lines lines }
    ensures law { UnfitSizesHaveNoWords }
{
    if 1 <= lines && lines <= MOST_LINES {
        Ok((lines * 8) as u32)
    } else {
        Err(Fault {
            refusal: Refusal::UnfitSize,
            place: 0,
            floor: 0,
        })
    }
}

/// How many words ports of so many words make together, or why a port of both has none.
pub fn joint_size(low: u32, high: u32) -> Result<u32, Fault>
    ensures { result ≡ size_of_lines ((low + high) / 8) }
{
    size_of_lines((low as usize + high as usize) / 8)
}

/// How many words a RAM bank on these records has, or why it has none.
pub fn ram_size(lines: &[Line]) -> Result<u32, Fault>
    ensures { result ≡ size_of_lines (length lines.now) }
{
    size_of_lines(lines.len())
}

/// How many words an EPROM bank on these bytes has, or why it has none.
pub fn eprom_size(bytes: &[u8]) -> Result<u32, Fault>
    ensures { result ≡ size_of_lines (lines_of_bytes (length bytes.now)) }
{
    size_of_lines(if bytes.len() % 16 == 0 {
        bytes.len() / 16
    } else {
        0
    })
}
