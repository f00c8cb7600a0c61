//! The memory that the card is delivered with.
ghost use Rattle.std.specs.Prelude.{◌≡◌, IfOk};
ghost use Rattle.card.specs.Stock.{stock_line, StockLines, StockImage};

use banks::Line;
use std::alloc::{AllocError, Global};

/// The lines of RAM; the last of them may not be cached.
const RAM_LINES: usize = 2_048;

/// The bytes of EPROM, in 64 lines.
const EPROM_BYTES: usize = 1_024;

/// The word of RAM that cannot be read.
const TORN_WORD: usize = 37;

// One zeroed and unprotected line of RAM.
fn stock_line(line: usize) -> Line
    ensures { result ≡ stock_line line }
{
    let mut readable = [true; 8];
    if line == TORN_WORD / 8 {
        readable[TORN_WORD % 8] = false;
    }
    Line {
        cacheable: line != RAM_LINES - 1,
        readable,
        ..Line::ZEROED
    }
}

/// Zeroed RAM, all of it unprotected, with the last line uncacheable and word 37 unreadable.
pub fn stock_lines(alloc: Global) -> Result<Vec<Line>, AllocError>
    ensures { IfOk result (λ lines. StockLines lines.items) }
{
    (0..RAM_LINES).map(stock_line).collect(alloc)
}

/// An EPROM image whose byte i is i mod 256.
pub fn stock_image(alloc: Global) -> Result<Vec<u8>, AllocError>
    ensures { IfOk result (λ bytes. StockImage bytes.items) }
{
    (0..EPROM_BYTES).map(|i| (i % 256) as u8).collect(alloc)
}
