//! Reading a call list.
ghost use Rattle.std.specs.Prelude.{◌≡◌, ◌+◌, IfOk, IfSome, take};
ghost use Rattle.calls.specs.Words.{most_bytes};

use calls::MOST_BYTES;
use std::alloc::Global;
use std::io;
use std::io::Read;

/// One byte more than a list may have, so that a longer one is seen to be too long.
const INPUT_BYTES: u64 = MOST_BYTES as u64 + 1;

/// Reads all that there is, or one byte more than a list may have.
pub fn read_input<R: Read + Drop>(alloc: Global, reader: R) -> io::Result<Vec<u8>>
    ensures { IfOk result (λ bytes. IfSome (R.remaining reader) (λ given. bytes.items ≡ take (most_bytes + 1) given)) }
{
    let mut list = Vec::new(alloc);
    reader.take(INPUT_BYTES).read_to_end(&mut list)?;
    Ok(list)
}
