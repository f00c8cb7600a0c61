//! A whole list at once.
ghost use Rattle.std.specs.Prelude.{◌≡◌, Ok, MatchResult};
ghost use Rattle.calls.specs.Format.{meaning};
ghost use Rattle.calls.specs.Whole.{Told};
ghost use Rattle.calls.specs.Encoding.{ListEncodesItsCalls};
ghost use Rattle.calls.specs.Malformed.{FirstMalformedWordIsTold};

use super::call::Call;
use super::error::Stop;
use super::reader::Reader;
use std::alloc::Global;

/// All the calls of a list, or the refusal of the list as a whole.
pub fn read_list(alloc: Global, bytes: &[u8]) -> Result<Vec<Call>, Stop>
    ensures answer { MatchResult result (λ calls. meaning bytes.now ≡ Ok calls.items) (λ stop. Told stop (meaning bytes.now)) }
    ensures law { ListEncodesItsCalls bytes.now (meaning bytes.now) }
    ensures refusal { FirstMalformedWordIsTold bytes.now (meaning bytes.now) }
{
    let mut calls = Vec::new(alloc);
    let mut reader = Reader::new(bytes);
    while let Some(call) = reader.next_call()? {
        calls.push(call)?;
    }
    Ok(calls)
}
