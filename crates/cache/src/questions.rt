//! What can be asked of a cache's tables, in the cache or taken out of it.
ghost use Rattle.std.specs.Prelude.{◌≡◌};
ghost use Rattle.cache_tables.specs.Rules.{model};
ghost use Rattle.cache.specs.Doing.{inspect_answer, WaysAreToldOrRefused};

use cache_tables::Tables;
use directory::WayState;
use fault::{Fault, Refusal};

/// What stands in a way of a set, as a cache on that floor tells it.
#[tactic(auto, using(crate::proofs::Asking::ways_are_told_or_refused))]
pub fn inspect(tables: &Tables, floor: u8, set: u32, way: u32) -> Result<WayState, Fault>
    ensures value { result ≡ inspect_answer (model tables.now).dir floor set way }
    ensures law { WaysAreToldOrRefused (model tables.now).dir floor }
{
    tables.directory.inspect(set, way).ok_or(Fault {
        refusal: Refusal::PastEnd,
        place: set,
        floor,
    })
}
