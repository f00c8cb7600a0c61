//! The bench cards: what the stages come to on a few numbers, as one statement.
#![tactic(auto)]

ghost use Rattle.std.specs.Prelude.{◌≡◌};
ghost use Rattle.bench.specs.Locations.{location_of};
ghost use Rattle.bench.specs.Cards.{TheBenchCardsHold};

/// Where a word lies.
#[derive(Clone, Copy, Debug, PartialEq)]
pub struct Location {
    pub line: u32,
    /// Which of the line's eight words it is.
    pub offset: u32,
    /// The set that the line belongs to, and the tag that tells it from the other lines of that set.
    pub set: u32,
    pub tag: u32,
}

/// The line and offset of a word, and the set and tag of the line. The contract carries the bench cards, of which the first is this
/// answer for word 20,003.
pub fn locate(word: u32) -> Location
    ensures value { result ≡ location_of word }
    ensures cards { TheBenchCardsHold }
{
    // The operators of the rules, and no call of a stage: the cards stand on definitions alone.
    let line = word / 8;
    Location {
        line,
        offset: word % 8,
        set: line % 256,
        tag: line / 256,
    }
}
