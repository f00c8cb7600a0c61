//! The four ways of a set, and the three LRU bits that say which of them the next line replaces.
ghost use Rattle.std.specs.Prelude.{◌≡◌, ℕ, ◌<◌};
ghost use Rattle.std.specs.Result.{result_ok};
ghost use Rattle.directory.specs.Touch.{way_numbered, number_of, touched_bits, victim_of};
ghost use Rattle.directory.specs.Laws.{TouchedWayIsSpared, EachTouchSetsItsPair, VictimsGoRound};

/// One of the four ways of a set.
#[derive(Clone, Copy, Debug, PartialEq)]
pub enum WayNumber {
    Zero,
    One,
    Two,
    Three,
}

/// All the ways, in the order in which they are looked through.
pub const WAYS: [WayNumber; 4] = [
    WayNumber::Zero,
    WayNumber::One,
    WayNumber::Two,
    WayNumber::Three,
];

/// A number that no way of a set has.
#[derive(Clone, Copy, Debug, PartialEq)]
pub struct NoSuchWay;

impl TryFrom<u32> for WayNumber {
    type Error = NoSuchWay;

    ghost try_from_gives = { λ number answer. result_ok answer ≡ way_numbered number };

    /// The way with that number, where a set has one.
    fn try_from(number: u32) -> Result<Self, NoSuchWay> {
        match number {
            0 => Ok(WayNumber::Zero),
            1 => Ok(WayNumber::One),
            2 => Ok(WayNumber::Two),
            3 => Ok(WayNumber::Three),
            _ => Err(NoSuchWay),
        }
    }
}

/// The LRU bits of a set, which remember the ways touched last.
#[derive(Clone, Copy, Debug, PartialEq)]
pub struct LruBits {
    /// The pair of ways touched last: 0 and 1 where it is set, else 2 and 3.
    pub m0: bool,
    /// The way of the first pair touched last: 0 where it is set, else 1.
    pub m1: bool,
    /// The way of the second pair touched last: 2 where it is set, else 3.
    pub m2: bool,
}

// Each setting of the bits; the digits of a name are m0, m1 and m2.
const M000: LruBits = LruBits {
    m0: false,
    m1: false,
    m2: false,
};

const M001: LruBits = LruBits {
    m0: false,
    m1: false,
    m2: true,
};

const M010: LruBits = LruBits {
    m0: false,
    m1: true,
    m2: false,
};

const M011: LruBits = LruBits {
    m0: false,
    m1: true,
    m2: true,
};

const M100: LruBits = LruBits {
    m0: true,
    m1: false,
    m2: false,
};

const M101: LruBits = LruBits {
    m0: true,
    m1: false,
    m2: true,
};

const M110: LruBits = LruBits {
    m0: true,
    m1: true,
    m2: false,
};

const M111: LruBits = LruBits {
    m0: true,
    m1: true,
    m2: true,
};

// The bits after a touch, 32 entries: a row for each setting, in the order of `number`, and in it one for each way.
static TOUCHED: [[LruBits; 4]; 8] = [
    [M110, M100, M001, M000], // M000
    [M110, M100, M001, M000], // M100
    [M110, M100, M011, M010], // M010
    [M110, M100, M011, M010], // M110
    [M111, M101, M001, M000], // M001
    [M111, M101, M001, M000], // M101
    [M111, M101, M011, M010], // M011
    [M111, M101, M011, M010], // M111
];

/// The bits of a set that was never touched.
pub const UNTOUCHED: LruBits = M000;

impl LruBits {
    // The number of this setting, by which the table of 32 entries is read: m0 counts 1, m1 2 and m2 4.
    fn number(self) -> usize
        ensures value { result ≡ number_of self }
        ensures small { result < 8 }
    {
        self.m0 as usize + 2 * (self.m1 as usize) + 4 * (self.m2 as usize)
    }

    /// The bits once the way has been touched.
    #[tactic(auto, using(crate::proofs::Sparing::touch_sets))]
    pub fn touched(self, way: WayNumber) -> LruBits
        ensures value { result ≡ touched_bits self way }
        ensures law { TouchedWayIsSpared }
        ensures pair { EachTouchSetsItsPair }
    {
        TOUCHED[self.number()][way as usize]
    }

    /// The way that the next line replaces. An invalid way is not preferred.
    #[tactic(auto, using(crate::proofs::Sparing::victims_go_round))]
    pub fn victim(self) -> WayNumber
        ensures value { result ≡ victim_of self }
        ensures law { VictimsGoRound }
    {
        match (self.m0, self.m1, self.m2) {
            (false, false, _) => WayNumber::Zero,
            (false, true, _) => WayNumber::One,
            (true, _, false) => WayNumber::Two,
            (true, _, true) => WayNumber::Three,
        }
    }
}
