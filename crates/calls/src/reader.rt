//! The reader that takes a list apart, call by call.
ghost use Rattle.std.specs.Prelude.{◌≡◌, ℕ, ◌+◌, ◌/◌, ◌^◌, ◌<◌, ◌≤◌, length, MatchOption};
ghost use Rattle.calls.specs.Words.{word_of, words_from};
ghost use Rattle.calls.specs.Encoding.{WorkedList};
ghost use Rattle.calls.specs.Format.{target_in, value_in, store_in, call_in, bare_call, first_of, next_in, stride};

use super::call::Call;
use fault::{Fault, Refusal};
use port::Store;

/// The most bytes a list may have.
pub const MOST_BYTES: usize = 16_384;

/// Reads a list's calls one by one, and keeps its position among the list words.
#[derive(Drop)]
pub struct Reader<'a> {
    bytes: &'a [u8],
    index: u32,
}

// Refuses a list that ends in a part of a word, or has too many words.
fn fit_length(length: usize) -> Result<(), Fault>
    ensures { result ≡ Rattle.calls.specs.Format.length_in length }
{
    if length % 4 == 0 && length <= MOST_BYTES {
        Ok(())
    } else {
        Err(Fault {
            refusal: Refusal::ListLength,
            place: 0,
            floor: 0,
        })
    }
}

// The word of four bytes, the low byte first.
fn word_of(a: u8, b: u8, c: u8, d: u8) -> u32
    ensures { result ≡ word_of a b c d }
{
    u32::from_le_bytes([a, b, c, d])
}

// The list word with that index, where the list has one.
fn word_at(bytes: &[u8], index: u32) -> Option<u32>
    ensures value { result ≡ first_of (words_from index bytes.now) }
    ensures within { MatchOption result (length bytes.now / 4 ≤ index) (λ _. index < length bytes.now / 4) }
{
    let index = index as usize;
    if index < bytes.len() / 4 {
        let at = index * 4;
        Some(word_of(bytes[at], bytes[at + 1], bytes[at + 2], bytes[at + 3]))
    } else {
        None
    }
}

// The number in the bits of a list word from low on, count of them.
fn bits(word: u32, low: u32, count: u32) -> u32
    requires { (low < 32) × (count < 32) }
    ensures { result ≡ Rattle.calls.specs.Format.bits word low count }
{
    (word >> low) & ((1 << count) - 1)
}

fn malformed(index: u32) -> Fault
    ensures { result ≡ Rattle.calls.specs.Format.malformed index }
{
    Fault {
        refusal: Refusal::ListWord,
        place: index,
        floor: 0,
    }
}

// What a call is read from: its list word, at that index, and the list word after it.
#[derive(Clone, Copy)]
struct Front {
    index: u32,
    head: u32,
    next: Option<u32>,
    // A list is far shorter, so the index after this one fits a `u32` too.
    ghost small: { index < 2 ^ 31 },
}

impl Front {
    // The call itself, where its list word has no other bits than the kind.
    fn bare(self, call: Call) -> Result<Call, Fault>
        ensures { result ≡ bare_call self.index self.head call }
    {
        if bits(self.head, 0, 28) == 0 {
            Ok(call)
        } else {
            Err(malformed(self.index))
        }
    }

    // The word that a call without data names.
    fn target(self) -> Result<u32, Fault>
        ensures { result ≡ target_in self.index self.head }
    {
        if bits(self.head, 23, 5) == 0 {
            Ok(bits(self.head, 0, 23))
        } else {
            Err(malformed(self.index))
        }
    }

    // The value of the data word that follows a call.
    fn value(self) -> Result<u16, Fault>
        ensures { result ≡ value_in self.index self.next }
    {
        let Some(word) = self.next else {
            return Err(malformed(self.index));
        };
        if bits(word, 28, 4) != 15 {
            return Err(malformed(self.index));
        }
        if bits(word, 16, 12) != 0 {
            return Err(malformed(self.index + 1));
        }
        Ok(bits(word, 0, 16) as u16)
    }

    // The store of a call with its data word.
    fn store(self) -> Result<Store, Fault>
        ensures { result ≡ store_in self.index self.head self.next }
    {
        if bits(self.head, 25, 3) != 0 {
            return Err(malformed(self.index));
        }
        let value = self.value()?;
        Ok(Store {
            word: bits(self.head, 0, 23),
            lanes: bits(self.head, 23, 2) as u8,
            value,
        })
    }

    // The call that the list word begins.
    fn call(self) -> Result<Call, Fault>
        ensures { result ≡ call_in self.index self.head self.next }
    {
        // The kinds are numbers in the format of a list, and calls from here on.
        match bits(self.head, 28, 4) {
            0 => Ok(Call::Read(self.target()?)),
            1 => Ok(Call::Write(self.store()?)),
            2 => Ok(Call::Unposted(self.store()?)),
            3 => self.bare(Call::Advance),
            4 => self.bare(Call::Lock),
            5 => Ok(Call::LockedRead(self.target()?)),
            6 => Ok(Call::LockedWrite(self.store()?)),
            7 => self.bare(Call::Unlock),
            8 => self.bare(Call::Ask),
            9 => Ok(Call::MasterRead(self.target()?)),
            10 => Ok(Call::MasterWrite(self.store()?)),
            11 => self.bare(Call::Give),
            12 => Ok(Call::Snoop(self.target()?)),
            13 => self.bare(Call::Flush),
            _ => Err(malformed(self.index)),
        }
    }
}

impl<'a> Reader<'a> {
    /// A reader at the front of a list.
    #[tactic(auto, using(crate::proofs::Trying::worked_list))]
    pub fn new(bytes: &'a [u8]) -> Reader<'a>
        ensures list { result.bytes.now ≡ bytes.now }
        ensures start { result.index ≡ 0 }
        ensures examples { WorkedList }
    {
        Reader { bytes, index: 0 }
    }

    /// The next call, or none at the list's end. A list of unfit length is refused at once; at a malformed word the
    /// reader stays, and refuses again.
    pub fn next_call(&mut self) -> Result<Option<Call>, Fault>
        ensures same { self.new.bytes.now ≡ self.old.bytes.now }
        ensures value { result ≡ next_in self.old.index self.old.bytes.now }
        ensures moved { self.new.index ≡ self.old.index + stride result }
    {
        fit_length(self.bytes.len())?;
        let Some(head) = word_at(self.bytes, self.index) else {
            return Ok(None);
        };
        let next = word_at(self.bytes, self.index + 1);
        let front = Front {
            index: self.index,
            head,
            next,
        };
        let call = front.call()?;
        self.index += call.size();
        Ok(Some(call))
    }
}
