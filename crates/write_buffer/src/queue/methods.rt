//! How writes join and leave a queue.
ghost use Rattle.std.specs.Prelude.{◌≡◌, ◌≤◌, [], length};
ghost use Rattle.write_buffer.specs.Queues.{queued, oldest, younger, leaving, joined, OldestLeavesFirst};

use super::Queue;
use port::Store;

impl Queue {
    /// A queue in which nothing waits.
    pub fn new() -> Queue
        ensures { queued result ≡ [] }
    {
        Queue {
            writes: [Store {
                word: 0,
                lanes: 3,
                value: 0,
            }; 4],
            len: 0,
        }
    }

    /// How many writes wait, four at most.
    pub fn waiting(&self) -> u32
        ensures value { result ≡ length (queued self.now) }
        ensures most { result ≤ 4 }
    {
        self.len as u32
    }

    /// Takes the oldest write out.
    pub fn pop(&mut self) -> Option<Store>
        ensures value { result ≡ oldest (queued self.old) }
        ensures after { queued self.new ≡ younger (queued self.old) }
        ensures kept { queued self.old ≡ [] → self.new ≡ self.old }
    {
        if self.len == 0 {
            return None;
        }
        let [first, second, third, fourth] = self.writes;
        self.writes = [second, third, fourth, first];
        self.len -= 1;
        Some(first)
    }

    /// Lets a write join as the youngest. Where four wait already, the oldest leaves.
    pub fn push(&mut self, write: Store) -> Option<Store>
        ensures value { result ≡ leaving (queued self.old) }
        ensures after { queued self.new ≡ joined write (queued self.old) }
        ensures law { OldestLeavesFirst }
    {
        let oldest = if self.len < 4 { None } else { self.pop() };
        self.writes[self.len] = write;
        self.len += 1;
        oldest
    }
}
