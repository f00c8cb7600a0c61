//! The stage itself: a queue over any port, which is a port again.
ghost use Rattle.write_buffer.specs.Queues.{queued};
ghost use Rattle.write_buffer.specs.Taking.{Takes, Takes-prop};

use super::queue::Queue;
use super::sending::{send, send_all, send_on};
use fault::Fault;
use port::{Port, Store, check_above, check_store_above, marks_above};

/// A port whose processor writes wait in a queue before they go to the port below.
#[derive(Drop)]
pub struct WriteBuffer<P: Port> {
    below: P,
    queue: Queue,
    // The port below takes whatever waits in the queue.
    pub ghost taken: { Takes (P.state below).facts (queued queue) } by { Takes-prop (P.state below).facts (queued queue) },
}

impl<P: Port> WriteBuffer<P> {
    ghost use Rattle.std.specs.Prelude.{◌≡◌, []};
    ghost use Rattle.write_buffer.specs.Buffering.{FourAtMostWait, HoldingBackIsNeverSeen};
    ghost use Rattle.write_buffer.specs.Runs.{NothingIsLost};

    /// A buffer over a port, with an empty queue.
    #[tactic(auto, using(crate::proofs::Queueing::at_most_four, crate::proofs::SendingLemmas::holding_back_is_never_seen, crate::proofs::Ordering::nothing_is_lost))]
    pub fn new(below: P) -> WriteBuffer<P>
        ensures below { result.below ≡ below }
        ensures queue { queued result.queue ≡ [] }
        ensures few { FourAtMostWait }
        ensures unseen { HoldingBackIsNeverSeen }
        ensures run { NothingIsLost P.Port }
    {
        WriteBuffer {
            below,
            queue: Queue::new(),
        }
    }

    /// Takes the buffer apart. What waits in its queue stays there, and nothing settles.
    pub fn into_parts(self) -> (P, Queue)
        ensures below { result.0 ≡ self.below }
        ensures queue { result.1 ≡ self.queue }
    {
        let WriteBuffer { below, queue } = self;
        (below, queue)
    }
}

impl<P: Port> Port for WriteBuffer<P> {
    ghost use Rattle.write_buffer.specs.Buffering.{buffered, Does};

    ghost state = { λ b. buffered (P.state b.below) (queued b.queue) };

    ghost does = { Does };

    fn words(&self) -> u32 {
        self.below.words()
    }

    fn floor(&self) -> u8 {
        self.below.floor().saturating_add(1)
    }

    fn marks(&self, line: u32) -> Result<(bool, bool), Fault> {
        marks_above(&self.below, line)
    }

    fn waiting(&self) -> u32 {
        self.below.waiting().saturating_add(self.queue.waiting())
    }

    // A cache reads every word of a fill here.
    #[inline(always)]
    fn read(&mut self, word: u32) -> Result<u16, Fault> {
        check_above(&self.below, word)?;
        send_all(&mut self.below, &mut self.queue);
        self.below.read(word)
    }

    fn write(&mut self, write: Store) -> Result<(), Fault> {
        check_store_above(&self.below, write)?;
        if let Some(oldest) = self.queue.push(write) {
            send(&mut self.below, oldest);
        }
        Ok(())
    }

    fn advance(&mut self) {
        if self.below.waiting() > 0 {
            self.below.advance();
        } else if let Some(oldest) = self.queue.pop() {
            send_on(&mut self.below, oldest);
        }
    }

    fn settled_read(&self, word: u32) -> Result<u16, Fault> {
        check_above(&self.below, word)?;
        self.below.settled_read(word)
    }

    fn outside_write(&mut self, write: Store) -> Result<(), Fault> {
        check_store_above(&self.below, write)?;
        self.below.outside_write(write)
    }

    fn snoop(&mut self, word: u32) -> Result<(), Fault> {
        check_above(&self.below, word)?;
        self.below.snoop(word)
    }

    fn flush(&mut self) {
        self.below.flush();
    }

    ghost whole = { λ b. P.whole b.below };
}
