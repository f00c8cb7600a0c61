//! How what waits in a queue goes to the port below.
ghost use Rattle.std.specs.Prelude.{◌≡◌, ◌≤◌, [], ◌∷◌, length, Ok};
ghost use Rattle.port.specs.Memory.{posted};
ghost use Rattle.port.specs.Meaning.{write_answer, Settles};
ghost use Rattle.port.specs.Steps.{writes, Chain};
ghost use Rattle.write_buffer.specs.Queues.{queued};
ghost use Rattle.write_buffer.specs.Taking.{Takes};
ghost use Rattle.write_buffer.specs.Buffering.{sends, SendsOn};

use super::queue::Queue;
use port::{Port, Store};

// Sends a write to a port that takes it. Apart, so that the code for a write below stands once, and makes no refusal.
#[inline(never)]
pub(crate) fn send<P: Port>(below: &mut P, write: Store)
    requires taken { write_answer (P.state below.old) write ≡ Ok tt }
    ensures after { Settles (posted (write ∷ []) (P.state below.old)) (P.state below.new) }
    ensures did { P.does below.old (writes write (Ok tt)) below.new }
{
    // It is taken, so there is no refusal to pass up.
    let _ = below.write(write);
}

// Sends a write to a port that takes it; if it still waits there, that port advances once.
pub(crate) fn send_on<P: Port>(below: &mut P, write: Store)
    requires taken { write_answer (P.state below.old) write ≡ Ok tt }
    ensures after { Settles (posted (write ∷ []) (P.state below.old)) (P.state below.new) }
    ensures fewer { length (P.state below.new).waiting ≤ length (P.state below.old).waiting }
    ensures did { SendsOn P.state P.does write below.old below.new }
{
    send(below, write);
    if below.waiting() > 0 {
        below.advance();
    }
}

// Sends every write of a queue to a port that takes them, the oldest first.
pub(crate) fn send_all<P: Port>(below: &mut P, queue: &mut Queue)
    requires taken { Takes (P.state below.old).facts (queued queue.old) }
    ensures queue { queued queue.new ≡ [] }
    ensures after { Settles (posted (queued queue.old) (P.state below.old)) (P.state below.new) }
    ensures did { Chain P.does below.old (sends (queued queue.old)) below.new }
{
    while let Some(oldest) = queue.pop() {
        send(below, oldest);
    }
}
