//! The writes that a buffer holds back.
ghost use Rattle.std.specs.Prelude.{◌≡◌, ◌≤◌, length};

use port::Store;

mod methods;

/// A queue of at most four writes, the oldest first.
#[derive(Clone, Copy)]
pub struct Queue {
    // The slots from `len` on hold nothing that counts.
    writes: [Store; 4],
    len: usize,
    ghost few: { len ≤ 4 },
    ghost all: { length writes ≡ 4 },
}
