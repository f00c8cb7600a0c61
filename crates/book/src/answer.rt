//! What a board answers, and the modes it is in.

/// Who may use the board.
#[derive(Clone, Copy, Debug, PartialEq)]
pub enum Mode {
    /// The processor.
    Free,
    /// The processor alone, by locked calls.
    Locked,
    /// The display unit besides the processor.
    Granted,
}

/// The answer to a call that was taken.
#[derive(Clone, Copy, Debug, PartialEq)]
pub enum Answer {
    Done,
    /// The word that was read.
    Word(u16),
}
