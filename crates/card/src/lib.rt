//! The card: from the caller's line records, EPROM bytes and call list to the answers, and to the text of each printed line.
#![tactic(auto)]

mod input;
mod output;
mod stages;
mod stock;
mod whole;

pub use board::NoRoom;
pub use calls::{MOST_BYTES, Stop};
pub use input::read_input;
pub use output::print_card;
pub use printed::{AnswerText, Printed, text};
pub use stages::{Remains, StagesLeft, run_on_stages_in};
pub use stock::{stock_image, stock_lines};
pub use whole::{CardRun, NotRun, card_words, run_card};
