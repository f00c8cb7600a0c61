//! The lines that headcard prints.
#![tactic(auto)]

ghost use Rattle.std.specs.Prelude.{◌≡◌, IfOk, Some, string_bytes};
ghost use Rattle.printed.specs.Texts.{outcome_text, whole_of, text_of};

use book::Answer;
use calls::Call;
use fault::{Fault, Refusal};
use std::alloc::{AllocError, Global};
use std::fmt;

/// A line of output.
#[derive(Clone, Copy)]
pub enum Printed {
    /// The header: how many words the board has.
    Words(u32),
    /// A call by its number, counted from 1, with what it came to.
    Answered(u64, Call, Result<Answer, Fault>),
    /// The list or the card as a whole is refused.
    Refused(Fault),
    /// How many writes wait in the end.
    Waiting(u32),
}

/// What a call came to: `ok`, the word that was read, or the refusal.
#[derive(Clone, Copy)]
pub struct AnswerText(pub Result<Answer, Fault>);

impl fmt::Display for AnswerText {
    ghost output = { λ x. Some (outcome_text x.0) };

    fn fmt<W: fmt::Write>(&self, f: &mut fmt::Formatter<W>) -> fmt::Result {
        match self.0 {
            Ok(Answer::Done) => write!(f, "ok"),
            Ok(Answer::Word(value)) => write!(f, "{value:04X}"),
            Err(fault) => write!(f, "{fault}"),
        }
    }
}

// What is refused as a whole.
fn whole_of(refusal: Refusal) -> &'static str
    ensures { result.now ≡ whole_of refusal }
{
    match refusal {
        Refusal::UnfitSize => "card",
        _ => "list",
    }
}

impl fmt::Display for Printed {
    ghost output = { λ line. Some (text_of line) };

    fn fmt<W: fmt::Write>(&self, f: &mut fmt::Formatter<W>) -> fmt::Result {
        match *self {
            Printed::Words(words) => write!(f, "board {words} words"),
            Printed::Answered(number, call, answer) => {
                let outcome = AnswerText(answer);
                write!(f, "{number} {call} {outcome}")
            }
            // By parts, since this line leaves the floor out.
            Printed::Refused(fault) => {
                let whole = whole_of(fault.refusal);
                let refusal = fault.refusal;
                let place = fault.place;
                write!(f, "{whole} refused {refusal} at {place}")
            }
            Printed::Waiting(count) => write!(f, "waiting {count}"),
        }
    }
}

/// The text of a line, without its end.
pub fn text(alloc: Global, line: Printed) -> Result<String, AllocError>
    ensures { IfOk result (λ s. string_bytes s ≡ text_of line) }
{
    format!(in alloc; "{line}")
}
