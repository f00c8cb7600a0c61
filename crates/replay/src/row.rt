//! A row of three digits, as the program of a pump head keeps it and as the display shows it.
ghost use Rattle.std.specs.Prelude.{◌≡◌, Some};
ghost use Rattle.replay.specs.Rows.{glyph_of, row_text};

use std::fmt;

/// A row of three digit words.
#[derive(Clone, Copy)]
pub struct Row {
    pub hundreds: u16,
    pub tens: u16,
    pub ones: u16,
}

/// The digit word of a place that shows nothing.
pub const BLANK: u16 = 0x000f;

// The character that a digit word shows: a blank is a space, and what is no digit a question mark.
fn glyph(digit: u16) -> u8
    ensures { result ≡ glyph_of digit }
{
    match digit {
        0..=9 => b'0' + digit as u8,
        BLANK => b' ',
        _ => b'?',
    }
}

impl fmt::Display for Row {
    ghost output = { λ row. Some (row_text row) };

    fn fmt<W: fmt::Write>(&self, f: &mut fmt::Formatter<W>) -> fmt::Result {
        let hundreds = char::from(glyph(self.hundreds));
        let tens = char::from(glyph(self.tens));
        let ones = char::from(glyph(self.ones));
        write!(f, "{hundreds}{tens}{ones}")
    }
}
