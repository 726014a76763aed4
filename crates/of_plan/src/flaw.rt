//! What is wrong with a piece of a line by itself, whatever the text is.

use std::fmt;

/// What is wrong with a piece of a line by itself, whatever the text is. `specs/Flaws.antt` defines
/// what each flaw says of the piece.
#[derive(Clone, Copy, Debug, PartialEq, Eq)]
pub enum Flaw {
    /// The text starts with a byte order mark.
    ByteOrderMark,
    /// The line ends with a carriage return.
    CarriageReturn,
    /// The line has a tab, which does not part words.
    Tab,
    /// A number should come here.
    NumberMissing,
    /// This word is no number.
    NoNumber,
    /// This number is greater than the most that it may be.
    TooGreat { most: u32 },
    /// This number may not be 0.
    Zero,
    /// No word should come here.
    WordTooMany,
}

impl fmt::Display for Flaw {
    ghost use Rattle.std.specs.Prelude.{Some};
    ghost use Rattle.of_plan.specs.FlawText.{flaw_text};

    ghost output = { λ f. Some (flaw_text f) };

    fn fmt<W: fmt::Write>(&self, f: &mut fmt::Formatter<W>) -> fmt::Result {
        match self {
            Flaw::ByteOrderMark => f.write_str("a byte order mark at the start of the text"),
            Flaw::CarriageReturn => f.write_str("a carriage return at the end of the line"),
            Flaw::Tab => f.write_str("a tab, where only spaces part words"),
            Flaw::NumberMissing => f.write_str("a number is missing here"),
            Flaw::NoNumber => f.write_str("not a number: digits alone, no 0 before others"),
            Flaw::TooGreat { most } => write!(f, "a number above {most}"),
            Flaw::Zero => f.write_str("a number below 1"),
            Flaw::WordTooMany => f.write_str("a word too many"),
        }
    }
}
