//! Rows from the texts of images.

ghost use Rattle.std.specs.Prelude.{IfOk, IfErr};
ghost use Rattle.of_image.specs.ImageText.{SpellsIn};
ghost use Rattle.of_image.specs.ImageReading.{row_reading_value, row_read};
ghost use Rattle.of_image.specs.Faults.{HasLineFault};

use crate::grammar::Grammar;
use crate::reading::{Reading, Stage};
use crate::refusal::{ImageFault, Refusal, at_end, in_text};
use of_script::text::cut;
use std::alloc::Global;

/// The row that a text spells, or the piece of it at fault.
pub(crate) fn read_row(alloc: Global, grammar: Grammar, text: &[u8]) -> Result<Reading, Refusal>
    ensures ok { IfOk result (λ reading.
        SpellsIn grammar text.now (row_read (row_reading_value reading))) }
    ensures err { IfErr result (HasLineFault grammar text.now) }
{
    let mut reading = Reading::new(alloc);
    let mut number: u64 = 0;
    let mut rest = text;
    loop {
        let (line, after) = cut(rest, b'\n');
        number += 1;
        if let Err(bad) = reading.feed(alloc, grammar, line)? {
            let piece = in_text(grammar, text, number, line, bad);
            let fault = ImageFault::Line { piece };
            return Err(Refusal::Fault { fault });
        }
        match after {
            Some(more) => rest = more,
            None => {
                return match reading.stage {
                    Stage::Ended => Ok(reading),
                    _ => {
                        let piece = at_end(grammar, text, number, line);
                        let fault = ImageFault::Line { piece };
                        Err(Refusal::Fault { fault })
                    }
                };
            }
        }
    }
}
