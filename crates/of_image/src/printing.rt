//! Texts of images.

ghost use Rattle.std.specs.Prelude.{◌≡◌, ◌+◌, ◌<◌, ◌≤◌, ◌^◌, length, IfOk, OnOk, slice_range};
ghost use Rattle.of_cell.specs.Cells.{table_words};
ghost use Rattle.of_mem.specs.Plots.{data_cell_count};
ghost use Rattle.of_mem.specs.declared.work.TheConstants.{MOST_INSTRS};
ghost use Rattle.of_plan.specs.declared.plan.TheConstants.{MOST_PLAN_CALLERS, MOST_PLAN_BLOCKS};
ghost use Rattle.of_image.specs.declared.version.Version.TheVariants.{Two};
ghost use Rattle.of_image.specs.Grammar.{table_grammar};
ghost use Rattle.of_report.specs.ImageRow.{row_in};
ghost use Rattle.of_image.specs.ImageText.{image_cell_text, image_cells_text, image_line_text, image_text, table_row, SpellsIn, SpellsImage};
ghost use Rattle.of_report.specs.Image.{IsImage};
ghost use Rattle.of_report.specs.Image.{image_ticket};
ghost use Rattle.of_image.specs.RecoveredText.{ticket_line, ticket_lines, recovered_text};
ghost use Rattle.of_script.specs.Appending.{AppendsText};

use crate::line::ImageLine;
use crate::version::Version;
use of_cell::{payload_of, seq_of};
use of_mem::Plot;
use of_plan::table_shape;
use of_report::Image;
use of_report::store::put_store;
use std::alloc::{AllocError, Global};
use std::fmt::Write;

// Writes a line at the end.
fn put_line(out: &mut String, line: &ImageLine) -> Result<(), AllocError>
    ensures { OnOk result (AppendsText out.old out.new (image_line_text line.now)) }
{
    match line {
        ImageLine::Title { version } => writeln!(out, "onefile image {version}"),
        ImageLine::Callers { count } => writeln!(out, "callers {count}"),
        ImageLine::Blocks { count } => writeln!(out, "blocks {count}"),
        ImageLine::Cell { cell, seq, payload } => writeln!(out, "cell {cell} {seq} {payload}"),
        ImageLine::End => writeln!(out, "end"),
    }
}

// Writes the line of a cell, if its word is not 0.
fn put_cell(out: &mut String, cell: u32, word: u64) -> Result<(), AllocError>
    ensures { OnOk result (AppendsText out.old out.new (image_cell_text (cell, word))) }
{
    if word == 0 {
        return Ok(());
    }
    let (seq, payload) = (seq_of(word), payload_of(word));
    put_line(out, &ImageLine::Cell { cell, seq, payload })
}

// Writes the lines of the cells.
fn put_cells(out: &mut String, words: &[u64]) -> Result<(), AllocError>
    requires { length words.now < 2 ^ 32 }
    ensures { OnOk result (AppendsText out.old out.new (image_cells_text words.now)) }
{
    for (cell, word) in words.iter().enumerate() {
        put_cell(out, cell as u32, *word)?;
    }
    Ok(())
}

// Writes the lines of a row.
fn put_row(out: &mut String, version: Version, plot: &Plot, words: &[u64]) -> Result<(), AllocError>
    requires { length words.now < 2 ^ 32 }
    ensures { OnOk result
        (AppendsText out.old out.new (image_text version (row_in plot.now words.now))) }
{
    let number = version.number();
    put_line(out, &ImageLine::Title { version: number })?;
    let count = plot.callers;
    put_line(out, &ImageLine::Callers { count })?;
    let count = plot.blocks;
    put_line(out, &ImageLine::Blocks { count })?;
    put_cells(out, words)?;
    put_line(out, &ImageLine::End)
}

/// The text of a row.
pub(crate) fn print_row(
    alloc: Global,
    version: Version,
    plot: &Plot,
    words: &[u64],
) -> Result<Vec<u8>, AllocError>
    requires { length words.now < 2 ^ 32 }
    ensures { IfOk result (λ text. text.items ≡ image_text version (row_in plot.now words.now)) }
{
    let mut out = String::new(alloc);
    put_row(&mut out, version, plot, words)?;
    Ok(out.into_bytes())
}

/// The text of the durable words of a table; `words` are all its words. An error means out of
/// memory.
pub fn image_print(alloc: Global, plot: &Plot, words: &[u64]) -> Result<Vec<u8>, AllocError>
    requires instrs { plot.now.instrs ≡ MOST_INSTRS }
    requires size { length words.now
        ≡ table_words plot.now.callers MOST_INSTRS (data_cell_count plot.now) }
    ensures text { IfOk result (λ text.
        text.items ≡ image_text Two (table_row plot.now words.now)) }
    // The text spells the row of these words.
    ensures again { IfOk result (λ text.
        SpellsIn table_grammar text.items (table_row plot.now words.now)) }
    // If a plan may have as many callers and blocks, it spells the row within a plan's limits too.
    ensures plan { plot.now.callers ≤ MOST_PLAN_CALLERS → plot.now.blocks ≤ MOST_PLAN_BLOCKS →
        IfOk result (λ text. SpellsImage Two text.items (table_row plot.now words.now)) }
{
    let cells = table_shape(plot).durable_cells() as usize;
    print_row(alloc, Version::Two, plot, &words[cells..cells + cells])
}

// Writes the line of a caller's ticket, if it is not 0.
fn put_ticket(out: &mut String, caller: u32, ticket: u32) -> Result<(), AllocError>
    ensures { OnOk result (AppendsText out.old out.new (ticket_line caller ticket)) }
{
    if ticket == 0 {
        return Ok(());
    }
    writeln!(out, "ticket {caller} {ticket}")
}

// Writes the tickets that are not 0.
fn put_tickets(out: &mut String, image: &Image) -> Result<(), AllocError>
    requires { IsImage MOST_INSTRS image.now }
    ensures { OnOk result (AppendsText out.old out.new (ticket_lines image.now)) }
{
    for caller in 0..image.callers {
        put_ticket(out, caller, image.ticket(caller))?;
    }
    Ok(())
}

/// The text of what recovery found: the sequence, the tickets that are not 0, and the store. An
/// error means out of memory.
pub fn recovered_print(alloc: Global, image: &Image) -> Result<Vec<u8>, AllocError>
    requires { IsImage MOST_INSTRS image.now }
    ensures { IfOk result (λ text. text.items ≡ recovered_text image.now) }
{
    let mut out = String::from_str(alloc, "onefile recovered 1\n")?;
    writeln!(out, "seq {}", image.recovered.seq)?;
    put_tickets(&mut out, image)?;
    put_store(&mut out, &image.store)?;
    out.push_str("end\n")?;
    Ok(out.into_bytes())
}
