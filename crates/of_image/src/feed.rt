//! A line of an image is read, and taken if it may come next.

ghost use Rattle.std.specs.Prelude.{◌≡◌, ◌≤◌, ℕ, List, [], ◌∷◌, IfOk, IfErr, IfSome, MatchResult, false, Some, None, codes};
ghost use Rattle.std.specs.Bool.{MatchBool};
ghost use Rattle.of_script.specs.Text.{text_words, EndsWith};
ghost use Rattle.of_script.specs.Reading.{next_number};
ghost use Rattle.of_cell.specs.Cells.{durable_cells};
ghost use Rattle.of_mem.specs.declared.plot.TheConstants.{MOST_BLOCKS};
ghost use Rattle.of_mem.specs.declared.work.TheConstants.{MOST_CALLERS};
ghost use Rattle.of_report.specs.ImageRow.{data_cell_count_for};
ghost use Rattle.of_plan.specs.Lines.{is_skipped};
ghost use Rattle.of_plan.specs.Pieces.{first_word, IsNextWord};
ghost use Rattle.of_image.specs.declared.reading.Stage.TheVariants.{Start, Named, Counted, Body};
ghost use Rattle.of_image.specs.Version.{instrs_of};
ghost use Rattle.of_image.specs.ImageReading.{row_reading_value, no_row_read};
ghost use Rattle.of_image.specs.Reasons.{IsHeadingName};
ghost use Rattle.of_image.specs.Fed.{TooManyWords, IsImageNumberFault, HasSomeCallers, IsBodyRow, HasReadImageLine, HasReadBlocksLine};

use crate::grammar::Grammar;
use crate::parse::plot_of;
use crate::reading::{Reading, Stage};
use crate::reason::Reason;
use crate::version::Version;
use of_cell::pack;
use of_mem::{MOST_BLOCKS, MOST_CALLERS};
use of_plan::pieces::{Piece, next_word, read_slot, read_word, word_too_many};
use of_plan::{Flaw, table_shape};
use of_script::text::word;
use std::alloc::{AllocError, Global};

/// The piece of a line at fault, and why.
#[derive(Clone, Copy, Debug, PartialEq, Eq)]
pub(crate) struct Bad {
    pub piece: Piece,
    pub reason: Reason,
}

// The word that comes next is at fault.
fn bad_word(bytes: &[u8], reason: Reason) -> Bad
    ensures piece { IsNextWord bytes.now result.piece }
    ensures reason { result.reason ≡ reason }
{
    Bad {
        piece: next_word(bytes),
        reason,
    }
}

// The bytes after the word that is wanted next; another word is at fault for that reason.
fn expect<'a>(bytes: &'a [u8], wanted: &[u8], reason: Reason) -> Result<&'a [u8], Bad>
    ensures ok { IfOk result (λ rest. text_words bytes.now ≡ wanted.now ∷ text_words rest.now) }
    ensures rest { IfOk result (λ rest. EndsWith bytes.now rest.now) }
    ensures err { IfErr result (λ bad. (others : List (List ℕ)) →
        text_words bytes.now ≡ wanted.now ∷ others → ⊥) }
    ensures piece { IfErr result (λ bad. IsNextWord bytes.now bad.piece) }
    ensures reason { IfErr result (λ bad. bad.reason ≡ reason) }
{
    match read_word(bytes, wanted) {
        Ok(rest) => Ok(rest),
        Err(piece) => Err(Bad { piece, reason }),
    }
}

// The number that comes next and the bytes after it, or why there is none up to the most.
#[inline(always)]
#[tactic(auto, using(crate::proofs::Numbers::slot_number))]
fn read_number(bytes: &[u8], most: u32) -> Result<(u32, &[u8]), Bad>
    requires { 1 ≤ most }
    ensures ok { IfOk result
        (λ x. next_number most (text_words bytes.now) ≡ Some (x.0, text_words x.1.now)) }
    ensures small { IfOk result (λ x. x.0 ≤ most) }
    ensures rest { IfOk result (λ x. EndsWith bytes.now x.1.now) }
    ensures err { IfErr result (λ bad. next_number most (text_words bytes.now) ≡ None) }
    ensures piece { IfErr result (λ bad. IsNextWord bytes.now bad.piece) }
    ensures reason { IfErr result
        (λ bad. IsImageNumberFault bad.reason most (first_word (text_words bytes.now))) }
{
    match read_slot(bytes, most) {
        Ok(read) => Ok(read),
        Err(flawed) => Err(Bad {
            piece: flawed.piece,
            reason: Reason::Flawed { flaw: flawed.flaw },
        }),
    }
}

// The line ends here, or a word is too many.
fn expect_end(bytes: &[u8]) -> Result<(), Bad>
    ensures ends { MatchResult result (λ done. text_words bytes.now ≡ [])
        (λ bad. first_word (text_words bytes.now) ≡ [] → ⊥) }
    ensures piece { IfErr result (λ bad. IsNextWord bytes.now bad.piece) }
    ensures reason { IfErr result (λ bad. bad.reason ≡ TooManyWords) }
{
    match word_too_many(bytes) {
        None => Ok(()),
        Some(piece) => Err(Bad {
            piece,
            reason: Reason::Flawed {
                flaw: Flaw::WordTooMany,
            },
        }),
    }
}

// The bytes after the first word, if that is `cell` and a space follows.
fn after_cell(line: &[u8]) -> Option<&[u8]>
    ensures words { IfSome result
        (λ rest. text_words line.now ≡ codes "cell" ∷ text_words rest.now) }
    ensures rest { IfSome result (λ rest. EndsWith line.now rest.now) }
{
    if line.len() < 5 || &line[..5] != b"cell ".as_slice() {
        return None;
    }
    let (_, rest) = line.split_at(4);
    Some(rest)
}

// Whether a word begins a line of the heading.
fn is_heading_name(name: &[u8]) -> bool
    ensures { MatchBool result (IsHeadingName name.now) (IsHeadingName name.now → ⊥) }
{
    if name == b"onefile".as_slice() {
        return true;
    }
    if name == b"callers".as_slice() {
        return true;
    }
    name == b"blocks".as_slice()
}

// The number of cells that have a durable word.
fn cells(version: Version, callers: u32, blocks: u32) -> u32
    requires some { 1 ≤ callers }
    requires callers { callers ≤ MOST_CALLERS }
    requires blocks { blocks ≤ MOST_BLOCKS }
    ensures { result
        ≡ durable_cells callers (data_cell_count_for (instrs_of version) callers blocks) }
{
    table_shape(&plot_of(version, callers, blocks)).durable_cells()
}

// The number of blocks that a line says.
fn read_blocks(grammar: Grammar, line: &[u8]) -> Result<u32, Bad>
    requires { is_skipped (text_words line.now) ≡ false }
    ensures { HasReadBlocksLine grammar line.now result }
{
    let most = grammar.limits.blocks();
    let rest = expect(line, b"blocks".as_slice(), Reason::BlocksExpected { most })?;
    let (count, end) = read_number(rest, most)?;
    expect_end(end)?;
    Ok(count)
}

impl Reading {
    /// Nothing is read yet.
    pub(crate) fn new(alloc: Global) -> Reading
        ensures { row_reading_value result ≡ no_row_read }
    {
        Reading {
            stage: Stage::Start,
            callers: 0,
            blocks: 0,
            words: Vec::new(alloc),
            from: 0,
        }
    }

    // Reads a title.
    fn feed_title(&mut self, grammar: Grammar, line: &[u8]) -> Result<(), Bad>
        requires stage { self.old.stage ≡ Start }
        requires kept { is_skipped (text_words line.now) ≡ false }
        ensures { HasReadImageLine grammar line.now self.old self.new result }
    {
        let read = grammar.version.number();
        let expected = Reason::TitleExpected { version: read };
        let kind = expect(line, b"onefile".as_slice(), expected)?;
        let number = expect(kind, b"image".as_slice(), expected)?;
        let (found, end) = read_number(number, u32::MAX)?;
        if found != read {
            return Err(bad_word(number, Reason::OtherVersion { found, read }));
        }
        expect_end(end)?;
        self.stage = Stage::Named;
        Ok(())
    }

    // Reads the number of callers.
    fn feed_callers(&mut self, grammar: Grammar, line: &[u8]) -> Result<(), Bad>
        requires stage { self.old.stage ≡ Named }
        requires kept { is_skipped (text_words line.now) ≡ false }
        ensures { HasReadImageLine grammar line.now self.old self.new result }
    {
        let most = grammar.limits.callers();
        let rest = expect(
            line,
            b"callers".as_slice(),
            Reason::CallersExpected { most },
        )?;
        let (count, end) = read_number(rest, most)?;
        if count == 0 {
            return Err(bad_word(rest, Reason::Flawed { flaw: Flaw::Zero }));
        }
        expect_end(end)?;
        self.stage = Stage::Counted;
        self.callers = count;
        Ok(())
    }

    // Reads the line of a cell, after its name.
    #[inline(always)]
    fn feed_cell(&mut self, grammar: Grammar, line: &[u8], rest: &[u8]) -> Result<(), Bad>
        requires stage { self.old.stage ≡ Body }
        requires row { IsBodyRow grammar (row_reading_value self.old) }
        requires words { text_words line.now ≡ codes "cell" ∷ text_words rest.now }
        requires rest { EndsWith line.now rest.now }
        ensures { HasReadImageLine grammar line.now self.old self.new result }
    {
        let (cell, after) = read_number(rest, u32::MAX)?;
        let (place, cells) = (cell as usize, self.words.len());
        if place >= cells {
            let cells = cells as u32;
            return Err(bad_word(rest, Reason::NoCell { cell, cells }));
        }
        if place < self.from {
            return Err(bad_word(rest, Reason::CellPassed { cell }));
        }
        let (seq, more) = read_number(after, u32::MAX)?;
        let (payload, end) = read_number(more, u32::MAX)?;
        let word = pack(seq, payload);
        if word == 0 {
            return Err(bad_word(more, Reason::EmptyCell));
        }
        expect_end(end)?;
        self.words[place] = word;
        self.from = place + 1;
        Ok(())
    }

    // Reads a line below the heading.
    fn feed_body(&mut self, grammar: Grammar, line: &[u8]) -> Result<(), Bad>
        requires stage { self.old.stage ≡ Body }
        requires row { IsBodyRow grammar (row_reading_value self.old) }
        requires kept { is_skipped (text_words line.now) ≡ false }
        ensures { HasReadImageLine grammar line.now self.old self.new result }
    {
        let Some((name, rest)) = word(line) else {
            unreachable!()
        };
        if name == b"cell".as_slice() {
            return self.feed_cell(grammar, line, rest);
        }
        if name == b"end".as_slice() {
            expect_end(rest)?;
            self.stage = Stage::Ended;
            return Ok(());
        }
        if is_heading_name(name) {
            return Err(bad_word(line, Reason::HeadingOver));
        }
        Err(bad_word(line, Reason::UnknownLine))
    }

    // Reads the number of blocks; the cells begin as 0.
    fn feed_blocks(
        &mut self,
        alloc: Global,
        grammar: Grammar,
        line: &[u8],
    ) -> Result<Result<(), Bad>, AllocError>
        requires stage { self.old.stage ≡ Counted }
        requires some { 1 ≤ self.old.callers }
        requires kept { is_skipped (text_words line.now) ≡ false }
        ensures { IfOk result (HasReadImageLine grammar line.now self.old self.new) }
    {
        let count = match read_blocks(grammar, line) {
            Ok(count) => count,
            Err(bad) => return Ok(Err(bad)),
        };
        let size = cells(grammar.version, self.callers, count) as usize;
        let words = vec![in alloc; 0; size]?;
        self.stage = Stage::Body;
        self.blocks = count;
        self.words = words;
        Ok(Ok(()))
    }

    // Reads a line of any kind.
    #[cold]
    #[inline(never)]
    fn feed_any(
        &mut self,
        alloc: Global,
        grammar: Grammar,
        line: &[u8],
    ) -> Result<Result<(), Bad>, AllocError>
        requires counted { HasSomeCallers (row_reading_value self.old) }
        requires row { IsBodyRow grammar (row_reading_value self.old) }
        ensures { IfOk result (HasReadImageLine grammar line.now self.old self.new) }
    {
        let Some((name, _)) = word(line) else {
            return Ok(Ok(()));
        };
        if name[0] == b'#' {
            return Ok(Ok(()));
        }
        match self.stage {
            Stage::Start => Ok(self.feed_title(grammar, line)),
            Stage::Named => Ok(self.feed_callers(grammar, line)),
            Stage::Counted => self.feed_blocks(alloc, grammar, line),
            Stage::Body => Ok(self.feed_body(grammar, line)),
            Stage::Ended => Ok(Err(bad_word(line, Reason::AfterEnd))),
        }
    }

    /// Reads a line, and takes it if it may come next, or says why it may not. Most lines of an
    /// image are cells, so these are tried first.
    #[inline(always)]
    pub(crate) fn feed(
        &mut self,
        alloc: Global,
        grammar: Grammar,
        line: &[u8],
    ) -> Result<Result<(), Bad>, AllocError>
        requires counted { HasSomeCallers (row_reading_value self.old) }
        requires row { IsBodyRow grammar (row_reading_value self.old) }
        ensures { IfOk result (HasReadImageLine grammar line.now self.old self.new) }
    {
        if self.stage == Stage::Body {
            if let Some(rest) = after_cell(line) {
                return Ok(self.feed_cell(grammar, line, rest));
            }
        }
        self.feed_any(alloc, grammar, line)
    }
}
