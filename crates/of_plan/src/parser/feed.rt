//! A line of a plan is read, and taken if it may come next.

ghost use Rattle.std.specs.Prelude.{◌≡◌, ◌≤◌, ℕ, List, [], ◌∷◌, ◌++◌, IfOk, IfErr, IfSome, MatchOption, Some, None, true, codes};
ghost use Rattle.of_script.specs.declared.instr.Instr.{Instr as InstrOf};
ghost use Rattle.of_script.specs.Text.{text_words, EndsWith, SpellsScript};
ghost use Rattle.of_script.specs.Reading.{slot_and_rest, front_and_rest};
ghost use Rattle.of_plan.specs.LineTable.{form_name, line_second_most};
ghost use Rattle.of_plan.specs.Reading.{reading_value};
ghost use Rattle.of_plan.specs.Checks as checks;
ghost use Rattle.of_plan.specs.Pieces.{first_word, IsBad, IsNextWord};
ghost use Rattle.of_plan.specs.Fed.{TooMany, IsNumberFault, IsInstrFault, IsScriptFault, IsTitleFault, IsFirstNumberFault, IsSecondNumberFault, HasFed};

use crate::flaw::Flaw;
use crate::parser::check::{is_below_heading, may_come, place_reason};
use crate::parser::line::{
    GREATEST_CELL, LineForm, first_read, form_named, second_most, with_numbers,
};
use crate::parser::state::{Reading, Stage};
use crate::pieces::{Piece, next_word, read_slot, read_word, word_too_many};
use crate::plan::MOST_SCRIPTS;
use crate::reason::Reason;
use of_script::table::form_named as instr_named;
use of_script::text::word;
use of_script::{Instr, MOST_INSTRS, Script, parse_into};
use std::alloc::{AllocError, Global};

// The piece of a line at fault, and why.
#[derive(Clone, Copy, Debug, PartialEq, Eq)]
pub(crate) struct Bad {
    pub piece: Piece,
    pub reason: Reason,
}

// What follows the word `script`, if the line begins with it and a space.
fn after_script(line: &[u8]) -> Option<&[u8]>
    ensures words { IfSome result
        (λ rest. text_words line.now ≡ codes "script" ∷ text_words rest.now) }
    ensures rest { IfSome result (λ rest. EndsWith line.now rest.now) }
{
    if line.len() <= 6 {
        return None;
    }
    let (first, rest) = line.split_at(6);
    if first == b"script".as_slice() && rest[0] == b' ' {
        return Some(rest);
    }
    None
}

// The word that comes next is at fault.
fn bad_word(bytes: &[u8], reason: Reason) -> Bad
    ensures piece { IsNextWord bytes.now result.piece }
    ensures reason { result.reason ≡ reason }
{
    Bad {
        piece: next_word(bytes),
        reason,
    }
}

// A word where the line should end.
fn extra_word(bytes: &[u8]) -> Option<Bad>
    ensures none { MatchOption result (text_words bytes.now ≡ [])
        (λ bad. first_word (text_words bytes.now) ≡ [] → ⊥) }
    ensures piece { IfSome result (λ bad. IsNextWord bytes.now bad.piece) }
    ensures reason { IfSome result (λ bad. bad.reason ≡ TooMany) }
{
    let piece = word_too_many(bytes)?;
    Some(Bad {
        piece,
        reason: Reason::Flawed {
            flaw: Flaw::WordTooMany,
        },
    })
}

// The number that comes next and the bytes after it, or why there is none up to the most.
fn read_number(bytes: &[u8], most: u32) -> Result<(u32, &[u8]), Bad>
    ensures ok { IfOk result
        (λ x. slot_and_rest most (text_words bytes.now) ≡ Some (x.0, text_words x.1.now)) }
    ensures small { IfOk result (λ x. x.0 ≤ most) }
    ensures rest { IfOk result (λ x. EndsWith bytes.now x.1.now) }
    ensures err { IfErr result (λ bad. slot_and_rest most (text_words bytes.now) ≡ None) }
    ensures piece { IfErr result (λ bad. IsNextWord bytes.now bad.piece) }
    ensures reason { IfErr result
        (λ bad. IsNumberFault bad.reason most (first_word (text_words bytes.now))) }
{
    match read_slot(bytes, most) {
        Ok(read) => Ok(read),
        Err(flawed) => Err(Bad {
            piece: flawed.piece,
            reason: Reason::Flawed { flaw: flawed.flaw },
        }),
    }
}

// The instruction that comes next and the bytes after it, or why there is none.
fn read_instr(bytes: &[u8]) -> Result<(Instr, &[u8]), Bad>
    ensures ok { IfOk result
        (λ x. front_and_rest (text_words bytes.now) ≡ Some (x.0, text_words x.1.now)) }
    ensures rest { IfOk result (λ x. EndsWith bytes.now x.1.now) }
    ensures err { IfErr result (λ bad. IsBad bytes.now bad.piece (IsInstrFault bad.reason)) }
{
    let Some((name, numbers)) = word(bytes) else {
        return Err(bad_word(bytes, Reason::InstructionMissing));
    };
    if name == b";".as_slice() {
        return Err(bad_word(bytes, Reason::InstructionMissing));
    }
    let Some(form) = instr_named(name) else {
        return Err(bad_word(bytes, Reason::UnknownInstruction));
    };
    let (first, others) = match read_number(numbers, form.first_most()) {
        Ok(read) => read,
        Err(bad) => return Err(bad),
    };
    let (second, rest) = match read_number(others, form.second_most()) {
        Ok(read) => read,
        Err(bad) => return Err(bad),
    };
    Ok((form.with_numbers(first, second), rest))
}

// Why the bytes after a script's caller are no script.
#[cold]
#[inline(never)]
fn script_fault(bytes: &[u8]) -> Bad
    requires { (script : List InstrOf) → SpellsScript bytes.now script → ⊥ }
    ensures { IsBad bytes.now result.piece (IsScriptFault result.reason) }
{
    let mut rest = match read_instr(bytes) {
        Ok((_, after)) => after,
        Err(bad) => return bad,
    };
    let mut count = 1;
    while let Some((mark, more)) = word(rest) {
        if mark != b";".as_slice() {
            return bad_word(
                rest,
                Reason::Flawed {
                    flaw: Flaw::WordTooMany,
                },
            );
        }
        if count == MOST_INSTRS {
            return bad_word(rest, Reason::TooManyInstructions);
        }
        match read_instr(more) {
            Ok((_, after)) => rest = after,
            Err(bad) => return bad,
        }
        count += 1;
    }
    unreachable!()
}

// Why the words after `onefile` are not those of a title.
fn title_fault(rest: &[u8]) -> Option<Bad>
    ensures { MatchOption result
        (text_words rest.now ≡ codes "plan" ∷ codes "1" ∷ [])
        (λ bad. (text_words rest.now ≡ codes "plan" ∷ codes "1" ∷ [] → ⊥)
        × IsBad rest.now bad.piece (IsTitleFault bad.reason)) }
{
    let version = match read_word(rest, b"plan".as_slice()) {
        Ok(after) => after,
        Err(piece) => {
            return Some(Bad {
                piece,
                reason: Reason::TitleExpected,
            });
        }
    };
    match read_word(version, b"1".as_slice()) {
        Ok(after) => extra_word(after),
        Err(piece) => Some(Bad {
            piece,
            reason: Reason::TitleExpected,
        }),
    }
}

impl Reading {
    // The first number of a line of this form and the bytes after it, or why there is none.
    fn read_first<'a>(&self, form: LineForm, bytes: &'a [u8]) -> Result<(u32, &'a [u8]), Bad>
        ensures ok { IfOk result (λ x. slot_and_rest (checks.first_read form)
            (text_words bytes.now) ≡ Some (x.0, text_words x.1.now)) }
        ensures fits { IfOk result
            (λ x. checks.first_fault (reading_value self.now) form x.0 ≡ None) }
        ensures small { IfOk result (λ x. x.0 ≤ checks.first_read form) }
        ensures rest { IfOk result (λ x. EndsWith bytes.now x.1.now) }
        ensures err { IfErr result (λ bad. IsNextWord bytes.now bad.piece
            × IsFirstNumberFault (reading_value self.now) form bad.reason (text_words bytes.now)) }
    {
        let (first, rest) = match read_number(bytes, first_read(form)) {
            Ok(read) => read,
            Err(bad) => return Err(bad),
        };
        match self.first_fault(form, first) {
            None => Ok((first, rest)),
            Some(reason) => Err(bad_word(bytes, reason)),
        }
    }

    // The second one.
    fn read_second<'a>(&self, form: LineForm, bytes: &'a [u8]) -> Result<(u32, &'a [u8]), Bad>
        ensures ok { IfOk result (λ x. slot_and_rest (line_second_most form)
            (text_words bytes.now) ≡ Some (x.0, text_words x.1.now)) }
        ensures fits { IfOk result
            (λ x. checks.second_fault (reading_value self.now) form x.0 ≡ None) }
        ensures small { IfOk result (λ x. x.0 ≤ line_second_most form) }
        ensures rest { IfOk result (λ x. EndsWith bytes.now x.1.now) }
        ensures err { IfErr result (λ bad. IsNextWord bytes.now bad.piece
            × IsSecondNumberFault (reading_value self.now) form bad.reason (text_words bytes.now)) }
    {
        let (second, rest) = match read_number(bytes, second_most(form)) {
            Ok(read) => read,
            Err(bad) => return Err(bad),
        };
        match self.second_fault(form, second) {
            None => Ok((second, rest)),
            Some(reason) => Err(bad_word(bytes, reason)),
        }
    }

    // Reads a line of this form, whose numbers are still to be read, and takes it.
    fn feed_numbers(
        &mut self,
        alloc: Global,
        line: &[u8],
        form: LineForm,
        rest: &[u8],
    ) -> Result<Option<Bad>, AllocError>
        requires words { text_words line.now ≡ form_name form ∷ text_words rest.now }
        requires rest { EndsWith line.now rest.now }
        ensures { IfOk result (HasFed line.now self.old self.new) }
    {
        if !may_come(self.stage, form) {
            let reason = place_reason(self.stage, Reason::HeadingOver);
            return Ok(Some(bad_word(line, reason)));
        }
        let (first, after) = match self.read_first(form, rest) {
            Ok(read) => read,
            Err(bad) => return Ok(Some(bad)),
        };
        let (second, end) = match self.read_second(form, after) {
            Ok(read) => read,
            Err(bad) => return Ok(Some(bad)),
        };
        if let Some(bad) = extra_word(end) {
            return Ok(Some(bad));
        }
        if !self.take(alloc, with_numbers(form, first, second))? {
            unreachable!();
        }
        Ok(None)
    }

    // Reads a title after its first word, and takes it.
    fn feed_title(&mut self, line: &[u8], rest: &[u8]) -> Option<Bad>
        requires words { text_words line.now ≡ codes "onefile" ∷ text_words rest.now }
        requires rest { EndsWith line.now rest.now }
        ensures { HasFed line.now self.old self.new result }
    {
        if self.stage != Stage::Start {
            return Some(bad_word(line, place_reason(self.stage, Reason::HeadingOver)));
        }
        if let Some(bad) = title_fault(rest) {
            return Some(bad);
        }
        self.stage = Stage::Named;
        None
    }

    // Reads a script line after its first word, and takes it.
    fn feed_script(&mut self, line: &[u8], rest: &[u8]) -> Result<Option<Bad>, AllocError>
        requires words { text_words line.now ≡ codes "script" ∷ text_words rest.now }
        requires rest { EndsWith line.now rest.now }
        ensures { IfOk result (HasFed line.now self.old self.new) }
    {
        if !is_below_heading(self.stage) {
            return Ok(Some(bad_word(line, place_reason(self.stage, Reason::AfterEnd))));
        }
        if self.count >= MOST_SCRIPTS {
            return Ok(Some(bad_word(line, Reason::TooManyScripts)));
        }
        let (caller, after) = match read_number(rest, GREATEST_CELL) {
            Ok(read) => read,
            Err(bad) => return Ok(Some(bad)),
        };
        if caller >= self.callers {
            let callers = self.callers;
            return Ok(Some(bad_word(rest, Reason::NoCaller { caller, callers })));
        }
        let mut script = Script::one(Instr::Count);
        if !parse_into(after, &mut script) {
            return Ok(Some(script_fault(after)));
        }
        self.stage = Stage::Body;
        if !self.take_script(caller, &script)? {
            unreachable!();
        }
        Ok(None)
    }

    // Reads a line, and takes it if it may come next; or says why it may not.
    pub(crate) fn feed(&mut self, alloc: Global, line: &[u8]) -> Result<Option<Bad>, AllocError>
        ensures { IfOk result (HasFed line.now self.old self.new) }
    {
        if let Some(rest) = after_script(line) {
            return self.feed_script(line, rest);
        }
        let Some((first, rest)) = word(line) else {
            return Ok(None);
        };
        if first[0] == b'#' {
            return Ok(None);
        }
        if first == b"script".as_slice() {
            return self.feed_script(line, rest);
        }
        if first == b"onefile".as_slice() {
            return Ok(self.feed_title(line, rest));
        }
        match form_named(first) {
            Some(form) => self.feed_numbers(alloc, line, form, rest),
            None => {
                let reason = place_reason(self.stage, Reason::UnknownLine);
                Ok(Some(bad_word(line, reason)))
            }
        }
    }
}
