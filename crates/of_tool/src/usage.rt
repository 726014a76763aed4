//! What is said of words that are no command: what the command takes, and how a file is given.

use crate::command::{Command, MOST_EVENTS, MOST_FIRST, MOST_PART, reads_input};
use of_plan::{MOST_PLAN_CALLERS, MOST_SCRIPTS};
use std::alloc::{AllocError, Global};
use std::fmt::Write;

// How many columns words take at most. The line that has them is below 200 columns.
const MOST_COLUMNS: usize = 140;

// How many columns a character takes at most: none but ASCII takes one for certain.
fn columns(sign: char) -> usize {
    if sign.is_ascii() {
        return 1;
    }
    2
}

// Writes words at the end, each after a space: `?` for a control character, and `..` for what is
// cut off.
fn put_words(out: &mut String, words: &[String]) -> Result<(), AllocError> {
    let mut left = MOST_COLUMNS;
    for word in words {
        out.push(' ')?;
        for sign in word.as_str().chars() {
            let wide = columns(sign);
            if wide > left {
                return out.push_str("..");
            }
            left -= wide;
            if sign.is_control() {
                out.push('?')?;
            } else {
                out.push(sign)?;
            }
        }
    }
    Ok(())
}

// What is wrong with words that begin with this one. A command has the numbers that it takes.
fn put_mistake(out: &mut String, first: &String, words: &[String]) -> Result<(), AllocError> {
    match first.as_str() {
        "trace" => writeln!(
            out,
            "trace takes two numbers: the first event, from 0 to {MOST_FIRST}, \
             and how many, from 1 to {MOST_EVENTS}"
        ),
        "load" => writeln!(
            out,
            "load takes two numbers: callers, from 1 to {MOST_PLAN_CALLERS}, \
             and scripts of each, from 0, at most {MOST_SCRIPTS} in all"
        ),
        "part" => writeln!(out, "part takes one number, from 1 to {MOST_PART}"),
        _ => match Command::from_words(std::slice::from_ref(first)) {
            Some(_) => writeln!(out, "{first} takes no words after it"),
            None => {
                out.push_str("no command:")?;
                put_words(out, words)?;
                out.push_str("\n")
            }
        },
    }
}

// The command that would be right, if the last of the words is a file in place of `<`.
fn put_redirected(out: &mut String, words: &[String]) -> Result<(), AllocError> {
    let Some((file, command)) = words.split_last() else {
        return Ok(());
    };
    if !reads_input(command) || file.as_str().as_bytes().starts_with(b"-".as_slice()) {
        return Ok(());
    }
    out.push_str("input is read from standard input: onefile")?;
    put_words(out, command)?;
    out.push_str(" <")?;
    put_words(out, std::slice::from_ref(file))?;
    out.push_str("\n")
}

/// The text for standard error if the words are no command.
pub(crate) fn usage(alloc: Global, words: &[String]) -> Result<Vec<u8>, AllocError> {
    let mut out = String::new(alloc);
    match words.first() {
        None => out.push_str("a command is missing\n")?,
        Some(first) => {
            put_mistake(&mut out, first, words)?;
            put_redirected(&mut out, words)?;
        }
    }
    out.push_str("onefile --help prints the commands\n")?;
    Ok(out.into_bytes())
}
