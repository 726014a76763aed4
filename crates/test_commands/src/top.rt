//! The top call over ends in memory.

use of_brake::{Brake, Fuel};
use of_io::{MemSink, MemSource};
use of_tool::{TeamRecord, tool};
use std::alloc::{AllocError, Global};
use std::process::Abort;
use std::test::Fail;
use std::thread::Threads;

/// How many brakes the top call takes.
const BRAKES: usize = 16;

/// How many bytes a read gives and a write takes at most.
pub const PIECE: usize = 16;

/// The most that is written.
const ROOM: usize = 10_000;

/// Adds brakes that deny no step but that after a stop, up to as many as the top call takes.
pub fn fill(alloc: Global, brakes: &mut Vec<Box<dyn Brake + Send>>) -> Result<(), AllocError> {
    for _ in brakes.len()..BRAKES {
        let brake: Box<dyn Brake + Send> = Box::new(alloc, Fuel::new())?;
        brakes.push(brake)?;
    }
    Ok(())
}

/// The status of the top call with these words and brakes, and what it recorded of a run.
pub fn answer<R: Abort + Threads + Sync + AllocGlobal>(
    rt: &R,
    words: &[&str],
    source: &mut MemSource,
    sink: &mut MemSink,
    brakes: Vec<Box<dyn Brake + Send>>,
) -> Result<(u8, TeamRecord), Fail> {
    let alloc = rt.alloc();
    let mut owned = Vec::new(alloc);
    for word in words {
        owned.push(String::from_str(alloc, word)?)?;
    }
    assert!(rt; brakes.len() == BRAKES);
    let mut ran = None;
    let mut reason = Vec::new(alloc);
    let words = owned.as_slice();
    let status = tool(
        rt,
        alloc,
        words,
        source,
        sink,
        brakes,
        &mut ran,
        &mut reason,
    );
    Ok((status, ran))
}

/// The status of the words over this input, and what was written, if the source and the sink take
/// and give `PIECE` bytes a call and fail at calls of these numbers.
pub fn told<R: Abort + Threads + Sync + AllocGlobal>(
    rt: &R,
    words: &[&str],
    input: &str,
    reads: &[u64],
    writes: &[u64],
) -> Result<(u8, Vec<u8>), Fail> {
    let alloc: Global = rt.alloc();
    let input = Vec::from_slice(alloc, input.as_bytes())?;
    let mut source = MemSource::new(input, PIECE, Vec::from_slice(alloc, reads)?);
    let mut sink = MemSink::new(alloc, ROOM, PIECE, Vec::from_slice(alloc, writes)?)?;
    let mut brakes = Vec::new(alloc);
    fill(alloc, &mut brakes)?;
    let (status, _) = answer(rt, words, &mut source, &mut sink, brakes)?;
    Ok((status, Vec::from_slice(alloc, sink.bytes())?))
}
