//! Sources and sinks that take and give 16 bytes a call, and fail at each of their calls in turn.

use crate::top::{PIECE, told};
use of_tool::status;
use std::process::Abort;
use std::test::Fail;
use std::thread::Threads;

// A plan of one call, of which there is one report by each command.
const PLAN: &str = "\
onefile plan 1
callers 1
blocks 0
script 0 store 3 7; add 3 1
turns 0 200
evict 0
end
";

// An image without cells, and a plan of one call that goes on from it.
const LIFE: &str = "\
onefile image 2
callers 1
blocks 0
end
onefile plan 1
callers 1
blocks 0
script 0 store 3 7; add 3 1
end
";

// A plan and a legal report of it.
const REPORT: &str = "\
onefile plan 1
callers 1
blocks 0
script 0 store 3 7; add 3 1
end
onefile report 1
entry 1 0 0 run none 8
caller 0 done 1 1 0
seq 1
register 3 8
end
";

// An image without cells, and one of version 1.
const IMAGE: &str = "onefile image 2\ncallers 1\nblocks 0\nend\n";

const EARLIER: &str = "onefile image 1\ncallers 1\nblocks 0\nend\n";

// A life of one call from such an image, with all that it leaves.
const JUDGED: &str = "\
onefile image 2
callers 1
blocks 0
end
onefile plan 1
callers 1
blocks 0
script 0 store 0 70
end
onefile report 1
entry 1 0 0 run none
caller 0 done 1 1 48
seq 1
register 0 70
end
onefile image 2
callers 1
blocks 0
cell 0 1 0
cell 1 1 1
cell 2 1 1
cell 3 1 65536
cell 4 1 0
cell 20 1 70
cell 83 1 4
cell 84 1 0
cell 85 1 1
cell 86 1 1
cell 87 1 65536
cell 88 1 2
cell 89 1 0
cell 90 1 18
cell 91 1 70
end
";

// Each command that reads something, with what it reads.
const READERS: [(&[&str], &str); 13] = [
    (&["serial"], PLAN),
    (&["play"], PLAN),
    (&["run"], PLAN),
    (&["continue"], LIFE),
    (&["check"], REPORT),
    (&["check-life"], JUDGED),
    (&["part", "1"], LIFE),
    (&["image"], PLAN),
    (&["trace", "0", "9"], PLAN),
    (&["commits"], PLAN),
    (&["recover"], IMAGE),
    (&["renumber"], IMAGE),
    (&["migrate"], EARLIER),
];

// More reads and writes than any of these calls makes.
const MOST_CALLS: u64 = 1000;

// Each read in turn fails.
fn each_read_fails<R: Abort + Threads + Sync + AllocGlobal>(
    rt: &R,
    words: &[&str],
    input: &str,
) -> Result<(), Fail> {
    for number in 0..MOST_CALLS {
        let (status, text) = told(rt, words, input, &[number], &[])?;
        if status == status::DONE {
            assert!(rt; number > input.len() as u64 / PIECE as u64, "{number}");
            return Ok(());
        }
        assert_eq!(rt; status, status::READ_FAULT, "{number}");
        assert_eq!(rt;
            text.as_slice(),
            b"error: read fault\n".as_slice(),
            "{number}"
        );
    }
    panic!(rt; "the source is read without end")
}

// Each write in turn fails: what was to be written before stands there.
fn each_write_fails<R: Abort + Threads + Sync + AllocGlobal>(
    rt: &R,
    words: &[&str],
    input: &str,
) -> Result<(), Fail> {
    let (done, whole) = told(rt, words, input, &[], &[])?;
    assert_eq!(rt; done, status::DONE);
    for number in 0..MOST_CALLS {
        let (status, text) = told(rt, words, input, &[], &[number])?;
        if status == status::DONE {
            assert_eq!(rt; text.as_slice(), whole.as_slice(), "{number}");
            return Ok(());
        }
        assert_eq!(rt; status, status::WRITE_FAULT, "{number}");
        assert_eq!(rt; text.len(), number as usize * PIECE, "{number}");
        assert!(rt; whole.as_slice().starts_with(text.as_slice()), "{number}");
    }
    panic!(rt; "the sink is written without end")
}

#[test]
fn reads_fail(rt: HostRuntime) -> Result<(), Fail> {
    for (words, input) in READERS {
        each_read_fails(&rt, words, input)?;
    }
    Ok(())
}

#[test]
fn writes_fail(rt: HostRuntime) -> Result<(), Fail> {
    for (words, input) in READERS {
        each_write_fails(&rt, words, input)?;
    }
    each_write_fails(&rt, &["load", "2", "3"], "")?;
    // the line that says that a read has failed is not written either
    let told = told(&rt, &["serial"], PLAN, &[0], &[0])?;
    assert_eq!(rt; told.0, status::WRITE_FAULT);
    assert!(rt; told.1.is_empty());
    Ok(())
}
