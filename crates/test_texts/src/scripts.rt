//! Scripts that are printed.

use of_script::{parse, print};
use std::test::Fail;

/// Texts of scripts, and what is printed of these.
const READ: [(&str, &str); 6] = [
    ("store  3 7 ;add 3 1", "store 3 7; add 3 1"),
    ("load 15;sub 0 2147483647", "load 15; sub 0 2147483647"),
    (" get 0 ; put 1001 5", "get 0; put 1001 5"),
    ("del 1;need 2 3;push 3 9", "del 1; need 2 3; push 3 9"),
    ("pop 0; len 1;count ", "pop 0; len 1; count"),
    (
        "first;next 0 ; drop-below 2147483647",
        "first; next 0; drop-below 2147483647",
    ),
];

#[test]
fn scripts_are_printed(rt: HostRuntime) -> Result<(), Fail> {
    for (text, printed) in READ {
        let out = print(rt.alloc(), &parse(text.as_bytes())?)?;
        assert_eq!(rt; out.as_slice(), printed.as_bytes());
    }
    Ok(())
}
