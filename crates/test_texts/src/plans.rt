//! Plans that are printed: such as are read, and the plan of a load.

use of_plan::{generate, parse, print};
use std::test::Fail;

/// Texts of plans, and what is printed of these.
const READ: [(&str, &str); 2] = [
    (
        "onefile plan 1\ncallers 1\nblocks 0\nevict 245\nend\n",
        "onefile plan 1\ncallers 1\nblocks 0\nlimit 4294967294\nevict 245\nend\n",
    ),
    (
        "\
# two callers
 onefile  plan 1 \n\n\
callers 2
blocks 3
limit 9
turns 1 5
script 1 count
stop 1 30
script 0 put 1 2;need 1 2
evict 0
script 1 load 4
end

# done",
        "\
onefile plan 1
callers 2
blocks 3
limit 9
script 0 put 1 2; need 1 2
script 1 count
script 1 load 4
stop 1 30
turns 1 5
evict 0
end
",
    ),
];

/// What is printed of the plan of a load of two callers with two scripts each.
const LOAD: &str = "\
onefile plan 1
callers 2
blocks 512
limit 4294967294
script 0 add 0 1; put 0 0
script 0 add 1 1; put 1 1
script 1 add 0 1; put 31 0
script 1 add 1 1; put 32 1
end
";

#[test]
fn plans_are_printed(rt: HostRuntime) -> Result<(), Fail> {
    let alloc = rt.alloc();
    for (text, printed) in READ {
        let out = print(alloc, &parse(alloc, text.as_bytes())?)?;
        assert_eq!(rt; out.as_slice(), printed.as_bytes());
    }
    let out = print(alloc, &generate(alloc, 2, 2)?)?;
    assert_eq!(rt; out.as_slice(), LOAD.as_bytes());
    Ok(())
}
