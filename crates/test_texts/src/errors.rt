//! What says why a text is no script, no plan and no image.

use of_image::ImageErr;
use of_plan::PlanErr;
use of_script::{ScriptErr, parse};
use std::test::Fail;

/// Texts that are no scripts, and the first piece of each that is at fault.
const NO_SCRIPTS: [(&str, u32); 6] = [
    ("", 0),
    ("load 16", 0),
    ("add 0 01", 0),
    ("store 3 7;", 1),
    ("count;;count", 1),
    (
        "\
count;count;count;count;count;count;count;count;count;count;count;count;count;count;count;count;\
count",
        16,
    ),
];

#[test]
fn the_first_bad_piece_is_named(rt: HostRuntime) {
    for (text, at) in NO_SCRIPTS {
        assert_eq!(rt;
            parse(text.as_bytes()).err(),
            Some(ScriptErr::Bad { at }),
            "{text}"
        );
    }
}

#[test]
fn errors_say_why(rt: HostRuntime) -> Result<(), Fail> {
    let alloc = rt.alloc();
    let script = format!(in alloc; "{}", ScriptErr::Bad { at: 1 })?;
    assert_eq!(rt; script.as_str(), "no script: piece 1");
    let plan = format!(in alloc; "{}", PlanErr::Bad { line: 3 })?;
    assert_eq!(rt; plan.as_str(), "no plan: line 3");
    let image = format!(in alloc; "{}", ImageErr::Bad { line: 15 })?;
    assert_eq!(rt; image.as_str(), "bad image, line 15");
    let unlawful = format!(in alloc; "{}", ImageErr::Unlawful { cell: 88 })?;
    assert_eq!(rt; unlawful.as_str(), "unlawful image, cell 88");
    Ok(())
}
