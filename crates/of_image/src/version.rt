//! Versions of the text of images.

ghost use Rattle.std.specs.Prelude.{◌≡◌, ◌≤◌};
ghost use Rattle.of_image.specs.Version.{version_number, instrs_of};

use of_script::MOST_INSTRS;

/// The most instructions of a script in a version 1 image.
const EARLIER_INSTRS: u32 = 8;

/// A version of the text of images. It says how many instructions scripts have at most, and so how
/// many own cells each caller has.
#[derive(Clone, Copy, Debug, PartialEq, Eq)]
pub enum Version {
    /// Scripts have at most eight instructions.
    One,
    /// Scripts have at most `MOST_INSTRS` instructions.
    Two,
}

impl Version {
    ghost use Rattle.std.specs.Prelude.{◌≡◌, ◌≤◌};
    ghost use Rattle.of_image.specs.Version.{version_number, instrs_of};

    /// The number of the version in the title of a text.
    pub fn number(self) -> u32
        ensures { result ≡ version_number self }
    {
        match self {
            Version::One => 1,
            Version::Two => 2,
        }
    }

    /// How many instructions a script has at most.
    pub fn instrs(self) -> u32
        ensures value { result ≡ instrs_of self }
        ensures some { 1 ≤ result }
        ensures few { result ≤ 16 }
    {
        match self {
            Version::One => EARLIER_INSTRS,
            Version::Two => MOST_INSTRS as u32,
        }
    }
}
