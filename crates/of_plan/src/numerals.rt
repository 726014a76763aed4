//! Which words are numerals.

ghost use Rattle.std.specs.Prelude.{◌↔◌, IsTrue};
ghost use Rattle.of_plan.specs.Numerals as numerals;

/// Whether a word is digits alone, with no 0 in front of others.
pub fn is_numeral(word: &[u8]) -> bool
    ensures { IsTrue result ↔ numerals.IsNumeral word.now }
{
    if word.is_empty() || (word[0] == b'0' && word.len() > 1) {
        return false;
    }
    for b in word {
        if !b.is_ascii_digit() {
            return false;
        }
    }
    true
}
