//! A brake that never denies a step.

ghost use Rattle.std.specs.Prelude.{◌≡◌, true, None};

use crate::brake::Brake;

/// A brake that grants every step and counts nothing. It doesn't report its steps left, even after
/// it is armed.
#[derive(Drop)]
pub struct Free;

impl Brake for Free {
    ghost denials = { λ _. 0 };

    ghost left = { λ _. None };

    ghost answers = { λ _. None };

    ghost asks = { λ _. None };

    fn arm(&mut self, _stop: Option<u64>) {}

    fn ask(&mut self) -> bool
        ensures { result ≡ true }
    {
        true
    }

    fn answered(&mut self) {}
}
