//! A brake that lets a caller make a given number of steps.

ghost use Rattle.std.specs.Prelude.{◌≡◌, Some, None};

use crate::brake::Brake;

/// A brake that reports how many steps are left, and denies a step exactly if none is left.
#[derive(Drop)]
pub struct Fuel {
    denials: u64,
    left: Option<u64>,
}

impl Fuel {
    /// A brake with no limit, which has not denied a step yet.
    pub fn new() -> Fuel
        ensures denials { result.denials ≡ 0 }
        ensures left { result.left ≡ None }
    {
        Fuel {
            denials: 0,
            left: None,
        }
    }
}

impl Brake for Fuel {
    ghost denials = { λ f. f.denials };

    ghost left = { λ f. Some f.left };

    ghost answers = { λ _. None };

    ghost asks = { λ _. None };

    fn arm(&mut self, stop: Option<u64>) {
        self.left = stop;
    }

    fn ask(&mut self) -> bool {
        match self.left {
            None => true,
            Some(0) => {
                self.denials = self.denials.saturating_add(1);
                false
            }
            Some(n) => {
                self.left = Some(n - 1);
                true
            }
        }
    }

    fn answered(&mut self) {}
}
