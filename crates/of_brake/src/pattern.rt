//! A brake that denies the asks whose numbers are in a list.

ghost use Rattle.std.specs.Prelude.{◌≡◌, ◌≤◌, false, not, None, Some};
ghost use Rattle.of_brake.specs.Stops.{HasRisen, saturating_next, is_listed};

use crate::brake::Brake;

/// A brake that denies the asks whose numbers, counted from 0, are in a list. It doesn't report its
/// steps left.
#[derive(Drop)]
pub struct Pattern {
    denied: Vec<u64>,
    asked: u64,
    denials: u64,
}

impl Pattern {
    /// A brake that denies the asks in `denied`. It has not been asked yet, and has not denied a
    /// step.
    pub fn new(denied: Vec<u64>) -> Pattern
        ensures denied { result.denied ≡ denied }
        ensures asked { result.asked ≡ 0 }
        ensures denials { result.denials ≡ 0 }
    {
        Pattern {
            denied,
            asked: 0,
            denials: 0,
        }
    }
}

impl Brake for Pattern {
    ghost denials = { λ p. p.denials };

    ghost left = { λ _. None };

    ghost answers = { λ _. None };

    ghost asks = { λ p. Some p.asked };

    fn arm(&mut self, _stop: Option<u64>) {}

    fn ask(&mut self) -> bool
        ensures denials { self.old.denials ≤ self.new.denials }
        ensures cause { result ≡ false → HasRisen self.old.denials self.new.denials }
        ensures listed { result ≡ not (is_listed self.old.asked self.old.denied.items) }
        ensures denied { self.new.denied ≡ self.old.denied }
        ensures asked { self.new.asked ≡ saturating_next self.old.asked }
    {
        let granted = !self.denied.contains(&self.asked);
        self.asked = self.asked.saturating_add(1);
        if !granted {
            self.denials = self.denials.saturating_add(1);
        }
        granted
    }

    fn answered(&mut self) {}
}
