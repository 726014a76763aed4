//! Brakes, which are asked before each step of a caller.

ghost use Rattle.std.specs.Prelude.{◌≡◌, ℕ, ◌≤◌, false, Option};
ghost use Rattle.of_brake.specs.Stops.{HasRisen, IsArmedWith, ChargesAsk, HasHeardAnswer, Asked};

/// A brake is asked before each step of one caller, and may deny the step. A brake may also report
/// how many steps it has left. Whether a brake reports this never changes.
pub trait Brake: Drop {
    /// How often the brake has denied a step. This count never falls. A denial raises it, unless it
    /// is at 2 ^ 64 - 1.
    ghost denials: { Self → ℕ };

    /// How many steps are left: None if the brake doesn't report this, `Some None` if there is no
    /// limit.
    ghost left: { Self → Option (Option ℕ) };

    /// How many answered calls the brake was told of: None if it doesn't count them.
    ghost answers: { Self → Option ℕ };

    /// How often the brake was asked: None if it doesn't count this.
    ghost asks: { Self → Option ℕ };

    /// Gives the brake the number of steps that it has left, if the brake reports this number.
    /// `None` means that there is no limit.
    fn arm(&mut self, stop: Option<u64>)
        ensures denials { denials self.old ≤ denials self.new }
        ensures armed { IsArmedWith (left self.old) stop (left self.new) }
        ensures answers { answers self.new ≡ answers self.old }
        ensures asks { asks self.new ≡ asks self.old };

    /// Asks whether the caller may make its next step; the answer false denies the step. A brake
    /// that reports its steps left denies a step exactly if none is left, and a granted step takes
    /// one off.
    fn ask(&mut self) -> bool
        ensures denials { denials self.old ≤ denials self.new }
        ensures cause { result ≡ false → HasRisen (denials self.old) (denials self.new) }
        ensures left { ChargesAsk (left self.old) (left self.new) result }
        ensures answers { answers self.new ≡ answers self.old }
        ensures asks { Asked (asks self.old) (asks self.new) };

    /// Tells the brake that a call of its caller was answered.
    fn answered(&mut self)
        ensures denials { denials self.old ≤ denials self.new }
        ensures left { left self.new ≡ left self.old }
        ensures answers { HasHeardAnswer (answers self.old) (answers self.new) }
        ensures asks { asks self.new ≡ asks self.old };
}
