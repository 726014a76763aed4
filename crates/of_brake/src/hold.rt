//! A pair of brakes: one holds its caller until the other's caller has had a call answered.

ghost use Rattle.std.specs.Prelude.{◌≡◌, ◌≤◌, ◌-◌, false, true, None, IfOk};
ghost use Rattle.of_brake.specs.Stops.{HasRisen};

use crate::brake::Brake;
use std::alloc::{AllocError, Global};
use std::sync::Arc;
use std::sync::atomic::{AtomicBool, Ordering};

/// A brake that grants every ask but one. At that ask the brake looks at the flag of its `Teller`,
/// at most a given number of times. It grants the step if it has found the flag set, and otherwise
/// denies the step. The brake doesn't report its steps left.
#[derive(Drop)]
pub struct Holder {
    told: Arc<AtomicBool, Global>,
    // How many asks come up to the one that it holds, that one too; 0 if that has come.
    until: u64,
    turns: u64,
    denials: u64,
}

/// A brake that grants every step, and sets a flag when a call of its caller is answered. Its
/// `Holder` waits for this flag. It doesn't report its steps left.
#[derive(Drop)]
pub struct Teller {
    told: Arc<AtomicBool, Global>,
}

/// A `Holder` and its `Teller`. The holder holds the ask with number `at`, counted from 1, and
/// looks at the flag at most `turns` times. An error means that there is not enough memory.
pub fn hold_pair(alloc: Global, at: u64, turns: u64) -> Result<(Holder, Teller), AllocError>
    requires at { 1 ≤ at }
    requires turns { 1 ≤ turns }
    ensures until { IfOk result (λ pair. pair.0.until ≡ at) }
    ensures turns { IfOk result (λ pair. pair.0.turns ≡ turns) }
    ensures denials { IfOk result (λ pair. pair.0.denials ≡ 0) }
{
    let told = Arc::new(alloc, AtomicBool::new(false))?;
    let teller = Teller {
        told: Arc::try_clone(&told)?,
    };
    let holder = Holder {
        told,
        until: at,
        turns,
        denials: 0,
    };
    Ok((holder, teller))
}

impl Holder {
    // Whether one of `turns` looks finds the flag set.
    fn is_told(&self) -> bool {
        for _ in 0..self.turns {
            if self.told.load(Ordering::SeqCst) {
                return true;
            }
        }
        false
    }
}

impl Brake for Holder {
    ghost denials = { λ h. h.denials };

    ghost left = { λ _. None };

    ghost answers = { λ _. None };

    ghost asks = { λ _. None };

    fn arm(&mut self, _stop: Option<u64>) {}

    fn ask(&mut self) -> bool
        ensures denials { self.old.denials ≤ self.new.denials }
        ensures cause { result ≡ false → HasRisen self.old.denials self.new.denials }
        ensures held { result ≡ false → self.old.until ≡ 1 }
        ensures until { self.new.until ≡ self.old.until - 1 }
    {
        let held = self.until == 1;
        self.until = self.until.saturating_sub(1);
        if !held || self.is_told() {
            return true;
        }
        self.denials = self.denials.saturating_add(1);
        false
    }

    fn answered(&mut self) {}
}

impl Brake for Teller {
    ghost denials = { λ _. 0 };

    ghost left = { λ _. None };

    ghost answers = { λ _. None };

    ghost asks = { λ _. None };

    fn arm(&mut self, _stop: Option<u64>) {}

    fn ask(&mut self) -> bool
        ensures { result ≡ true }
    {
        true
    }

    fn answered(&mut self) {
        self.told.store(true, Ordering::SeqCst);
    }
}
