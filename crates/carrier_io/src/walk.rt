//! A count of steps.
ghost use Rattle.std.specs.Prelude.{◌≡◌, ◌<◌, ◌^◌, ℕ};
ghost use Rattle.carrier_io.specs.Steps.{stepped};

use std::marker::Model;

/// How many table words were followed; the count stays at the greatest u64.
#[derive(Debug, Drop)]
pub struct Walk {
    steps: u64,
}

impl Model for Walk {
    ghost Value = { ℕ };

    ghost view = { λ w. w.steps };

    ghost invariant = { λ w. w.steps < 2 ^ 64 };
}

impl Walk {
    /// A walk of no steps.
    pub fn new() -> Walk
        ensures { result ≡ 0 }
    {
        Walk { steps: 0 }
    }

    /// Counts one step.
    pub fn tick(&mut self)
        ensures { self.new ≡ stepped self.old 1 }
    {
        self.steps = self.steps.saturating_add(1);
    }

    /// The steps so far.
    pub fn count(&self) -> u64
        ensures { result ≡ self.now }
    {
        self.steps
    }
}
