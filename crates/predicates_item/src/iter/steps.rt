//! A count of comparisons.
ghost use Rattle.std.specs.Prelude.{◌≡◌, ◌+◌, ◌<◌, ◌^◌};

use std::marker::Model;

/// How many comparisons a search made.
#[derive(Drop)]
pub struct Steps {
    taken: usize,
}

impl Model for Steps {
    ghost use Rattle.std.specs.Prelude.{ℕ};

    ghost Value = { ℕ };

    ghost view = { λ s. s.taken };
}

impl Steps {
    /// A count of no comparisons.
    ///
    /// ```
    /// let steps = Steps::new();
    /// assert!(rt; steps.count() == 0);
    /// ```
    pub fn new() -> Steps
        ensures { result ≡ 0 }
    {
        Steps { taken: 0 }
    }

    /// The number of comparisons.
    pub fn count(&self) -> usize
        ensures { result ≡ self.now }
    {
        self.taken
    }

    pub(crate) fn clear(&mut self)
        ensures { self.new ≡ 0 }
    {
        *self = Steps::new();
    }

    pub(crate) fn add_one(&mut self)
        requires { self.old + 1 < 2 ^ 64 }
        ensures { self.new ≡ self.old + 1 }
    {
        self.taken += 1;
    }
}
