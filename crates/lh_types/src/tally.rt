//! A count that its holder raises one by one.
ghost use Rattle.std.specs.Prelude.{◌≡◌, ℕ};
ghost use Rattle.lh_types.specs.Raised.{raised};

/// A count of at most 2^64 - 1.
pub trait Tally {
    ghost count: { Self → ℕ };

    /// Raises the count by one, unless it is 2^64 - 1 already.
    fn tick(&mut self)
        ensures { count self.new ≡ raised (count self.old) 1 };
}
