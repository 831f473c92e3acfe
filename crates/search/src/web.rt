// What the search asks of a web of points.
ghost use Rattle.std.specs.Prelude.{◌≡◌, ℕ, ◌≤◌};
ghost use Rattle.search.specs.Leads.{NextLink};

/// Numbered points with links between them, at most 2,048 points.
pub trait Web {
    /// How many points there are.
    ghost size: { Self → ℕ };

    /// Whether a link leads from the first point to the second.
    ghost link: { Self → ℕ → ℕ → Type 0 };

    /// The number of points.
    fn points(&self) -> usize
        ensures { result ≡ size self.now };

    /// The lowest point, not below `at`, that a link from `from` leads to.
    fn next_link(&self, from: usize, at: usize) -> Option<usize>
        ensures { NextLink (size self.now) (link self.now from) at result };

    /// No web has more points than a search can list.
    ghost small: { (w : Self) → size w ≤ 2048 };
}
