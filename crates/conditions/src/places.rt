//! The place of a column.
ghost use Rattle.std.specs.Prelude.{◌≡◌, ◌<◌, ◌≤◌, MatchOption};

// The place of a column among at most eight.
#[derive(Clone, Copy, PartialEq, Eq, Debug)]
pub struct Place {
    at: usize,
    ghost below: { at < 8 },
}

impl Place {
    // A place from the ninth on is none. (`then_some` would make the place before the test.)
    pub fn new(at: usize) -> Option<Place>
        ensures { MatchOption result (8 ≤ at) (λ p. p.at ≡ at) }
    {
        if at < 8 { Some(Place { at }) } else { None }
    }

    pub fn at(&self) -> usize
        ensures { result ≡ self.now.at }
    {
        self.at
    }
}
