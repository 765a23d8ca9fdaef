// The sum and the extremes of changes, as far as they are counted.
ghost use Rattle.std.specs.Prelude.{[], ◌∷◌, ◌≡◌, ◌+◌, ◌*◌, ◌^◌, ◌<◌, ◌≤◌, All, length};
ghost use Rattle.diffusion.specs.ChangeCounts.{Counted};

#[derive(Clone, Copy)]
pub(crate) struct Figures {
    pub(crate) total: u32,
    pub(crate) least: u32,
    pub(crate) greatest: u32,
}

impl Figures {
    // No change is above 64, so the least starts there.
    pub(crate) const NONE: Figures = Figures {
        total: 0,
        least: 64,
        greatest: 0,
    };

    // One change more.
    fn and(self, change: u32) -> Figures
        requires most { change ≤ 64 }
        requires room { self.total + 64 < 2 ^ 32 }
        ensures { Counted self (change ∷ []) result }
    {
        Figures {
            total: self.total + change,
            least: self.least.min(change),
            greatest: self.greatest.max(change),
        }
    }

    // Further changes.
    pub(crate) fn and_all(self, changes: &[u32]) -> Figures
        requires most { All (λ c. c ≤ 64) changes.now }
        requires room { self.total + 64 * length changes.now < 2 ^ 32 }
        ensures { Counted self changes.now result }
    {
        let mut figures = self;
        for change in changes {
            figures = figures.and(*change);
        }
        figures
    }
}
