//! How many classes and arrows there are, within the limits.
ghost use Rattle.std.specs.Prelude.{◌≡◌, ◌+◌, ◌<◌, ◌≤◌, ◌⊎◌, MatchOption};

use crate::limits::{MOST_ARROWS, MOST_CLASSES};

/// Two counts that are within the limits.
#[derive(Clone, Copy)]
pub(crate) struct Counts {
    pub(crate) classes: u16,
    pub(crate) arrows: u16,
    ghost few: { (classes ≤ 64) × (arrows ≤ 32) },
}

impl Counts {
    /// No classes and no arrows.
    pub(crate) const NONE: Counts = Counts {
        classes: 0,
        arrows: 0,
    };

    /// These counts, where they are within the limits.
    pub(crate) fn within(classes: u16, arrows: u16) -> Option<Counts>
        ensures { MatchOption result ((64 < classes) ⊎ (32 < arrows)) (λ c. (c.classes ≡ classes) × (c.arrows ≡ arrows)) }
    {
        if classes > MOST_CLASSES || arrows > MOST_ARROWS {
            return None;
        }
        Some(Counts { classes, arrows })
    }

    /// How many names there are in all.
    pub(crate) fn names(self) -> usize
        ensures { result ≡ self.classes + self.arrows }
    {
        usize::from(self.classes + self.arrows)
    }
}
