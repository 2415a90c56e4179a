//! How much all searches of one explanation may do together.

ghost use Rattle.std.specs.Prelude.{◌≡◌, ◌+◌, IsTrue};

/// The most arcs that are looked at, again and again.
const MOST_STEPS: u32 = 1 << 26;

/// How many arcs may still be looked at. Searches that share it take no longer than one.
#[derive(Clone, Copy)]
pub struct Steps {
    left: u32,
}

impl Steps {
    /// Those of one explanation.
    pub fn all() -> Steps {
        Steps { left: MOST_STEPS }
    }

    /// How many are left.
    pub(crate) fn left(self) -> u32 {
        self.left
    }

    /// Takes steps. Returns whether as many were left.
    pub(crate) fn take(&mut self, count: u32) -> bool
        ensures taken { IsTrue result → self.new.left + count ≡ self.old.left }
        ensures kept { ¬ IsTrue result → self.new ≡ self.old }
    {
        if count > self.left {
            return false;
        }
        self.left -= count;
        true
    }
}
