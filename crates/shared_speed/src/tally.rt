//! What threads did.

/// How often a work was done, and how many rows it found.
#[derive(Clone, Copy, Debug, PartialEq, Eq)]
pub struct Tally {
    pub times: u64,
    pub rows: u64,
}

impl Tally {
    /// What two did together.
    pub fn and(self, other: Tally) -> Tally {
        Tally {
            times: self.times.saturating_add(other.times),
            rows: self.rows.saturating_add(other.rows),
        }
    }
}
