//! The parts of an epoch. A node deals in the first, and includes logs in the others.

/// Where a height stands in its epoch.
#[derive(Clone, Copy, Debug, PartialEq, Eq)]
pub enum Phase {
    /// Below the midpoint.
    Early,
    /// At the midpoint.
    Midpoint,
    /// Above the midpoint.
    Late,
}
