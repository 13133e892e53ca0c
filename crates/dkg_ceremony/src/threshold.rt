//! How many of a set of participants may fail, and how many the others are.
//!
//! Sharings take their polynomial's length from here, rounds their quorums.
ghost use Rattle.std.specs.Prelude.{◌≡◌};
ghost use Rattle.dkg_ceremony.specs.Thresholds.{max_faults_of, quorum_of};

/// How many of `n` participants may fail: the most f with 3f + 1 ≤ n, and 0 for none.
pub fn max_faults(n: u32) -> u32
    ensures { result ≡ max_faults_of n }
{
    n.saturating_sub(1) / 3
}

/// How many of `n` participants are enough whichever may fail: n less `max_faults(n)`.
pub fn quorum(n: u32) -> u32
    ensures { result ≡ quorum_of n }
{
    n - max_faults(n)
}
