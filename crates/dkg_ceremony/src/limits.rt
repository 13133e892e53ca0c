//! Under which limits an output that a node holds can be read again.
//!
//! A type keeps all that its spelling asks but the participant limit and the version, so these alone are left to ask.
ghost use Rattle.std.specs.Prelude.{ℕ, ◌≤◌, length, IsTrue};
ghost use Rattle.dkg_ceremony.specs.Modes.{supports_of};
ghost use Rattle.dkg_ceremony.specs.Outputs.{OutputFits};

use crate::output::{Output, known};
use dkg_values::EncodeSize;

impl Output {
    /// An output may be read under each limit that is no less than its numbers of dealers and of players, by each
    /// version that has its mode.
    pub fn fits_limits(&self)
        ensures { (most version : ℕ) → IsTrue (supports_of version self.now.sharing.mode) → length self.now.dealers ≤ most → length self.now.players ≤ most
            → OutputFits most version self.now }
    {
        let _mark = self.summary.encode_size();
        known(self);
        self.sharing.fits_limits();
        self.dealers.fits_limits();
        self.players.fits_limits();
        self.revealed.fits_limits();
    }
}
