//! A dealer's log as it is recorded.

use dkg_ceremony::DealerLog;
use dkg_values::Height;

/// A dealer's log, and the height of the block that carried it, where it was recorded with one.
#[derive(Drop)]
pub struct RecordedLog {
    pub height: Option<Height>,
    pub log: DealerLog,
}
