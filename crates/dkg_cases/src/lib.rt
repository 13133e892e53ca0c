//! Cases that an independent model wrote, as the files of `dkg_replay` have them; the reading of values and of scripts, the scanning of ancestries and the playing of probes among
//! them; and how cases are counted and told.
//!
//! It stands on nothing that runs a script: `dkg_replay` runs the scripts, and reads the files.
#![tactic(auto)]

mod cases;
mod counts;
mod parts;
mod paths;
mod probes;
mod scripts;
mod values;

pub use cases::{Case, case_of};
pub use counts::{Count, tell_count, tell_lines};
pub use parts::{
    HeldBlocks, PlainProbe, ProbeNumbers, ProbeSetting, TrackCount, four_dealers, held_block,
    held_blocks, plain_probe, probe_info, probe_limits, probe_numbers, probe_of, probe_scheme,
    sealed,
};
pub use paths::scan_ancestries;
pub use probes::play_probes;
pub use scripts::write_scripts;
pub use values::read_values;
