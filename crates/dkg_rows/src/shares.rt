//! Runs over secrets that hold a share of epoch 0 before, which a script can't give.

use crate::runs::runs_to;
use crate::texts::life;
use dkg_ceremony::Share;
use dkg_journal::{Disk, MemoryDisk};
use dkg_store::{MemorySecrets, SecretStore};
use dkg_values::{Element, Epoch};
use std::alloc::Global;
use std::test::Fail;

/// Fails where a script of a node that is handed this share of epoch 0 doesn't end with this status and these lines.
fn runs_over<D: Disk, X: SecretStore>(
    alloc: Global,
    disk: &mut D,
    secrets: &mut X,
    share: u16,
    script: &str,
    status: u8,
    lines: &str,
) -> Result<(), Fail> {
    let element = Element::new(share).ok_or("no element")?;
    secrets.put_share(alloc, Epoch(0), Share(element))?;
    runs_to(alloc, script, disk, secrets, status, lines)
}

/// .. over memory.
fn runs_with(alloc: Global, share: u16, script: &str, status: u8, lines: &str) -> Result<(), Fail> {
    let mut disk = MemoryDisk::new(alloc);
    let mut secrets = MemorySecrets::new(alloc);
    runs_over(alloc, &mut disk, &mut secrets, share, script, status, lines)
}

/// The output gives key 1 the share 8.
#[test]
fn a_share_of_another_output_is_refused(rt: HostRuntime) -> Result<(), Fail> {
    let alloc = rt.alloc();
    let text = life(alloc, "")?;
    runs_with(
        alloc,
        8,
        text.as_str(),
        0,
        "opened 0 0\ncommitted 0 8\nregistered 0 signer\nsetup 0 early both\nentered 0\nstep 0\ndone\n",
    )?;
    runs_with(
        alloc,
        9,
        text.as_str(),
        4,
        "opened 0 0\ncommitted 0 9\nregistered 0 signer\nfault 17 2 0\n",
    )
}
