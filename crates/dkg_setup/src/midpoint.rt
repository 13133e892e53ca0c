//! What a setup behind the midpoint and the block before it do alike: the dealer signs its log.
ghost use Rattle.std.specs.Prelude.{◌≡◌, IfErr, IfSome, OnErr, OnOk};
ghost use Rattle.dkg_fence.specs.Readiness.{Readiness};
ghost use Rattle.dkg_infos.specs.declared.fault.Fault.TheVariants.{NoMemory as OutOfMemory};
ghost use Rattle.dkg_core.specs.Fixed.{Fixed};
ghost use Rattle.dkg_core.specs.Setup as setup;
ghost use Rattle.dkg_life.specs.LiveOf.{Beside, IsDealing, IsToSign, live_of};
ghost use Rattle.dkg_life.specs.Rules.{DealsBy};
ghost use Rattle.dkg_life.specs.declared.stop.Stop.TheVariants.{Fault as Faulted};

use dkg_ceremony::Ceremony;
use dkg_infos::Directory;
use dkg_life::{Life, Stage, Stop};
use std::alloc::Global;

/// Begins inclusion: the dealer, where there is one, signs its log, and offers it from now on (`begins_inclusion`).
pub fn begin_inclusion<C: Ceremony, Dir: Directory + Drop>(
    alloc: Global,
    ceremony: &C,
    signer: &C::Signer,
    life: &mut Life<Dir>,
) -> Result<(), Stop>
    requires signs { IfSome life.old.dealer (IsToSign C.deal_of C.check_ack_of (C.Signer.key_of signer.now) life.old.round) }
    ensures begun { OnOk result ((c : Fixed Dir) (beside : Beside Dir) (fence : Readiness) → beside.inclusion.served ≡ None → c.me ≡ C.Signer.key_of signer.now
        → DealsBy C.deal_of C.check_ack_of C.sign_log_of c.rules → live_of beside fence life.new ≡ setup.begins_inclusion c (live_of beside fence life.old)) }
    ensures rest { life.new ≡ record life.old { stage = life.new.stage; dealer = life.new.dealer } }
    ensures stage { OnOk result (life.new.stage ≡ Stage.Including) }
    ensures dealing { OnOk result (IsDealing C.deal_of C.check_ack_of (C.Signer.key_of signer.now) life.new) }
    ensures same { OnErr result (life.new ≡ life.old) }
    ensures memory { IfErr result (λ stop. stop ≡ Faulted OutOfMemory) }
{
    if let Some(dealer) = &mut life.dealer {
        dealer.finalize(alloc, ceremony, signer)?;
    }
    life.stage = Stage::Including;
    Ok(())
}
