//! A node in one life: the reshare actor, and the orchestrator's half behind it.
ghost use Rattle.std.specs.Prelude.{◌≡◌, ℕ, IfErr, IfOk, IsTrue, OnOk, true};
ghost use Rattle.std.specs.Int.NonZero.{non_zero_u32_get, non_zero_u64_get};
ghost use Rattle.dkg_values.specs.Rising.{rises};
ghost use Rattle.dkg_ceremony.specs.declared.mode.Reveal.TheVariants.{V1};
ghost use Rattle.dkg_journal.specs.Disk.{Rose};
ghost use Rattle.dkg_journal.specs.Fuse.{Reached};
ghost use Rattle.dkg_store.specs.Corrupt.{AreFit};
ghost use Rattle.dkg_infos.specs.declared.directory.Unit as directory;
ghost use Rattle.dkg_text.specs.declared.script.Event.TheVariants as event;
ghost use Rattle.dkg_script.specs.Players.{epochs_of};
ghost use Rattle.dkg_core.specs.Live.{Delivers, Feed, Live, Reshare};
ghost use Rattle.dkg_core.specs.Node.{node_opening, node_step};
ghost use Rattle.dkg_life.specs.Ready.{IsFoundAt};
ghost use Rattle.dkg_blocks.specs.CarriedLogs.{CarriesWithin};
ghost use Rattle.dkg_life.specs.Ends.{StopsReading};
ghost use Rattle.dkg_life.specs.Given.{AreGivenFrom, HasRead};
ghost use Rattle.dkg_life.specs.LiveOf.{no_fence};
ghost use Rattle.dkg_life.specs.Made.{Makes, Tells, UnlessBroken};
ghost use Rattle.dkg_life.specs.Moved.{Moved, StaysAbove};
ghost use Rattle.dkg_life.specs.Opened.{IsInGrammar, OpensReadable};
ghost use Rattle.dkg_life.specs.Planless.{seen_planless};
ghost use Rattle.dkg_reshare.specs.Actors.{AreTerms, IsNew};
ghost use Rattle.dkg_lives.specs.Epochs.{MayStep};
ghost use Rattle.dkg_lives.specs.Given.{IsUnplanned, Lived, at_step, blocks_in, limits_of, lived, starts_above, step_of};
ghost use Rattle.dkg_node.specs.Nodes.{GoesIn, IsEventHere, IsMail, IsOfLife, IsReadyNode, IsView, Viewed, ViewedNew, ended_new, node_of, sent_event};
ghost use Rattle.dkg_around.specs.Sources.{IsToOpen};

use dkg_around::{Half, HeldBlocks, Players};
use dkg_ceremony::{Blob, Key, Mem, Reveal, StandCeremony, StandSigner, Value};
use dkg_fence::Fence;
use dkg_infos::{Transcript, Unit};
use dkg_journal::Disk;
use dkg_reshare::{Actor, Config, Message, Stop};
use dkg_script::{Event, Life, Script, ScriptConfig};
use dkg_store::{Devices, SecretStore};
use dkg_types::{Block, NoopRegistrar};
use std::alloc::Global;
use std::num::NonZeroU64;

/// A node between two steps of a life.
#[derive(Drop)]
pub struct Node<'a> {
    actor: Actor<StandCeremony, Players<'a>, NoopRegistrar, (), Unit>,
    fence: Fence,
    half: Half,
    blocks_per_epoch: NonZeroU64,
}

/// What the actor of a script's lives is made with.
fn config_of<'a>(
    alloc: Global,
    config: &'a ScriptConfig,
) -> Mem<Config<StandCeremony, Players<'a>, NoopRegistrar, ()>>
    requires { rises (epochs_of config.now.players) ≡ true }
    ensures { IfOk result (λ made. (made.signer ≡ config.now.me) × (made.namespace ≡ config.now.namespace) × (made.mode ≡ config.now.mode)
        × (made.max_mode ≡ config.now.max_mode) × (made.reveal ≡ V1) × (made.max_participants ≡ config.now.limit)
        × (made.blocks_per_epoch ≡ config.now.blocks_per_epoch) × (made.provider.lines.now ≡ config.now.players)) }
{
    Ok(Config {
        ceremony: StandCeremony,
        signer: StandSigner::new(config.me),
        provider: Players::new(config.players.as_slice()),
        registrar: NoopRegistrar,
        manager: (),
        namespace: config.namespace.copy(alloc)?,
        mode: config.mode,
        max_mode: config.max_mode,
        reveal: Reveal::V1,
        max_participants: config.limit,
        blocks_per_epoch: config.blocks_per_epoch,
    })
}

/// A copy of a message's bytes.
fn copied(alloc: Global, bytes: &[u8]) -> Mem<Blob>
    ensures { IfOk result (λ made. made ≡ bytes.now) }
{
    Ok(Blob::new(Vec::from_slice(alloc, bytes)?))
}

/// Opens the actor's half of a life, and then the orchestrator's behind it.
fn open_halves<'a, D: Disk, X: SecretStore>(
    alloc: Global,
    actor: &mut Actor<StandCeremony, Players<'a>, NoopRegistrar, (), Unit>,
    fence: &mut Fence,
    script: &Script,
    number: u64,
    life: &Life,
    source: &HeldBlocks<'_>,
    devices: &mut Devices<'_, D, X>,
    out: &mut Transcript,
) -> Result<Half, Stop>
    requires here { IsToOpen script.now number life.now source.now }
    requires new { IsNew actor.old.state }
    requires are { AreTerms actor.old.terms script.now.config.me script.now.config.blocks_per_epoch script.now.config.limit script.now.config.max_mode
        script.now.config.mode V1 script.now.config.namespace }
    requires players { actor.old.provider.lines.now ≡ script.now.config.players }
    requires fresh { fence.old ≡ no_fence }
    // What is said of a node is said of the one that is made of what was opened.
    ensures ready { IfOk (node_of result
        (λ half. record { actor = actor.new; fence = fence.new; half = half; blocks_per_epoch = script.now.config.blocks_per_epoch }))
        (λ node. IsReadyNode D.tells D.files D.image node devices.new) }
    ensures of { IfOk (node_of result
        (λ half. record { actor = actor.new; fence = fence.new; half = half; blocks_per_epoch = script.now.config.blocks_per_epoch }))
        (λ node. (g : Lived) → g.script ≡ script.now → g.life ≡ life.now → IsUnplanned g.seen → IsOfLife g node) }
    ensures acts { IsTrue D.tells → IsTrue X.tells → IsInGrammar (limits_of script.now).limit (D.files devices.old.disk.now)
        → ViewedNew (node_of result
        (λ half. record { actor = actor.new; fence = fence.new; half = half; blocks_per_epoch = script.now.config.blocks_per_epoch }))
        (λ ended. Makes D.files D.image X.held
        (node_opening (at_step (lived script.now number life.now seen_planless (D.files devices.old.disk.now)) 0))
        ended devices.old devices.new out.old.entries out.new.entries) }
    ensures tells { HasRead (λ s. UnlessBroken (ended_new (node_of result
        (λ half. record { actor = actor.new; fence = fence.new; half = half; blocks_per_epoch = script.now.config.blocks_per_epoch })))
        (IsTrue D.tells → IsTrue X.tells
        → AreGivenFrom (starts_above script.now number life.now) s.dealings (D.image devices.new.disk.now) (X.held devices.new.secrets.now)))
        (λ s. ViewedNew (node_of result
        (λ half. record { actor = actor.new; fence = fence.new; half = half; blocks_per_epoch = script.now.config.blocks_per_epoch }))
        (λ ended. Tells (node_opening (at_step (lived script.now number life.now (λ h. s) (D.files devices.old.disk.now)) 0))
        ended out.old.entries out.new.entries)) }
    ensures readable { IsTrue D.tells → OpensReadable (IsInGrammar (limits_of script.now).limit (D.files devices.old.disk.now)) result
        out.old.entries out.new.entries
        (D.image devices.old.disk.now) (D.image devices.new.disk.now) (X.held devices.old.secrets.now) (X.held devices.new.secrets.now) }
    ensures moved { Moved D.tells D.made X.made D.faults X.faults devices.old devices.new }
    ensures causes { IfErr result (λ stop. IsFoundAt (limits_of script.now).limit D.tells (D.files devices.new.disk.now) stop
        (Rose (D.faults devices.old.disk.now) (D.faults devices.new.disk.now)) (Rose (X.faults devices.old.secrets.now) (X.faults devices.new.secrets.now))
        (Reached devices.old.fuse devices.new.fuse)) }
    ensures loose { IsTrue D.tells → StaysAbove (starts_above script.now number life.now) (D.image devices.old.disk.now) (D.image devices.new.disk.now)
        (X.held devices.old.secrets.now) (X.held devices.new.secrets.now) }
{
    actor.open(alloc, devices, source, number, life.word, fence, out)?;
    let half = Half::open(script.config.blocks_per_epoch, source, fence, out)?;
    Ok(half)
}

impl<'a> Node<'a> {
    /// Opens the life of a number: the actor's half, and then the orchestrator's.
    pub fn open<D: Disk, X: SecretStore>(
        alloc: Global,
        script: &'a Script,
        number: u64,
        life: &Life,
        source: &HeldBlocks<'_>,
        devices: &mut Devices<'_, D, X>,
        out: &mut Transcript,
    ) -> Result<Node<'a>, Stop>
        requires here { IsToOpen script.now number life.now source.now }
        // It goes on over these devices alone, as a node of this life.
        ensures ready { IfOk result (λ node. IsReadyNode D.tells D.files D.image node devices.new) }
        ensures of { IfOk result (λ node. (g : Lived) → g.script ≡ script.now → g.life ≡ life.now → IsUnplanned g.seen → IsOfLife g node) }
        // It is the relation's opening of a journal in its grammar, and each act was made, whatever image a crash leaves.
        ensures acts { IsTrue D.tells → IsTrue X.tells → IsInGrammar (limits_of script.now).limit (D.files devices.old.disk.now)
            → ViewedNew result (λ ended. Makes D.files D.image X.held
            (node_opening (at_step (lived script.now number life.now seen_planless (D.files devices.old.disk.now)) 0))
            ended devices.old devices.new out.old.entries out.new.entries) }
        // Whatever the devices tell, its lines are those of an opening that has read something: where they tell, of the epoch before the one in which it
        // starts and later ones the dealings that each image gives back.
        ensures tells { HasRead (λ s. UnlessBroken (ended_new result) (IsTrue D.tells → IsTrue X.tells
            → AreGivenFrom (starts_above script.now number life.now) s.dealings (D.image devices.new.disk.now) (X.held devices.new.secrets.now)))
            (λ s. ViewedNew result (λ ended. Tells (node_opening (at_step (lived script.now number life.now (λ h. s) (D.files devices.old.disk.now)) 0))
            ended out.old.entries out.new.entries)) }
        // A journal that is not in its grammar is not opened: nothing is told, and all stays.
        ensures readable { IsTrue D.tells → OpensReadable (IsInGrammar (limits_of script.now).limit (D.files devices.old.disk.now)) result
            out.old.entries out.new.entries
            (D.image devices.old.disk.now) (D.image devices.new.disk.now) (X.held devices.old.secrets.now) (X.held devices.new.secrets.now) }
        ensures moved { Moved D.tells D.made X.made D.faults X.faults devices.old devices.new }
        // A device is blamed where its count rose, a cut where the fuse reached its call, and a record where it stands.
        ensures causes { IfErr result (λ stop. IsFoundAt (limits_of script.now).limit D.tells (D.files devices.new.disk.now) stop
            (Rose (D.faults devices.old.disk.now) (D.faults devices.new.disk.now)) (Rose (X.faults devices.old.secrets.now) (X.faults devices.new.secrets.now))
            (Reached devices.old.fuse devices.new.fuse)) }
        // Where something was loose: what a crash leaves stays in its grammar, and gives the same dealings of those epochs back.
        ensures loose { IsTrue D.tells → StaysAbove (starts_above script.now number life.now) (D.image devices.old.disk.now) (D.image devices.new.disk.now)
            (X.held devices.old.secrets.now) (X.held devices.new.secrets.now) }
    {
        let config = config_of(alloc, &script.config)?;
        let mut actor = Actor::new(config)?;
        let mut fence = Fence::new();
        let half = open_halves(
            alloc, &mut actor, &mut fence, script, number, life, source, devices, out,
        )?;
        Ok(Node {
            actor,
            fence,
            half,
            blocks_per_epoch: script.config.blocks_per_epoch,
        })
    }

    /// Takes a message of the dealing channel.
    fn hear<D: Disk, X: SecretStore>(
        &mut self,
        alloc: Global,
        source: &HeldBlocks<'_>,
        from: Key,
        bytes: &[u8],
        devices: &mut Devices<'_, D, X>,
        out: &mut Transcript,
    ) -> Result<(), Stop>
        requires ready { IsReadyNode D.tells D.files D.image self.old devices.old }
        requires goes { GoesIn self.old }
        ensures ready { OnOk result (IsReadyNode D.tells D.files D.image self.new devices.new) }
        ensures terms { self.new.actor.terms ≡ self.old.actor.terms }
        ensures of { (g : Lived) → IsOfLife g self.old → IsOfLife g self.new }
        ensures acts { IsTrue D.tells → IsTrue X.tells → (g : Lived) (number : ℕ) (st : Live directory.Unit) → IsOfLife g self.old → MayStep g number st
            → IsView self.old st
            → Viewed self.new result (λ ended. Makes D.files D.image X.held (step_of g number (event.Peer from bytes.now) st) ended
            devices.old devices.new out.old.entries out.new.entries) }
        ensures tells { (g : Lived) (number : ℕ) (st : Live directory.Unit) → IsOfLife g self.old → MayStep g number st → IsView self.old st
            → Viewed self.new result (λ ended. Tells (step_of g number (event.Peer from bytes.now) st) ended out.old.entries out.new.entries) }
        ensures moved { Moved D.tells D.made X.made D.faults X.faults devices.old devices.new }
        ensures causes { StopsReading D.tells D.faults X.faults devices.old devices.new result }
        ensures fit { IsTrue D.tells → AreFit (non_zero_u32_get self.old.actor.terms.limit) (D.image devices.old.disk.now)
            → AreFit (non_zero_u32_get self.old.actor.terms.limit) (D.image devices.new.disk.now) }
    {
        let bytes = copied(alloc, bytes)?;
        self.send(alloc, source, Message::Peer { from, bytes }, devices, out)
    }

    /// Takes a finalized block, and acknowledges it once both halves did.
    fn deliver<D: Disk, X: SecretStore>(
        &mut self,
        alloc: Global,
        block: &Block<Unit>,
        devices: &mut Devices<'_, D, X>,
        out: &mut Transcript,
    ) -> Result<(), Stop>
        requires within { CarriesWithin (non_zero_u32_get self.old.actor.terms.limit) block.now }
        requires ready { IsReadyNode D.tells D.files D.image self.old devices.old }
        requires goes { GoesIn self.old }
        ensures ready { OnOk result (IsReadyNode D.tells D.files D.image self.new devices.new) }
        ensures terms { self.new.actor.terms ≡ self.old.actor.terms }
        ensures of { (g : Lived) → IsOfLife g self.old → IsOfLife g self.new }
        ensures acts { IsTrue D.tells → IsTrue X.tells → (g : Lived) (number : ℕ) (st : Live directory.Unit) → IsOfLife g self.old → MayStep g number st
            → IsView self.old st
            → Viewed self.new result (λ ended. Makes D.files D.image X.held (node_step (at_step g number) (Delivers block.now) st) ended
            devices.old devices.new out.old.entries out.new.entries) }
        ensures tells { (g : Lived) (number : ℕ) (st : Live directory.Unit) → IsOfLife g self.old → MayStep g number st
            → IsView self.old st
            → Viewed self.new result (λ ended. Tells (node_step (at_step g number) (Delivers block.now) st) ended out.old.entries out.new.entries) }
        ensures moved { Moved D.tells D.made X.made D.faults X.faults devices.old devices.new }
        ensures causes { StopsReading D.tells D.faults X.faults devices.old devices.new result }
        ensures fit { IsTrue D.tells → AreFit (non_zero_u32_get self.old.actor.terms.limit) (D.image devices.old.disk.now)
            → AreFit (non_zero_u32_get self.old.actor.terms.limit) (D.image devices.new.disk.now) }
    {
        self.actor
            .deliver(alloc, devices, block, &mut self.fence, out)?;
        self.half
            .deliver(self.blocks_per_epoch, block, &mut self.fence, out)
    }

    /// Takes a message of the dealing channel, or of a request.
    fn send<D: Disk, X: SecretStore>(
        &mut self,
        alloc: Global,
        source: &HeldBlocks<'_>,
        message: Message<Unit>,
        devices: &mut Devices<'_, D, X>,
        out: &mut Transcript,
    ) -> Result<(), Stop>
        requires mail { IsMail message }
        requires ready { IsReadyNode D.tells D.files D.image self.old devices.old }
        requires goes { GoesIn self.old }
        ensures ready { OnOk result (IsReadyNode D.tells D.files D.image self.new devices.new) }
        ensures terms { self.new.actor.terms ≡ self.old.actor.terms }
        ensures of { (g : Lived) → IsOfLife g self.old → IsOfLife g self.new }
        ensures acts { IsTrue D.tells → IsTrue X.tells → (g : Lived) (number : ℕ) (st : Live directory.Unit) → IsOfLife g self.old → MayStep g number st
            → IsView self.old st
            → Viewed self.new result (λ ended. Makes D.files D.image X.held (node_step (at_step g number) (sent_event message) st) ended
            devices.old devices.new out.old.entries out.new.entries) }
        ensures tells { (g : Lived) (number : ℕ) (st : Live directory.Unit) → IsOfLife g self.old → MayStep g number st → IsView self.old st
            → Viewed self.new result (λ ended. Tells (node_step (at_step g number) (sent_event message) st) ended out.old.entries out.new.entries) }
        ensures moved { Moved D.tells D.made X.made D.faults X.faults devices.old devices.new }
        ensures causes { StopsReading D.tells D.faults X.faults devices.old devices.new result }
        ensures fit { IsTrue D.tells → AreFit (non_zero_u32_get self.old.actor.terms.limit) (D.image devices.old.disk.now)
            → AreFit (non_zero_u32_get self.old.actor.terms.limit) (D.image devices.new.disk.now) }
    {
        self.actor
            .step(alloc, devices, source, message, &mut self.fence, out)
    }

    /// Takes one more block of a request's ancestry.
    fn feed<D: Disk, X: SecretStore>(
        &mut self,
        alloc: Global,
        source: &HeldBlocks<'_>,
        request: u64,
        block: &Block<Unit>,
        devices: &mut Devices<'_, D, X>,
        out: &mut Transcript,
    ) -> Result<(), Stop>
        requires ready { IsReadyNode D.tells D.files D.image self.old devices.old }
        requires goes { GoesIn self.old }
        ensures ready { OnOk result (IsReadyNode D.tells D.files D.image self.new devices.new) }
        ensures terms { self.new.actor.terms ≡ self.old.actor.terms }
        ensures of { (g : Lived) → IsOfLife g self.old → IsOfLife g self.new }
        ensures acts { IsTrue D.tells → IsTrue X.tells → (g : Lived) (number : ℕ) (st : Live directory.Unit) → IsOfLife g self.old → MayStep g number st
            → IsView self.old st
            → Viewed self.new result (λ ended. Makes D.files D.image X.held (node_step (at_step g number) (Reshare (Feed request block.now)) st) ended
            devices.old devices.new out.old.entries out.new.entries) }
        ensures tells { (g : Lived) (number : ℕ) (st : Live directory.Unit) → IsOfLife g self.old → MayStep g number st → IsView self.old st
            → Viewed self.new result (λ ended. Tells (node_step (at_step g number) (Reshare (Feed request block.now)) st) ended
            out.old.entries out.new.entries) }
        ensures moved { Moved D.tells D.made X.made D.faults X.faults devices.old devices.new }
        ensures causes { StopsReading D.tells D.faults X.faults devices.old devices.new result }
        ensures fit { IsTrue D.tells → AreFit (non_zero_u32_get self.old.actor.terms.limit) (D.image devices.old.disk.now)
            → AreFit (non_zero_u32_get self.old.actor.terms.limit) (D.image devices.new.disk.now) }
    {
        let block = block.copy(alloc)?;
        self.send(
            alloc,
            source,
            Message::Feed { request, block },
            devices,
            out,
        )
    }

    /// Takes an event. A block that is delivered is held by then.
    pub fn step<D: Disk, X: SecretStore>(
        &mut self,
        alloc: Global,
        source: &HeldBlocks<'_>,
        event: &Event<'_>,
        devices: &mut Devices<'_, D, X>,
        out: &mut Transcript,
    ) -> Result<(), Stop>
        requires here { IsEventHere (non_zero_u32_get self.old.actor.terms.limit) source.now event.now }
        requires ready { IsReadyNode D.tells D.files D.image self.old devices.old }
        requires goes { GoesIn self.old }
        ensures ready { OnOk result (IsReadyNode D.tells D.files D.image self.new devices.new) }
        ensures terms { self.new.actor.terms ≡ self.old.actor.terms }
        ensures of { (g : Lived) → IsOfLife g self.old → IsOfLife g self.new }
        // It is the relation's step, and each act was made, whatever image a crash leaves.
        ensures acts { IsTrue D.tells → IsTrue X.tells → (g : Lived) (number : ℕ) (st : Live directory.Unit) → IsOfLife g self.old
            → source.now.blocks.now ≡ blocks_in g.script → MayStep g number st
            → IsView self.old st
            → Viewed self.new result (λ ended. Makes D.files D.image X.held (step_of g number event.now st) ended
            devices.old devices.new out.old.entries out.new.entries) }
        ensures tells { (g : Lived) (number : ℕ) (st : Live directory.Unit) → IsOfLife g self.old → source.now.blocks.now ≡ blocks_in g.script
            → MayStep g number st → IsView self.old st
            → Viewed self.new result (λ ended. Tells (step_of g number event.now st) ended out.old.entries out.new.entries) }
        ensures moved { Moved D.tells D.made X.made D.faults X.faults devices.old devices.new }
        ensures causes { StopsReading D.tells D.faults X.faults devices.old devices.new result }
        ensures fit { IsTrue D.tells → AreFit (non_zero_u32_get self.old.actor.terms.limit) (D.image devices.old.disk.now)
            → AreFit (non_zero_u32_get self.old.actor.terms.limit) (D.image devices.new.disk.now) }
    {
        match event {
            Event::Peer { from, bytes } => self.hear(
                alloc,
                source,
                *from,
                bytes.as_slice(),
                devices,
                out,
            ),
            Event::Final { block } => match source.of_number(*block) {
                Some(block) => self.deliver(alloc, block, devices, out),
                None => unreachable!(),
            },
            Event::Next { request, height } => {
                let message = Message::NextLog {
                    request: *request,
                    height: *height,
                };
                self.send(alloc, source, message, devices, out)
            }
            Event::Release { height } => {
                let message = Message::ReleaseLog { height: *height };
                self.send(alloc, source, message, devices, out)
            }
            Event::Info { request } => {
                let message = Message::EpochInfo { request: *request };
                self.send(alloc, source, message, devices, out)
            }
            Event::Feed { request, block } => match source.of_number(*block) {
                Some(block) => self.feed(alloc, source, *request, block, devices, out),
                None => unreachable!(),
            },
            Event::Over { request } => {
                let message = Message::Over { request: *request };
                self.send(alloc, source, message, devices, out)
            }
            Event::Cancel { request } => {
                let message = Message::Cancel { request: *request };
                self.send(alloc, source, message, devices, out)
            }
            Event::Work => self.send(alloc, source, Message::Work, devices, out),
            _ => unreachable!(),
        }
    }
}
