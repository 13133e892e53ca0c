//! The reshare actor: one opening and then steps, over devices and a source that each call is lent.
ghost use Rattle.std.specs.Prelude.{◌≡◌, ◌≤◌, ◌-◌, ◌^◌, IfErr, IfOk, IsTrue, None, OnOk, Some, option_map};
ghost use Rattle.std.specs.Option.{option_copied};
ghost use Rattle.std.specs.Int.NonZero.{non_zero_u32_get, non_zero_u64_get};
ghost use Rattle.dkg_journal.specs.Disk.{Rose};
ghost use Rattle.dkg_journal.specs.Fuse.{Reached};
ghost use Rattle.dkg_store.specs.Corrupt.{AreFit};
ghost use Rattle.dkg_core.specs.Blocks as blocks;
ghost use Rattle.dkg_core.specs.Core.{no_inclusion, opening, step};
ghost use Rattle.dkg_core.specs.Fixed.{Fixed};
ghost use Rattle.dkg_core.specs.Including.{works};
ghost use Rattle.dkg_life.specs.Ready.{IsFoundAt, IsReadyLife, IsSoundAt};
ghost use Rattle.dkg_life.specs.Configured.{config_fault};
ghost use Rattle.dkg_life.specs.Ends.{IsCausedInStep, StopsReading, ends, ends_in};
ghost use Rattle.dkg_life.specs.Given.{AreGivenFrom, HasRead, IsIn, IsLent, ReadsPlanless, reading};
ghost use Rattle.dkg_life.specs.LiveOf.{Beside, EndsBeside, EndsWith, TookSchemes, live_of, no_fence, nothing_beside};
ghost use Rattle.dkg_life.specs.Made.{Makes, Tells, UnlessBroken};
ghost use Rattle.dkg_life.specs.Moved.{Moved, StaysAbove};
ghost use Rattle.dkg_life.specs.Opened.{IsInGrammar, IsOpeningOf, OpensReadable, epoch_at};
ghost use Rattle.dkg_life.specs.Rules.{IncludesBy, IsRuledBy, SameProvided};
ghost use Rattle.dkg_life.specs.Planless.{IsBareOpening};
ghost use Rattle.dkg_verifying.specs.InclusionOf.{IsSeen, IsSettledInclusion, checked_result_of};
ghost use Rattle.dkg_blocks.specs.Applied.{MovesOn};
ghost use Rattle.dkg_reshare.specs.Actors.{ActorStays, AreTerms, BringsWithin, EndsAt, FailsStop, IfIncluding, IfLiving, MemoryAgrees, IsOpenedOn, IsNew, lives, message_of, running_in, told_in};
ghost use Rattle.dkg_blocks.specs.CarriedLogs.{CarriesWithin};

use crate::blocks::take_block;
use crate::message::Message;
use dkg_artifact::{Job, VerifiedLogs};
use dkg_blocks::{release, serve};
use dkg_ceremony::{Ceremony, Signer};
use dkg_dealing::hear_peer;
use dkg_fence::Fence;
use dkg_inclusion::{ask, cancel, end, feed, work};
use dkg_infos::{Directory, Fault, Transcript};
use dkg_journal::Disk;
use dkg_life::{Config, Life, Stop, Terms, check_config};
use dkg_setup::{BlockSource, open_life};
use dkg_store::{Devices, SecretStore};
use dkg_types::{Block, ParticipantsProvider, Registrar};
use dkg_verifying::{Inclusion, Told};
use std::alloc::Global;

/// Where an actor stands in its life.
#[derive(Drop)]
enum State<C: Ceremony, Dir: Directory> {
    New,
    Living(Life<Dir>, Inclusion<C, Dir>),
    Failed,
}

/// A reshare actor of one life.
#[derive(Drop)]
pub struct Actor<C: Ceremony, P, R, M, Dir: Directory> {
    ceremony: C,
    signer: C::Signer,
    provider: P,
    registrar: R,
    manager: M,
    terms: Terms,
    state: State<C, Dir>,
    ghost me: { terms.me ≡ C.Signer.key_of signer },
}

/// Takes a message (`step`).
fn take<
    C: Ceremony + Drop,
    P: ParticipantsProvider<Dir = Dir>,
    R: Registrar,
    Dir: Directory + Drop,
    D: Disk,
    X: SecretStore,
>(
    alloc: Global,
    ceremony: &C,
    signer: &C::Signer,
    provider: &mut P,
    registrar: &mut R,
    terms: &Terms,
    life: &mut Life<Dir>,
    inclusion: &mut Inclusion<C, Dir>,
    devices: &mut Devices<'_, D, X>,
    message: Message<Dir>,
    fence: &mut Fence,
    out: &mut Transcript,
) -> Result<(), Stop>
    requires me { terms.now.me ≡ C.Signer.key_of signer.now }
    requires ready { IsReadyLife D.tells D.files D.image C.ack_of C.deal_of C.check_ack_of terms.now life.old devices.old }
    requires within { BringsWithin (non_zero_u32_get terms.now.limit) message }
    requires including { IsSettledInclusion C.check_log_of C.dealing_of C.finish_of (non_zero_u64_get terms.now.blocks_per_epoch) life.old inclusion.old }
    ensures ready { OnOk result (IsReadyLife D.tells D.files D.image C.ack_of C.deal_of C.check_ack_of terms.now life.new devices.new) }
    ensures moves { MovesOn life.old life.new D.tells D.made X.made D.faults X.faults D.image (non_zero_u32_get terms.now.limit) devices.old devices.new }
    ensures causes { StopsReading D.tells D.faults X.faults devices.old devices.new result }
    ensures including { OnOk result (IsSettledInclusion C.check_log_of C.dealing_of C.finish_of (non_zero_u64_get terms.now.blocks_per_epoch) life.new
        inclusion.new) }
    ensures provider { IsTrue P.tells → SameProvided (P.participants_of provider.old) (P.participants_of provider.new)
        (P.directory_of provider.old) (P.directory_of provider.new) }
    ensures acts { IsTrue D.tells → IsTrue X.tells → IsTrue P.tells → (c : Fixed Dir) (beside : Beside Dir) → IsIn terms.now life.old.word c → ReadsPlanless c
        → IsRuledBy C.round_of C.deal_of C.dealing_of C.ack_of C.check_ack_of C.sign_log_of C.bears_ack_of C.share_public_of C.partial_public_of c.rules
        → IncludesBy C.check_log_of C.outcome_of C.finish_of (P.participants_of provider.old) (P.directory_of provider.old) Dir.spelling Dir.matches_of c
        → IsSeen inclusion.old beside.inclusion → EndsWith beside (λ i. OnOk result (IsSeen inclusion.new i))
        (λ more. OnOk result (TookSchemes R.tells (R.taken registrar.old) (R.taken registrar.new) more))
        (λ now. Makes D.files D.image X.held (step c (message_of message) (live_of beside fence.old life.old)) (ends_in (live_of now fence.new life.new) result)
        devices.old devices.new out.old.entries out.new.entries) }
    ensures tells { IsTrue P.tells → (c : Fixed Dir) (beside : Beside Dir) → IsIn terms.now life.old.word c → ReadsPlanless c
        → IsRuledBy C.round_of C.deal_of C.dealing_of C.ack_of C.check_ack_of C.sign_log_of C.bears_ack_of C.share_public_of C.partial_public_of c.rules
        → IncludesBy C.check_log_of C.outcome_of C.finish_of (P.participants_of provider.old) (P.directory_of provider.old) Dir.spelling Dir.matches_of c
        → IsSeen inclusion.old beside.inclusion → EndsWith beside (λ i. OnOk result (IsSeen inclusion.new i))
        (λ more. OnOk result (TookSchemes R.tells (R.taken registrar.old) (R.taken registrar.new) more))
        (λ now. Tells (step c (message_of message) (live_of beside fence.old life.old)) (ends_in (live_of now fence.new life.new) result)
        out.old.entries out.new.entries) }
{
    match message {
        Message::Peer { from, bytes } => hear_peer(
            alloc,
            ceremony,
            signer,
            terms,
            life,
            devices,
            from,
            bytes.as_slice(),
            out,
        ),
        Message::Finalized(block) => take_block(
            alloc, ceremony, signer, provider, registrar, terms, life, inclusion, devices, &block,
            fence, out,
        ),
        Message::NextLog { request, height } => {
            serve(alloc, life, inclusion, request, height, out)
        }
        Message::ReleaseLog { height } => {
            release(life, inclusion, height);
            Ok(())
        }
        Message::EpochInfo { request } => ask(
            alloc, ceremony, provider, terms, life, inclusion, devices, request, out,
        ),
        Message::Feed { request, block } => feed(
            alloc, ceremony, provider, terms, life, inclusion, devices, request, block, out,
        ),
        Message::Over { request } => end(
            alloc, ceremony, provider, terms, life, inclusion, devices, request, out,
        ),
        Message::Cancel { request } => cancel(
            alloc, ceremony, provider, terms, life, inclusion, devices, request, out,
        ),
        Message::Work => work(
            alloc, ceremony, provider, terms, life, inclusion, devices, None, out,
        ),
    }
}

impl<C: Ceremony + Drop, P: Drop, R: Drop, M: Drop, Dir: Directory + Drop> Actor<C, P, R, M, Dir>
where
    C::Signer: Drop,
{
    /// An actor in reshare mode, which was not opened yet.
    ///
    /// InvalidConfig: the sharing mode is not supported; else an epoch has one block.
    pub fn new(config: Config<C, P, R, M>) -> Result<Actor<C, P, R, M, Dir>, Fault>
        requires in_bound { non_zero_u32_get config.max_participants ≤ 2 ^ 30 }
        ensures new { IfOk result (λ actor. IsNew actor.state) }
        ensures parts { IfOk result (λ actor. (actor.ceremony ≡ config.ceremony) × (actor.signer ≡ config.signer) × (actor.registrar ≡ config.registrar)
            × (actor.provider ≡ config.provider) × (actor.manager ≡ config.manager)) }
        ensures terms { IfOk result (λ actor. AreTerms actor.terms (C.Signer.key_of config.signer) config.blocks_per_epoch config.max_participants
            config.max_mode config.mode config.reveal config.namespace) }
        ensures refused { IfErr result (λ its. config_fault config.mode config.max_mode.0 (non_zero_u64_get config.blocks_per_epoch) ≡ Some its) }
        ensures accepted { OnOk result (config_fault config.mode config.max_mode.0 (non_zero_u64_get config.blocks_per_epoch) ≡ None) }
    {
        check_config(config.mode, config.max_mode, config.blocks_per_epoch)?;
        let me = config.signer.public_key();
        Ok(Actor {
            ceremony: config.ceremony,
            signer: config.signer,
            provider: config.provider,
            registrar: config.registrar,
            manager: config.manager,
            terms: Terms {
                me,
                blocks_per_epoch: config.blocks_per_epoch,
                limit: config.max_participants,
                max_mode: config.max_mode,
                mode: config.mode,
                reveal: config.reveal,
                namespace: config.namespace,
            },
            state: State::New,
        })
    }
}

impl<
    C: Ceremony + Drop,
    P: ParticipantsProvider<Dir = Dir>,
    R: Registrar,
    M,
    Dir: Directory + Drop,
> Actor<C, P, R, M, Dir> {
    /// Opens a life: its number and its random word are the caller's. The dealings are restored, and the epoch above the source's position is
    /// set up. The fence is a new one: where it was used before, no clause says what is done and told.
    ///
    /// A fault or a cut ends the life.
    pub fn open<D: Disk, X: SecretStore, B: BlockSource<Dir>>(
        &mut self,
        alloc: Global,
        devices: &mut Devices<'_, D, X>,
        source: &B,
        life: u64,
        word: u64,
        fence: &mut Fence,
        out: &mut Transcript,
    ) -> Result<(), Stop>
        requires new { IsNew self.old.state }
        // Of a disk of which nothing was loose: it is the relation's opening, and each act was made, whatever image a crash leaves.
        ensures acts { IsTrue D.tells → IsTrue X.tells → (c : Fixed Dir)
            → IsOpeningOf self.old.terms (B.answers source.now) life word (D.files devices.old.disk.now) c
            → IsRuledBy C.round_of C.deal_of C.dealing_of C.ack_of C.check_ack_of C.sign_log_of C.bears_ack_of C.share_public_of C.partial_public_of c.rules
            → fence.old ≡ no_fence → EndsBeside nothing_beside
            (λ more. OnOk result (TookSchemes R.tells (R.taken self.old.registrar) (R.taken self.new.registrar) more))
            (λ now. Makes D.files D.image X.held (opening c) (lives (live_of now fence.new) self.new.state result)
            devices.old devices.new out.old.entries out.new.entries) }
        // Whatever the devices tell, its lines are those of an opening that has read something: where they tell, dealings that each image gives back.
        ensures tells { (c : Fixed Dir) → IsLent self.old.terms (B.answers source.now) word c → c.life ≡ life → IsBareOpening c
            → IsRuledBy C.round_of C.deal_of C.dealing_of C.ack_of C.check_ack_of C.sign_log_of C.bears_ack_of C.share_public_of C.partial_public_of c.rules
            → fence.old ≡ no_fence
            → HasRead (λ s. UnlessBroken (ends (λ done. done) result) (IsTrue D.tells → IsTrue X.tells
            → AreGivenFrom (epoch_at (B.answers source.now) self.old.terms - 1) s.dealings (D.image devices.new.disk.now) (X.held devices.new.secrets.now)))
            (λ s. EndsBeside nothing_beside (λ more. OnOk result (TookSchemes R.tells (R.taken self.old.registrar) (R.taken self.new.registrar) more))
            (λ now. Tells (opening (reading s c)) (lives (live_of now fence.new) self.new.state result)
            out.old.entries out.new.entries)) }
        // A journal that is not in its grammar is not opened: nothing is told, and all stays.
        ensures readable { IsTrue D.tells → OpensReadable (IsInGrammar (non_zero_u32_get self.old.terms.limit) (D.files devices.old.disk.now)) result
            out.old.entries out.new.entries
            (D.image devices.old.disk.now) (D.image devices.new.disk.now) (X.held devices.old.secrets.now) (X.held devices.new.secrets.now) }
        // It may go on over these devices alone, or it has failed.
        ensures ends { EndsAt self.new.state result (λ life. IsReadyLife D.tells D.files D.image C.ack_of C.deal_of C.check_ack_of self.new.terms life
            devices.new) }
        ensures word { IfLiving self.new.state (λ its. its.word ≡ word) }
        // No request was made yet.
        ensures including { IfIncluding self.new.state (λ life its. IsSettledInclusion C.check_log_of C.dealing_of C.finish_of
            (non_zero_u64_get self.new.terms.blocks_per_epoch) life its × IsSeen its no_inclusion) }
        ensures rest { (self.new.ceremony ≡ self.old.ceremony) × (self.new.signer ≡ self.old.signer) × (self.new.provider ≡ self.old.provider)
            × (self.new.manager ≡ self.old.manager) × (self.new.terms ≡ self.old.terms) }
        // Memory has what the devices give back, where they were whole and nothing of them was loose.
        ensures live { OnOk result (IsTrue D.tells → IsTrue X.tells → IsSoundAt D.files D.image X.held devices.old
            → MemoryAgrees self.new.state (D.files devices.new.disk.now) (X.held devices.new.secrets.now)) }
        ensures moved { Moved D.tells D.made X.made D.faults X.faults devices.old devices.new }
        // A device is blamed where its count rose, a cut where the fuse reached its call, and a record where it stands.
        ensures causes { IfErr result (λ stop. IsFoundAt (non_zero_u32_get self.old.terms.limit) D.tells (D.files devices.new.disk.now) stop
            (Rose (D.faults devices.old.disk.now) (D.faults devices.new.disk.now))
            (Rose (X.faults devices.old.secrets.now) (X.faults devices.new.secrets.now)) (Reached devices.old.fuse devices.new.fuse)) }
        // Whatever was loose: what a crash leaves stays in its grammar, and gives back what is not below the epoch before.
        ensures loose { IsTrue D.tells → StaysAbove (epoch_at (B.answers source.now) self.old.terms - 1)
            (D.image devices.old.disk.now) (D.image devices.new.disk.now) (X.held devices.old.secrets.now) (X.held devices.new.secrets.now) }
    {
        match open_life(
            alloc,
            &self.ceremony,
            &self.signer,
            &mut self.registrar,
            &self.terms,
            devices,
            source,
            life,
            word,
            fence,
            out,
        ) {
            Ok(life) => {
                self.state = State::Living(life, Inclusion::new(alloc));
                Ok(())
            }
            Err(why) => {
                self.fail();
                Err(why)
            }
        }
    }

    /// Goes on no more.
    fn fail(&mut self)
        ensures failed { self.new.state ≡ State.Failed }
        ensures rest { (self.new.ceremony ≡ self.old.ceremony) × (self.new.signer ≡ self.old.signer)
            × (self.new.manager ≡ self.old.manager) × (self.new.terms ≡ self.old.terms) }
        ensures provider { self.new.provider ≡ self.old.provider }
        ensures registrar { self.new.registrar ≡ self.old.registrar }
    {
        self.state = State::Failed;
    }

    /// Takes one message.
    ///
    /// Failed: exactly where a call before ended in a fault or a cut.
    pub fn step<D: Disk, X: SecretStore, B: BlockSource<Dir>>(
        &mut self,
        alloc: Global,
        devices: &mut Devices<'_, D, X>,
        _source: &B,
        message: Message<Dir>,
        fence: &mut Fence,
        out: &mut Transcript,
    ) -> Result<(), Stop>
        requires at { IsOpenedOn D.tells D.files D.image C.ack_of C.deal_of C.check_ack_of self.old.terms self.old.state devices.old }
        requires within { BringsWithin (non_zero_u32_get self.old.terms.limit) message }
        requires including { IfIncluding self.old.state (IsSettledInclusion C.check_log_of C.dealing_of C.finish_of
            (non_zero_u64_get self.old.terms.blocks_per_epoch)) }
        ensures including { OnOk result (IfIncluding self.new.state (IsSettledInclusion C.check_log_of C.dealing_of C.finish_of
            (non_zero_u64_get self.new.terms.blocks_per_epoch))) }
        // It is the relation's step, and each act was made, whatever image a crash leaves.
        ensures acts { IsTrue D.tells → IsTrue X.tells → IsTrue P.tells → (c : Fixed Dir) (beside : Beside Dir) → IfIncluding self.old.state
            (λ old its. IsIn self.old.terms old.word c
            → ReadsPlanless c → IsRuledBy C.round_of C.deal_of C.dealing_of C.ack_of C.check_ack_of C.sign_log_of C.bears_ack_of C.share_public_of
            C.partial_public_of c.rules
            → IncludesBy C.check_log_of C.outcome_of C.finish_of (P.participants_of self.old.provider) (P.directory_of self.old.provider) Dir.spelling
            Dir.matches_of c
            → IsSeen its beside.inclusion → EndsWith beside (λ i. OnOk result (IfIncluding self.new.state (λ life now. IsSeen now i)))
            (λ more. OnOk result (TookSchemes R.tells (R.taken self.old.registrar) (R.taken self.new.registrar) more))
            (λ now. Makes D.files D.image X.held (step c (message_of message) (live_of beside fence.old old))
            (lives (live_of now fence.new) self.new.state result) devices.old devices.new out.old.entries out.new.entries)) }
        ensures tells { IsTrue P.tells → (c : Fixed Dir) (beside : Beside Dir) → IfIncluding self.old.state (λ old its. IsIn self.old.terms old.word c
            → ReadsPlanless c → IsRuledBy C.round_of C.deal_of C.dealing_of C.ack_of C.check_ack_of C.sign_log_of C.bears_ack_of C.share_public_of
            C.partial_public_of c.rules
            → IncludesBy C.check_log_of C.outcome_of C.finish_of (P.participants_of self.old.provider) (P.directory_of self.old.provider) Dir.spelling
            Dir.matches_of c
            → IsSeen its beside.inclusion → EndsWith beside (λ i. OnOk result (IfIncluding self.new.state (λ life now. IsSeen now i)))
            (λ more. OnOk result (TookSchemes R.tells (R.taken self.old.registrar) (R.taken self.new.registrar) more))
            (λ now. Tells (step c (message_of message) (live_of beside fence.old old))
            (lives (live_of now fence.new) self.new.state result) out.old.entries out.new.entries)) }
        // It may go on over these devices alone, or it has failed.
        ensures ends { EndsAt self.new.state result (λ life. IsReadyLife D.tells D.files D.image C.ack_of C.deal_of C.check_ack_of self.new.terms life
            devices.new) }
        // A life keeps its random word, the other parts stay, and a provider that tells says what it said.
        ensures stays { ActorStays self.old.state self.new.state ((self.new.ceremony ≡ self.old.ceremony) × (self.new.signer ≡ self.old.signer)
            × (self.new.manager ≡ self.old.manager) × (self.new.terms ≡ self.old.terms))
            P.tells (P.participants_of self.old.provider) (P.participants_of self.new.provider)
            (P.directory_of self.old.provider) (P.directory_of self.new.provider) }
        ensures fails { FailsStop self.old.state result ((self.new.state ≡ self.old.state) × (self.new.registrar ≡ self.old.registrar)
            × (devices.new ≡ devices.old) × (out.new ≡ out.old) × (fence.new ≡ fence.old)) }
        ensures moved { Moved D.tells D.made X.made D.faults X.faults devices.old devices.new }
        ensures causes { IfErr result (λ stop. IsCausedInStep D.tells stop (Rose (D.faults devices.old.disk.now) (D.faults devices.new.disk.now))
            (Rose (X.faults devices.old.secrets.now) (X.faults devices.new.secrets.now)) (Reached devices.old.fuse devices.new.fuse)) }
        // No record that a crash leaves is out of its grammar, or past the limit, where none was.
        ensures fit { IsTrue D.tells → AreFit (non_zero_u32_get self.old.terms.limit) (D.image devices.old.disk.now)
            → AreFit (non_zero_u32_get self.old.terms.limit) (D.image devices.new.disk.now) }
    {
        let State::Living(life, inclusion) = &mut self.state else {
            return Err(Stop::Failed);
        };
        match take(
            alloc,
            &self.ceremony,
            &self.signer,
            &mut self.provider,
            &mut self.registrar,
            &self.terms,
            life,
            inclusion,
            devices,
            message,
            fence,
            out,
        ) {
            Ok(()) => Ok(()),
            Err(stop) => {
                self.fail();
                Err(stop)
            }
        }
    }

    /// Takes a block, as `step` takes it in a message.
    ///
    /// Failed: exactly where a call before ended in a fault or a cut.
    pub fn deliver<D: Disk, X: SecretStore>(
        &mut self,
        alloc: Global,
        devices: &mut Devices<'_, D, X>,
        block: &Block<Dir>,
        fence: &mut Fence,
        out: &mut Transcript,
    ) -> Result<(), Stop>
        requires at { IsOpenedOn D.tells D.files D.image C.ack_of C.deal_of C.check_ack_of self.old.terms self.old.state devices.old }
        requires within { CarriesWithin (non_zero_u32_get self.old.terms.limit) block.now }
        requires including { IfIncluding self.old.state (IsSettledInclusion C.check_log_of C.dealing_of C.finish_of
            (non_zero_u64_get self.old.terms.blocks_per_epoch)) }
        ensures including { OnOk result (IfIncluding self.new.state (IsSettledInclusion C.check_log_of C.dealing_of C.finish_of
            (non_zero_u64_get self.new.terms.blocks_per_epoch))) }
        // It is the relation's step, and each act was made, whatever image a crash leaves.
        ensures acts { IsTrue D.tells → IsTrue X.tells → IsTrue P.tells → (c : Fixed Dir) (beside : Beside Dir) → IfIncluding self.old.state
            (λ old its. IsIn self.old.terms old.word c
            → ReadsPlanless c → IsRuledBy C.round_of C.deal_of C.dealing_of C.ack_of C.check_ack_of C.sign_log_of C.bears_ack_of C.share_public_of
            C.partial_public_of c.rules
            → IncludesBy C.check_log_of C.outcome_of C.finish_of (P.participants_of self.old.provider) (P.directory_of self.old.provider) Dir.spelling
            Dir.matches_of c
            → IsSeen its beside.inclusion → EndsWith beside (λ i. OnOk result (IfIncluding self.new.state (λ life now. IsSeen now i)))
            (λ more. OnOk result (TookSchemes R.tells (R.taken self.old.registrar) (R.taken self.new.registrar) more))
            (λ now. Makes D.files D.image X.held (blocks.delivers c block.now (live_of beside fence.old old))
            (lives (live_of now fence.new) self.new.state result) devices.old devices.new out.old.entries out.new.entries)) }
        ensures tells { IsTrue P.tells → (c : Fixed Dir) (beside : Beside Dir) → IfIncluding self.old.state (λ old its. IsIn self.old.terms old.word c
            → ReadsPlanless c → IsRuledBy C.round_of C.deal_of C.dealing_of C.ack_of C.check_ack_of C.sign_log_of C.bears_ack_of C.share_public_of
            C.partial_public_of c.rules
            → IncludesBy C.check_log_of C.outcome_of C.finish_of (P.participants_of self.old.provider) (P.directory_of self.old.provider) Dir.spelling
            Dir.matches_of c
            → IsSeen its beside.inclusion → EndsWith beside (λ i. OnOk result (IfIncluding self.new.state (λ life now. IsSeen now i)))
            (λ more. OnOk result (TookSchemes R.tells (R.taken self.old.registrar) (R.taken self.new.registrar) more))
            (λ now. Tells (blocks.delivers c block.now (live_of beside fence.old old))
            (lives (live_of now fence.new) self.new.state result) out.old.entries out.new.entries)) }
        // It may go on over these devices alone, or it has failed.
        ensures ends { EndsAt self.new.state result (λ life. IsReadyLife D.tells D.files D.image C.ack_of C.deal_of C.check_ack_of self.new.terms life
            devices.new) }
        // A life keeps its random word, the other parts stay, and a provider that tells says what it said.
        ensures stays { ActorStays self.old.state self.new.state ((self.new.ceremony ≡ self.old.ceremony) × (self.new.signer ≡ self.old.signer)
            × (self.new.manager ≡ self.old.manager) × (self.new.terms ≡ self.old.terms))
            P.tells (P.participants_of self.old.provider) (P.participants_of self.new.provider)
            (P.directory_of self.old.provider) (P.directory_of self.new.provider) }
        ensures fails { FailsStop self.old.state result ((self.new.state ≡ self.old.state) × (self.new.registrar ≡ self.old.registrar)
            × (devices.new ≡ devices.old) × (out.new ≡ out.old) × (fence.new ≡ fence.old)) }
        ensures moved { Moved D.tells D.made X.made D.faults X.faults devices.old devices.new }
        ensures causes { IfErr result (λ stop. IsCausedInStep D.tells stop (Rose (D.faults devices.old.disk.now) (D.faults devices.new.disk.now))
            (Rose (X.faults devices.old.secrets.now) (X.faults devices.new.secrets.now)) (Reached devices.old.fuse devices.new.fuse)) }
        // No record that a crash leaves is out of its grammar, or past the limit, where none was.
        ensures fit { IsTrue D.tells → AreFit (non_zero_u32_get self.old.terms.limit) (D.image devices.old.disk.now)
            → AreFit (non_zero_u32_get self.old.terms.limit) (D.image devices.new.disk.now) }
    {
        let State::Living(life, inclusion) = &mut self.state else {
            return Err(Stop::Failed);
        };
        match take_block(
            alloc,
            &self.ceremony,
            &self.signer,
            &mut self.provider,
            &mut self.registrar,
            &self.terms,
            life,
            inclusion,
            devices,
            block,
            fence,
            out,
        ) {
            Ok(()) => Ok(()),
            Err(why) => {
                self.fail();
                Err(why)
            }
        }
    }

    /// Ends the running verification: by this result, where it is of its round, player and logs, else by the actor's own work. Where none runs,
    /// the result is dropped.
    ///
    /// Failed: exactly where a call before ended in a fault or a cut.
    pub fn work<D: Disk, X: SecretStore, B: BlockSource<Dir>>(
        &mut self,
        alloc: Global,
        devices: &mut Devices<'_, D, X>,
        _source: &B,
        done: Option<VerifiedLogs<C>>,
        _fence: &mut Fence,
        out: &mut Transcript,
    ) -> Result<(), Stop>
        requires at { IsOpenedOn D.tells D.files D.image C.ack_of C.deal_of C.check_ack_of self.old.terms self.old.state devices.old }
        requires including { IfIncluding self.old.state (IsSettledInclusion C.check_log_of C.dealing_of C.finish_of
            (non_zero_u64_get self.old.terms.blocks_per_epoch)) }
        ensures including { OnOk result (IfIncluding self.new.state (IsSettledInclusion C.check_log_of C.dealing_of C.finish_of
            (non_zero_u64_get self.new.terms.blocks_per_epoch))) }
        // It is the relation's step of that message, and each act was made, whatever image a crash leaves.
        ensures acts { IsTrue D.tells → IsTrue X.tells → IsTrue P.tells → (c : Fixed Dir) (beside : Beside Dir) → IfIncluding self.old.state
            (λ old its. IsIn self.old.terms old.word c
            → ReadsPlanless c → IsRuledBy C.round_of C.deal_of C.dealing_of C.ack_of C.check_ack_of C.sign_log_of C.bears_ack_of C.share_public_of
            C.partial_public_of c.rules
            → IncludesBy C.check_log_of C.outcome_of C.finish_of (P.participants_of self.old.provider) (P.directory_of self.old.provider) Dir.spelling
            Dir.matches_of c
            → IsSeen its beside.inclusion → EndsWith beside (λ i. OnOk result (IfIncluding self.new.state (λ life now. IsSeen now i)))
            (λ more. OnOk result (TookSchemes R.tells (R.taken self.old.registrar) (R.taken self.new.registrar) more))
            (λ now. Makes D.files D.image X.held (works c (option_map checked_result_of done) (live_of beside _fence.old old))
            (lives (live_of now _fence.new) self.new.state result) devices.old devices.new out.old.entries out.new.entries)) }
        ensures tells { IsTrue P.tells → (c : Fixed Dir) (beside : Beside Dir) → IfIncluding self.old.state (λ old its. IsIn self.old.terms old.word c
            → ReadsPlanless c → IsRuledBy C.round_of C.deal_of C.dealing_of C.ack_of C.check_ack_of C.sign_log_of C.bears_ack_of C.share_public_of
            C.partial_public_of c.rules
            → IncludesBy C.check_log_of C.outcome_of C.finish_of (P.participants_of self.old.provider) (P.directory_of self.old.provider) Dir.spelling
            Dir.matches_of c
            → IsSeen its beside.inclusion → EndsWith beside (λ i. OnOk result (IfIncluding self.new.state (λ life now. IsSeen now i)))
            (λ more. OnOk result (TookSchemes R.tells (R.taken self.old.registrar) (R.taken self.new.registrar) more))
            (λ now. Tells (works c (option_map checked_result_of done) (live_of beside _fence.old old))
            (lives (live_of now _fence.new) self.new.state result) out.old.entries out.new.entries)) }
        // It may go on over these devices alone, or it has failed.
        ensures ends { EndsAt self.new.state result (λ life. IsReadyLife D.tells D.files D.image C.ack_of C.deal_of C.check_ack_of self.new.terms life
            devices.new) }
        // A life keeps its random word, the other parts stay, and a provider that tells says what it said.
        ensures stays { ActorStays self.old.state self.new.state ((self.new.ceremony ≡ self.old.ceremony) × (self.new.signer ≡ self.old.signer)
            × (self.new.manager ≡ self.old.manager) × (self.new.terms ≡ self.old.terms))
            P.tells (P.participants_of self.old.provider) (P.participants_of self.new.provider)
            (P.directory_of self.old.provider) (P.directory_of self.new.provider) }
        ensures fails { FailsStop self.old.state result ((self.new.state ≡ self.old.state) × (self.new.registrar ≡ self.old.registrar)
            × (devices.new ≡ devices.old) × (out.new ≡ out.old)) }
        ensures moved { Moved D.tells D.made X.made D.faults X.faults devices.old devices.new }
        ensures causes { IfErr result (λ stop. IsCausedInStep D.tells stop (Rose (D.faults devices.old.disk.now) (D.faults devices.new.disk.now))
            (Rose (X.faults devices.old.secrets.now) (X.faults devices.new.secrets.now)) (Reached devices.old.fuse devices.new.fuse)) }
        // No record that a crash leaves is out of its grammar, or past the limit, where none was.
        ensures fit { IsTrue D.tells → AreFit (non_zero_u32_get self.old.terms.limit) (D.image devices.old.disk.now)
            → AreFit (non_zero_u32_get self.old.terms.limit) (D.image devices.new.disk.now) }
        // It lends the registrar and the fence to nobody.
        ensures lends { (self.new.registrar ≡ self.old.registrar) × (_fence.new ≡ _fence.old) }
    {
        let State::Living(life, inclusion) = &mut self.state else {
            return Err(Stop::Failed);
        };
        match work(
            alloc,
            &self.ceremony,
            &mut self.provider,
            &self.terms,
            life,
            inclusion,
            devices,
            done,
            out,
        ) {
            Ok(()) => Ok(()),
            Err(why) => {
                self.fail();
                Err(why)
            }
        }
    }

    /// The verification that runs, if one does.
    pub fn running(&self) -> Option<&Job>
        ensures { option_copied result ≡ running_in self.now.state }
    {
        match &self.state {
            State::Living(_, inclusion) => inclusion.verification.running(),
            State::New | State::Failed => None,
        }
    }

    /// What a request of this life was told last, if it was made.
    pub fn told(&self, request: u64) -> Option<&Told<Dir>>
        ensures { option_copied result ≡ told_in self.now.state request }
    {
        match &self.state {
            State::Living(_, inclusion) => inclusion.told.get(request),
            State::New | State::Failed => None,
        }
    }

    /// Who took the schemes of this life's epochs.
    pub fn registrar(&self) -> &R
        ensures { result.now ≡ self.now.registrar }
    {
        &self.registrar
    }
}
