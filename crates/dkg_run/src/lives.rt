//! The lives of a script, one after another over the same devices.
//!
//! A life's opening is its step 0, and each event is one step more. A step that the script cuts ends its life, and any
//! other life ends by its stop. Either way both devices crash.
ghost use Rattle.std.specs.Prelude.{◌≡◌, ◌⊎◌, ◌++◌, ◌∷◌, [], ℕ, IfErr, IsSome, IsTrue, OnOk, None, Some, Ok, Err, List, filter_map, slice_get};
ghost use Rattle.std.specs.Int.NonZero.{non_zero_u32_get, non_zero_u64_get};
ghost use Rattle.dkg_journal.specs.Burn.{Burn};
ghost use Rattle.dkg_journal.specs.Disk.{Lands};
ghost use Rattle.dkg_journal.specs.Names.{Files};
ghost use Rattle.dkg_infos.specs.declared.directory.Unit as directory;
ghost use Rattle.dkg_infos.specs.declared.entry.Entry.TheVariants as entry;
ghost use Rattle.dkg_infos.specs.declared.fault.Fault.TheVariants.{NoMemory};
ghost use Rattle.dkg_store.specs.Acts.{Held, Stands};
ghost use Rattle.dkg_store.specs.Corrupt.{AreFit};
ghost use Rattle.dkg_core.specs.Live.{Live};
ghost use Rattle.dkg_core.specs.Seen.{Seen};
ghost use Rattle.dkg_script.specs.Blocks.{delivered_number};
ghost use Rattle.dkg_script.specs.Inclusion.{IsFormOfInclusion};
ghost use Rattle.dkg_script.specs.Promise.{Adds};
ghost use Rattle.dkg_life.specs.Planless.{seen_planless};
ghost use Rattle.dkg_life.specs.declared.stop.Stop.TheVariants.{Cut as AtCut, Failed as HadFailed, Fault as FaultOf};
ghost use Rattle.dkg_lives.specs.Causes.{HasDeviceCause, IfFault};
ghost use Rattle.dkg_promises.specs.Found.{IsFoundRecord};
ghost use Rattle.dkg_lives.specs.Epochs.{IsAtEvent, IsChecked, IsLifeInForm, MayStep};
ghost use Rattle.dkg_lives.specs.Given.{AreBytes, Lived, blocks_in, limits_of, lived, step_of};
ghost use Rattle.dkg_lives.specs.Lives.{AnyFiles, BeganNone, EndsLife, LivesHere, LivesSo, RunsAllSo, Steps, TakesAll, TellsEnd, fuse_for};
ghost use Rattle.dkg_lives.specs.Moving.{Blames, StepBlames, StopBlames, Went, world_of};
ghost use Rattle.dkg_run.specs.Untold.{IsUntold};
ghost use Rattle.dkg_node.specs.Nodes.{GoesIn, HasOpened, IsEventOfBlocks, IsOfLife, IsReadyNode, IsStepHere, IsView};
ghost use Rattle.dkg_promises.specs.Over.{over};
ghost use Rattle.dkg_promises.specs.Promised.{DoesRun, Promised, SaysRun};
ghost use Rattle.dkg_lives.specs.Stopped.{picks_at_end};
ghost use Rattle.dkg_lives.specs.Ways.{by_entries, by_worlds, trace};

use dkg_around::{HeldBlocks, blocks_of};
use dkg_ceremony::{Mem, Value};
use dkg_infos::{Entry, Fault, Transcript, Unit};
use dkg_journal::{Disk, Fuse};
use dkg_node::Node;
use dkg_reshare::{Stop, check_config};
use dkg_script::{Cut, Event, Life, Script};
use dkg_store::{Devices, SecretStore};
use dkg_types::Block;
use std::alloc::Global;

/// The fuse of a step, or none where the life ends before it.
fn fuse_of(cut: &Option<Cut>, step: u64) -> Option<Fuse>
    ensures { result ≡ fuse_for cut.now step }
{
    match cut {
        Some(cut) if cut.step == step => {
            if cut.call == 0 {
                None
            } else {
                Some(Fuse::at(cut.call, cut.pick))
            }
        }
        _ => Some(Fuse::never()),
    }
}

/// Sets the fuse of a step, or ends the life before it.
fn begin_step<D: Disk, X: SecretStore>(
    devices: &mut Devices<'_, D, X>,
    cut: &Option<Cut>,
    step: u64,
) -> Result<(), Stop>
    ensures same { (devices.new.disk ≡ devices.old.disk) × (devices.new.secrets ≡ devices.old.secrets) }
    ensures lit { OnOk result (fuse_for cut.now step ≡ Some devices.new.fuse) }
    ensures ends { IfErr result (λ stop. (stop ≡ AtCut) × (fuse_for cut.now step ≡ None) × (devices.new ≡ devices.old)) }
{
    match fuse_of(cut, step) {
        Some(fuse) => {
            devices.fuse = fuse;
            Ok(())
        }
        None => Err(Stop::Cut),
    }
}

/// Holds the block that an event delivers.
fn hold(source: &mut HeldBlocks<'_>, event: &Event<'_>) -> Mem<()>
    ensures blocks { source.new.blocks ≡ source.old.blocks }
    ensures anchor { source.new.anchor ≡ source.old.anchor }
    ensures numbers { OnOk result (source.new.numbers.items ≡ source.old.numbers.items ++ filter_map delivered_number (event.now ∷ [])) }
{
    match event {
        Event::Final { block } => source.hold(*block),
        _ => Ok(()),
    }
}

/// Takes the step of an event, where the life is not cut before it, and tells its end.
fn take_step<D: Disk, X: SecretStore>(
    alloc: Global,
    node: &mut Node<'_>,
    source: &mut HeldBlocks<'_>,
    event: &Event<'_>,
    number: u64,
    life: &Life,
    devices: &mut Devices<'_, D, X>,
    out: &mut Transcript,
) -> Result<(), Stop>
    requires here { (f : Burn) → fuse_for life.now.cut number ≡ Some f
        → IsEventOfBlocks (non_zero_u32_get node.old.actor.terms.limit) source.old.blocks.now event.now }
    requires ready { IsReadyNode D.tells D.files D.image node.old devices.old }
    requires goes { (f : Burn) → fuse_for life.now.cut number ≡ Some f → GoesIn node.old }
    ensures ready { OnOk result (IsReadyNode D.tells D.files D.image node.new devices.new) }
    ensures terms { node.new.actor.terms ≡ node.old.actor.terms }
    ensures of { (g : Lived) → IsOfLife g node.old → IsOfLife g node.new }
    ensures source { (source.new.blocks ≡ source.old.blocks) × (source.new.anchor ≡ source.old.anchor)
        × OnOk result (source.new.numbers.items ≡ source.old.numbers.items ++ filter_map delivered_number (event.now ∷ [])) }
    // It is the relation's step with its fuse, over the lines, and over both devices, whatever image a crash leaves.
    ensures lines { (g : Lived) (st : Live directory.Unit) (picks : List ℕ) → IsStepHere g node.old source.old.blocks.now life.now → MayStep g number st
        → IsView node.old st
        → Steps by_entries (entry.Step number) (fuse_for life.now.cut number) (step_of g number event.now st)
        (trace out.old.entries picks) result (trace out.new.entries picks)
        (λ end now. (result ≡ Ok tt) × IsView node.new end × (now ≡ trace out.new.entries picks)) }
    ensures run { IsTrue D.tells → IsTrue X.tells → (g : Lived) (st : Live directory.Unit) → IsStepHere g node.old source.old.blocks.now life.now
        → MayStep g number st
        → IsView node.old st → (c : Files) → D.image devices.new.disk.now c
        → Steps by_worlds (entry.Step number) (fuse_for life.now.cut number) (step_of g number event.now st)
        (world_of X.held devices.old out.old.entries (D.files devices.old.disk.now)) result (world_of X.held devices.new out.new.entries c)
        (λ end w. (result ≡ Ok tt) × IsView node.new end × (w ≡ world_of X.held devices.new out.new.entries c)) }
    ensures went { Went D.tells D.made X.made D.faults X.faults devices.old devices.new [] }
    ensures causes { IfErr result (StepBlames D.tells D.faults X.faults devices.old devices.new) }
    ensures fit { IsTrue D.tells → AreFit (non_zero_u32_get node.old.actor.terms.limit) (D.image devices.old.disk.now)
        → AreFit (non_zero_u32_get node.old.actor.terms.limit) (D.image devices.new.disk.now) }
{
    begin_step(devices, &life.cut, number)?;
    hold(source, event)?;
    node.step(alloc, source, event, devices, out)?;
    Ok(out.push(Entry::Step { step: number })?)
}

/// Takes the steps of a life's events, which begin with step 1.
fn take_steps<D: Disk, X: SecretStore>(
    alloc: Global,
    node: &mut Node<'_>,
    source: &mut HeldBlocks<'_>,
    life: &Life,
    devices: &mut Devices<'_, D, X>,
    out: &mut Transcript,
) -> Result<(), Stop>
    requires here { HasOpened node.old source.old.blocks.now life.now }
    requires begun { (f : Burn) × (fuse_for life.now.cut 0 ≡ Some f) }
    requires ready { IsReadyNode D.tells D.files D.image node.old devices.old }
    ensures lines { (g : Lived) (st : Live directory.Unit) (picks : List ℕ) → IsLifeInForm g → IsStepHere g node.old source.old.blocks.now life.now
        → IsView node.old st → IsAtEvent g 0 st
        → TakesAll by_entries g 1 life.now.events st (trace out.old.entries picks) result (trace out.new.entries picks) }
    ensures run { IsTrue D.tells → IsTrue X.tells → (g : Lived) (st : Live directory.Unit) → IsLifeInForm g
        → IsStepHere g node.old source.old.blocks.now life.now → IsView node.old st → IsAtEvent g 0 st → (c : Files) → D.image devices.new.disk.now c
        → TakesAll by_worlds g 1 life.now.events st
        (world_of X.held devices.old out.old.entries (D.files devices.old.disk.now)) result (world_of X.held devices.new out.new.entries c) }
    ensures firm { OnOk result (IsTrue D.tells → Lands (D.files devices.new.disk.now) (D.image devices.new.disk.now)) }
    ensures went { Went D.tells D.made X.made D.faults X.faults devices.old devices.new [] }
    ensures causes { IfErr result (StepBlames D.tells D.faults X.faults devices.old devices.new) }
    ensures fit { IsTrue D.tells → AreFit (non_zero_u32_get node.old.actor.terms.limit) (D.image devices.old.disk.now)
        → AreFit (non_zero_u32_get node.old.actor.terms.limit) (D.image devices.new.disk.now) }
{
    for i in 0..life.events.len() {
        take_step(
            alloc,
            node,
            source,
            &life.events.at(i),
            i as u64 + 1,
            life,
            devices,
            out,
        )?;
    }
    Ok(())
}

/// Tells that the opening is complete, and takes the steps of the life's events, unless there is no memory to tell it.
fn go_on<D: Disk, X: SecretStore>(
    alloc: Global,
    node: &mut Node<'_>,
    source: &mut HeldBlocks<'_>,
    life: &Life,
    devices: &mut Devices<'_, D, X>,
    out: &mut Transcript,
) -> Result<(), Stop>
    requires here { HasOpened node.old source.old.blocks.now life.now }
    requires begun { (f : Burn) × (fuse_for life.now.cut 0 ≡ Some f) }
    requires ready { IsReadyNode D.tells D.files D.image node.old devices.old }
    ensures lines { IsUntold result devices.old devices.new out.old.entries out.new.entries
        ⊎ ((g : Lived) (st : Live directory.Unit) (picks : List ℕ) → IsLifeInForm g → IsStepHere g node.old source.old.blocks.now life.now
        → IsView node.old st → IsAtEvent g 0 st
        → TakesAll by_entries g 1 life.now.events st (trace (out.old.entries ++ entry.Step 0 ∷ []) picks) result (trace out.new.entries picks)) }
    ensures run { IsUntold result devices.old devices.new out.old.entries out.new.entries
        ⊎ (IsTrue D.tells → IsTrue X.tells → (g : Lived) (st : Live directory.Unit) → IsLifeInForm g
        → IsStepHere g node.old source.old.blocks.now life.now → IsView node.old st → IsAtEvent g 0 st → (c : Files) → D.image devices.new.disk.now c
        → TakesAll by_worlds g 1 life.now.events st
        (world_of X.held devices.old (out.old.entries ++ entry.Step 0 ∷ []) (D.files devices.old.disk.now)) result
        (world_of X.held devices.new out.new.entries c)) }
    ensures firm { OnOk result (IsTrue D.tells → Lands (D.files devices.new.disk.now) (D.image devices.new.disk.now)) }
    ensures went { Went D.tells D.made X.made D.faults X.faults devices.old devices.new [] }
    ensures causes { IfErr result (StepBlames D.tells D.faults X.faults devices.old devices.new) }
    ensures fit { IsTrue D.tells → AreFit (non_zero_u32_get node.old.actor.terms.limit) (D.image devices.old.disk.now)
        → AreFit (non_zero_u32_get node.old.actor.terms.limit) (D.image devices.new.disk.now) }
{
    out.push(Entry::Step { step: 0 })?;
    take_steps(alloc, node, source, life, devices, out)
}

/// Opens a node, where the life is not cut before it, and takes the steps of its life.
fn live<D: Disk, X: SecretStore>(
    alloc: Global,
    script: &Script,
    blocks: &[Block<Unit>],
    number: u64,
    life: &Life,
    devices: &mut Devices<'_, D, X>,
    out: &mut Transcript,
) -> Result<(), Stop>
    requires form { IsFormOfInclusion script.now }
    requires checked { IsChecked script.now }
    requires here { (slice_get script.now.lives number ≡ Some life.now) × (blocks.now ≡ blocks_in script.now) }
    requires bytes { AreBytes script.now.blocks }
    // It is a life of the node, over the lines and over both devices, whatever image a crash leaves.
    ensures lines { (seen : Held → Seen) × by_entries.reads seen × ((picks : List ℕ)
        → LivesSo by_entries (lived script.now number life.now seen (D.files devices.old.disk.now)) (D.files devices.old.disk.now)
        (trace out.old.entries picks) result (trace out.new.entries picks)) }
    ensures run { IsTrue D.tells → IsTrue X.tells → Stands (D.files devices.old.disk.now) (D.image devices.old.disk.now) → (c : Files)
        → D.image devices.new.disk.now c
        → LivesSo by_worlds (lived script.now number life.now seen_planless (D.files devices.old.disk.now)) (D.files devices.old.disk.now)
        (world_of X.held devices.old out.old.entries (D.files devices.old.disk.now)) result (world_of X.held devices.new out.new.entries c) }
    ensures firm { OnOk result (IsTrue D.tells → Lands (D.files devices.new.disk.now) (D.image devices.new.disk.now)) }
    ensures went { Went D.tells D.made X.made D.faults X.faults devices.old devices.new [] }
    ensures causes { IfErr result (StopBlames D.faults X.faults devices.old devices.new) }
    // A corrupt record that it names stands on the devices as they are left.
    ensures found { IfErr result (λ stop. IsTrue D.tells → IfFault stop (IsFoundRecord (limits_of script.now).limit (D.files devices.new.disk.now))) }
    ensures fit { IsTrue D.tells → AreFit (limits_of script.now).limit (D.image devices.old.disk.now)
        → AreFit (limits_of script.now).limit (D.image devices.new.disk.now) }
{
    begin_step(devices, &life.cut, 0)?;
    let mut source = HeldBlocks::new(alloc, blocks, life)?;
    let mut node = Node::open(alloc, script, number, life, &source, devices, out)?;
    go_on(alloc, &mut node, &mut source, life, devices, out)
}

/// Stops both devices, each with this pick.
fn crash<D: Disk, X: SecretStore>(devices: &mut Devices<'_, D, X>, pick: u64)
    ensures went { Went D.tells D.made X.made D.faults X.faults devices.old devices.new (pick ∷ []) }
    ensures narrows { (c : Files) → D.image devices.new.disk.now c → D.image devices.old.disk.now c }
    ensures stands { IsTrue D.tells → Stands (D.files devices.new.disk.now) (D.image devices.new.disk.now) }
    ensures held { X.held devices.new.secrets.now ≡ X.held devices.old.secrets.now }
    ensures fuse { devices.new.fuse ≡ devices.old.fuse }
{
    devices.disk.crash(pick);
    devices.secrets.crash(pick);
}

/// Ends a life: both devices stop, and a cut is told. A fault leaves the devices as they are.
fn end_life<D: Disk, X: SecretStore>(
    life: &Life,
    how: Result<(), Stop>,
    devices: &mut Devices<'_, D, X>,
    out: &mut Transcript,
) -> Result<(), Fault>
    requires scripted { how ≡ Err AtCut → IsSome life.now.cut }
    requires done { how ≡ Err HadFailed → ⊥ }
    ensures ends { (picks : List ℕ)
        → EndsLife by_entries life.now how (trace out.old.entries picks) result (trace out.new.entries (picks ++ picks_at_end life.now how))
        (λ now. (result ≡ Ok tt) × (now ≡ trace out.new.entries (picks ++ picks_at_end life.now how))) }
    ensures faulted { IfErr result (λ fault. (how ≡ Err (FaultOf fault)) ⊎ (fault ≡ NoMemory)) }
    ensures narrows { (c : Files) → D.image devices.new.disk.now c → D.image devices.old.disk.now c }
    ensures held { X.held devices.new.secrets.now ≡ X.held devices.old.secrets.now }
    ensures same { (fault : Fault) → how ≡ Err (FaultOf fault) → devices.new ≡ devices.old }
    ensures stands { OnOk result (IsTrue D.tells → Stands (D.files devices.new.disk.now) (D.image devices.new.disk.now)) }
    ensures went { Went D.tells D.made X.made D.faults X.faults devices.old devices.new (picks_at_end life.now how) }
    ensures fuse { devices.new.fuse ≡ devices.old.fuse }
{
    match (how, &life.cut) {
        (Ok(()), _) => {
            crash(devices, life.pick);
            Ok(())
        }
        (Err(Stop::Cut), Some(cut)) => {
            crash(devices, cut.pick);
            Ok(out.push(Entry::Cut {
                step: cut.step,
                call: cut.call,
            })?)
        }
        (Err(Stop::Fault(fault)), _) => Err(fault),
        (Err(Stop::Cut | Stop::Failed), _) => unreachable!(),
    }
}

/// Runs a life to its end.
fn run_life<D: Disk, X: SecretStore>(
    alloc: Global,
    script: &Script,
    blocks: &[Block<Unit>],
    number: u64,
    life: &Life,
    devices: &mut Devices<'_, D, X>,
    out: &mut Transcript,
) -> Result<(), Fault>
    requires form { IsFormOfInclusion script.now }
    requires checked { IsChecked script.now }
    requires here { (slice_get script.now.lives number ≡ Some life.now) × (blocks.now ≡ blocks_in script.now) }
    requires bytes { AreBytes script.now.blocks }
    ensures lines { (added : List ℕ) × Went D.tells D.made X.made D.faults X.faults devices.old devices.new added
        × ((picks : List ℕ) → LivesHere by_entries script.now AnyFiles number life.now (trace out.old.entries picks) result
        (trace out.new.entries (picks ++ added))
        (λ now. (result ≡ Ok tt) × (now ≡ trace out.new.entries (picks ++ added)))) }
    ensures run { IsTrue D.tells → IsTrue X.tells → Stands (D.files devices.old.disk.now) (D.image devices.old.disk.now) → (c : Files)
        → D.image devices.new.disk.now c
        → LivesHere by_worlds script.now (λ files. files ≡ D.files devices.old.disk.now) number life.now
        (world_of X.held devices.old out.old.entries (D.files devices.old.disk.now)) result (world_of X.held devices.new out.new.entries c)
        (λ w. (result ≡ Ok tt) × (w ≡ world_of X.held devices.new out.new.entries c)) }
    ensures stands { OnOk result (IsTrue D.tells → Stands (D.files devices.new.disk.now) (D.image devices.new.disk.now)) }
    ensures causes { IfErr result (Blames D.faults X.faults devices.old devices.new) }
    ensures found { IfErr result (λ fault. IsTrue D.tells → IsFoundRecord (limits_of script.now).limit (D.files devices.new.disk.now) fault) }
    ensures fit { IsTrue D.tells → AreFit (limits_of script.now).limit (D.image devices.old.disk.now)
        → AreFit (limits_of script.now).limit (D.image devices.new.disk.now) }
{
    let how = live(alloc, script, blocks, number, life, devices, out);
    end_life(life, how, devices, out)
}

/// Runs all lives, up to a fault.
fn run_all<D: Disk, X: SecretStore>(
    alloc: Global,
    script: &Script,
    devices: &mut Devices<'_, D, X>,
    out: &mut Transcript,
) -> Result<(), Fault>
    requires form { IsFormOfInclusion script.now }
    ensures lines { (picks : List ℕ) × Went D.tells D.made X.made D.faults X.faults devices.old devices.new picks
        × RunsAllSo by_entries script.now AnyFiles (trace out.old.entries []) result (trace out.new.entries picks) }
    ensures run { IsTrue D.tells → IsTrue X.tells → Stands (D.files devices.old.disk.now) (D.image devices.old.disk.now) → (c : Files)
        → D.image devices.new.disk.now c
        → RunsAllSo by_worlds script.now (λ files. files ≡ D.files devices.old.disk.now)
        (world_of X.held devices.old out.old.entries (D.files devices.old.disk.now)) result (world_of X.held devices.new out.new.entries c) }
    ensures stands { OnOk result (IsTrue D.tells → Stands (D.files devices.old.disk.now) (D.image devices.old.disk.now)
        → Stands (D.files devices.new.disk.now) (D.image devices.new.disk.now)) }
    ensures causes { IfErr result (Blames D.faults X.faults devices.old devices.new) }
    ensures found { IfErr result (λ fault. IsTrue D.tells → IsFoundRecord (limits_of script.now).limit (D.files devices.new.disk.now) fault) }
    ensures fit { IsTrue D.tells → AreFit (limits_of script.now).limit (D.image devices.old.disk.now)
        → AreFit (limits_of script.now).limit (D.image devices.new.disk.now) }
    // Lives begin where the configuration is not refused and there is memory for the blocks. Else all is as it was.
    ensures begun { (IsChecked script.now × AreBytes script.now.blocks)
        ⊎ BeganNone script.now result ((devices.new ≡ devices.old) × (out.new.entries ≡ out.old.entries)) }
{
    check_config(
        script.config.mode,
        script.config.max_mode,
        script.config.blocks_per_epoch,
    )?;
    let blocks = blocks_of(alloc, script)?;
    for (i, life) in script.lives.as_slice().iter().enumerate() {
        run_life(alloc, script, &blocks, i as u64, life, devices, out)?;
    }
    Ok(())
}

/// Tells the fault that ends a run, unless it is want of memory.
fn tell(alloc: Global, fault: Fault, out: &mut Transcript) -> Fault
    ensures { (picks : List ℕ) → TellsEnd by_entries (Err fault) (Err result) (trace out.old.entries picks) (trace out.new.entries picks) }
{
    if let Fault::NoMemory = fault {
        return fault;
    }
    let Ok(copy) = fault.copy(alloc) else {
        return Fault::NoMemory;
    };
    match out.push(Entry::Fault(copy)) {
        Ok(()) => fault,
        Err(_) => Fault::NoMemory,
    }
}

/// Runs the lives of a script over the devices, one after another. A fault ends the run, and is told unless it is want
/// of memory; the devices then keep what was complete.
pub fn run_lives<D: Disk, X: SecretStore>(
    alloc: Global,
    script: &Script,
    disk: &mut D,
    secrets: &mut X,
    out: &mut Transcript,
) -> Result<(), Fault>
    requires form { IsFormOfInclusion script.now }
    // The entries of each life are those of a node run of the script, whatever the devices tell; a step that is ended early gives a front of its lines.
    // Each life's end stopped both devices, each with its pick.
    ensures lines { SaysRun script.now
        (over D.tells D.files D.image D.faults D.made X.tells X.held X.faults X.made (disk.old, secrets.old) (disk.new, secrets.new))
        out.old.entries result out.new.entries }
    // The node ran over the devices, whatever image a crash leaves: each life from what the one before left, and cut exactly where its step makes so many
    // calls.
    ensures run { DoesRun script.now
        (over D.tells D.files D.image D.faults D.made X.tells X.held X.faults X.made (disk.old, secrets.old) (disk.new, secrets.new))
        out.old.entries result out.new.entries }
    // What follows of the dealings, the offers, the requests, the shares, the order and the faults, and that a second call stands under what this one leaves.
    ensures promise { Adds out.old.entries out.new.entries (Promised script.now
        (over D.tells D.files D.image D.faults D.made X.tells X.held X.faults X.made (disk.old, secrets.old) (disk.new, secrets.new)) result) }
{
    let mut devices = Devices {
        disk,
        secrets,
        fuse: Fuse::never(),
    };
    match run_all(alloc, script, &mut devices, out) {
        Ok(()) => Ok(()),
        Err(fault) => Err(tell(alloc, fault, out)),
    }
}
