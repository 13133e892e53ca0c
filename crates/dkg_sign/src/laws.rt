//! What the answers of desks mean together.
ghost use Rattle.std.specs.Prelude.{◌≡◌, ℕ, List, [], ◌∷◌, Option, Ok, Some, slice_get};
ghost use Rattle.dkg_ceremony.specs.declared.output.Output.{Output};
ghost use Rattle.dkg_journal.specs.Names.{Files};
ghost use Rattle.dkg_sign.specs.Chains.{HoldsOf, IsChain, ShareOneKey};
ghost use Rattle.dkg_sign.specs.Desks.{Desk};
ghost use Rattle.dkg_sign.specs.Lives.{DeskDeed, KeepsPromise, KeptWith, NeverBack};
ghost use Rattle.dkg_sign.specs.Materials.{scheme_key};
ghost use Rattle.dkg_sign.specs.Signs.{combine_of};
ghost use Rattle.dkg_sign.specs.declared.partial.Partial.{Partial};
ghost use Rattle.dkg_sign.specs.declared.partial.Signature.{Signature};

use dkg_journal::Disk;

/// Two quorums, also of two epochs that share one key, make one signature on a message; all epochs of a chain share one key, since an
/// outcome keeps the key that is dealt again; so one message has one signature in all of them.
pub fn one_signature()
    ensures quorums { (one other : Desk) (message : List ℕ) (epoch later : ℕ) (partials partials' : List Partial) (s t : Signature)
        → ShareOneKey one epoch other later → combine_of one message epoch partials ≡ Ok s → combine_of other message later partials' ≡ Ok t
        → s.value ≡ t.value }
    ensures chain { (first : Output) (outputs : List Output) → IsChain first outputs → (i : ℕ) (last : Output) → slice_get outputs i ≡ Some last
        → scheme_key last.sharing.poly ≡ scheme_key first.sharing.poly }
    ensures epochs { (first : Output) (outputs : List Output) → IsChain first outputs → (i j : ℕ) (a b : Output)
        → slice_get (first ∷ outputs) i ≡ Some a → slice_get (first ∷ outputs) j ≡ Some b
        → (one other : Desk) (epoch later : ℕ) → HoldsOf one epoch a.sharing → HoldsOf other later b.sharing
        → (message : List ℕ) (partials partials' : List Partial) (s t : Signature)
        → combine_of one message epoch partials ≡ Ok s → combine_of other message later partials' ≡ Ok t → s.value ≡ t.value }
{}

/// Lives, one behind the other: before the first nothing was done; a partial goes on with what is kept; a crash leaves what keeps the promise,
/// since its images are fewer; and what keeps it never went back.
pub fn lives_follow<D: Disk>()
    ensures first { (disk : D) → KeepsPromise [] (D.image disk) }
    ensures signed { (deed : DeskDeed) (deeds : List DeskDeed) (current : Option ℕ) (disk : D) → KeepsPromise deeds (D.image disk) → KeptWith deed current deeds
        → KeepsPromise (deed ∷ deeds) (D.image disk) }
    ensures crash { (deeds : List DeskDeed) (old new : D) → ((c : Files) → D.image new c → D.image old c) → KeepsPromise deeds (D.image old)
        → KeepsPromise deeds (D.image new) }
    ensures never_back { (deeds : List DeskDeed) (disk : D) → KeepsPromise deeds (D.image disk) → NeverBack deeds }
{}
