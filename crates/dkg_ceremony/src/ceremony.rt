//! What a node asks of a key ceremony.
//!
//! Each answer is a function of the arguments, the same at every node: the ghost members say which.
ghost use Rattle.std.specs.Prelude.{◌≡◌, ◌≤◌, ◌↔◌, ℕ, true, List, length, Option, option_map, Ok, Some, Contains, IfErr, IfOk, IfSome, IsOk, IsSomeAnd};
ghost use Rattle.dkg_values.specs.Rising.{lookup};
ghost use Rattle.dkg_ceremony.specs.declared.ceremony.AckError.TheVariants.{NoMemory as NoMemoryLeft};
ghost use Rattle.dkg_ceremony.specs.declared.dealer_log.DealerLog.{DealerLog};
ghost use Rattle.dkg_ceremony.specs.declared.round.RoundParts.{RoundParts as Round};
ghost use Rattle.dkg_ceremony.specs.Finishes.{IsMissing};

use crate::deal::DealError;
use crate::dealer_log::DealerLog;
use crate::finish::FinishError;
use crate::mode::{Mode, Reveal};
use crate::output::Output;
use crate::private::{Ack, Private, Share};
use crate::public::Public;
use crate::round::{Round, RoundError};
use crate::sign::Signer;
use crate::signed_log::SignedDealerLog;
use dkg_values::{Element, Key, Map, Mem, NoMemory, Seed, Set};
use std::alloc::{AllocError, AllocFailed, Global};
use thiserror::Error;

/// Why a dealing is refused; of several, the first.
#[derive(Clone, Copy, Debug, PartialEq, Eq, Error)]
pub enum DealingError {
    #[error("the dealer is not one of the round's")]
    UnexpectedDealer,
    #[error("the polynomial has another degree")]
    InvalidCommitmentDegree,
    #[error("the polynomial does not reshare the previous one")]
    MismatchedReshareCommitment,
    #[error("the private half is not the polynomial's value")]
    InvalidDealerShare,
}

/// Why an acknowledgement is refused; of several, the first.
#[derive(Clone, Copy, Debug, PartialEq, Eq, Error)]
pub enum AckError {
    #[error("the player is not one of the round's")]
    UnexpectedPlayer,
    #[error("the acknowledgement is not the player's")]
    InvalidAck,
    #[error("out of memory")]
    NoMemory,
}

impl From<NoMemory> for AckError {
    ghost from_gives = { λ _ e. e ≡ NoMemoryLeft };

    fn from(_e: NoMemory) -> AckError {
        AckError::NoMemory
    }
}

impl From<AllocError> for AckError {
    ghost from_gives = { λ _ e. e ≡ NoMemoryLeft };

    fn from(_e: AllocError) -> AckError {
        AckError::NoMemory
    }
}

impl<T: Drop> From<AllocFailed<T>> for AckError {
    ghost from_gives = { λ _ e. e ≡ NoMemoryLeft };

    fn from(_e: AllocFailed<T>) -> AckError {
        AckError::NoMemory
    }
}

/// The calls of a ceremony.
pub trait Ceremony {
    ghost use Rattle.std.specs.Prelude.{◌≡◌, ◌↔◌, ℕ, Bool, true, List, Option, Some, option_map, Result, Ok, Err, IfErr, IfOk, IfSome, IsOk, IsSomeAnd, IsTrue, Contains};
    ghost use Rattle.std.specs.Option.{option_copied};
    ghost use Rattle.dkg_values.specs.Rising.{lookup};
    ghost use Rattle.dkg_ceremony.specs.declared.round.RoundParts.{RoundParts as Round};
    ghost use Rattle.dkg_ceremony.specs.declared.round.RoundError.{RoundError};
    ghost use Rattle.dkg_ceremony.specs.declared.round.RoundError.TheVariants.{NoMemory as NoMemoryForRound};
    ghost use Rattle.dkg_ceremony.specs.declared.output.Output.{Output};
    ghost use Rattle.dkg_ceremony.specs.declared.mode.Mode.{Mode};
    ghost use Rattle.dkg_ceremony.specs.declared.mode.Reveal.{Reveal};
    ghost use Rattle.dkg_ceremony.specs.declared.ceremony.DealingError.{DealingError};
    ghost use Rattle.dkg_ceremony.specs.declared.ceremony.AckError.{AckError};
    ghost use Rattle.dkg_ceremony.specs.declared.deal.DealError.{DealError};
    ghost use Rattle.dkg_ceremony.specs.declared.deal.DealError.TheVariants.{ShareRefused};
    ghost use Rattle.dkg_ceremony.specs.declared.finish.FinishError.{FinishError};
    ghost use Rattle.dkg_ceremony.specs.declared.dealer_log.DealerLog.{DealerLog};
    ghost use Rattle.dkg_ceremony.specs.declared.signed_log.SignedDealerLog.{SignedDealerLog};
    ghost use Rattle.dkg_ceremony.specs.Rounds.{AnswersRound};
    ghost use Rattle.dkg_ceremony.specs.Deals.{AnswersDeal};
    ghost use Rattle.dkg_ceremony.specs.Acks.{AnswersAckCheck};
    ghost use Rattle.dkg_ceremony.specs.ValidLogs.{has_entry};
    ghost use Rattle.dkg_ceremony.specs.Finishes.{AnswersFinish, IsMissing};

    type Signer: Signer;

    /// The round of a namespace, a number, a previous output, a mode, a way to reveal, dealers and players.
    ghost round_of: { List ℕ → ℕ → Option Output → Mode → Reveal → List ℕ → List ℕ → Result Round RoundError };

    /// The public half and each player's private half of what a dealer deals, from its share and a seed, or why there are none.
    ghost deal_of: { Round → (signer : ℕ) → Option ℕ → List ℕ → Result (List ℕ × List (ℕ × ℕ)) DealError };

    /// What the check of a dealing answers to a player, of a dealer's two halves.
    ghost dealing_of: { Round → (me dealer : ℕ) → List ℕ → ℕ → Result (Unit {0}) DealingError };

    /// The acknowledgement of a player for a dealer's public half.
    ghost ack_of: { (me : ℕ) → Round → (dealer : ℕ) → List ℕ → List ℕ };

    /// What the check of a player's acknowledgement of a dealer's public half answers.
    ghost check_ack_of: { Round → (dealer : ℕ) → List ℕ → (player : ℕ) → List ℕ → Result (Unit {0}) AckError };

    /// A dealer's log of a public half, of private halves and of acknowledgements, signed.
    ghost sign_log_of: { (signer : ℕ) → Round → List ℕ → List (ℕ × ℕ) → List (ℕ × List ℕ) → SignedDealerLog };

    /// Whether a signed log comes from a dealer of the round and bears its mark.
    ghost check_log_of: { Round → SignedDealerLog → Bool };

    /// Whether a dealer's log holds a valid acknowledgement of a player.
    ghost bears_ack_of: { Round → (dealer : ℕ) → DealerLog → (player : ℕ) → Bool };

    /// The dealers whose logs the outcome is made of, or none.
    ghost selected_of: { Round → List (ℕ × DealerLog) → Option (List ℕ) };

    /// The outcome of the dealers' logs, or none.
    ghost outcome_of: { Round → List (ℕ × DealerLog) → Option Output };

    /// The outcome and a player's share, from its dealings and the dealers' logs, or none.
    ghost finish_of: { Round → (me : ℕ) → List (ℕ × (List ℕ × ℕ)) → List (ℕ × DealerLog) → Result (Option (Output × ℕ)) FinishError };

    /// The public element of a share.
    ghost share_public_of: { ℕ → ℕ };

    /// The public element of a player's share of an output.
    ghost partial_public_of: { Output → (player : ℕ) → Option ℕ };

    /// Draws up a round.
    ///
    /// NoDealers and NoPlayers: an empty set. TooMany: dealers, players or the previous output's players above
    /// 65,520. DealersNotPrevious: a dealer outside the previous output's players.
    fn round(
        &self,
        alloc: Global,
        namespace: &[u8],
        number: u64,
        previous: Option<&Output>,
        mode: Mode,
        reveal: Reveal,
        dealers: &Set,
        players: &Set,
    ) -> Result<Round, RoundError>
        ensures { AnswersRound (round_of namespace.now number (option_copied previous.entry) mode reveal dealers.now players.now) result };

    /// Deals to the players of a round. A key that is dealt again takes the dealer's share of it.
    ///
    /// ShareRefused: there is a previous output, and no share of it that is the dealer's.
    fn deal(
        &self,
        alloc: Global,
        round: &Round,
        signer: &Self::Signer,
        share: Option<&Share>,
        seed: &Seed,
    ) -> Result<(Public, Map<Private>), DealError>
        requires { Contains round.now.dealers (Self.Signer.key_of signer.now) }
        ensures { AnswersDeal (deal_of round.now (Self.Signer.key_of signer.now) (option_copied share.entry) seed.now) result };

    /// Checks a dealing to the player `me`.
    fn check_dealing(
        &self,
        round: &Round,
        me: Key,
        dealer: Key,
        public: &Public,
        private: &Private,
    ) -> Result<(), DealingError>
        requires { Contains round.now.players me }
        ensures { result ≡ dealing_of round.now me dealer public.now private.now };

    /// Acknowledges a dealer's public half.
    fn ack(
        &self,
        alloc: Global,
        signer: &Self::Signer,
        round: &Round,
        dealer: Key,
        public: &Public,
    ) -> Mem<Ack>
        requires { Contains round.now.players (Self.Signer.key_of signer.now) }
        ensures { IfOk result (λ ack. ack ≡ ack_of (Self.Signer.key_of signer.now) round.now dealer public.now) };

    /// Checks a player's acknowledgement of a dealer's public half.
    fn check_ack(
        &self,
        alloc: Global,
        round: &Round,
        dealer: Key,
        public: &Public,
        player: Key,
        ack: &Ack,
    ) -> Result<(), AckError>
        ensures { AnswersAckCheck (check_ack_of round.now dealer public.now player ack.now) result };

    /// Makes the log of a dealing: for each player the acknowledgement that came in, or else its private half, which
    /// is then revealed.
    fn sign_log(
        &self,
        alloc: Global,
        signer: &Self::Signer,
        round: &Round,
        public: &Public,
        privates: &Map<Private>,
        acks: &Map<Ack>,
    ) -> Mem<SignedDealerLog>
        requires dealer { Contains round.now.dealers (Self.Signer.key_of signer.now) }
        requires entries { (player : ℕ) → Contains round.now.players player → IsTrue (has_entry privates.now acks.now player) }
        ensures { IfOk result (λ log. log ≡ sign_log_of (Self.Signer.key_of signer.now) round.now public.now privates.now acks.now) };

    /// Whether a log comes from a dealer of the round. It says nothing of what the log holds.
    fn check_log(&self, alloc: Global, round: &Round, log: &SignedDealerLog) -> Mem<bool>
        ensures { IfOk result (λ b. b ≡ check_log_of round.now log.now) };

    /// Whether a dealer's log holds a valid acknowledgement of the player.
    fn bears_ack(
        &self,
        alloc: Global,
        round: &Round,
        dealer: Key,
        log: &DealerLog,
        player: Key,
    ) -> Mem<bool>
        ensures { IfOk result (λ b. b ≡ bears_ack_of round.now dealer log.now player) };

    /// The outcome of the dealers' logs, by their keys, as all see it; none where too few logs are valid.
    fn observe(&self, alloc: Global, round: &Round, logs: &Map<DealerLog>) -> Mem<Option<Output>>
        ensures { IfOk result (λ output. output ≡ outcome_of round.now logs.now) };

    /// The outcome of the dealers' logs, and the share of the player `me`, from the dealings that it has checked.
    ///
    /// MissingDealing: a log of which the outcome is made bears the player's acknowledgement, and no dealing of that
    /// dealer has the log's public half.
    fn finish(
        &self,
        alloc: Global,
        round: &Round,
        me: Key,
        dealings: &Map<(Public, Private)>,
        logs: &Map<DealerLog>,
    ) -> Result<Option<(Output, Share)>, FinishError>
        requires player { Contains round.now.players me }
        requires checked { (dealer : ℕ) → IfSome (lookup dealer dealings.now) (λ d. dealing_of round.now me dealer d.0 d.1 ≡ Ok tt) }
        ensures { AnswersFinish (finish_of round.now me dealings.now logs.now) result };

    /// The public element of a share.
    fn share_public(&self, share: &Share) -> Element
        ensures { result ≡ share_public_of share.now };

    /// The public element of a player's share of an output, where it is one of its players.
    fn partial_public(&self, output: &Output, player: Key) -> Option<Element>
        ensures { result ≡ partial_public_of output.now player };

    /// A round has the parts that were asked for.
    ghost round_has: { (namespace : List ℕ) (number : ℕ) (previous : Option Output) (mode : Mode) (reveal : Reveal) (dealers players : List ℕ)
        → IfOk (round_of namespace number previous mode reveal dealers players)
        (λ round. round ≡ record { namespace = namespace; number = number; previous = previous; mode = mode; reveal = reveal; dealers = dealers; players = players }) };

    /// What a player acknowledges passes the check.
    ghost acks_pass: { (round : Round) (me dealer : ℕ) (public : List ℕ) → Contains round.players me
        → check_ack_of round dealer public me (ack_of me round dealer public) ≡ Ok tt };

    /// A round that isn't drawn up has a cause of its own: want of memory is none.
    ghost rounds_have_causes: { (namespace : List ℕ) (number : ℕ) (previous : Option Output) (mode : Mode) (reveal : Reveal) (dealers players : List ℕ)
        → IfErr (round_of namespace number previous mode reveal dealers players) (λ e. e ≡ NoMemoryForRound → ⊥) };

    /// A dealer deals just where it has a share of the previous output that is its own, or there is no previous output.
    ghost shares_are_dealt: { (round : Round) (signer : ℕ) (share : Option ℕ) (seed : List ℕ)
        → IsOk (deal_of round signer share seed)
        ↔ IfSome round.previous (λ output. IsSomeAnd share (λ s. partial_public_of output signer ≡ Some (share_public_of s))) };

    /// Else its share is refused, whatever it is.
    ghost only_shares_are_refused: { (round : Round) (signer : ℕ) (share : Option ℕ) (seed : List ℕ)
        → IfErr (deal_of round signer share seed) (λ e. e ≡ ShareRefused) };

    /// What a dealer deals passes each player's check.
    ghost deals_pass: { (round : Round) (signer : ℕ) (share : Option ℕ) (seed : List ℕ) → Contains round.dealers signer
        → IfOk (deal_of round signer share seed)
        (λ dealt. (me : ℕ) → Contains round.players me → IsSomeAnd (lookup me dealt.1) (λ private. dealing_of round me signer dealt.0 private ≡ Ok tt)) };

    /// What a dealer deals has no more coefficients than the round has players, or one.
    ghost deals_are_short: { (round : Round) (signer : ℕ) (share : Option ℕ) (seed : List ℕ)
        → IfOk (deal_of round signer share seed) (λ dealt. (n : ℕ) → 1 ≤ n → length round.players ≤ n → length dealt.0 ≤ n) };

    /// What a dealer signs passes the check.
    ghost signed_pass: { (round : Round) (signer : ℕ) (public : List ℕ) (privates : List (ℕ × ℕ)) (acks : List (ℕ × List ℕ)) → Contains round.dealers signer
        → check_log_of round (sign_log_of signer round public privates acks) ≡ true };

    /// Who finishes a round has the outcome that all see, or none as they do.
    ghost finish_agrees: { (round : Round) (me : ℕ) (dealings : List (ℕ × (List ℕ × ℕ))) (logs : List (ℕ × DealerLog))
        → IfOk (finish_of round me dealings logs) (λ found. option_map (λ f. f.0) found ≡ outcome_of round logs) };

    /// A round isn't finished only where a selected log bears the player's acknowledgement and its dealing is missing.
    ghost missing_lacks: { (round : Round) (me : ℕ) (dealings : List (ℕ × (List ℕ × ℕ))) (logs : List (ℕ × DealerLog))
        → IfErr (finish_of round me dealings logs) (IsMissing (λ dealer log. bears_ack_of round dealer log me) dealings logs (selected_of round logs)) };

    /// A finished share's public element is the one that the output has for the player.
    ghost shares_fit: { (round : Round) (me : ℕ) (dealings : List (ℕ × (List ℕ × ℕ))) (logs : List (ℕ × DealerLog)) → Contains round.players me
        → ((dealer : ℕ) → IfSome (lookup dealer dealings) (λ d. dealing_of round me dealer d.0 d.1 ≡ Ok tt))
        → IfOk (finish_of round me dealings logs) (λ found. IfSome found (λ f. partial_public_of f.0 me ≡ Some (share_public_of f.1))) };
}

/// What a player acknowledges passes the check, of every ceremony.
pub fn acks_pass<C: Ceremony>()
    ensures { (round : Round) (me dealer : ℕ) (public : List ℕ) → Contains round.players me
        → C.check_ack_of round dealer public me (C.ack_of me round dealer public) ≡ Ok tt }
{}

/// What a dealer deals and signs passes the checks, of every ceremony.
pub fn dealers_pass<C: Ceremony>()
    ensures dealt { (round : Round) (signer : ℕ) (share : Option ℕ) (seed : List ℕ)
        → IsOk (C.deal_of round signer share seed)
        ↔ IfSome round.previous (λ output. IsSomeAnd share (λ s. C.partial_public_of output signer ≡ Some (C.share_public_of s))) }
    ensures refused { (round : Round) (signer : ℕ) (share : Option ℕ) (seed : List ℕ)
        → IfErr (C.deal_of round signer share seed) (λ e. e ≡ DealError.ShareRefused) }
    ensures checked { (round : Round) (signer : ℕ) (share : Option ℕ) (seed : List ℕ) → Contains round.dealers signer
        → IfOk (C.deal_of round signer share seed)
        (λ dealt. (me : ℕ) → Contains round.players me → IsSomeAnd (lookup me dealt.1) (λ private. C.dealing_of round me signer dealt.0 private ≡ Ok tt)) }
    ensures short { (round : Round) (signer : ℕ) (share : Option ℕ) (seed : List ℕ)
        → IfOk (C.deal_of round signer share seed) (λ dealt. (n : ℕ) → 1 ≤ n → length round.players ≤ n → length dealt.0 ≤ n) }
    ensures signed { (round : Round) (signer : ℕ) (public : List ℕ) (privates : List (ℕ × ℕ)) (acks : List (ℕ × List ℕ)) → Contains round.dealers signer
        → C.check_log_of round (C.sign_log_of signer round public privates acks) ≡ true }
{}

/// Who finishes a round has the outcome that all see, and a share that fits it, of every ceremony. Who doesn't lacks a dealing.
pub fn finishes_agree<C: Ceremony>()
    ensures same { (round : Round) (me : ℕ) (dealings : List (ℕ × (List ℕ × ℕ))) (logs : List (ℕ × DealerLog))
        → IfOk (C.finish_of round me dealings logs) (λ found. option_map (λ f. f.0) found ≡ C.outcome_of round logs) }
    ensures missing { (round : Round) (me : ℕ) (dealings : List (ℕ × (List ℕ × ℕ))) (logs : List (ℕ × DealerLog))
        → IfErr (C.finish_of round me dealings logs) (IsMissing (λ dealer log. C.bears_ack_of round dealer log me) dealings logs (C.selected_of round logs)) }
    ensures fits { (round : Round) (me : ℕ) (dealings : List (ℕ × (List ℕ × ℕ))) (logs : List (ℕ × DealerLog)) → Contains round.players me
        → ((dealer : ℕ) → IfSome (lookup dealer dealings) (λ d. C.dealing_of round me dealer d.0 d.1 ≡ Ok tt))
        → IfOk (C.finish_of round me dealings logs) (λ found. IfSome found (λ f. C.partial_public_of f.0 me ≡ Some (C.share_public_of f.1))) }
{}
