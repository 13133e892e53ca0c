//! A small ceremony in place of a real one: elements of a field of 65,521, and digests for signatures.
//!
//! It keeps all of a ceremony's rules and none of its secrets: public halves are the polynomials themselves.
ghost use Rattle.std.specs.Prelude.{◌≡◌, ◌++◌, IfOk};
ghost use Rattle.std.specs.Int.{w32, to_be_bytes};
ghost use Rattle.std.specs.Option.{option_copied};
ghost use Rattle.dkg_values.specs.Lists.{public_spelling};
ghost use Rattle.dkg_ceremony.specs.Rounds.{AnswersRound, has_too_many, are_previous};

use crate::ceremony::{AckError, Ceremony, DealingError};
use crate::combine::observe;
use crate::deal::{DealError, deal, element_of};
use crate::dealer_log::DealerLog;
use crate::evaluate::{fits, is_reshare, value_of};
use crate::finish::{FinishError, finish};
use crate::log_mark::{check_log, sign_log};
use crate::mode::{Mode, Reveal};
use crate::output::{Output, are_all_in};
use crate::private::{Ack, Private, Share};
use crate::public::Public;
use crate::round::{Round, RoundError, RoundParts, copy_of_previous};
use crate::sign::{Signer, StandSigner};
use crate::signed_log::SignedDealerLog;
use crate::threshold::quorum;
use crate::valid_log::bears_ack;
use bytes::BytesMut;
use dkg_values::{Blob, Element, EncodeSize, Key, Map, Mem, Seed, Set, Value, Write};
use std::alloc::Global;

/// How many points there are: every element but 0.
const MOST_POINTS: u32 = 65520;

/// The stand-in ceremony.
#[derive(Clone, Copy, Debug, PartialEq, Eq)]
pub struct StandCeremony;

/// Whether the previous output has more players than there are points.
fn are_too_many(previous: &Option<&Output>) -> bool
    ensures { result ≡ has_too_many (option_copied previous.now) }
{
    match previous {
        None => false,
        Some(output) => output.players.len() > MOST_POINTS,
    }
}

/// Whether each dealer is a player of the previous output.
fn come_from(dealers: &Set, previous: &Option<&Output>) -> bool
    ensures { result ≡ are_previous dealers.now (option_copied previous.now) }
{
    match previous {
        None => true,
        Some(output) => are_all_in(dealers, &output.players),
    }
}

/// What comes behind the round in what an acknowledgement is a mark on: the dealer and the public half.
pub(crate) fn rest_of(alloc: Global, dealer: Key, public: &Public) -> Mem<BytesMut>
    ensures { IfOk result (λ rest. rest.items ≡ to_be_bytes w32 dealer ++ public_spelling public.now) }
{
    let mut rest = BytesMut::with_capacity(alloc, 4 + public.encode_size())?;
    dealer.put(&mut rest)?;
    public.put(&mut rest)?;
    Ok(rest)
}

impl Ceremony for StandCeremony {
    type Signer = StandSigner;

    ghost use Rattle.dkg_ceremony.specs.Rounds.{round_of as round_from};
    ghost use Rattle.dkg_ceremony.specs.RoundLaws.{round_has as round_has_parts, rounds_have_causes as all_rounds_have_causes};
    ghost use Rattle.dkg_ceremony.specs.Dealings.{dealing_of as dealing_from};
    ghost use Rattle.dkg_ceremony.specs.Acks.{ack_of as ack_from, check_ack_of as check_ack_from};
    ghost use Rattle.dkg_ceremony.specs.AckLaws.{ack_passes};
    ghost use Rattle.dkg_ceremony.specs.Deals.{deal_of as deal_from};
    ghost use Rattle.dkg_ceremony.specs.DealLaws.{deals_are_short as all_deals_are_short, deals_pass as all_deals_pass, holders_deal, only_shares_are_refused as others_are_refused};
    ghost use Rattle.dkg_ceremony.specs.ValidLogs.{bears_ack_of as bears_from, check_log_of as check_log_from, sign_log_of as signed_from};
    ghost use Rattle.dkg_ceremony.specs.LogMarkLaws.{signed_passes};
    ghost use Rattle.dkg_ceremony.specs.Outcomes.{outcome_of as outcome_from, selected_of as selected_from};
    ghost use Rattle.dkg_ceremony.specs.Finishes.{finish_of as finish_from};
    ghost use Rattle.dkg_ceremony.specs.PartialPublics.{partial_public_of as partial_public_from, share_public_of as share_public_from};
    ghost use Rattle.dkg_ceremony.specs.ShareLaws.{finish_agrees as all_finish_agree, missing_lacks as all_missing_lack, shares_fit as all_shares_fit};

    ghost round_of = { round_from };

    ghost deal_of = { deal_from };

    ghost dealing_of = { dealing_from };

    ghost ack_of = { ack_from };

    ghost check_ack_of = { check_ack_from };

    ghost round_has = { round_has_parts };

    ghost acks_pass = { ack_passes };

    ghost sign_log_of = { signed_from };

    ghost check_log_of = { check_log_from };

    ghost bears_ack_of = { bears_from };

    ghost selected_of = { selected_from };

    ghost outcome_of = { outcome_from };

    ghost finish_of = { finish_from };

    ghost share_public_of = { share_public_from };

    ghost partial_public_of = { partial_public_from };

    ghost rounds_have_causes = { all_rounds_have_causes };

    ghost shares_are_dealt = { holders_deal };

    ghost only_shares_are_refused = { others_are_refused };

    ghost deals_pass = { all_deals_pass };

    ghost deals_are_short = { all_deals_are_short };

    ghost signed_pass = { signed_passes };

    ghost finish_agrees = { all_finish_agree };

    ghost missing_lacks = { all_missing_lack };

    ghost shares_fit = { all_shares_fit };

    #[tactic(auto, unfolding(crate::specs::Rounds::round_of))]
    fn round(
        &self,
        alloc: Global,
        namespace: &[u8],
        number: u64,
        previous: Option<&Output>,
        mode: Mode,
        reveal: Reveal,
        dealers: &Set,
        players: &Set,
    ) -> Result<Round, RoundError> {
        if dealers.is_empty() {
            return Err(RoundError::NoDealers);
        }
        if players.is_empty() {
            return Err(RoundError::NoPlayers);
        }
        if dealers.len() > MOST_POINTS || players.len() > MOST_POINTS || are_too_many(&previous) {
            return Err(RoundError::TooMany);
        }
        if !come_from(dealers, &previous) {
            return Err(RoundError::DealersNotPrevious);
        }
        let parts = RoundParts {
            namespace: Blob::new(Vec::from_slice(alloc, namespace)?),
            number,
            previous: copy_of_previous(alloc, previous)?,
            mode,
            reveal,
            dealers: dealers.copy(alloc)?,
            players: players.copy(alloc)?,
        };
        Ok(Round::new(alloc, parts)?)
    }

    #[tactic(auto, unfolding(crate::specs::Dealings::dealing_of))]
    fn check_dealing(
        &self,
        round: &Round,
        me: Key,
        dealer: Key,
        public: &Public,
        private: &Private,
    ) -> Result<(), DealingError> {
        if !round.parts().dealers.has(dealer) {
            return Err(DealingError::UnexpectedDealer);
        }
        if public.as_slice().len() != quorum(round.parts().players.len()) as usize {
            return Err(DealingError::InvalidCommitmentDegree);
        }
        if !is_reshare(round, dealer, public) {
            return Err(DealingError::MismatchedReshareCommitment);
        }
        if !fits(&round.parts().players, me, public, private.0) {
            return Err(DealingError::InvalidDealerShare);
        }
        Ok(())
    }

    #[tactic(auto, unfolding(crate::specs::Acks::ack_content))]
    fn ack(
        &self,
        alloc: Global,
        signer: &StandSigner,
        round: &Round,
        dealer: Key,
        public: &Public,
    ) -> Mem<Ack> {
        let rest = rest_of(alloc, dealer, public)?;
        Ok(Ack(round.ack_mark(signer.public_key(), &rest)?))
    }

    #[tactic(auto, unfolding(crate::specs::Acks::ack_content, crate::specs::Acks::check_ack_of))]
    fn check_ack(
        &self,
        alloc: Global,
        round: &Round,
        dealer: Key,
        public: &Public,
        player: Key,
        ack: &Ack,
    ) -> Result<(), AckError> {
        if !round.parts().players.has(player) {
            return Err(AckError::UnexpectedPlayer);
        }
        let rest = rest_of(alloc, dealer, public)?;
        if round.ack_mark(player, &rest)? != ack.0 {
            return Err(AckError::InvalidAck);
        }
        Ok(())
    }

    fn deal(
        &self,
        alloc: Global,
        round: &Round,
        signer: &StandSigner,
        share: Option<&Share>,
        seed: &Seed,
    ) -> Result<(Public, Map<Private>), DealError> {
        deal(alloc, round, signer.public_key(), share, seed)
    }

    fn sign_log(
        &self,
        alloc: Global,
        signer: &StandSigner,
        round: &Round,
        public: &Public,
        privates: &Map<Private>,
        acks: &Map<Ack>,
    ) -> Mem<SignedDealerLog> {
        sign_log(alloc, signer, round, public, privates, acks)
    }

    fn check_log(&self, alloc: Global, round: &Round, log: &SignedDealerLog) -> Mem<bool> {
        check_log(alloc, round, log)
    }

    fn bears_ack(
        &self,
        alloc: Global,
        round: &Round,
        dealer: Key,
        log: &DealerLog,
        player: Key,
    ) -> Mem<bool> {
        bears_ack(alloc, round, dealer, log, player)
    }

    fn observe(&self, alloc: Global, round: &Round, logs: &Map<DealerLog>) -> Mem<Option<Output>> {
        observe(alloc, round, logs)
    }

    fn finish(
        &self,
        alloc: Global,
        round: &Round,
        me: Key,
        dealings: &Map<(Public, Private)>,
        logs: &Map<DealerLog>,
    ) -> Result<Option<(Output, Share)>, FinishError> {
        finish(alloc, round, me, dealings, logs)
    }

    fn share_public(&self, share: &Share) -> Element {
        share.0
    }

    #[tactic(auto, unfolding(crate::specs::PartialPublics::partial_public_of))]
    fn partial_public(&self, output: &Output, player: Key) -> Option<Element> {
        let index = output.players.position(player)?;
        Some(element_of(value_of(&output.sharing.poly, index)))
    }
}
