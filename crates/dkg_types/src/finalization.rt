//! What consensus says of a block that it has finalized, and who checks it.
//!
//! A probe checks the finalizations that peers send, and state sync starts from one.
ghost use Rattle.std.specs.Prelude.{◌≡◌, ◌++◌, ◌≤◌, length, IfOk, IsErrOf, IsTrue, OnOk, true};
ghost use Rattle.dkg_values.specs.Codec.{Reads};
ghost use Rattle.dkg_types.specs.FinalizationCodes.{FinalizationFits, certificate_of, finalization_at as finalization_from, is_certified, proposal_bytes};

use crate::block::size_of_digest;
use bytes::BytesMut;
use dkg_ceremony::{
    CodecError, Digest, Domain, EncodeSize, Epoch, Key, Mark, Mem, Read, Reader, Spelled, Value,
    Write, mark_of, read_u64, uint_size, write_uint,
};
use std::alloc::Global;

/// A certificate that a block is final.
#[derive(Clone, Copy, Debug, PartialEq, Eq)]
pub struct Finalization {
    pub epoch: Epoch,
    pub view: u64,
    pub parent_view: u64,
    /// The digest of the finalized block.
    pub payload: Digest,
    pub certificate: Mark,
}

impl Value for Finalization {
    fn copy(&self, _alloc: Global) -> Mem<Finalization> {
        Ok(*self)
    }

    fn same(&self, other: &Finalization) -> bool {
        *self == *other
    }
}

/// How many bytes a mark takes.
fn size_of_mark(mark: &Mark) -> usize
    ensures size { result ≡ length mark.now }
    ensures bound { result ≡ 8 }
{
    let bytes = &mark.0;
    bytes.len()
}

impl Finalization {
    /// A finalization may be read whatever the limits.
    #[tactic(auto, using(crate::specs::Within::finalization_fits))]
    pub fn fits_limits(&self)
        ensures { FinalizationFits self.now }
    {
        let _epoch = self.epoch.0;
        let _view = self.view;
        let _parent_view = self.parent_view;
        let _digest = size_of_digest(&self.payload);
        let _mark = size_of_mark(&self.certificate);
    }
}

impl Spelled for Finalization {
    ghost use Rattle.dkg_types.specs.FinalizationCodes.{finalization_spelling};

    ghost spelling = { finalization_spelling };
}

impl EncodeSize for Finalization {
    ghost use Rattle.std.specs.Prelude.{◌≡◌, ◌≤◌, length};
    ghost use Rattle.dkg_types.specs.FinalizationCodes.{finalization_spelling};

    fn encode_size(&self) -> usize
        ensures size { result ≡ length (finalization_spelling self.now) }
        ensures bound { result ≤ 70 }
    {
        uint_size(self.epoch.0)
            + uint_size(self.view)
            + uint_size(self.parent_view)
            + size_of_digest(&self.payload)
            + size_of_mark(&self.certificate)
    }
}

impl Write for Finalization {
    fn put(&self, out: &mut BytesMut) -> Mem<()> {
        self.epoch.put(out)?;
        write_uint(out, self.view)?;
        write_uint(out, self.parent_view)?;
        self.payload.put(out)?;
        self.certificate.put(out)
    }
}

impl Read for Finalization {
    type Cfg = ();

    ghost use Rattle.dkg_types.specs.FinalizationCodes.{FinalizationFits, finalization_at, finalization_grammar};

    ghost fits = { λ _. FinalizationFits };

    ghost read_of = { λ _. finalization_at };

    ghost grammar = { λ _. finalization_grammar };

    fn read_cfg(
        alloc: Global,
        input: &mut Reader<'_>,
        _cfg: &(),
    ) -> Result<Finalization, CodecError>
        ensures exact { Reads (finalization_from input.old) result input.new }
        ensures sure { IsErrOf result CodecError.NoMemory → ⊥ }
    {
        let epoch = Epoch::read_cfg(alloc, input, &())?;
        let view = read_u64(input)?;
        let parent_view = read_u64(input)?;
        let payload = Digest::read_cfg(alloc, input, &())?;
        let certificate = Mark::read_cfg(alloc, input, &())?;
        Ok(Finalization {
            epoch,
            view,
            parent_view,
            payload,
            certificate,
        })
    }
}

/// Who checks finalizations, as the upstream's certificate schemes do.
pub trait Scheme {
    ghost use Rattle.std.specs.Prelude.{◌≡◌, Bool, IfOk};
    ghost use Rattle.dkg_types.specs.declared.finalization.Finalization.{Finalization};

    /// Whether a finalization is one of consensus.
    ghost verifies: { Self → Finalization → Bool };

    fn verify(&self, alloc: Global, finalization: &Finalization) -> Mem<bool>
        ensures { IfOk result (λ is. is ≡ verifies self.now finalization.now) };
}

/// The scheme of the small ceremony: an identity, which makes and checks certificates.
#[derive(Clone, Copy, Debug, PartialEq, Eq)]
pub struct StandScheme {
    identity: Key,
}

/// The certificate that an identity gives a proposal.
fn certify(
    alloc: Global,
    identity: Key,
    epoch: Epoch,
    view: u64,
    parent_view: u64,
    payload: &Digest,
) -> Mem<Mark>
    ensures { IfOk result (λ mark. mark ≡ certificate_of identity epoch view parent_view payload.now) }
{
    let mut out = BytesMut::new(alloc);
    epoch.put(&mut out)?;
    write_uint(&mut out, view)?;
    write_uint(&mut out, parent_view)?;
    payload.put(&mut out)?;
    Ok(mark_of(identity, Domain::Final, &out))
}

impl StandScheme {
    /// The scheme of an identity.
    pub fn new(identity: Key) -> StandScheme
        ensures { result.identity ≡ identity }
    {
        StandScheme { identity }
    }

    /// A finalization with the certificate of this identity.
    pub fn seal(
        &self,
        alloc: Global,
        epoch: Epoch,
        view: u64,
        parent_view: u64,
        payload: Digest,
    ) -> Mem<Finalization>
        ensures proposal { IfOk result (λ made. (made.epoch ≡ epoch) × (made.view ≡ view) × (made.parent_view ≡ parent_view) × (made.payload ≡ payload)) }
        ensures certificate { IfOk result (λ made. made.certificate ≡ certificate_of self.now.identity epoch view parent_view payload) }
    {
        let certificate = certify(alloc, self.identity, epoch, view, parent_view, &payload)?;
        Ok(Finalization {
            epoch,
            view,
            parent_view,
            payload,
            certificate,
        })
    }
}

impl Scheme for StandScheme {
    ghost use Rattle.dkg_types.specs.FinalizationCodes.{is_certified};

    ghost verifies = { λ scheme. is_certified scheme.identity };

    fn verify(&self, alloc: Global, finalization: &Finalization) -> Mem<bool> {
        let proposed = finalization;
        let certificate = certify(
            alloc,
            self.identity,
            proposed.epoch,
            proposed.view,
            proposed.parent_view,
            &proposed.payload,
        )?;
        Ok(proposed.certificate.same(&certificate))
    }
}
