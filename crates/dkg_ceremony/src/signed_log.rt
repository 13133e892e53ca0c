//! A dealer's log with the dealer's mark, as blocks carry it.
ghost use Rattle.std.specs.Prelude.{◌≡◌, ℕ, ◌+◌, ◌*◌, ◌^◌, ◌≤◌, length};
ghost use Rattle.dkg_ceremony.specs.Logs.{signed_spelling, SignedFits};

use crate::dealer_log::DealerLog;
use bytes::BytesMut;
use dkg_values::{CodecError, EncodeSize, Key, Mark, Mem, Read, Reader, Spelled, Value, Write};
use std::alloc::Global;

/// A log and its dealer's mark on the round and the log.
#[derive(Drop)]
pub struct SignedDealerLog {
    pub dealer: Key,
    pub log: DealerLog,
    pub mark: Mark,
}

/// How many bytes a mark takes.
fn size_of_mark(mark: &Mark) -> usize
    ensures size { result ≡ length mark.now }
    ensures bound { result ≡ 8 }
{
    let bytes = &mark.0;
    bytes.len()
}

impl SignedDealerLog {
    /// A signed log may be read under each limit under which its log may.
    #[tactic(auto, using(crate::specs::Logs::signed_fits))]
    pub fn fits_limits(&self)
        ensures { (most : ℕ) → length self.now.log.public ≤ most → length self.now.log.entries ≤ most → SignedFits most self.now }
    {
        let _number = self.dealer.number();
        let _size = size_of_mark(&self.mark);
        self.log.fits_limits();
    }
}

impl Value for SignedDealerLog {
    fn copy(&self, alloc: Global) -> Mem<SignedDealerLog> {
        Ok(SignedDealerLog {
            dealer: self.dealer,
            log: self.log.copy(alloc)?,
            mark: self.mark,
        })
    }

    fn same(&self, other: &SignedDealerLog) -> bool {
        self.dealer.same(&other.dealer) && self.log.same(&other.log) && self.mark.same(&other.mark)
    }
}

impl Spelled for SignedDealerLog {
    ghost use Rattle.dkg_ceremony.specs.Logs.{signed_spelling};

    ghost spelling = { signed_spelling };
}

impl EncodeSize for SignedDealerLog {
    fn encode_size(&self) -> usize
        ensures size { result ≡ length (signed_spelling self.now) }
        ensures bound { result ≤ 2 ^ 38 }
        ensures limit { (most : ℕ) → length self.now.log.public ≤ most → length self.now.log.entries ≤ most → result ≤ 22 + 11 * most }
    {
        self.dealer.encode_size() + self.log.encode_size() + size_of_mark(&self.mark)
    }
}

impl Write for SignedDealerLog {
    fn put(&self, out: &mut BytesMut) -> Mem<()> {
        self.dealer.put(out)?;
        self.log.put(out)?;
        self.mark.put(out)
    }
}

impl Read for SignedDealerLog {
    /// How many coefficients and how many entries there may be.
    type Cfg = u32;

    ghost use Rattle.dkg_ceremony.specs.Logs.{signed_at, SignedFits, signed_grammar};

    ghost fits = { SignedFits };

    ghost read_of = { signed_at };

    ghost grammar = { signed_grammar };

    fn read_cfg(
        alloc: Global,
        input: &mut Reader<'_>,
        cfg: &u32,
    ) -> Result<SignedDealerLog, CodecError> {
        let dealer = Key::read_cfg(alloc, input, &())?;
        let log = DealerLog::read_cfg(alloc, input, cfg)?;
        let mark = Mark::read_cfg(alloc, input, &())?;
        Ok(SignedDealerLog { dealer, log, mark })
    }
}
