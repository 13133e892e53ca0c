//! A shared key in public: the polynomial, the number of its holders, and how their points are chosen.
//!
//! An output holds one.
ghost use Rattle.std.specs.Prelude.{◌≡◌, ℕ, ◌+◌, ◌*◌, ◌^◌, ◌≤◌, length, IsTrue};
ghost use Rattle.dkg_ceremony.specs.Modes.{supports_of};
ghost use Rattle.dkg_ceremony.specs.Sharings.{sharing_bytes, SharingFits};

use crate::mode::{Mode, ModeVersion};
use crate::public::Public;
use bytes::BytesMut;
use dkg_values::{
    CodecError, EncodeSize, Mem, Read, Reader, Spelled, Value, Write, read_u32, uint_size,
    write_uint,
};
use std::alloc::Global;

/// A key that is shared among `total` holders, by a polynomial whose constant coefficient is the key.
#[derive(Drop)]
pub struct Sharing {
    pub mode: Mode,
    pub total: u32,
    pub poly: Public,
}

impl Sharing {
    /// A sharing whose polynomial has a coefficient may be read under each limit that is no less than its length, by
    /// each version that has its mode.
    #[tactic(auto, using(crate::specs::SharingLimits::sharing_fits))]
    pub fn fits_limits(&self)
        ensures { (most version : ℕ) → IsTrue (supports_of version self.now.mode) → 1 ≤ length self.now.poly → length self.now.poly ≤ most
            → SharingFits most version self.now }
    {
        let _total = self.total;
        self.poly.fits_limits();
    }
}

impl Value for Sharing {
    fn copy(&self, alloc: Global) -> Mem<Sharing> {
        Ok(Sharing {
            mode: self.mode,
            total: self.total,
            poly: self.poly.copy(alloc)?,
        })
    }

    fn same(&self, other: &Sharing) -> bool {
        self.mode == other.mode && self.total == other.total && self.poly.same(&other.poly)
    }
}

impl Spelled for Sharing {
    ghost use Rattle.dkg_ceremony.specs.Sharings.{sharing_bytes};

    ghost spelling = { sharing_bytes };
}

impl EncodeSize for Sharing {
    fn encode_size(&self) -> usize
        ensures size { result ≡ length (sharing_bytes self.now) }
        ensures bound { result ≤ 2 ^ 35 }
        ensures limit { (most : ℕ) → length self.now.poly ≤ most → result ≤ 11 + 2 * most }
    {
        1 + uint_size(u64::from(self.total)) + self.poly.encode_size()
    }
}

impl Write for Sharing {
    fn put(&self, out: &mut BytesMut) -> Mem<()> {
        self.mode.put(out)?;
        write_uint(out, u64::from(self.total))?;
        self.poly.put(out)
    }
}

impl Read for Sharing {
    type Cfg = (u32, ModeVersion);

    ghost use Rattle.dkg_ceremony.specs.Sharings.{sharing_at, SharingFits};
    ghost use Rattle.dkg_ceremony.specs.SharingGrammar.{sharing_grammar};

    ghost fits = { λ cfg. SharingFits cfg.0 cfg.1.0 };

    ghost read_of = { λ cfg. sharing_at cfg.0 cfg.1.0 };

    ghost grammar = { λ cfg. sharing_grammar cfg.0 cfg.1.0 };

    fn read_cfg(
        alloc: Global,
        input: &mut Reader<'_>,
        cfg: &(u32, ModeVersion),
    ) -> Result<Sharing, CodecError> {
        let mode = Mode::read_cfg(alloc, input, &cfg.1)?;
        let total = read_u32(input)?;
        let poly = Public::read_cfg(alloc, input, &cfg.0)?;
        Ok(Sharing { mode, total, poly })
    }
}
