//! The fields of mstatus.

use crate::bits::{flag, is_set};
use rv_pmp::Mode;

/// The bit number of SIE.
const SIE: u32 = 1;

/// The bit number of MIE.
const MIE: u32 = 3;

/// The bit number of SPIE.
const SPIE: u32 = 5;

/// The bit number of MPIE.
const MPIE: u32 = 7;

/// The bit number of SPP.
const SPP: u32 = 8;

/// The number of the lower bit of MPP.
const MPP: u32 = 11;

/// The bit number of MPRV.
const MPRV: u32 = 17;

/// The bit number of MXR.
const MXR: u32 = 19;

/// The bit number of TVM.
const TVM: u32 = 20;

/// The bit number of TW.
const TW: u32 = 21;

/// The bit number of TSR.
const TSR: u32 = 22;

/// The fields of mstatus that this machine has (Privileged Architecture, section 3.1.6).
#[derive(Clone, Copy, Debug, PartialEq, Eq)]
pub struct Mstatus {
    /// Delegated interrupts are enabled in mode S. The bit is stored without effect, since no interrupt is delegated.
    pub sie: bool,
    /// Interrupts are enabled in mode M.
    pub mie: bool,
    /// SIE before the last trap to mode S.
    pub spie: bool,
    /// MIE before the last trap to mode M.
    pub mpie: bool,
    /// The last trap to mode S came from mode S, not U.
    pub spp: bool,
    /// The mode that the last trap to mode M came from.
    pub mpp: Mode,
    /// Loads and stores are checked in the mode of MPP.
    pub mprv: bool,
    /// Loads from executable pages are allowed. The bit is stored without effect.
    pub mxr: bool,
    /// satp and sfence.vma are refused to mode S.
    pub tvm: bool,
    /// wfi is refused to mode S.
    pub tw: bool,
    /// sret is refused to mode S.
    pub tsr: bool,
}

impl Mstatus {
    ghost use Rattle.std.specs.Prelude.{◌≡◌};
    ghost use Rattle.rv_word.specs.Logic.{and_by_bits};
    ghost use Rattle.rv_state.specs.Mstatus.{mode_of_mpp, mstatus_at_reset, mstatus_of, mstatus_word, sstatus_word, with_sstatus};

    /// Returns the fields, all 0.
    pub(crate) const fn new() -> Self
        ensures { result ≡ mstatus_at_reset }
    {
        Mstatus {
            sie: false,
            mie: false,
            spie: false,
            mpie: false,
            spp: false,
            mpp: Mode::U,
            mprv: false,
            mxr: false,
            tvm: false,
            tw: false,
            tsr: false,
        }
    }

    /// Returns the word that mstatus reads: the fields at their positions, and no other bit.
    #[tactic(auto, using(crate::proofs::StatusLemmas::mstatus_masked))]
    pub const fn word(self) -> u32
        ensures value { result ≡ mstatus_word self }
        ensures within_mask { and_by_bits result 0x007A19AA ≡ result }
    {
        flag(SIE, self.sie)
            + flag(MIE, self.mie)
            + flag(SPIE, self.spie)
            + flag(MPIE, self.mpie)
            + flag(SPP, self.spp)
            + (self.mpp.number() << MPP)
            + flag(MPRV, self.mprv)
            + flag(MXR, self.mxr)
            + flag(TVM, self.tvm)
            + flag(TW, self.tw)
            + flag(TSR, self.tsr)
    }

    /// Returns the fields after a word is written to mstatus.
    pub(crate) const fn from_word(word: u32) -> Self
        ensures { result ≡ mstatus_of word }
    {
        Mstatus {
            sie: is_set(word, SIE),
            mie: is_set(word, MIE),
            spie: is_set(word, SPIE),
            mpie: is_set(word, MPIE),
            spp: is_set(word, SPP),
            mpp: mode_of_mpp((word >> MPP) % 4),
            mprv: is_set(word, MPRV),
            mxr: is_set(word, MXR),
            tvm: is_set(word, TVM),
            tw: is_set(word, TW),
            tsr: is_set(word, TSR),
        }
    }

    /// Returns the word that sstatus reads: that of mstatus under a mask.
    #[tactic(auto, using(crate::proofs::StatusLemmas::sstatus_is_masked))]
    pub const fn supervisor_word(self) -> u32
        ensures value { result ≡ sstatus_word self }
        ensures under_mask { result ≡ and_by_bits (mstatus_word self) 0x00080122 }
    {
        flag(SIE, self.sie) + flag(SPIE, self.spie) + flag(SPP, self.spp) + flag(MXR, self.mxr)
    }

    /// Returns the fields after a word is written to sstatus.
    pub(crate) const fn with_supervisor_word(self, word: u32) -> Self
        ensures { result ≡ with_sstatus self word }
    {
        Mstatus {
            sie: is_set(word, SIE),
            spie: is_set(word, SPIE),
            spp: is_set(word, SPP),
            mxr: is_set(word, MXR),
            ..self
        }
    }
}

ghost use Rattle.std.specs.Prelude.{◌≡◌};
ghost use Rattle.rv_state.specs.Mstatus.{mode_of_mpp};

/// Returns the mode after two bits are written to MPP. 2 is no mode, and 0 is stored instead.
const fn mode_of_mpp(two_bits: u32) -> Mode
    ensures { result ≡ mode_of_mpp two_bits }
{
    match two_bits {
        3 => Mode::M,
        1 => Mode::S,
        _ => Mode::U,
    }
}
