//! The fields of a cfg byte, and its stored form (Privileged Architecture, section 3.7.1).

ghost use Rattle.std.specs.Prelude.{◌≡◌, ◌&&◌, map, not};
ghost use Rattle.std.specs.List.{list_all};
ghost use Rattle.rv_pmp.specs.Cfg as spec;

use crate::access::Access;
use crate::mode::Mode;

/// Returns whether L, bit 7, is set.
pub(crate) fn is_locked(cfg: u8) -> bool
    ensures { result ≡ spec.is_locked cfg }
{
    cfg / 128 % 2 == 1
}

/// Returns whether L is set and A, bits 4 and 3, is TOR.
pub(crate) fn is_locked_tor(cfg: u8) -> bool
    ensures { result ≡ (spec.is_locked cfg && spec.is_tor cfg) }
{
    is_locked(cfg) && cfg / 8 % 4 == 1
}

/// Returns whether the permission bit for this kind of access is set.
pub(crate) fn has_permission(access: Access, cfg: u8) -> bool
    ensures { result ≡ spec.has_permission access cfg }
{
    match access {
        Access::Fetch => cfg / 4 % 2 == 1,
        Access::Read => cfg % 2 == 1,
        Access::Write => cfg / 2 % 2 == 1,
    }
}

/// Returns whether an entry grants this kind of access to a mode. Only a locked entry binds mode M.
pub(crate) fn grants(mode: Mode, access: Access, cfg: u8) -> bool
    ensures { result ≡ spec.grants mode access cfg }
{
    match mode {
        Mode::M => !is_locked(cfg) || has_permission(access, cfg),
        Mode::S | Mode::U => has_permission(access, cfg),
    }
}

/// Returns the stored form of a written byte: bits 6 and 5 are cleared, and W is cleared if R is 0.
#[tactic(auto, using(crate::proofs::CfgLemmas::without_write, crate::proofs::CfgLemmas::with_write))]
pub(crate) fn stored(cfg: u8) -> u8
    ensures { result ≡ spec.stored_cfg cfg }
{
    let kept = cfg & 0x9f;
    if kept & 3 == 2 { kept & 0xfd } else { kept }
}

/// Returns whether L is clear in each cfg byte.
pub(crate) fn is_none_locked(cfgs: &[u8; 16]) -> bool
    ensures { result ≡ list_all (λ cfg. not (spec.is_locked cfg)) cfgs.now }
{
    cfgs.iter().all(|cfg| !is_locked(*cfg))
}

/// Returns the stored forms of written bytes.
pub(crate) fn all_stored(cfgs: &[u8; 16]) -> [u8; 16]
    ensures { result ≡ map spec.stored_cfg cfgs.now }
{
    let mut kept = [0; 16];
    for k in 0..16 {
        kept[k] = stored(cfgs[k]);
    }
    kept
}
