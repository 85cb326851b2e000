//! The registers of mode S.

/// The registers of mode S: its trap registers, and the fields of mstatus that sstatus shows (Privileged Architecture,
/// section 4.1).
#[derive(Clone, Copy, Debug, PartialEq, Eq)]
pub struct SContext {
    pub stvec: u32,
    pub sscratch: u32,
    pub sepc: u32,
    pub scause: u32,
    pub stval: u32,
    pub sie: bool,
    pub spie: bool,
    pub spp: bool,
    pub mxr: bool,
}
