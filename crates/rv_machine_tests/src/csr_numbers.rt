//! The numbers of the control and status registers that the tests access.

/// The number of sstatus.
pub(crate) const SSTATUS: u16 = 0x100;

/// The number of stvec.
pub(crate) const STVEC: u16 = 0x105;

/// The number of sscratch.
pub(crate) const SSCRATCH: u16 = 0x140;

/// The number of sepc.
pub(crate) const SEPC: u16 = 0x141;

/// The number of scause.
pub(crate) const SCAUSE: u16 = 0x142;

/// The number of stval.
pub(crate) const STVAL: u16 = 0x143;

/// The number of satp.
pub(crate) const SATP: u16 = 0x180;

/// The number of mstatus.
pub(crate) const MSTATUS: u16 = 0x300;

/// The number of mie.
pub(crate) const MIE: u16 = 0x304;

/// The number of mtvec.
pub(crate) const MTVEC: u16 = 0x305;

/// The number of mcountinhibit.
pub(crate) const MCOUNTINHIBIT: u16 = 0x320;

/// The number of mepc.
pub(crate) const MEPC: u16 = 0x341;

/// The number of mcause.
pub(crate) const MCAUSE: u16 = 0x342;

/// The number of mtval.
pub(crate) const MTVAL: u16 = 0x343;

/// The number of mip.
pub(crate) const MIP: u16 = 0x344;

/// The number of pmpcfg0, with the configurations of PMP entries 0 to 3.
pub(crate) const PMPCFG0: u16 = 0x3a0;

/// The number of pmpcfg3, with the configurations of PMP entries 12 to 15.
pub(crate) const PMPCFG3: u16 = 0x3a3;

/// The number of pmpaddr0.
pub(crate) const PMPADDR0: u16 = 0x3b0;

/// The number of mcycle.
pub(crate) const MCYCLE: u16 = 0xb00;

/// The number of minstret.
pub(crate) const MINSTRET: u16 = 0xb02;

/// The number of mcycleh, the upper half of mcycle.
pub(crate) const MCYCLEH: u16 = 0xb80;

/// The number of minstreth, the upper half of minstret.
pub(crate) const MINSTRETH: u16 = 0xb82;
