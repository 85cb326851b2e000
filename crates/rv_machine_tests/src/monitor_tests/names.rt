//! Names for the numbers in the tests of the monitor.

/// The value of a7 in a call.
pub const KEY: u32 = 0x0a45_4e43;

/// The number of x0.
pub const X0: u8 = 0;

/// The number of register ra.
pub const RA: u8 = 1;

/// The number of register t0.
pub const T0: u8 = 5;

/// The number of register t1.
pub const T1: u8 = 6;

/// The number of register a0.
pub const A0: u8 = 10;

/// The number of register a1.
pub const A1: u8 = 11;

/// The number of register a2.
pub const A2: u8 = 12;

/// The number of register a3.
pub const A3: u8 = 13;

/// The number of register a4.
pub const A4: u8 = 14;

/// The number of register a6.
pub const A6: u8 = 16;

/// The number of register a7.
pub const A7: u8 = 17;

/// The number of register t6.
pub const T6: u8 = 31;

/// A value of a7 in a request that is no call.
pub const NO_KEY: u32 = 0;

/// The number of the call create, in a6.
pub const CREATE: u32 = 1;

/// The number of the call destroy.
pub const DESTROY: u32 = 2;

/// The number of the call run.
pub const RUN: u32 = 3;

/// The number of the call resume.
pub const RESUME: u32 = 4;

/// The number of the call measure.
pub const MEASURE: u32 = 5;

/// The number of the call stop.
pub const STOP: u32 = 6;

/// The number of the call exit.
pub const EXIT: u32 = 7;

/// The status of a call that succeeded, in a0.
pub const SUCCESS: u32 = 0;

/// The value of a0 in the host after an enclave called stop.
pub const STOPPED: u32 = 1;

/// The value of a0 in the host after the timer stopped an enclave.
pub const INTERRUPTED: u32 = 2;

/// The status of a request that is no call of the world.
pub const NOT_SUPPORTED: u32 = 0xffff_ffff;

/// The status of create with an invalid region.
pub const BAD_REGION: u32 = 0xffff_fffe;

/// The status of create with an invalid window.
pub const BAD_WINDOW: u32 = 0xffff_fffd;

/// The status of create with memory that is already in use.
pub const OVERLAP: u32 = 0xffff_fffc;

/// The status of create with an invalid entry.
pub const BAD_ENTRY: u32 = 0xffff_fffb;

/// The status of create if no slot is free.
pub const NO_SLOT: u32 = 0xffff_fffa;

/// The status of a call for a slot without a live enclave.
pub const NO_ENCLAVE: u32 = 0xffff_fff9;

/// The status of a call that the state of the enclave does not permit.
pub const BAD_STATE: u32 = 0xffff_fff8;

/// The status of measure with a destination that the caller may not store to.
pub const BAD_ADDRESS: u32 = 0xffff_fff7;

/// The address after the monitor's range, at which the host starts.
pub const HOST_START: u32 = 0x8001_0000;

/// The base of the region of the enclave in slot 0.
pub const REGION: u32 = 0x8002_0000;

/// The base of the window of the enclave in slot 0.
pub const WINDOW: u32 = 0x8003_0000;

/// The address of memory that no enclave of `WITHOUT_WINDOW` uses.
pub const FREE: u32 = 0x8003_0000;

/// The size of a region or a window in bytes.
pub const SIZE: u32 = 0x1000;

/// The cause of an illegal instruction.
pub const ILLEGAL_INSTRUCTION: u32 = 2;

/// The cause of a load access fault.
pub const LOAD_ACCESS_FAULT: u32 = 5;

/// The bit of a timer interrupt in mip.
pub const MTIP: u32 = 0x80;

/// The configuration of a PMP entry that matches a naturally aligned power-of-two range, and permits no access.
pub const NAPOT: u32 = 0x18;

/// The configuration of such an entry that permits loads and stores.
pub const NAPOT_RW: u32 = 0x1b;

/// The configuration of such an entry that permits every access.
pub const NAPOT_RWX: u32 = 0x1f;

/// The pmpaddr value of the monitor's range: 65536 bytes from 80000000.
pub const MONITOR_NAPOT: u32 = 0x2000_1fff;

/// The pmpaddr value of the region of slot 0: 4096 bytes from 80020000.
pub const REGION_NAPOT: u32 = 0x2000_81ff;

/// The pmpaddr value of the window: 4096 bytes from 80030000.
pub const WINDOW_NAPOT: u32 = 0x2000_c1ff;

/// The pmpaddr value of the whole address space.
pub const ALL_NAPOT: u32 = 0xffff_ffff;

/// The value of pmpcfg0 without a live enclave: entry 0 denies access to the monitor's range.
pub const NO_REGION: u32 = 0x18;

/// The value of pmpcfg0 while the host runs: entry 1 denies access to the region of slot 0.
pub const REGION_CLOSED: u32 = 0x1818;

/// The value of pmpcfg0 while the enclave in slot 0 runs: entry 1 permits access to its region.
pub const REGION_OPEN: u32 = 0x1f18;

/// The value of pmpcfg3 while the host runs: entry 15 permits access to the rest of the memory.
pub const REST_OPEN: u32 = 0x1f00_0000;

/// The value of pmpcfg3 while an enclave without a window runs: entry 15 is off.
pub const REST_CLOSED: u32 = 0;

/// The word of ecall.
pub const ECALL: u32 = 0x73;

/// The word of lw t0, 0(t1).
pub const LOAD_T0_FROM_T1: u32 = 0x0003_2283;

/// The word of addi t0, t0, 1.
pub const INCREMENT_T0: u32 = 0x0012_8293;

/// The first byte of ecall. The other three bytes are 0.
pub const ECALL_BYTE: u8 = 0x73;

/// The first byte of nop. The other three bytes are 0.
pub const NOP_BYTE: u8 = 0x13;

/// The world of a hart on which the host runs.
pub const HOST: Option<u32> = None;

/// The world of a hart on which the enclave in slot 0 runs, or the slot that a step entered.
pub const ENCLAVE_0: Option<u32> = Some(0);

/// The region of a slot without a live enclave.
pub const NOT_LIVE: Option<u32> = None;

/// The slot that a step entered, if it entered none.
pub const NOT_ENTERED: Option<u32> = None;

/// The privilege mode S.
pub const SUPERVISOR: Option<u32> = Some(1);

/// The value of a property that holds.
pub const YES: Option<u32> = Some(1);

/// The value of a property that does not hold.
pub const NO: Option<u32> = Some(0);
