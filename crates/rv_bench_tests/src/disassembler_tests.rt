//! Tests with words that another assembler (llvm-mc of LLVM 14, riscv32 with the M extension) made from these texts. They cover each row of the
//! listings, extreme immediates and sets of fences. Words that are shown by their number were added by hand.

use arrayvec::ArrayString;
use rv_asm::disassemble;
use std::process::Abort;

/// Expects the text of each word, written over the text of the word before.
fn agree(rt: &impl Abort, cases: &[(u32, &str)]) {
    let mut out = ArrayString::new();
    for (word, text) in cases {
        disassemble(*word, &mut out);
        assert_eq!(rt; out.as_str(), *text);
    }
}

#[test]
fn jumps_branches_and_memory(rt: HostRuntime) {
    let cases = [
        (0x1234_52b7, "lui x5, 0x12345"),
        (0xffff_ff97, "auipc x31, 0xfffff"),
        (0x8000_00ef, "jal x1, -1048576"),
        (0x8001_00e7, "jalr x1, -2048(x2)"),
        (0x7e20_8fe3, "beq x1, x2, 4094"),
        (0xfe00_9ee3, "bne x1, x0, -4"),
        (0x8041_c063, "blt x3, x4, -4096"),
        (0x0062_d463, "bge x5, x6, 8"),
        (0x0083_e163, "bltu x7, x8, 2"),
        (0xff1f_ffe3, "bgeu x31, x17, -2"),
        (0x7ff1_0083, "lb x1, 2047(x2)"),
        (0xfff2_1183, "lh x3, -1(x4)"),
        (0x000f_a503, "lw x10, 0(x31)"),
        (0x0013_4283, "lbu x5, 1(x6)"),
        (0x8004_5383, "lhu x7, -2048(x8)"),
        (0x0011_02a3, "sb x1, 5(x2)"),
        (0xfe32_1d23, "sh x3, -6(x4)"),
        (0x7e95_2fa3, "sw x9, 2047(x10)"),
    ];
    agree(&rt, &cases);
}

#[test]
fn operations_and_fences(rt: HostRuntime) {
    let cases = [
        (0xfff0_8093, "addi x1, x1, -1"),
        (0x7ff1_a113, "slti x2, x3, 2047"),
        (0x8002_b213, "sltiu x4, x5, -2048"),
        (0xfff3_c313, "xori x6, x7, -1"),
        (0x00a4_e413, "ori x8, x9, 10"),
        (0x0ff5_f513, "andi x10, x11, 255"),
        (0x0001_1093, "slli x1, x2, 0"),
        (0x01f2_5193, "srli x3, x4, 31"),
        (0x40a3_5293, "srai x5, x6, 10"),
        (0x0031_00b3, "add x1, x2, x3"),
        (0x4062_8233, "sub x4, x5, x6"),
        (0x0094_13b3, "sll x7, x8, x9"),
        (0x00c5_a533, "slt x10, x11, x12"),
        (0x00f7_36b3, "sltu x13, x14, x15"),
        (0x0128_c833, "xor x16, x17, x18"),
        (0x015a_59b3, "srl x19, x20, x21"),
        (0x418b_db33, "sra x22, x23, x24"),
        (0x01bd_6cb3, "or x25, x26, x27"),
        (0x01ee_fe33, "and x28, x29, x30"),
        (0x0ff0_000f, "fence iorw, iorw"),
        (0x0000_0073, "ecall"),
        (0x0010_0073, "ebreak"),
    ];
    agree(&rt, &cases);
}

#[test]
fn extensions_and_privileged(rt: HostRuntime) {
    let cases = [
        (0x3001_10f3, "csrrw x1, 0x300, x2"),
        (0xc000_21f3, "csrrs x3, 0xc00, x0"),
        (0x005f_b073, "csrrc x0, 0x005, x31"),
        (0x340f_d0f3, "csrrwi x1, 0x340, 31"),
        (0xfff0_6173, "csrrsi x2, 0xfff, 0"),
        (0x0000_f1f3, "csrrci x3, 0x000, 1"),
        (0x0231_00b3, "mul x1, x2, x3"),
        (0x0262_9233, "mulh x4, x5, x6"),
        (0x03df_2fb3, "mulhsu x31, x30, x29"),
        (0x0294_33b3, "mulhu x7, x8, x9"),
        (0x02c5_c533, "div x10, x11, x12"),
        (0x02f7_56b3, "divu x13, x14, x15"),
        (0x0328_e833, "rem x16, x17, x18"),
        (0x035a_79b3, "remu x19, x20, x21"),
        (0x1020_0073, "sret"),
        (0x3020_0073, "mret"),
        (0x1050_0073, "wfi"),
        (0x1200_0073, "sfence.vma x0, x0"),
    ];
    agree(&rt, &cases);
}

#[test]
fn extreme_fields(rt: HostRuntime) {
    let cases = [
        (0x12b6_0073, "sfence.vma x12, x11"),
        (0x0000_00b7, "lui x1, 0x0"),
        (0xffff_f0b7, "lui x1, 0xfffff"),
        (0x1000_0fb7, "lui x31, 0x10000"),
        (0x0000_f137, "lui x2, 0xf"),
        (0x00ab_c197, "auipc x3, 0xabc"),
        (0x7fff_f06f, "jal x0, 1048574"),
        (0x0000_0fef, "jal x31, 0"),
        (0xffff_f0ef, "jal x1, -2"),
        (0x0000_8067, "jalr x0, 0(x1)"),
        (0x0000_0013, "addi x0, x0, 0"),
        (0x7fff_8f93, "addi x31, x31, 2047"),
        (0x8000_0f93, "addi x31, x0, -2048"),
        (0x7fff_ffe3, "bgeu x31, x31, 4094"),
        (0x81ff_f063, "bgeu x31, x31, -4096"),
    ];
    agree(&rt, &cases);
}

#[test]
fn sets_of_fences(rt: HostRuntime) {
    let cases = [
        (0x0000_000f, "fence 0, 0"),
        (0x0800_000f, "fence i, 0"),
        (0x0310_000f, "fence rw, w"),
        (0x0840_000f, "fence i, o"),
        (0x02d0_000f, "fence r, iow"),
    ];
    agree(&rt, &cases);
}

/// fence.tso, fences with rd or rs1, a shift with bit 25, fence.i, sfence.vma with rd, uret, and words whose opcode is unknown.
#[test]
fn words_shown_by_their_number(rt: HostRuntime) {
    let cases = [
        (0x8330_000f, ".word 0x8330000f"),
        (0x0ff0_008f, ".word 0x0ff0008f"),
        (0x0ff0_800f, ".word 0x0ff0800f"),
        (0x0200_9093, ".word 0x02009093"),
        (0x0000_100f, ".word 0x0000100f"),
        (0x1200_00f3, ".word 0x120000f3"),
        (0x0020_0073, ".word 0x00200073"),
        (0x0000_0000, ".word 0x00000000"),
        (0xffff_ffff, ".word 0xffffffff"),
    ];
    agree(&rt, &cases);
}
