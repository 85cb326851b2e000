//! Returns the mnemonics of instructions (Unprivileged ISA, chapter 24, and the listings of Privileged Architecture 20211203).

ghost use Rattle.std.specs.Prelude.{◌≡◌, ◌≤◌, ◌%◌, ◌^◌, length};
ghost use Rattle.rv_encoding.specs.Codes as spec;
ghost use Rattle.rv_encoding.specs.Listing.{name_of};
ghost use Rattle.rv_encoding.specs.Rows.{row_of_instr};

use rv_encoding::{BranchKind, CsrKind, Instr, LoadKind, OpImmKind, OpKind, ShiftKind, StoreKind};

/// Returns the mnemonic of an instruction, as in the listings.
#[tactic(auto, using(crate::proofs::ShortNames::short_name))]
pub(super) fn mnemonic(instr: &Instr) -> &'static str
    ensures name { result.now ≡ name_of instr.now }
    ensures short { length result.now ≤ 10 }
{
    name(instr)
}

/// Returns the name of an instruction.
fn name(instr: &Instr) -> &'static str
    ensures { result.now ≡ name_of instr.now }
{
    match *instr {
        Instr::Lui { .. } => "lui",
        Instr::Auipc { .. } => "auipc",
        Instr::Jal { .. } => "jal",
        Instr::Jalr { .. } => "jalr",
        Instr::Branch { kind, .. } => branch_name(kind),
        Instr::Load { kind, .. } => load_name(kind),
        Instr::Store { kind, .. } => store_name(kind),
        Instr::OpImm { kind, .. } => op_imm_name(kind),
        Instr::ShiftImm { kind, .. } => shift_name(kind),
        Instr::Op { kind, .. } => op_name(kind),
        Instr::Fence { .. } => "fence",
        _ => system_name(instr),
    }
}

/// Returns the name of an instruction with the opcode 1110011.
fn system_name(instr: &Instr) -> &'static str
    requires { (row_of_instr instr.now).match % 2 ^ 7 ≡ 0b1110011 }
    ensures { result.now ≡ name_of instr.now }
{
    match *instr {
        Instr::Csr { kind, .. } => csr_name(kind),
        Instr::CsrImm { kind, .. } => csr_imm_name(kind),
        Instr::Ecall => "ecall",
        Instr::Ebreak => "ebreak",
        Instr::Sret => "sret",
        Instr::Mret => "mret",
        Instr::Wfi => "wfi",
        _ => "sfence.vma",
    }
}

/// Returns the mnemonic of a branch.
fn branch_name(kind: BranchKind) -> &'static str
    ensures { result.now ≡ spec.branch_name kind }
{
    match kind {
        BranchKind::Beq => "beq",
        BranchKind::Bne => "bne",
        BranchKind::Blt => "blt",
        BranchKind::Bge => "bge",
        BranchKind::Bltu => "bltu",
        BranchKind::Bgeu => "bgeu",
    }
}

/// Returns the mnemonic of a load.
fn load_name(kind: LoadKind) -> &'static str
    ensures { result.now ≡ spec.load_name kind }
{
    match kind {
        LoadKind::Lb => "lb",
        LoadKind::Lh => "lh",
        LoadKind::Lw => "lw",
        LoadKind::Lbu => "lbu",
        LoadKind::Lhu => "lhu",
    }
}

/// Returns the mnemonic of a store.
fn store_name(kind: StoreKind) -> &'static str
    ensures { result.now ≡ spec.store_name kind }
{
    match kind {
        StoreKind::Sb => "sb",
        StoreKind::Sh => "sh",
        StoreKind::Sw => "sw",
    }
}

/// Returns the mnemonic of an operation on a register and an immediate.
fn op_imm_name(kind: OpImmKind) -> &'static str
    ensures { result.now ≡ spec.op_imm_name kind }
{
    match kind {
        OpImmKind::Addi => "addi",
        OpImmKind::Slti => "slti",
        OpImmKind::Sltiu => "sltiu",
        OpImmKind::Xori => "xori",
        OpImmKind::Ori => "ori",
        OpImmKind::Andi => "andi",
    }
}

/// Returns the mnemonic of a shift by an immediate.
fn shift_name(kind: ShiftKind) -> &'static str
    ensures { result.now ≡ spec.shift_name kind }
{
    match kind {
        ShiftKind::Slli => "slli",
        ShiftKind::Srli => "srli",
        ShiftKind::Srai => "srai",
    }
}

/// Returns the mnemonic of an operation on two registers.
fn op_name(kind: OpKind) -> &'static str
    ensures { result.now ≡ spec.op_name kind }
{
    match kind {
        OpKind::Add => "add",
        OpKind::Sub => "sub",
        OpKind::Sll => "sll",
        OpKind::Slt => "slt",
        OpKind::Sltu => "sltu",
        OpKind::Xor => "xor",
        OpKind::Srl => "srl",
        OpKind::Sra => "sra",
        OpKind::Or => "or",
        OpKind::And => "and",
        OpKind::Mul => "mul",
        OpKind::Mulh => "mulh",
        OpKind::Mulhsu => "mulhsu",
        OpKind::Mulhu => "mulhu",
        OpKind::Div => "div",
        OpKind::Divu => "divu",
        OpKind::Rem => "rem",
        OpKind::Remu => "remu",
    }
}

/// Returns the mnemonic of a CSR instruction with a register.
fn csr_name(kind: CsrKind) -> &'static str
    ensures { result.now ≡ spec.csr_name kind }
{
    match kind {
        CsrKind::Write => "csrrw",
        CsrKind::Set => "csrrs",
        CsrKind::Clear => "csrrc",
    }
}

/// Returns the mnemonic of a CSR instruction with an immediate.
fn csr_imm_name(kind: CsrKind) -> &'static str
    ensures { result.now ≡ spec.csr_imm_name kind }
{
    match kind {
        CsrKind::Write => "csrrwi",
        CsrKind::Set => "csrrsi",
        CsrKind::Clear => "csrrci",
    }
}
