//! The mnemonics: the first words of statements (Unprivileged ISA, chapters 24 and 25).

ghost use Rattle.std.specs.Prelude.{◌≡◌};
ghost use Rattle.rv_asm.specs.Mnemonics.{mnemonic_named};

use crate::tables::looked_up;
use rv_encoding::{BranchKind, CsrKind, LoadKind, OpImmKind, OpKind, ShiftKind, StoreKind};

/// The first word of a statement. Mnemonics of one format are one variant, which has a kind.
#[derive(Clone, Copy)]
pub(crate) enum Mnemonic {
    Lui,
    Auipc,
    Jal,
    Jalr,
    Branch(BranchKind),
    Load(LoadKind),
    Store(StoreKind),
    OpImm(OpImmKind),
    ShiftImm(ShiftKind),
    Op(OpKind),
    Fence,
    Csr(CsrKind),
    CsrImm(CsrKind),
    Ecall,
    Ebreak,
    Sret,
    Mret,
    Wfi,
    SfenceVma,
    /// `.word`: a word given as a number.
    Word,
    /// `nop`: an addi without effect.
    Nop,
    /// `ret`: a jump to the address in x1.
    Ret,
    /// `li`: the one or two instructions that load a number.
    Li,
}

/// The names of the mnemonics.
const MNEMONICS: [(&str, Mnemonic); 62] = [
    // RV32I: upper immediates, jumps, branches, loads and stores
    ("lui", Mnemonic::Lui),
    ("auipc", Mnemonic::Auipc),
    ("jal", Mnemonic::Jal),
    ("jalr", Mnemonic::Jalr),
    ("beq", Mnemonic::Branch(BranchKind::Beq)),
    ("bne", Mnemonic::Branch(BranchKind::Bne)),
    ("blt", Mnemonic::Branch(BranchKind::Blt)),
    ("bge", Mnemonic::Branch(BranchKind::Bge)),
    ("bltu", Mnemonic::Branch(BranchKind::Bltu)),
    ("bgeu", Mnemonic::Branch(BranchKind::Bgeu)),
    ("lb", Mnemonic::Load(LoadKind::Lb)),
    ("lh", Mnemonic::Load(LoadKind::Lh)),
    ("lw", Mnemonic::Load(LoadKind::Lw)),
    ("lbu", Mnemonic::Load(LoadKind::Lbu)),
    ("lhu", Mnemonic::Load(LoadKind::Lhu)),
    ("sb", Mnemonic::Store(StoreKind::Sb)),
    ("sh", Mnemonic::Store(StoreKind::Sh)),
    ("sw", Mnemonic::Store(StoreKind::Sw)),
    // RV32I: operations on immediates and registers
    ("addi", Mnemonic::OpImm(OpImmKind::Addi)),
    ("slti", Mnemonic::OpImm(OpImmKind::Slti)),
    ("sltiu", Mnemonic::OpImm(OpImmKind::Sltiu)),
    ("xori", Mnemonic::OpImm(OpImmKind::Xori)),
    ("ori", Mnemonic::OpImm(OpImmKind::Ori)),
    ("andi", Mnemonic::OpImm(OpImmKind::Andi)),
    ("slli", Mnemonic::ShiftImm(ShiftKind::Slli)),
    ("srli", Mnemonic::ShiftImm(ShiftKind::Srli)),
    ("srai", Mnemonic::ShiftImm(ShiftKind::Srai)),
    ("add", Mnemonic::Op(OpKind::Add)),
    ("sub", Mnemonic::Op(OpKind::Sub)),
    ("sll", Mnemonic::Op(OpKind::Sll)),
    ("slt", Mnemonic::Op(OpKind::Slt)),
    ("sltu", Mnemonic::Op(OpKind::Sltu)),
    ("xor", Mnemonic::Op(OpKind::Xor)),
    ("srl", Mnemonic::Op(OpKind::Srl)),
    ("sra", Mnemonic::Op(OpKind::Sra)),
    ("or", Mnemonic::Op(OpKind::Or)),
    ("and", Mnemonic::Op(OpKind::And)),
    // RV32I: fence, ecall and ebreak; Zicsr; the privileged instructions
    ("fence", Mnemonic::Fence),
    ("ecall", Mnemonic::Ecall),
    ("ebreak", Mnemonic::Ebreak),
    ("csrrw", Mnemonic::Csr(CsrKind::Write)),
    ("csrrs", Mnemonic::Csr(CsrKind::Set)),
    ("csrrc", Mnemonic::Csr(CsrKind::Clear)),
    ("csrrwi", Mnemonic::CsrImm(CsrKind::Write)),
    ("csrrsi", Mnemonic::CsrImm(CsrKind::Set)),
    ("csrrci", Mnemonic::CsrImm(CsrKind::Clear)),
    ("sret", Mnemonic::Sret),
    ("mret", Mnemonic::Mret),
    ("wfi", Mnemonic::Wfi),
    ("sfence.vma", Mnemonic::SfenceVma),
    // RV32M
    ("mul", Mnemonic::Op(OpKind::Mul)),
    ("mulh", Mnemonic::Op(OpKind::Mulh)),
    ("mulhsu", Mnemonic::Op(OpKind::Mulhsu)),
    ("mulhu", Mnemonic::Op(OpKind::Mulhu)),
    ("div", Mnemonic::Op(OpKind::Div)),
    ("divu", Mnemonic::Op(OpKind::Divu)),
    ("rem", Mnemonic::Op(OpKind::Rem)),
    ("remu", Mnemonic::Op(OpKind::Remu)),
    // names that the assembler adds
    (".word", Mnemonic::Word),
    ("nop", Mnemonic::Nop),
    ("ret", Mnemonic::Ret),
    ("li", Mnemonic::Li),
];

impl Mnemonic {
    /// Returns the mnemonic of a name, if there is one. Names are case-sensitive.
    #[tactic(auto, unfolding(crate::specs::Mnemonics::mnemonics))]
    pub(crate) fn named(name: &[u8]) -> Option<Mnemonic>
        ensures { result ≡ mnemonic_named name.now }
    {
        looked_up(&MNEMONICS, name)
    }
}
