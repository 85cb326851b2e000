//! Checks the ranges of numbers in operands (Unprivileged ISA, sections 2.3, 2.4 and 9.1).

ghost use Rattle.std.specs.Prelude.{◌≡◌, ◌<◌, ◌≤◌, ◌^◌};
ghost use Rattle.rv_asm.specs.OperandRanges.{is_number_within as is_within_of, residue as residue_of, immediate_of, upper_immediate_of, five_bits_of};
ghost use Rattle.rv_asm.specs.OperandRanges.{csr_number_field, branch_offset_of, jump_offset_of, word_of_number};

use crate::fault::AsmFaultKind;
use crate::number::Number;
use rv_encoding::{BranchOffset, CsrNumber, Imm12, JumpOffset, Shamt, Uimm, UpperImm};

impl Number {
    /// Returns whether the number is from `-below` to `above`.
    fn is_within(self, below: u64, above: u64) -> bool
        ensures { result ≡ is_within_of below above self }
    {
        if self.is_negative {
            self.magnitude <= below
        } else {
            self.magnitude <= above
        }
    }

    /// Returns the number modulo `modulus`.
    fn residue(self, modulus: u64) -> u32
        requires some { 0 < modulus }
        requires fits { modulus ≤ 2 ^ 32 }
        ensures value { result ≡ residue_of modulus self }
        ensures below { result < modulus }
    {
        let rest = self.magnitude % modulus;
        if self.is_negative {
            ((modulus - rest) % modulus) as u32
        } else {
            rest as u32
        }
    }

    /// Returns the immediate of formats I and S: -2048 to 2047.
    ///
    /// # Errors
    ///
    /// `OutOfRange`, for any other number.
    pub(crate) fn immediate(self) -> Result<Imm12, AsmFaultKind>
        ensures { result ≡ immediate_of self }
    {
        if !self.is_within(2048, 2047) {
            return Err(AsmFaultKind::OutOfRange);
        }
        Ok(Imm12::new(self.residue(1 << 12)))
    }

    /// Returns the immediate of lui and auipc. The number is bits 31 to 12 of it: 0 to 1048575.
    ///
    /// # Errors
    ///
    /// `OutOfRange`, for any other number.
    pub(crate) fn upper_immediate(self) -> Result<UpperImm, AsmFaultKind>
        ensures { result ≡ upper_immediate_of self }
    {
        if !self.is_within(0, 1_048_575) {
            return Err(AsmFaultKind::OutOfRange);
        }
        Ok(UpperImm::new(self.magnitude as u32 * 4096))
    }

    /// Returns the shift amount: 0 to 31.
    ///
    /// # Errors
    ///
    /// `OutOfRange`, for any other number.
    pub(crate) fn shift_amount(self) -> Result<Shamt, AsmFaultKind>
        ensures { result ≡ five_bits_of self }
    {
        if !self.is_within(0, 31) {
            return Err(AsmFaultKind::OutOfRange);
        }
        Ok(Shamt::new(self.residue(32)))
    }

    /// Returns the immediate of a CSR instruction: 0 to 31.
    ///
    /// # Errors
    ///
    /// `OutOfRange`, for any other number.
    pub(crate) fn csr_immediate(self) -> Result<Uimm, AsmFaultKind>
        ensures { result ≡ five_bits_of self }
    {
        if !self.is_within(0, 31) {
            return Err(AsmFaultKind::OutOfRange);
        }
        Ok(Uimm::new(self.residue(32)))
    }

    /// Returns the number of a control and status register: 0 to 4095.
    ///
    /// # Errors
    ///
    /// `OutOfRange`, for any other number.
    pub(crate) fn csr_number(self) -> Result<CsrNumber, AsmFaultKind>
        ensures { result ≡ csr_number_field self }
    {
        if !self.is_within(0, 4095) {
            return Err(AsmFaultKind::OutOfRange);
        }
        Ok(CsrNumber::new(self.residue(1 << 12) as u16))
    }

    /// Returns the offset of a branch in bytes: an even number from -4096 to 4094.
    ///
    /// # Errors
    ///
    /// `OutOfRange`, for any other number.
    pub(crate) fn branch_offset(self) -> Result<BranchOffset, AsmFaultKind>
        ensures { result ≡ branch_offset_of self }
    {
        if !self.is_within(4096, 4094) || self.magnitude % 2 != 0 {
            return Err(AsmFaultKind::OutOfRange);
        }
        Ok(BranchOffset::new(self.residue(1 << 13)))
    }

    /// Returns the offset of a jump in bytes: an even number from -1048576 to 1048574.
    ///
    /// # Errors
    ///
    /// `OutOfRange`, for any other number.
    pub(crate) fn jump_offset(self) -> Result<JumpOffset, AsmFaultKind>
        ensures { result ≡ jump_offset_of self }
    {
        if !self.is_within(1_048_576, 1_048_574) || self.magnitude % 2 != 0 {
            return Err(AsmFaultKind::OutOfRange);
        }
        Ok(JumpOffset::new(self.residue(1 << 21)))
    }

    /// Returns the word: -2147483648 to 4294967295, modulo 2^32.
    ///
    /// # Errors
    ///
    /// `OutOfRange`, for any other number.
    pub(crate) fn word(self) -> Result<u32, AsmFaultKind>
        ensures { result ≡ word_of_number self }
    {
        if !self.is_within(1 << 31, (1 << 32) - 1) {
            return Err(AsmFaultKind::OutOfRange);
        }
        Ok(self.residue(1 << 32))
    }
}
