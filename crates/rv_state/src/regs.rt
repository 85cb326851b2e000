//! The integer registers.

ghost use Rattle.std.specs.Prelude.{◌≡◌, ℕ, ◌<◌, List, length, replicate};
ghost use Rattle.rv_state.specs.Registers.{register, with_register};

use rv_word::Reg;
use std::marker::Model;

/// The 32 integer registers. x0 is always 0 (Unprivileged ISA, section 2.1). Contracts describe them as a list of words.
#[derive(Clone, Copy, Debug)]
pub struct Regs {
    words: [u32; 32],
}

impl Model for Regs {
    ghost use Rattle.std.specs.Prelude.{◌≡◌, ℕ, List, slice_index};

    ghost Value = { List ℕ };

    ghost view = { λ regs. regs.words };

    ghost invariant = { λ regs. slice_index regs.words 0 ≡ 0 };

    ghost inverse = { λ words. record { words = words } };
}

impl Regs {
    /// Returns the registers at reset: all 0.
    pub const fn new() -> Self
        ensures { result ≡ replicate 32 0 }
    {
        Regs { words: [0; 32] }
    }

    /// Returns the word in a register. The word in x0 is 0.
    #[inline(always)]
    pub const fn get(&self, reg: Reg) -> u32
        ensures value { result ≡ register self.now reg }
        ensures x0 { register self.now 0 ≡ 0 }
        ensures count { length self.now ≡ 32 }
    {
        self.words[reg.number() as usize]
    }

    /// Writes a word to a register. A write to x0 changes nothing.
    #[inline(always)]
    pub fn set(&mut self, reg: Reg, value: u32)
        ensures { self.new ≡ with_register self.old reg value }
    {
        let number = reg.number();
        if number != 0 {
            self.words[number as usize] = value;
        }
    }

    /// Writes a word to a register that is not x0.
    #[inline(always)]
    pub fn put(&mut self, reg: Reg, value: u32)
        requires { 0 < reg }
        ensures { self.new ≡ with_register self.old reg value }
    {
        self.words[reg.number() as usize] = value;
    }
}

impl Default for Regs {
    /// Returns the registers at reset.
    fn default() -> Self
        ensures { result ≡ replicate 32 0 }
    {
        Regs::new()
    }
}
