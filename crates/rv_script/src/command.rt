//! The commands, and the parser of a line.

ghost use Rattle.std.specs.Prelude.{◌≡◌, [], ◌∷◌, map};
ghost use Rattle.rv_word.specs.Cases.{option_case};
ghost use Rattle.rv_memory.specs.Blocks.{no_block};
ghost use Rattle.rv_script.specs.Command.{bytes_named};
ghost use Rattle.rv_script.specs.Command.{decimal_within, register_of, switch_of, mode_of, access_of, width_of, operands_of, meaning_of, parse_of, number_of_fault};

use crate::keyword::Keyword;
use crate::numbers::{byte, csr_number, decimal, hexadecimal};
use crate::schedule::{Schedule, hart_operand};
use crate::within::Within;
use rv_encoding::CsrNumber;
use rv_memory::Block;
use rv_pmp::{Access, Mode};
use rv_text::{first_words, is_good_line};
use rv_word::{Reg, Width};

/// The number of steps of one command: 1 to 1000000.
pub type StepCount = Within<1, 1_000_000>;

/// The number of bytes that one command shows: 1 to 64.
pub type ByteCount = Within<1, 64>;

/// The command of a line.
#[derive(Clone, Copy, Debug, PartialEq, Eq)]
pub enum Command {
    /// No command: the line has no words, or its first word begins with `#`.
    Blank,
    /// `step N`: step N times, regardless of breakpoints and watchpoints.
    Step(StepCount),
    /// `run N`: step at most N times. Stop after a step that loads or stores a watched byte, or that ends at a breakpoint.
    Run(StepCount),
    /// `break A`: set a breakpoint. A run stops when the next instruction is at the address.
    Break(u32),
    /// `clear A`: remove the breakpoint.
    Clear(u32),
    /// `watch A`: set a watchpoint. A run stops after an instruction that loads or stores the byte at the address.
    Watch(u32),
    /// `unwatch A`: remove the watchpoint.
    Unwatch(u32),
    /// `reg N`: show the register.
    Reg(Reg),
    /// `regs`: show all registers and pc.
    Regs,
    /// `setreg N V`: write the word to the register. x0 stays 0.
    SetReg(Reg, u32),
    /// `csr C`: show the control and status register, as mode M reads it. For mhartid (f14) show the number of the selected hart.
    Csr(CsrNumber),
    /// `mem A N`: show N bytes of memory from an address on.
    Mem(u32, ByteCount),
    /// `poke A V`: write the byte to memory at an address.
    Poke(u32, u8),
    /// `dis A`: show the word at an address of any alignment, and its instruction in assembly language.
    Dis(u32),
    /// `pmp`: show the 16 PMP entries.
    Pmp,
    /// `enclaves`: show the live enclaves. A bench without the monitor has none.
    Enclaves,
    /// `access M K A L`: show whether an access would be permitted, and by which PMP entry. It is checked in the given mode, whatever the mode
    /// of the hart is.
    Access {
        /// M: the mode.
        mode: Mode,
        /// K: the kind of access.
        access: Access,
        /// A: the address of its first byte.
        address: u32,
        /// L: the number of bytes.
        width: Width,
    },
    /// `timer on`, `timer off`: set or clear the timer line.
    Timer(bool),
    /// `hart H`: select the hart with this number. Later commands step and show this hart.
    Hart(u8),
    /// `sched W`: step hart 0 or hart 1 once for each digit, regardless of breakpoints and watchpoints. The selected hart does not change.
    Sched(Schedule),
}

impl Command {
    /// Returns the bytes whose addresses are operands of the command: those of `mem`, `dis` and `poke`. Any other command has none.
    pub fn named(&self) -> Option<Block>
        ensures { option_case result no_block (λ block. block) ≡ bytes_named self.now }
    {
        match *self {
            Command::Mem(address, count) => Some(Block {
                base: address,
                size: count.get(),
            }),
            Command::Dis(address) => Some(Block {
                base: address,
                size: 4,
            }),
            Command::Poke(address, _) => Some(Block {
                base: address,
                size: 1,
            }),
            _ => None,
        }
    }
}

/// The error of a line: the first of these that it has.
#[derive(Clone, Copy, Debug, PartialEq, Eq)]
pub enum CommandFault {
    /// Error 1: the line has more than 120 bytes, or a byte that is neither a tab nor from 0x20 to 0x7E.
    BadLine,
    /// Error 2: the first word is no command.
    UnknownCommand,
    /// Error 3: the command does not have this number, form or range of operands.
    BadOperand,
}

impl CommandFault {
    /// Returns the number of the error, 1 to 3.
    pub fn number(self) -> u8
        ensures { result ≡ number_of_fault self }
    {
        match self {
            CommandFault::BadLine => 1,
            CommandFault::UnknownCommand => 2,
            CommandFault::BadOperand => 3,
        }
    }
}

/// Reads a register: a decimal number, 0 to 31.
#[tactic(auto, unfolding(crate::specs::Command::register_of))]
fn register(operand: &[u8]) -> Option<Reg>
    ensures { result ≡ register_of operand.now }
{
    let number = decimal(operand)?;
    if number > 31 {
        return None;
    }
    Some(Reg::new(number as u8))
}

/// Reads a number of steps: a decimal number, 1 to 1000000.
fn step_count(operand: &[u8]) -> Option<StepCount>
    ensures { result ≡ decimal_within 1 1000000 operand.now }
{
    StepCount::new(decimal(operand)?)
}

/// Reads `on` as true and `off` as false. Returns `None` for any other operand.
fn switch(operand: &[u8]) -> Option<bool>
    ensures { result ≡ switch_of operand.now }
{
    match operand {
        b"on" => Some(true),
        b"off" => Some(false),
        _ => None,
    }
}

/// Reads a mode, by its letter.
fn mode(operand: &[u8]) -> Option<Mode>
    ensures { result ≡ mode_of operand.now }
{
    match operand {
        b"M" => Some(Mode::M),
        b"S" => Some(Mode::S),
        b"U" => Some(Mode::U),
        _ => None,
    }
}

/// Reads a kind of access, by the letter of its permission.
fn access(operand: &[u8]) -> Option<Access>
    ensures { result ≡ access_of operand.now }
{
    match operand {
        b"r" => Some(Access::Read),
        b"w" => Some(Access::Write),
        b"x" => Some(Access::Fetch),
        _ => None,
    }
}

/// Reads a width: its number of bytes, as one digit.
fn width(operand: &[u8]) -> Option<Width>
    ensures { result ≡ width_of operand.now }
{
    match operand {
        b"1" => Some(Width::Byte),
        b"2" => Some(Width::Half),
        b"4" => Some(Width::Word),
        _ => None,
    }
}

/// Returns the command of a keyword without operands.
fn with_none(keyword: Keyword) -> Option<Command>
    ensures { result ≡ operands_of keyword [] }
{
    match keyword {
        Keyword::Regs => Some(Command::Regs),
        Keyword::Pmp => Some(Command::Pmp),
        Keyword::Enclaves => Some(Command::Enclaves),
        _ => None,
    }
}

/// Returns the command of a keyword with one operand.
fn with_one(keyword: Keyword, operand: &[u8]) -> Option<Command>
    ensures { result ≡ operands_of keyword (operand.now ∷ []) }
{
    match keyword {
        Keyword::Step => step_count(operand).map(Command::Step),
        Keyword::Run => step_count(operand).map(Command::Run),
        Keyword::Break => hexadecimal(operand).map(Command::Break),
        Keyword::Clear => hexadecimal(operand).map(Command::Clear),
        Keyword::Watch => hexadecimal(operand).map(Command::Watch),
        Keyword::Unwatch => hexadecimal(operand).map(Command::Unwatch),
        Keyword::Reg => register(operand).map(Command::Reg),
        Keyword::Csr => csr_number(operand).map(Command::Csr),
        Keyword::Dis => hexadecimal(operand).map(Command::Dis),
        Keyword::Timer => switch(operand).map(Command::Timer),
        Keyword::Hart => hart_operand(operand).map(Command::Hart),
        Keyword::Sched => Schedule::new(operand).map(Command::Sched),
        _ => None,
    }
}

/// Returns the command of a keyword with two operands.
fn with_two(keyword: Keyword, first: &[u8], second: &[u8]) -> Option<Command>
    ensures { result ≡ operands_of keyword (first.now ∷ second.now ∷ []) }
{
    match keyword {
        Keyword::SetReg => {
            let reg = register(first)?;
            let value = hexadecimal(second)?;
            Some(Command::SetReg(reg, value))
        }
        Keyword::Mem => {
            let address = hexadecimal(first)?;
            let count = ByteCount::new(decimal(second)?)?;
            Some(Command::Mem(address, count))
        }
        Keyword::Poke => {
            let address = hexadecimal(first)?;
            let value = byte(second)?;
            Some(Command::Poke(address, value))
        }
        _ => None,
    }
}

/// Returns the command of a keyword with four operands.
fn with_four(
    keyword: Keyword,
    letter: &[u8],
    kind: &[u8],
    address: &[u8],
    length: &[u8],
) -> Option<Command>
    ensures { result ≡ operands_of keyword (letter.now ∷ kind.now ∷ address.now ∷ length.now ∷ []) }
{
    if keyword != Keyword::Access {
        return None;
    }
    let mode = mode(letter)?;
    let access = access(kind)?;
    let address = hexadecimal(address)?;
    let width = width(length)?;
    Some(Command::Access {
        mode,
        access,
        address,
        width,
    })
}

/// Returns the command of a keyword with its operands.
#[tactic(auto, using(crate::proofs::Commands::made_three, crate::proofs::Commands::made_many))]
fn with_operands(keyword: Keyword, operands: &[&[u8]]) -> Option<Command>
    ensures { result ≡ operands_of keyword (map (λ operand. operand.now) operands.now) }
{
    match operands {
        [] => with_none(keyword),
        [operand] => with_one(keyword, operand),
        [first, second] => with_two(keyword, first, second),
        [_, _, _] => None,
        [first, second, third, fourth] => with_four(keyword, first, second, third, fourth),
        _ => None,
    }
}

/// Returns the command of the words of a well-formed line, or their first error.
#[tactic(auto, unfolding(crate::specs::Command::meaning_of))]
fn meaning(words: &[&[u8]]) -> Result<Command, CommandFault>
    ensures { result ≡ meaning_of (map (λ word. word.now) words.now) }
{
    let Some((name, operands)) = words.split_first() else {
        return Ok(Command::Blank);
    };
    if name.starts_with(b"#") {
        return Ok(Command::Blank);
    }
    let keyword = Keyword::find(name).ok_or(CommandFault::UnknownCommand)?;
    with_operands(keyword, operands).ok_or(CommandFault::BadOperand)
}

/// Parses a line without its ending. A line without words, or whose first word begins with `#`, is `Command::Blank`. Only the first 121 bytes of
/// the line matter.
///
/// # Errors
///
/// The first of these that applies:
/// - `BadLine`, if the line has more than 120 bytes or a byte that no line may have.
/// - `UnknownCommand`, if the first word is no command.
/// - `BadOperand`, if the command does not have this number, form or range of operands.
#[tactic(auto, unfolding(crate::specs::Command::parse_of))]
pub fn parse(line: &[u8]) -> Result<Command, CommandFault>
    ensures { result ≡ parse_of line.now }
{
    if !is_good_line(line) {
        return Err(CommandFault::BadLine);
    }
    meaning(first_words(line).as_slice())
}
