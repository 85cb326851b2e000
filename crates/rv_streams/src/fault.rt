//! The errors that end a run.
ghost use Rattle.std.specs.Prelude.{◌≡◌};
ghost use Rattle.rv_streams.specs.Faults.{bench_fault_number};

use rv_asm::AsmFault;
use rv_elf::ElfFault;
use rv_memory::RamFault;
use thiserror::Error;

/// Why a run ended early. `Display` gives the line that the program prints for the error. For `Write` the program prints nothing.
#[derive(Clone, Copy, Debug, PartialEq, Eq, Error)]
pub enum BenchFault {
    /// The image cannot be loaded.
    #[error("rvbench: image {}", .0.number())]
    Image(ElfFault),
    /// A RAM of the requested size cannot be made.
    #[error("rvbench: ram {}", .0.number())]
    Ram(RamFault),
    /// The source failed.
    #[error("rvbench: read")]
    Read,
    /// The sink failed, or took no byte of a non-empty part.
    #[error("rvbench: write")]
    Write,
    /// A line of the image's text is not an even number of hexadecimal digits. Or an image that must consist of words has a number of bytes that
    /// is not a multiple of 4.
    #[error("rvbench: hex")]
    Hex,
    /// The image has more than 33554432 bytes, or the assembler text has more than 4194304 bytes.
    #[error("rvbench: too long")]
    TooLong,
    /// Memory is exhausted.
    #[error("rvbench: memory")]
    NoMemory,
    /// The assembler text has an error.
    #[error("rvbench: line {} fault {}", .0.line, .0.kind.number())]
    Asm(AsmFault),
}

impl BenchFault {
    /// Returns the number of the error.
    pub fn number(self) -> u8
        ensures { result ≡ bench_fault_number self }
    {
        match self {
            BenchFault::Image(_) => 1,
            BenchFault::Ram(_) => 2,
            BenchFault::Read => 3,
            BenchFault::Write => 4,
            BenchFault::Hex => 5,
            BenchFault::TooLong => 6,
            BenchFault::NoMemory => 7,
            BenchFault::Asm(_) => 8,
        }
    }
}
