//! The jobs of the program.

ghost use Rattle.std.specs.Prelude.{◌≡◌};
ghost use Rattle.rv_command_line.specs.Job.{has_its_monitor};

use crate::setup::Setup;

/// The job that the arguments of the program select.
#[derive(Clone, Copy, Debug, PartialEq, Eq)]
pub enum Job {
    /// `run`, or no subcommand: run a bench with this setup.
    Run(Setup),
    /// `twin`: run two benches with this setup, which has the monitor. They differ only in the enclave in this slot, 0 to 12.
    Twin(Setup, u8),
    /// `asm`: assemble.
    Asm,
    /// `dis`: disassemble.
    Dis,
}

impl Job {
    /// Returns whether the benches of the job have the monitor if they have two harts.
    pub(crate) fn has_its_monitor(&self) -> bool
        ensures { result ≡ has_its_monitor self.now }
    {
        match self {
            Job::Run(setup) | Job::Twin(setup, _) => setup.has_valid_harts(),
            Job::Asm | Job::Dis => true,
        }
    }
}
