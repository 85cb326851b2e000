//! A monitored machine and its selected hart.

use rv_monitor::MonitoredMachine;
use std::marker::Model;

/// A monitored machine, and the hart of it that commands work on.
#[derive(Drop, Debug)]
pub struct SelectedHart {
    pub(crate) machine: MonitoredMachine,
    /// The selected hart. It is a hart of the machine.
    pub(crate) hart: u8,
}

impl Model for SelectedHart {
    ghost use Rattle.std.specs.Prelude.{◌<◌};
    ghost use Rattle.rv_monitor.specs.MonitoredMachine.{count_of};
    ghost use Rattle.rv_debug.specs.Selected.{Selected};

    ghost Value = { Selected };

    ghost view = { λ selected. record { hart = selected.hart; state = selected.machine } };

    ghost invariant = { λ selected. selected.hart < count_of selected.machine };
}
