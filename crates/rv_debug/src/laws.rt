//! Laws of the commands for every bench that satisfies the invariant, for the crates above to cite. Each is proved about the definitions in
//! `specs/`. The law of one command is also a clause of `Bench::command`.

ghost use Rattle.rv_debug.specs.CommandEvents.{CommandEventsLaw};
ghost use Rattle.rv_debug.specs.HostInfluence.{HostInfluenceLaw};
ghost use Rattle.rv_debug.specs.HostRun.{HostRunLaw};
ghost use Rattle.rv_debug.specs.Declassification.{BenchRelationLaw, CommandDeclassificationLaw, EndedLaw, ListDeclassificationLaw};
ghost use Rattle.rv_debug.specs.Declassification.{LowCommandLaw, ObservationLaw};
ghost use Rattle.rv_debug.specs.Noninterference.{EquivalenceLaw, NoninterferenceLaw, PokeLaw, RunsOnNoHartLaw};
ghost use Rattle.rv_debug.specs.Isolation.{IntegrityLaw, RunningLaw};
ghost use Rattle.rv_debug.specs.Permissions.{StorePermissionLaw};
ghost use Rattle.rv_debug.specs.Returns.{ReturnLaw};
ghost use Rattle.rv_debug.specs.SecretRun.{SecretRunLaw};

/// States integrity. A list of commands preserves the record, the region and the saved context of a live enclave under three conditions. No step
/// is a step of that enclave, none enters or ends it, and no poke writes to its region. The enclave may run on a hart that does not step.
#[tactic(auto, using(crate::proofs::Isolation::integrity))]
pub const fn integrity()
    ensures { IntegrityLaw }
{}

/// States that a command leaves an enclave that runs on a hart undisturbed, if it does not step that hart and pokes no byte of the region.
pub const fn running_is_undisturbed()
    ensures { RunningLaw }
{}

/// States noninterference. Take two benches that are equivalent except for an enclave. Take a command that is blind to it, and neither steps nor
/// shows a hart on which it runs. The command enters the enclave in both benches or in neither. If in neither, the replies are equal and the
/// benches are equivalent again, and equal once the enclave has ended.
pub const fn noninterference()
    ensures { NoninterferenceLaw }
{}

/// States that two benches stay equivalent except for an enclave after a command that is blind to it and steps no hart on which it runs. The
/// command may show such a hart, as `sched` and `regs` may, so the replies may differ.
pub const fn stays_equivalent()
    ensures { EquivalenceLaw }
{}

/// States that every command avoids the hart of an enclave that runs on no hart. After a command that does not enter the enclave, it still runs
/// on no hart.
pub const fn stays_not_running()
    ensures { RunsOnNoHartLaw }
{}

/// States that pokes into the region of an enclave preserve the equivalence of two benches except for it. The two bytes and their addresses may
/// differ. The replies are equal.
pub const fn poking()
    ensures { PokeLaw }
{}

/// States that the host is restored when an enclave exits. Take the step with which the host of a hart enters an enclave and the one with which
/// the enclave exits, in one command or with any commands in between. The host then continues after its ecall as it was before the first step,
/// except for a0 and a1.
#[tactic(auto, using(crate::proofs::Returned::return_law))]
pub const fn host_is_restored()
    ensures { ReturnLaw }
{}

/// States noninterference with declassification, for one command and for lists of commands. Take two benches that are equivalent except for an
/// enclave, and commands that may run it, to its exit and beyond. If it hands over the same at each exit, what others observe of the replies is
/// equal. The two lists may poke different secrets into its region, and set different registers of the hart on which it runs.
pub const fn noninterference_with_declassification()
    ensures command { CommandDeclassificationLaw }
    ensures list { ListDeclassificationLaw }
{}

/// States that a bench is related to itself, and that benches which are equivalent except for an enclave are related if it runs on no hart.
pub const fn equivalent_benches_are_related()
    ensures { BenchRelationLaw }
{}

/// States when a command satisfies the condition on its steps in `noninterference_with_declassification`. The command steps no hart on which the
/// enclave runs, and does not enter it. If the enclave runs, the bytes of its window are equal before the command and after it.
pub const fn low_commands_are_alike()
    ensures { LowCommandLaw }
{}

/// States what others observe if the enclave does not run. They observe the whole reply to a command that does not enter it, and accesses no byte of
/// its region. The reply to `csr` shows the registers that no world reads as 0.
pub const fn replies_are_observed()
    ensures { ObservationLaw }
{}

/// States that no premise is left after an enclave has ended. The two benches are then related for every slot. The same command satisfies the
/// condition on its steps for every slot, even if it runs another enclave in the same slot.
pub const fn ended_enclaves_have_no_secret()
    ensures { EndedLaw }
{}

/// States two closed instances of laws about steps. Each machine begins at reset, and the steps are computed. In `secret` an enclave is interrupted
/// with a secret in a0 and resumed. The steps conceal the secret, and so do the observations of commands that execute these steps. In `host` an
/// enclave runs under two unlike hosts, which differ in a byte of the window, in the number of harts and in the schedule. Its steps are the same, and
/// it stores what it loaded.
pub const fn closed_runs()
    ensures secret { SecretRunLaw }
    ensures host { HostRunLaw }
{}

/// States that commands are lists of actions: events, and writes of a register or a byte. Every list of events is the list of actions of some commands.
/// A law about lists of events is therefore a law about commands: an attacker that chooses the commands also chooses the schedule and every change of
/// a timer line.
pub const fn any_events_are_commands()
    ensures { CommandEventsLaw }
{}

/// States how the host influences an enclave. Two benches have an enclave at the same point of its life, and execute unlike commands. These may enter
/// and interrupt it, change any timer line, set registers of other harts, and poke any byte outside its region. The enclave's own steps are the same in
/// both, as long as the bytes of its window that they read are equal. `legal` states that each command keeps the premise on pc and the S-mode registers.
pub const fn host_influences_through_window()
    ensures { HostInfluenceLaw }
{}

/// States in numbers which bytes of the memory S may store on a hart, and so to which bytes a measure may write. The host may store outside the monitor's
/// range and the regions of the live enclaves. An enclave may store in its region and its window.
pub const fn stores_are_permitted_in_numbers()
    ensures { StorePermissionLaw }
{}
