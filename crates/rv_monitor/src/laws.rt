//! Laws of the monitored machine in every state, for the crates above to cite. Each is proved about the definitions in `specs/`. The laws of one
//! step are clauses of `MonitoredMachine::step`. The laws here are about the parts of a step, and about steps of the harts in any order.

ghost use Rattle.rv_monitor.specs.AccessControl.{AccessControlLaw};
ghost use Rattle.rv_monitor.specs.Attestation.{AttestationLaw, ReentryLaw};
ghost use Rattle.rv_monitor.specs.Declassification.{DeclassificationLaw, RelationLaw};
ghost use Rattle.rv_monitor.specs.Determined.{DeterminedLaw};
ghost use Rattle.rv_monitor.specs.EnclaveSteps.{EnclaveRunLaw};
ghost use Rattle.rv_monitor.specs.Events.{EventIntegrityLaw, EventInvariantLaw, EventLaw, RunningEventLaw};
ghost use Rattle.rv_monitor.specs.HandlerReads.{HandlerReadsLaw};
ghost use Rattle.rv_monitor.specs.Noninterference.{BareLaw, HandlerLaw};
ghost use Rattle.rv_monitor.specs.HartLaws.{EntryLaw, LowStepsLaw, RunningLaw, SchedChangeLaw, SchedInvariantLaw, SchedLaw, SchedIntegrityLaw};
ghost use Rattle.rv_monitor.specs.Life.{LifeBeginsLaw, LifeLaw};
ghost use Rattle.rv_monitor.specs.Returns.{ReturnLaw};
ghost use Rattle.rv_monitor.specs.LegalMachine.{LegalLaw};
ghost use Rattle.rv_monitor.specs.Scrambled.{ScrambleLaw};

/// States access control. In every state, the PMP permits S and U an access to bytes in RAM if and only if the bytes are accessible to the world of
/// the hart.
#[tactic(auto, using(crate::proofs::AccessControlLemmas::access_control_law))]
pub const fn access_control()
    ensures { AccessControlLaw }
{}

/// States that a step of a hart, without the trap handler, depends on no byte of the region of an enclave that the hart does not run.
#[tactic(auto, using(crate::proofs::BareStepNoninterference::bare_law))]
pub const fn bare_step_noninterference()
    ensures { BareLaw }
{}

/// States that the trap handler of a hart depends on nothing that is private to an enclave that the hart does not run. This also holds if the trap
/// handler enters that enclave.
pub const fn handler_noninterference()
    ensures { HandlerLaw }
{}

/// States that the host is restored when an enclave exits. Take the step that enters the enclave and the step with which the enclave exits,
/// with any steps of the harts in between. The host then continues after its ecall as it was before the first step, except for a0 and a1.
#[tactic(auto, using(crate::proofs::Returned::return_law))]
pub const fn host_is_restored()
    ensures { ReturnLaw }
{}

/// States what the trap handler reads. It reads from memory only the bytes of the region that create measures. It reads only one saved context,
/// the one that run or resume enters. For measure, only the permission to store to the addresses matters.
#[tactic(auto, using(crate::proofs::HandlerReads::handler_reads_law))]
pub const fn handler_reads()
    ensures { HandlerReadsLaw }
{}

/// States that scrambling the private state of an enclave twice restores it.
#[tactic(auto, using(crate::proofs::Scrambled::scramble_law))]
pub const fn scrambled_twice()
    ensures { ScrambleLaw }
{}

/// States that steps of the harts in any order preserve the invariant.
pub const fn any_order_keeps()
    ensures { SchedInvariantLaw }
{}

/// States integrity for steps in any order: the steps preserve each enclave that they leave undisturbed, even while this enclave runs on a hart that
/// does not step.
pub const fn any_order_integrity()
    ensures { SchedIntegrityLaw }
{}

/// States that steps of other harts, in any order, leave an enclave that runs on a hart undisturbed.
pub const fn running_is_undisturbed()
    ensures { RunningLaw }
{}

/// States noninterference for steps in any order. If two machines are equivalent except for an enclave, low steps have the same outcomes on
/// both, and leave both equivalent except for that enclave.
pub const fn any_order_noninterference()
    ensures { SchedLaw }
{}

/// States that a hart runs an enclave after a step only if the hart ran the enclave before the step, or the step entered the enclave.
pub const fn only_entry_runs()
    ensures { EntryLaw }
{}

/// States that steps of harts on which an enclave does not run are low steps, up to and including the step that enters it.
#[tactic(auto, using(crate::proofs::SchedNoninterference::low_steps))]
pub const fn low_steps_up_to_entry()
    ensures { LowStepsLaw }
{}

/// States that steps in any order change no byte, except those that one of the steps changes as a step of its hart may.
#[tactic(auto, using(crate::proofs::SchedIntegrity::sched_changes))]
pub const fn any_order_changes()
    ensures { SchedChangeLaw }
{}

/// States these laws for lists of events: steps of the harts and changes of their timer lines, in any order. An attacker that chooses the schedule
/// also chooses when interrupts become pending. Every list preserves the invariant. A list preserves each enclave that it leaves undisturbed, except
/// for the timer line of the hart of the enclave. Steps of the other harts and changes of any timer line leave a running enclave undisturbed. If two
/// machines are equivalent except for an enclave, low events have the same outcomes on both, and leave both equivalent except for that enclave.
pub const fn any_events()
    ensures keeps { EventInvariantLaw }
    ensures integrity { EventIntegrityLaw }
    ensures running { RunningEventLaw }
    ensures noninterference { EventLaw }
{}

/// States that many steps of an enclave in a row depend only on its record, the bytes of its region and its window, its registers and its timer
/// line. The steps are the same in every machine in which these parts are equal. The slot and the hart of the enclave, the host, the other enclaves
/// and the rest of the table have no influence.
pub const fn enclave_run_depends_on_enclave()
    ensures { EnclaveRunLaw }
{}

/// States integrity over the whole life of an enclave. Two machines have an enclave at the same point of its life. Their hosts, tables, memories and
/// schedules may differ. The enclave's own steps are the same in both, as long as the bytes of its window that they read are equal. Between two of
/// these steps the other worlds may step in any order, enter the enclave, and interrupt it by the timer. Two enclaves with equal measured bytes begin
/// at the same point. The measurement therefore identifies what an enclave does in its whole life. At reset pc and the S-mode registers have legal
/// values, and every event preserves this.
pub const fn whole_life_depends_on_enclave()
    ensures life { LifeLaw }
    ensures begins { LifeBeginsLaw }
    ensures legal { LegalLaw }
{}

/// States noninterference with declassification. Let two machines be equivalent except for an enclave. Let the enclave take any number of its own
/// steps in each machine, between equal low steps. If the enclave hands over the same registers and the same window at each exit, then every low step
/// has the same outcome in both machines.
pub const fn noninterference_with_declassification()
    ensures { DeclassificationLaw }
{}

/// States how the relation of the machines in `noninterference_with_declassification` and equivalence except for an enclave follow from each other
/// while the enclave runs on no hart.
pub const fn equivalent_machines_are_related()
    ensures { RelationLaw }
{}

/// States attestation: the measurement identifies what an enclave does. Two enclaves that were created from the same measured bytes take the same
/// steps from their first entry to their exit. Their slots, their hosts and the rest of the tables have no influence. They exit alike. Two enclaves
/// with equal saved states take the same steps from a later entry on.
pub const fn measurement_identifies()
    ensures first_run { AttestationLaw }
    ensures later_runs { ReentryLaw }
{}

/// States that the laws of a step determine the step: a machine and an outcome that obey `plain`, `answers`, `interrupts`, `exits` and `host` of
/// [`MonitoredMachine::step`](crate::MonitoredMachine::step) are those of the step.
pub const fn laws_determine_step()
    ensures { DeterminedLaw }
{}
