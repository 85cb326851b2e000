//! The monitor's calls.

ghost use Rattle.std.specs.Prelude.{◌≡◌};
ghost use Rattle.rv_enclaves.specs.Calls.{call_requested as call_requested_of, takes};

use crate::slot_info::EnclaveState;
use crate::world::World;

/// A call of the monitor, which an ecall from mode S requests by its number in a6.
#[derive(Clone, Copy)]
pub enum Call {
    /// 1: the host creates an enclave.
    Create,
    /// 2: the host destroys an enclave that does not run.
    Destroy,
    /// 3: the host enters an enclave for the first time.
    Run,
    /// 4: the host resumes an enclave that stopped.
    Resume,
    /// 5: the host or an enclave requests a measurement.
    Measure,
    /// 6: an enclave stops and returns to the host, to be resumed.
    Stop,
    /// 7: an enclave exits and returns to the host for good.
    Exit,
}

impl Call {
    /// Returns whether the call accepts an enclave in this state. Only destroy, run and resume depend on it.
    pub(crate) fn takes(self, state: EnclaveState) -> bool
        ensures { result ≡ takes self state }
    {
        match self {
            Call::Destroy => !matches!(state, EnclaveState::Running),
            Call::Run => matches!(state, EnclaveState::Fresh),
            Call::Resume => matches!(state, EnclaveState::Stopped),
            Call::Create | Call::Measure | Call::Stop | Call::Exit => false,
        }
    }
}

/// The value of a7 at a call.
const CALL_KEY: u32 = 0x0A45_4E43;

/// Returns the call that a world requests, if there is one: a7 is 0A454E43, and a6 is the number of a call that the world may make.
#[tactic(auto, unfolding(crate::specs::Calls::call_requested))]
pub fn call_requested(world: &World, a7: u32, a6: u32) -> Option<Call>
    ensures { result ≡ call_requested_of world.now a7 a6 }
{
    if a7 != CALL_KEY {
        return None;
    }
    match *world {
        World::Host => host_call(a6),
        World::Enclave(_) => enclave_call(a6),
    }
}

ghost use Rattle.std.specs.List.{find};
ghost use Rattle.std.specs.Prelude.{◌==◌, ◌&&◌};
ghost use Rattle.rv_enclaves.specs.Calls.{call_number, is_offered, calls};

/// Returns the call that the host requests with this number in a6, or `None` if the monitor offers the host no such call.
fn host_call(a6: u32) -> Option<Call>
    ensures { result ≡ find (λ call. call_number call == a6 && is_offered World.Host call) calls }
{
    match a6 {
        1 => Some(Call::Create),
        2 => Some(Call::Destroy),
        3 => Some(Call::Run),
        4 => Some(Call::Resume),
        5 => Some(Call::Measure),
        _ => None,
    }
}

/// Returns the call that an enclave requests with this number in a6, or `None` if the monitor offers an enclave no such call.
fn enclave_call(a6: u32) -> Option<Call>
    ensures { result ≡ find (λ call. call_number call == a6 && is_offered (World.Enclave 0) call) calls }
{
    match a6 {
        5 => Some(Call::Measure),
        6 => Some(Call::Stop),
        7 => Some(Call::Exit),
        _ => None,
    }
}
