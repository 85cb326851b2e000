//! Allocates memory for more bytes. It is the only place where the streams allocate memory.

ghost use Rattle.std.specs.Prelude.{◌≡◌, ◌<◌, ◌++◌, ◌+◌, IfErr, OnErr, if◌then◌else◌, is_ok, length, vec_capacity};

use crate::fault::BenchFault;

/// Appends bytes to a vector. An `Err` changes nothing.
///
/// # Errors
///
/// `NoMemory`, if memory is exhausted. Memory is requested only if the vector has no room for the bytes.
pub(crate) fn add_behind(bytes: &mut Vec<u8>, more: &[u8]) -> Result<(), BenchFault>
    ensures items { bytes.new.items ≡ (if is_ok result then bytes.old.items ++ more.now else bytes.old.items) }
    ensures fault { IfErr result (λ fault. fault ≡ BenchFault.NoMemory) }
    ensures full { OnErr result (vec_capacity bytes.old < length bytes.old.items + length more.now) }
{
    match bytes.extend_from_slice(more) {
        Ok(()) => Ok(()),
        Err(_) => Err(BenchFault::NoMemory),
    }
}
