//! The log of a device: what each of its calls moved, and how many calls of each kind there were. Only contracts see it. It takes no memory, and
//! the functions here do nothing when they run.
ghost use Rattle.std.specs.Prelude.{◌≡◌, ℕ, Bool, List};
ghost use base.Fml.{ftrue};

use std::fmt;
use std::fmt::{Debug, Formatter, Write};
use std::marker::{Model, PhantomData};

/// The calls of a device so far, as contracts see them.
///
/// The contracts of its methods say nothing about the device itself. A device must call the method that describes what happened, at each of its
/// calls.
pub struct CallLog {
    marker: PhantomData<()>,
    // The bytes that a source gave, or that a sink took.
    pub ghost bytes: { List ℕ },
    // The number of successful calls that could have moved a byte and moved none.
    pub ghost empty_calls: { ℕ },
    // The number of failed calls.
    pub ghost failures: { ℕ },
    // The number of successful flushes.
    pub ghost flushes: { ℕ },
    // Whether no byte was moved since the last successful flush, or none at all.
    pub ghost is_flushed: { Bool },
    // Any list of bytes, which the creator of the log chooses: the input that a source is assumed to have.
    pub ghost input: { List ℕ },
}

impl Model for CallLog {
    ghost also_owns = { λ _. ftrue };
}

/// Returns the log that the caller's proof chooses, which may depend on the argument.
fn chosen<T>(about: &T) -> CallLog
    ghost log: { CallLog }
    ensures { result ≡ log }
{
    let _ = about;
    CallLog {
        marker: PhantomData,
    }
}

impl CallLog {
    ghost use Rattle.std.specs.Prelude.{◌≡◌, List, ℕ, []};
    ghost use Rattle.rv_streams.specs.CallLog.{no_call, after_move, after_empty_call, after_failure, after_flush};

    /// Returns the log of a device that was not called yet.
    pub fn new() -> CallLog
        ensures { result ≡ no_call [] }
    {
        CallLog::with_input()
    }

    /// Returns the log of a source that was not called yet. Its assumed input is any list of bytes.
    pub fn with_input() -> CallLog
        ghost input: { List ℕ }
        ensures { result ≡ no_call input }
    {
        chosen(&())
    }

    /// Records a call that moved these bytes.
    pub fn moved(&mut self, bytes: &[u8])
        ensures { self.new ≡ after_move self.old bytes.now }
    {
        *self = chosen(&(&*self, bytes));
    }

    /// Records a successful call that could have moved a byte and moved none.
    pub fn moved_none(&mut self)
        ensures { self.new ≡ after_empty_call self.old }
    {
        *self = chosen(&*self);
    }

    /// Records a failed call.
    pub fn failed(&mut self)
        ensures { self.new ≡ after_failure self.old }
    {
        *self = chosen(&*self);
    }

    /// Records a successful flush.
    pub fn flushed(&mut self)
        ensures { self.new ≡ after_flush self.old }
    {
        *self = chosen(&*self);
    }
}

impl Drop for CallLog {
    fn drop(self) {
        let Self { marker: _ } = self;
    }
}

impl Debug for CallLog {
    fn fmt<W: Write>(&self, f: &mut Formatter<W>) -> fmt::Result {
        f.write_str("CallLog")
    }
}
