//! Responders to the lines of a script: a bench, or two of them.

ghost use Rattle.std.specs.Prelude.{◌≡◌, false};
ghost use Rattle.rv_bench.specs.Responses.{RespondsToLine};
ghost use Rattle.rv_bench.specs.Replies.{Responding, one_bench};

use rv_debug::Bench;
use rv_text::Reply;
use std::convert::AsSlice;

/// A responder to the lines of a script, until it is over.
pub(crate) trait Responder {
    /// The text of the response to a line.
    type Told: AsSlice<u8> + Default + Drop;

    /// The state that decides the responses.
    type State;

    // The current state.
    ghost state: { Self → Self.State };

    // The response in each state.
    ghost responding: { Self → Responding Self.State };

    /// Executes a line, and replaces the contents of the buffer by the response. Every line that begins with the same 121 bytes has the same
    /// effect and response.
    fn respond_to_line(&mut self, line: &[u8], out: &mut Self::Told)
        requires { (responding self.old).is_over (state self.old) ≡ false }
        ensures respond { RespondsToLine (responding self.old) (state self.old) line.now (record { state = state self.new; reply = Self.Told.items out.new }) }
        ensures kept { responding self.new ≡ responding self.old };

    /// Returns whether it responds to no further line.
    fn is_over(&self) -> bool
        ensures { result ≡ (responding self.now).is_over (state self.now) };
}

impl Responder for Bench {
    type Told = Reply;

    type State = Bench;

    ghost state = { λ bench. bench };

    ghost responding = { λ _. one_bench };

    /// See `Responder::respond_to_line`.
    fn respond_to_line(&mut self, line: &[u8], out: &mut Reply) {
        Bench::execute_line(self, line, out);
    }

    /// See `Responder::is_over`.
    fn is_over(&self) -> bool {
        false
    }
}
