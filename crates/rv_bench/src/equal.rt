//! Two equal benches, which respond as one.

ghost use Rattle.std.specs.Prelude.{◌≡◌};
ghost use Rattle.rv_bench.specs.Replies.{one_bench};

use crate::responder::Responder;
use rv_debug::Bench;
use rv_text::Reply;

/// Two equal benches.
#[derive(Drop)]
pub(crate) struct EqualBenches {
    pub(crate) first: Bench,
    pub(crate) second: Bench,
    ghost equal: { second ≡ first },
}

impl Responder for EqualBenches {
    type Told = Reply;

    type State = Bench;

    ghost state = { λ benches. benches.first };

    ghost responding = { λ _. one_bench };

    fn respond_to_line(&mut self, line: &[u8], out: &mut Reply) {
        self.second.execute_line(line, out);
        self.first.execute_line(line, out);
    }

    fn is_over(&self) -> bool {
        false
    }
}
