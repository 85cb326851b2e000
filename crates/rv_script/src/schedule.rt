//! Schedules: the hart of each step.

ghost use Rattle.std.specs.Prelude.{◌≡◌, ◌<◌, ◌≤◌, length, nat_lt, map};
ghost use Rattle.std.specs.List.{list_all};
ghost use Rattle.rv_script.specs.Schedules.{is_hart_digit as is_hart_digit_of, is_schedule as is_schedule_of, hart_of_digit, harts_in, schedule_of, hart_named, has_all};

/// The maximal number of steps of a schedule.
const MOST: usize = 64;

/// Returns whether a byte is the digit of a hart, 0 or 1.
#[tactic(auto, unfolding(crate::specs::Schedules::is_hart_digit))]
fn is_hart_digit(byte: u8) -> bool
    ensures { result ≡ is_hart_digit_of byte }
{
    byte == b'0' || byte == b'1'
}

/// Returns whether each byte is the digit of a hart. It tests all of them, since a loop without an early exit is compiled to vector
/// instructions.
fn are_hart_digits(word: &[u8]) -> bool
    ensures { result ≡ list_all is_hart_digit_of word.now }
{
    let mut are = true;
    for byte in word {
        are &= is_hart_digit(*byte);
    }
    are
}

/// Returns whether a word is 1 to 64 digits of harts.
fn is_schedule(word: &[u8]) -> bool
    ensures { result ≡ is_schedule_of word.now }
{
    1 <= word.len() && word.len() <= MOST && are_hart_digits(word)
}

/// Returns the hart with a digit: hart 1 for the digit 1, otherwise hart 0.
#[tactic(auto, unfolding(crate::specs::Schedules::hart_of_digit))]
pub fn hart(digit: u8) -> u8
    ensures which { result ≡ hart_of_digit digit }
    ensures few { result < 2 }
{
    u8::from(digit == b'1')
}

/// Reads the number of a hart: `0` or `1`.
pub(crate) fn hart_operand(operand: &[u8]) -> Option<u8>
    ensures { result ≡ hart_named operand.now }
{
    match operand {
        b"0" => Some(0),
        b"1" => Some(1),
        _ => None,
    }
}

/// Returns whether each of these digits is that of a hart below this number. Any digit is that of hart 0 or hart 1.
fn name_only(digits: &[u8], harts: u8) -> bool
    ensures { result ≡ list_all (λ digit. nat_lt (hart_of_digit digit) harts) digits.now }
{
    harts >= 2 || digits.iter().all(|digit| hart(*digit) < harts)
}

/// The harts of consecutive steps: for each of 1 to 64 steps, hart 0 or hart 1.
#[derive(Clone, Copy, Debug, PartialEq, Eq)]
pub struct Schedule {
    /// The digits of the harts in their order, in ASCII, followed by zeros.
    digits: [u8; MOST],
    /// The number of steps.
    steps: u8,
}

impl Schedule {
    /// Returns the schedule of a word of 1 to 64 digits: 0 for a step of hart 0, and 1 for a step of hart 1. Returns `None` for any other word.
    #[tactic(auto, unfolding(crate::specs::Schedules::schedule_of))]
    pub fn new(word: &[u8]) -> Option<Self>
        ensures { result ≡ schedule_of word.now }
    {
        if !is_schedule(word) {
            return None;
        }
        let mut digits = [0; MOST];
        digits[..word.len()].copy_from_slice(word);
        Some(Schedule {
            digits,
            steps: word.len() as u8,
        })
    }

    /// Returns the digits of the harts in ASCII, in the order of their steps, at most 64.
    pub fn digits(&self) -> &[u8]
        ensures harts { map hart_of_digit result.now ≡ harts_in self.now }
        ensures few { length result.now ≤ 64 }
    {
        &self.digits[..usize::from(self.steps).min(MOST)]
    }

    /// Returns whether each step is made by a hart below this number.
    pub fn names_only(&self, harts: u8) -> bool
        ensures { result ≡ has_all harts (harts_in self.now) }
    {
        name_only(self.digits(), harts)
    }
}
