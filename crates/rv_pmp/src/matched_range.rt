//! The bytes that an entry covers, as an interval (Privileged Architecture, section 3.7.1, Address Matching).

ghost use Rattle.std.specs.Prelude.{◌≡◌, ◌+◌, ◌*◌, ◌^◌, ◌<◌, ◌≤◌, ℕ, ◌↔◌, ◌&&◌, ◌==◌, ◌/◌, ◌%◌, false, IsTrue, IfSome, IfNone};
ghost use Rattle.rv_pmp.specs.Covers.{matches};

use crate::address_matching::AddressMatching;

/// Returns the first byte that matches and the first one after the range, or `None` if no byte matches. `before` is the pmpaddr value of the
/// entry before.
pub(crate) fn matched_range(matching: AddressMatching, before: u32, addr: u32) -> Option<(u64, u64)>
    ensures range { IfSome result (λ range. (byte : ℕ) → IsTrue (matches matching before addr byte) ↔ ((range.0 ≤ byte) × (byte < range.1))) }
    ensures some_byte { IfSome result (λ range. range.0 < range.1) }
    ensures bound { IfSome result (λ range. range.1 ≤ 2 ^ 35) }
    ensures nothing { IfNone result ((byte : ℕ) → matches matching before addr byte ≡ false) }
{
    let at = 4 * addr as u64;
    match matching {
        AddressMatching::Off => None,
        AddressMatching::Tor => {
            let from = 4 * before as u64;
            if from < at { Some((from, at)) } else { None }
        }
        AddressMatching::Na4 => Some((at, at + 4)),
        AddressMatching::Napot => {
            let size = 8 << addr.trailing_ones();
            let from = at / size * size;
            Some((from, from + size))
        }
    }
}
