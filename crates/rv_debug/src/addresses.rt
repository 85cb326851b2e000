//! Sets of addresses, for breakpoints and watchpoints.

ghost use Rattle.std.specs.Prelude.{◌≡◌, ℕ, ◌<◌, List, [], true, false, length, slice_index, MatchResult, None, Some, if◌then◌else◌};
ghost use Rattle.std.specs.List.{find};
ghost use Rattle.rv_debug.specs.Addresses.{IsSorted, HasPlace, is_among, with_room_for, without_address};
ghost use Rattle.rv_debug.specs.FastSteps.{IsFreeOf};
ghost use Rattle.rv_debug.specs.Stops.{is_between, is_in, lower, lowest_accessed};

use arrayvec::ArrayVec;
use rv_fast_path::Interval;
use rv_memory::{Span, Touched};
use std::marker::Model;

/// The most addresses of a set.
const MOST_ADDRESSES: usize = 32;

/// A set of at most 32 addresses.
#[derive(Drop)]
pub(crate) struct Addresses {
    /// The addresses, sorted without repetition.
    sorted: ArrayVec<u32, MOST_ADDRESSES>,
}

impl Model for Addresses {
    ghost Value = { List ℕ };

    ghost view = { λ addresses. addresses.sorted.items };

    ghost invariant = { λ addresses. IsSorted addresses.sorted.items };
}

impl Addresses {
    /// Returns the empty set.
    pub(crate) fn new() -> Self
        ensures { result ≡ [] }
    {
        Addresses {
            sorted: ArrayVec::new(),
        }
    }

    /// Returns whether the set is empty.
    #[inline(always)]
    pub(crate) fn is_empty(&self) -> bool
        ensures { result ≡ true → self.now ≡ [] }
    {
        self.sorted.is_empty()
    }

    /// Returns whether the address is in the set.
    #[inline(always)]
    pub(crate) fn contains(&self, address: u32) -> bool
        ensures { result ≡ is_among address self.now }
    {
        !self.is_empty() && self.finds(address)
    }

    /// Returns whether a binary search finds the address.
    #[inline(never)]
    fn finds(&self, address: u32) -> bool
        ensures { result ≡ is_among address self.now }
    {
        place_of(self.sorted.as_slice(), address).is_ok()
    }

    /// Inserts an address. Returns false, and changes nothing, if the address is not in the set and the set already has 32.
    #[tactic(auto, unfolding(crate::specs::Addresses::with_room_for))]
    pub(crate) fn insert(&mut self, address: u32) -> bool
        ensures set { (if result then Some self.new else None) ≡ with_room_for address self.old }
        ensures same { result ≡ false → self.new ≡ self.old }
    {
        match place_of(self.sorted.as_slice(), address) {
            Ok(_) => true,
            Err(place) => {
                if self.sorted.is_full() {
                    return false;
                }
                self.sorted.insert(place, address);
                true
            }
        }
    }

    /// Removes an address, if the set has it.
    pub(crate) fn remove(&mut self, address: u32)
        ensures { self.new ≡ without_address address self.old }
    {
        if let Ok(place) = place_of(self.sorted.as_slice(), address) {
            self.sorted.remove(place);
        }
    }

    /// Returns the lowest address of the set that the instruction of a step loaded or stored.
    #[inline(always)]
    #[tactic(auto, unfolding(crate::specs::Stops::lowest_accessed))]
    pub(crate) fn lowest_accessed(&self, touched: Touched) -> Option<u32>
        ensures { result ≡ lowest_accessed self.now touched }
    {
        if self.is_empty() {
            return None;
        }
        // this read brings into scope that the addresses are sorted
        let _ = &self.sorted;
        lower(
            self.lowest_in(touched.loaded),
            self.lowest_in(touched.stored),
        )
    }

    /// Returns the lowest address of the set that is in a span.
    #[inline(always)]
    fn lowest_in(&self, span: Option<Span>) -> Option<u32>
        ensures { result ≡ find (is_in span) self.now }
    {
        match span {
            Some(Span { addr, len }) => self.lowest_from(addr, len.bytes()),
            None => None,
        }
    }

    /// Returns the lowest address of the set that is one of `count` from an address on.
    #[inline(never)]
    fn lowest_from(&self, address: u32, count: u8) -> Option<u32>
        requires { 0 < count }
        ensures { result ≡ find (is_between address count) self.now }
    {
        let place = match place_of(self.sorted.as_slice(), address) {
            Ok(_) => return Some(address),
            Err(place) => place,
        };
        if place == self.sorted.len() {
            return None;
        }
        let found = self.sorted.as_slice()[place];
        if found - address >= u32::from(count) {
            return None;
        }
        Some(found)
    }

    /// Returns the widest interval around an address without an address of the set. It is empty if the address is in the set.
    #[cold]
    #[inline(never)]
    pub(crate) fn gap(&self, address: u32) -> Interval
        ensures { IsFreeOf self.now result }
    {
        let sorted = self.sorted.as_slice();
        let place = match place_of(sorted, address) {
            Ok(_) => return Interval { from: 0, to: 0 },
            Err(place) => place,
        };
        let from = if place == 0 {
            0
        } else {
            u64::from(sorted[place - 1]) + 1
        };
        let to = if place == sorted.len() {
            1 << 32
        } else {
            u64::from(sorted[place])
        };
        Interval { from, to }
    }
}

/// Returns the index of an address in a sorted slice, or the index at which it would be inserted.
#[inline(always)]
fn place_of(sorted: &[u32], address: u32) -> Result<usize, usize>
    requires { IsSorted sorted.now }
    ensures { MatchResult result
        (λ place. (place < length sorted.now) × (slice_index sorted.now place ≡ address))
        (HasPlace sorted.now address) }
{
    sorted.binary_search(&address)
}

/// Returns the lower of two addresses, or the only address if the other is `None`.
#[inline(always)]
fn lower(first: Option<u32>, second: Option<u32>) -> Option<u32>
    ensures { result ≡ lower first second }
{
    match (first, second) {
        (Some(first), Some(second)) => Some(first.min(second)),
        (first, second) => first.or(second),
    }
}
