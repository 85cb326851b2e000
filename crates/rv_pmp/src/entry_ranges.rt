//! The bytes that each of the sixteen entries covers, as intervals (Privileged 3.7.1).

ghost use Rattle.std.specs.Prelude.{◌≡◌, ◌+◌, ◌<◌, ◌≤◌, ◌^◌, ℕ, Option, IfSome, IfNone, take, slice_index, nat_le, nat_lt, ◌&&◌};
ghost use Rattle.rv_pmp.specs.Covers.{covers, CoversRange, CoversNothing};
ghost use Rattle.rv_pmp.specs.Cache.Segments.{byte_match, is_within, AreRanges, AreBounds};

use crate::address_matching::AddressMatching;
use crate::matched_range::matched_range;
use crate::pmp_index::PmpIndex;

/// The number of entries of a hart.
const ENTRIES: u8 = 16;

/// The range of each entry: the first byte that it covers and the first one after them, both 0 if it covers none.
#[derive(Clone, Copy)]
pub(crate) struct EntryRanges {
    pub(crate) from: [u64; 16],
    pub(crate) to: [u64; 16],
}

/// Returns the first byte that an entry covers and the first one after them, or None if it covers none.
#[tactic(auto, unfolding(crate::specs::Covers::covers))]
pub(crate) fn entry_range(cfgs: &[u8; 16], addrs: &[u32; 16], index: PmpIndex) -> Option<(u64, u64)>
    ensures range { IfSome result (λ range. CoversRange (record { cfgs = cfgs.now; addrs = addrs.now }) index range.0 range.1) }
    ensures some_byte { IfSome result (λ range. range.0 < range.1) }
    ensures bound { IfSome result (λ range. range.1 ≤ 2 ^ 35) }
    ensures nothing { IfNone result (CoversNothing (record { cfgs = cfgs.now; addrs = addrs.now }) index) }
{
    let at = index.number() as usize;
    let before = if at == 0 { 0 } else { addrs[at - 1] };
    matched_range(AddressMatching::of(cfgs[at]), before, addrs[at])
}

/// Returns the range of an entry, with equal ends if it covers no byte.
fn range_or_none(cfgs: &[u8; 16], addrs: &[u32; 16], index: PmpIndex) -> (u64, u64)
    ensures { (byte : ℕ) → covers (record { cfgs = cfgs.now; addrs = addrs.now }) index byte ≡ (nat_le result.0 byte && nat_lt byte result.1) }
{
    match entry_range(cfgs, addrs, index) {
        Some(range) => range,
        None => (0, 0),
    }
}

/// Returns the matching entry of a byte, without the cache.
#[cold]
#[inline(never)]
#[tactic(auto, using(crate::proofs::ByteMatchLemmas::byte_match_by_ranges))]
pub(crate) fn entry_over(cfgs: &[u8; 16], addrs: &[u32; 16], byte: u64) -> Option<PmpIndex>
    ensures { result ≡ byte_match (covers (record { cfgs = cfgs.now; addrs = addrs.now })) byte }
{
    EntryRanges::of(cfgs, addrs).byte_match(byte)
}

impl EntryRanges {
    /// Returns the ranges of the entries with these cfg bytes and pmpaddr values.
    pub(crate) fn of(cfgs: &[u8; 16], addrs: &[u32; 16]) -> EntryRanges
        ensures { AreRanges (record { cfgs = cfgs.now; addrs = addrs.now }) result }
    {
        let mut ranges = EntryRanges {
            from: [0; 16],
            to: [0; 16],
        };
        for number in 0..ENTRIES {
            let (from, to) = range_or_none(cfgs, addrs, PmpIndex::new(number));
            ranges.from[number as usize] = from;
            ranges.to[number as usize] = to;
        }
        ranges
    }

    /// Returns whether the range of an entry has a byte.
    fn has(&self, index: PmpIndex, byte: u64) -> bool
        ensures { result ≡ is_within self.now index byte }
    {
        let at = index.number() as usize;
        self.from[at] <= byte && byte < self.to[at]
    }

    /// Returns the lowest entry whose range has a byte.
    #[tactic(auto, using(crate::proofs::ByteMatchLemmas::byte_match_none))]
    pub(crate) fn byte_match(&self, byte: u64) -> Option<PmpIndex>
        ensures { result ≡ byte_match (is_within self.now) byte }
    {
        for number in 0..ENTRIES {
            let index = PmpIndex::new(number);
            if self.has(index, byte) {
                return Some(index);
            }
        }
        None
    }

    /// Writes both ends of each nonempty range after the first of the bounds, and returns the number of bounds.
    pub(crate) fn write_bounds(&self, bounds: &mut [u64; 33]) -> usize
        requires { slice_index bounds.old 0 ≡ 2 ^ 35 }
        ensures count { result ≤ 33 }
        ensures all { AreBounds self.now (take result bounds.new) }
    {
        let mut count = 1;
        for number in 0..ENTRIES {
            let from = self.from[number as usize];
            let to = self.to[number as usize];
            if from < to {
                bounds[count] = from;
                bounds[count + 1] = to;
                count += 2;
            }
        }
        count
    }
}
