//! The address space in segments, each with the matching entry of its bytes (Privileged 3.7.1, the lowest entry that covers a byte).

ghost use Rattle.std.specs.Prelude.{◌≡◌, ◌+◌, ◌<◌, ◌≤◌, ◌^◌, ℕ, Option, None, length, slice_index, slice_index_or};
ghost use Rattle.rv_pmp.specs.Cache.Segments.{byte_match, is_within, start_of, reach_of, AreRanges, AreBounds, AreInOrder, AreMatched, AreSegments};

use crate::entry_ranges::EntryRanges;
use crate::pmp_index::PmpIndex;

/// The end of the addresses that an entry can cover, 2^35.
pub(crate) const END: u64 = 0x8_0000_0000;

/// Consecutive segments from address 0 on. The first `count` are used, at most 33, since sixteen ranges have 32 ends.
#[derive(Clone, Copy)]
pub(crate) struct Segments {
    /// The end of each segment, where the next one begins.
    pub(crate) ends: [u64; 33],
    /// The matching entry of the bytes of each segment.
    pub(crate) byte_matches: [Option<PmpIndex>; 33],
    pub(crate) count: usize,
}

impl Segments {
    /// Returns no segments.
    pub(crate) const fn new() -> Segments {
        Segments {
            ends: [0; 33],
            byte_matches: [None; 33],
            count: 0,
        }
    }

    /// Returns the segment of an address, by binary search.
    pub(crate) fn segment(&self, byte: u64) -> usize
        requires order { AreInOrder self.now }
        requires inside { byte < reach_of self.now }
        ensures used { result < self.now.count }
        ensures in_range { result < 33 }
        ensures from { start_of self.now result ≤ byte }
        ensures to { byte < slice_index self.now.ends result }
    {
        let ends = &self.ends;
        ends[..self.count].partition_point(|end| *end <= byte)
    }

    /// Returns the first address of a segment.
    pub(crate) fn start(&self, segment: usize) -> u64
        requires { segment < 33 }
        ensures { result ≡ start_of self.now segment }
    {
        if segment == 0 {
            0
        } else {
            self.ends[segment - 1]
        }
    }

    /// Returns the matching entry of the bytes of a segment.
    pub(crate) fn byte_match(&self, segment: usize) -> Option<PmpIndex>
        requires { segment < 33 }
        ensures { result ≡ slice_index_or self.now.byte_matches segment None }
    {
        self.byte_matches[segment]
    }

    /// Builds the segments of the entries with these cfg bytes and pmpaddr values.
    pub(crate) fn rebuild(&mut self, cfgs: &[u8; 16], addrs: &[u32; 16])
        ensures { AreSegments (record { cfgs = cfgs.now; addrs = addrs.now }) self.new }
    {
        let ranges = EntryRanges::of(cfgs, addrs);
        let mut bounds = [END; 33];
        let count = ranges.write_bounds(&mut bounds);
        self.divide(&mut bounds[..count], &ranges);
    }

    /// Sorts the bounds, and divides the address space at them.
    fn divide(&mut self, bounds: &mut [u64], ranges: &EntryRanges)
        requires few { length bounds.old ≤ 33 }
        requires all { AreBounds ranges.now bounds.old }
        ensures order { AreInOrder self.new }
        ensures whole { 2 ^ 35 ≤ reach_of self.new }
        ensures matched { AreMatched (is_within ranges.now) self.new }
    {
        bounds.sort_unstable();
        self.count = 0;
        let mut start = 0;
        for k in 0..bounds.len() {
            let end = bounds[k];
            if start < end {
                self.extend(start, end, ranges);
                start = end;
            }
        }
    }

    /// Extends the segments up to `end`; no range begins or ends between `start` and `end`. The last segment grows if its bytes have the
    /// same matching entry; otherwise a segment is added.
    fn extend(&mut self, start: u64, end: u64, ranges: &EntryRanges)
        requires room { self.old.count < 33 }
        requires start { start ≡ reach_of self.old }
        requires some { start < end }
        requires alike { (byte : ℕ) → start ≤ byte → byte < end → byte_match (is_within ranges.now) byte ≡ byte_match (is_within ranges.now) start }
        requires order { AreInOrder self.old }
        requires matched { AreMatched (is_within ranges.now) self.old }
        ensures room { self.new.count ≤ self.old.count + 1 }
        ensures reach { reach_of self.new ≡ end }
        ensures order { AreInOrder self.new }
        ensures matched { AreMatched (is_within ranges.now) self.new }
    {
        let byte_match = ranges.byte_match(start);
        let count = self.count;
        if count > 0 && self.byte_matches[count - 1] == byte_match {
            self.ends[count - 1] = end;
        } else {
            self.ends[count] = end;
            self.byte_matches[count] = byte_match;
            self.count = count + 1;
        }
    }
}
