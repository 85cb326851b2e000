//! The cache of the PMP entries, which saves a search of the entries at each access.

ghost use Rattle.rv_pmp.specs.Cache.Coherence.{IsCacheOf};
ghost use Rattle.rv_pmp.specs.Entries.{Entries, HasSixteen};

use crate::open_range::{NONE_OPEN, OpenRanges};
use crate::segments::Segments;

/// The cache of sixteen entries.
#[derive(Clone, Copy)]
pub(crate) struct Cache {
    /// The address space in segments, each with the matching entry of its bytes.
    pub(crate) segments: Segments,
    /// Whether an entry was written since the segments were built. They are invalid then.
    pub(crate) is_stale: bool,
    /// For each kind of access a range in which every access is permitted.
    pub(crate) ranges: OpenRanges,
}

impl Cache {
    /// Returns an empty cache, which is coherent with any entries.
    #[tactic(auto, using(crate::proofs::OpenRangeLemmas::empty_open, crate::proofs::OpenRangeLemmas::empty_open_to_words))]
    pub(crate) const fn new() -> Cache
        ensures { (entries : Entries) → HasSixteen entries → IsCacheOf entries result }
    {
        Cache {
            segments: Segments::new(),
            is_stale: true,
            ranges: NONE_OPEN,
        }
    }

    /// Builds the segments of the entries with these cfg bytes and pmpaddr values, and invalidates the ranges.
    #[tactic(auto, using(crate::proofs::OpenRangeLemmas::empty_open, crate::proofs::OpenRangeLemmas::empty_open_to_words))]
    pub(crate) fn rebuild(&mut self, cfgs: &[u8; 16], addrs: &[u32; 16])
        ensures { IsCacheOf (record { cfgs = cfgs.now; addrs = addrs.now }) self.new }
    {
        self.segments.rebuild(cfgs, addrs);
        self.is_stale = false;
        self.ranges = NONE_OPEN;
    }

    /// Invalidates the cache after a write of an entry. The segments are built at the next access that needs them, since code usually
    /// writes several entries.
    #[tactic(auto, using(crate::proofs::OpenRangeLemmas::empty_open, crate::proofs::OpenRangeLemmas::empty_open_to_words))]
    pub(crate) fn invalidate(&mut self)
        ensures { (entries : Entries) → HasSixteen entries → IsCacheOf entries self.new }
    {
        self.is_stale = true;
        self.ranges = NONE_OPEN;
    }
}
