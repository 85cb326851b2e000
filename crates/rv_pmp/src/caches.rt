//! The caches of the current PMP entries and of the previous ones.

ghost use Rattle.std.specs.Prelude.{◌≡◌};
ghost use Rattle.rv_pmp.specs.Cache.Coherence.{IsCacheOf, cache_before, cache_now, with_fetch, with_read, with_write};
ghost use Rattle.rv_pmp.specs.Entries.{Entries, HasSixteen};

use crate::cache::Cache;
use crate::open_range::OpenRange;

/// The caches of the current entries and of the previous ones. A swap moves neither.
#[derive(Drop)]
pub(crate) struct Caches {
    first: Cache,
    second: Cache,
    /// Whether the second one is the cache of the current entries.
    is_second: bool,
}

impl Caches {
    /// Returns two empty caches, which are coherent with any entries.
    #[tactic(auto, unfolding(crate::specs::Cache::Coherence::cache_now, crate::specs::Cache::Coherence::cache_before))]
    pub(crate) const fn new() -> Caches
        ensures now { (entries : Entries) → HasSixteen entries → IsCacheOf entries (cache_now result) }
        ensures before { (entries : Entries) → HasSixteen entries → IsCacheOf entries (cache_before result) }
    {
        Caches {
            first: Cache::new(),
            second: Cache::new(),
            is_second: false,
        }
    }

    /// Returns the cache of the current entries.
    #[inline(always)]
    #[tactic(auto, unfolding(crate::specs::Cache::Coherence::cache_now))]
    pub(crate) fn now(&self) -> &Cache
        ensures { result.now ≡ cache_now self.now }
    {
        if self.is_second {
            &self.second
        } else {
            &self.first
        }
    }

    /// Swaps the two caches.
    #[inline(always)]
    #[tactic(auto, unfolding(crate::specs::Cache::Coherence::cache_now, crate::specs::Cache::Coherence::cache_before))]
    pub(crate) fn swap(&mut self)
        ensures now { cache_now self.new ≡ cache_before self.old }
        ensures before { cache_before self.new ≡ cache_now self.old }
    {
        self.is_second = !self.is_second;
    }

    /// Invalidates the cache of the current entries, as [`Cache::invalidate`].
    #[tactic(auto, unfolding(crate::specs::Cache::Coherence::cache_now, crate::specs::Cache::Coherence::cache_before))]
    pub(crate) fn invalidate(&mut self)
        ensures now { (entries : Entries) → HasSixteen entries → IsCacheOf entries (cache_now self.new) }
        ensures before { cache_before self.new ≡ cache_before self.old }
    {
        if self.is_second {
            self.second.invalidate();
        } else {
            self.first.invalidate();
        }
    }

    /// Builds the segments of the current entries, as [`Cache::rebuild`].
    #[tactic(auto, unfolding(crate::specs::Cache::Coherence::cache_now, crate::specs::Cache::Coherence::cache_before))]
    pub(crate) fn rebuild(&mut self, cfgs: &[u8; 16], addrs: &[u32; 16])
        ensures now { IsCacheOf (record { cfgs = cfgs.now; addrs = addrs.now }) (cache_now self.new) }
        ensures before { cache_before self.new ≡ cache_before self.old }
    {
        if self.is_second {
            self.second.rebuild(cfgs, addrs);
        } else {
            self.first.rebuild(cfgs, addrs);
        }
    }

    /// Fills the range in which the current entries permit fetches.
    #[tactic(auto, unfolding(crate::specs::Cache::Coherence::cache_now, crate::specs::Cache::Coherence::cache_before))]
    pub(crate) fn fill_fetch(&mut self, range: OpenRange)
        ensures now { cache_now self.new ≡ with_fetch (cache_now self.old) range }
        ensures before { cache_before self.new ≡ cache_before self.old }
    {
        if self.is_second {
            self.second.ranges.fetch = range;
        } else {
            self.first.ranges.fetch = range;
        }
    }

    /// Fills the range in which the current entries permit reads.
    #[tactic(auto, unfolding(crate::specs::Cache::Coherence::cache_now, crate::specs::Cache::Coherence::cache_before))]
    pub(crate) fn fill_read(&mut self, range: OpenRange)
        ensures now { cache_now self.new ≡ with_read (cache_now self.old) range }
        ensures before { cache_before self.new ≡ cache_before self.old }
    {
        if self.is_second {
            self.second.ranges.read = range;
        } else {
            self.first.ranges.read = range;
        }
    }

    /// Fills the range in which the current entries permit writes.
    #[tactic(auto, unfolding(crate::specs::Cache::Coherence::cache_now, crate::specs::Cache::Coherence::cache_before))]
    pub(crate) fn fill_write(&mut self, range: OpenRange)
        ensures now { cache_now self.new ≡ with_write (cache_now self.old) range }
        ensures before { cache_before self.new ≡ cache_before self.old }
    {
        if self.is_second {
            self.second.ranges.write = range;
        } else {
            self.first.ranges.write = range;
        }
    }
}
