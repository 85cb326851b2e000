//! The previous entries, to detect that they are set again.

ghost use Rattle.std.specs.Prelude.{◌≡◌, IsTrue};

/// The cfg bytes and pmpaddr values of sixteen entries.
#[derive(Clone, Copy)]
pub(crate) struct PreviousEntries {
    pub(crate) cfgs: [u8; 16],
    pub(crate) addrs: [u32; 16],
}

impl PreviousEntries {
    /// Returns whether the entries have these cfg bytes and pmpaddr values.
    #[inline(always)]
    pub(crate) fn are(&self, cfgs: &[u8; 16], addrs: &[u32; 16]) -> bool
        ensures cfgs { IsTrue result → self.now.cfgs ≡ cfgs.now }
        ensures addrs { IsTrue result → self.now.addrs ≡ addrs.now }
    {
        self.cfgs == *cfgs && self.addrs == *addrs
    }
}
