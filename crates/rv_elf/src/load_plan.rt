//! The segments to load, and the entry address.

ghost use Rattle.std.specs.Prelude.{◌≡◌, ◌%◌, true};
ghost use Rattle.rv_elf.specs.Places.{has_place};

use crate::header::MAX_HEADERS;
use crate::segment::Segment;
use arrayvec::ArrayVec;
use std::marker::Model;

/// The segments of an image, and the address of the first instruction. Each segment is inside RAM, and shares no byte with another segment or
/// the range of a monitor. The plan needs no allocated memory.
#[derive(Debug, Drop)]
pub struct Plan {
    pub(crate) segments: ArrayVec<Segment, MAX_HEADERS>,
    pub(crate) entry: u32,
    pub(crate) image_size: usize,
    pub(crate) ram_size: u32,
    pub(crate) monitored: bool,
}

impl Model for Plan {
    ghost use Rattle.rv_elf.specs.Plans.{LoadPlan, IsValidPlan};

    ghost Value = { LoadPlan };

    ghost view = { λ plan. record {
      segments = plan.segments.items;
      entry = plan.entry;
      image_size = plan.image_size;
      ram_size = plan.ram_size;
      monitored = plan.monitored;
    } };

    ghost invariant = { λ plan. IsValidPlan (record
        { segments = plan.segments.items; entry = plan.entry; image_size = plan.image_size; ram_size = plan.ram_size; monitored = plan.monitored }) };

    ghost inverse = { λ plan. record {
      segments = record { items = plan.segments };
      entry = plan.entry;
      image_size = plan.image_size;
      ram_size = plan.ram_size;
      monitored = plan.monitored;
    } };
}

impl Plan {
    ghost use Rattle.rv_elf.specs.Plans.{IsValidPlan};

    /// Returns the address of the first instruction, a multiple of 4. Its four bytes are inside RAM, and not in the range of a monitor.
    pub fn entry(&self) -> u32
        ensures value { result ≡ self.now.entry }
        ensures aligned { result % 4 ≡ 0 }
        ensures place { has_place self.now.ram_size self.now.monitored result 4 ≡ true }
    {
        self.entry
    }

    /// Returns the segments that occupy memory, in the order of their headers. They are inside RAM and not in the range of a monitor, and no two
    /// of them share a byte.
    pub fn segments(&self) -> &[Segment]
        ensures value { result.now ≡ self.now.segments }
        ensures valid { IsValidPlan self.now }
    {
        self.segments.as_slice()
    }
}
