//! Loads an image into RAM.

ghost use Rattle.std.specs.Prelude.{◌≡◌, ◌∷◌, [], length, take, drop, true, false};
ghost use Rattle.rv_elf.specs.Loaded.{loaded_memory, KeepsReserved, LoadsEach};
ghost use Rattle.rv_elf.specs.Places.{lies_inside};
ghost use Rattle.rv_elf.specs.Segments.{is_oversized, is_truncated};

use crate::load_plan::Plan;
use crate::segment::Segment;
use rv_memory::Ram;

/// Returns a segment's part of an image. An empty part may have any offset.
fn part_of<'a>(segment: &Segment, image: &'a [u8]) -> &'a [u8]
    requires { is_truncated (length image.now) segment.now ≡ false }
    ensures value { result.now ≡ take segment.now.file_size (drop segment.now.offset image.now) }
    ensures len { length result.now ≡ segment.now.file_size }
{
    if segment.file_size == 0 {
        return &[];
    }
    let start = segment.offset as usize;
    &image[start..start + segment.file_size as usize]
}

/// Loads a segment into RAM: its part of the image, followed by zeros.
#[tactic(auto, using(crate::proofs::WrittenSegments::written))]
fn load_segment(segment: &Segment, image: &[u8], ram: &mut Ram)
    requires whole { is_truncated (length image.now) segment.now ≡ false }
    requires sized { is_oversized segment.now ≡ false }
    requires inside { lies_inside (length ram.old) segment.now.address segment.now.memory_size ≡ true }
    ensures { ram.new ≡ loaded_memory image.now (segment.now ∷ []) ram.old }
{
    ram.zero(segment.address, segment.memory_size);
    ram.write_part(segment.address, part_of(segment, image));
}

/// Loads the segments of a plan into RAM: each has its part of the image, followed by zeros. Every other byte stays unchanged, including those
/// in the range of a monitor. The plan must be for an image and a RAM of these sizes.
#[tactic(auto, using(crate::proofs::LoadLoop::loading, crate::proofs::LoadedBytes::loads_each, crate::proofs::LoadedBytes::keeps_reserved))]
pub fn load(plan: &Plan, bytes: &[u8], ram: &mut Ram)
    requires of_image { length bytes.now ≡ plan.now.image_size }
    requires of_ram { length ram.old ≡ plan.now.ram_size }
    ensures memory { ram.new ≡ loaded_memory bytes.now plan.now.segments ram.old }
    ensures each { LoadsEach bytes.now plan.now.segments ram.old ram.new }
    ensures reserved { KeepsReserved plan.now.monitored ram.old ram.new }
{
    for segment in plan.segments() {
        load_segment(segment, bytes, ram);
    }
}
