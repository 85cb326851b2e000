//! Plans the loading of an image: finds its segments and their addresses, or the error.

ghost use Rattle.std.specs.Prelude.{◌≡◌, ◌%◌, ◌==◌, ◌≤◌, length, MatchResult, IfErr, IfOk, None, Some, true, false};
ghost use Rattle.std.specs.List.{list_all, list_any};
ghost use Rattle.rv_elf.specs.Segments.{is_truncated, is_oversized, is_outside, has_overlap as has_overlap_of, share_a_byte};
ghost use Rattle.rv_elf.specs.Segments.{occupying as occupying_of, raw_segments, segments_of};
ghost use Rattle.rv_elf.specs.Faults.{IsLeast, file_faults, first_fault, raw_faults, place_faults, segment_faults};
ghost use Rattle.rv_elf.specs.Plans.{file_plan, raw_plan, fits};

use crate::elf_fault::ElfFault;
use crate::header::{MAX_HEADERS, check_header, entry_of, read_segments};
use crate::load_plan::Plan;
use crate::place::{first_address, has_place};
use crate::segment::Segment;
use arrayvec::ArrayVec;

/// Returns the segments that occupy memory.
#[tactic(auto, using(crate::proofs::SegmentLemmas::occupying_more))]
fn occupying(segments: &[Segment]) -> ArrayVec<Segment, MAX_HEADERS>
    requires { length segments.now ≤ MAX_HEADERS }
    ensures { result.items ≡ occupying_of segments.now }
{
    let mut taken = ArrayVec::new();
    for segment in segments {
        if segment.memory_size != 0 {
            taken.push(*segment);
        }
    }
    taken
}

/// Returns whether a segment's part of a file of `len` bytes ends after the end of the file.
fn has_truncated(len: usize, segments: &[Segment]) -> bool
    ensures { result ≡ list_any (is_truncated len) segments.now }
{
    segments.iter().any(|segment| segment.is_truncated(len))
}

/// Returns whether one of the segments has more bytes in the file than in memory.
fn has_oversized(segments: &[Segment]) -> bool
    ensures { result ≡ list_any is_oversized segments.now }
{
    segments.iter().any(|segment| segment.is_oversized())
}

/// Returns whether a byte of one of the segments is outside a RAM of this size, or in the range of a monitor.
fn has_outside(ram_size: u32, monitored: bool, segments: &[Segment]) -> bool
    ensures { result ≡ list_any (is_outside ram_size monitored) segments.now }
{
    segments
        .iter()
        .any(|segment| segment.is_outside(ram_size, monitored))
}

/// Returns whether a segment shares a byte with one of the others.
fn meets_one(segment: &Segment, others: &[Segment]) -> bool
    ensures { result ≡ list_any (share_a_byte segment.now) others.now }
{
    others.iter().any(|other| segment.shares_a_byte(other))
}

/// Returns whether two of the segments share a byte.
fn has_overlap(segments: &[Segment]) -> bool
    ensures { result ≡ has_overlap_of segments.now }
{
    let mut rest = segments;
    while let [segment, others @ ..] = rest {
        if meets_one(segment, others) {
            return true;
        }
        rest = others;
    }
    false
}

/// Checks the parts of segments in a file of `len` bytes.
///
/// # Errors
///
/// - `SegmentTruncated`, if a part ends after the end of the file.
/// - `SegmentSizes` otherwise, if a segment has more bytes in the file than in memory.
#[tactic(auto, unfolding(crate::specs::Faults::segment_faults))]
fn check_segments(len: usize, segments: &[Segment]) -> Result<(), ElfFault>
    ensures { MatchResult result (λ _. first_fault (segment_faults len segments.now) ≡ None)
        (λ fault. first_fault (segment_faults len segments.now) ≡ Some fault) }
{
    if has_truncated(len, segments) {
        return Err(ElfFault::SegmentTruncated);
    }
    if has_oversized(segments) {
        return Err(ElfFault::SegmentSizes);
    }
    Ok(())
}

/// Checks the positions of segments in a RAM of this size, with or without a monitor, and the entry.
///
/// # Errors
///
/// The error with the smallest number that applies, from `SegmentOutside` to `BadEntry`.
#[tactic(auto, unfolding(crate::specs::Faults::place_faults))]
fn check_places(
    ram_size: u32,
    monitored: bool,
    segments: &[Segment],
    entry: u32,
) -> Result<(), ElfFault>
    ensures { MatchResult result (λ _. first_fault (place_faults ram_size monitored segments.now entry) ≡ None)
        (λ fault. first_fault (place_faults ram_size monitored segments.now entry) ≡ Some fault) }
{
    if has_outside(ram_size, monitored, segments) {
        return Err(ElfFault::SegmentOutside);
    }
    if has_overlap(segments) {
        return Err(ElfFault::SegmentOverlap);
    }
    if entry % 4 != 0 || !has_place(ram_size, monitored, entry, 4) {
        return Err(ElfFault::BadEntry);
    }
    Ok(())
}

/// Plans an ELF file in a RAM of `ram_size` bytes: its segments of type PT_LOAD that occupy memory, and its entry. With a monitor, they must be
/// outside the monitor's range, 80000000 to 8000FFFF.
///
/// # Errors
///
/// The error of the file with the smallest number. Each error is checked for all program headers before the next.
#[tactic(auto, using(crate::proofs::FirstFaults::none_before, crate::proofs::PlanLemmas::fault_first))]
pub fn plan(bytes: &[u8], ram_size: u32, monitored: bool) -> Result<Plan, ElfFault>
    ensures value { result ≡ file_plan bytes.now ram_size monitored }
    ensures least { IfErr result (λ fault. IsLeast (file_faults bytes.now ram_size monitored) fault) }
    ensures of_these { IfOk result (λ plan. (plan.image_size ≡ length bytes.now) × (plan.ram_size ≡ ram_size)) }
{
    check_header(bytes)?;
    let all = read_segments(bytes);
    check_segments(bytes.len(), all.as_slice())?;
    let segments = occupying(all.as_slice());
    let entry = entry_of(bytes);
    check_places(ram_size, monitored, segments.as_slice(), entry)?;
    Ok(Plan {
        segments,
        entry,
        image_size: bytes.len(),
        ram_size,
        monitored,
    })
}

/// Plans a raw image of `len` bytes in a RAM of `ram_size` bytes: one segment at the start of RAM, 80000000, which is also the entry. With a
/// monitor, both are at 80010000, after the monitor's range. An empty image has no segment.
///
/// # Errors
///
/// - `SegmentOutside`, if the image has more bytes than the RAM has from that address on.
/// - `BadEntry` otherwise, if the RAM has fewer than the four bytes of the first instruction there.
#[tactic(auto, using(crate::proofs::PlanLemmas::raw_outside))]
pub fn plan_raw(len: usize, ram_size: u32, monitored: bool) -> Result<Plan, ElfFault>
    ensures value { result ≡ raw_plan len ram_size monitored }
    ensures least { IfErr result (λ fault. IsLeast (raw_faults len ram_size monitored) fault) }
    ensures of_these { IfOk result (λ plan. (plan.image_size ≡ len) × (plan.ram_size ≡ ram_size)) }
{
    if len > ram_size as usize {
        return Err(ElfFault::SegmentOutside);
    }
    let address = first_address(monitored);
    let whole = Segment {
        offset: 0,
        address,
        file_size: len as u32,
        memory_size: len as u32,
    };
    let segments = occupying(&[whole]);
    check_places(ram_size, monitored, segments.as_slice(), address)?;
    Ok(Plan {
        segments,
        entry: address,
        image_size: len,
        ram_size,
        monitored,
    })
}
