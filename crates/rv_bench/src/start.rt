//! The bench that an image starts.

ghost use Rattle.std.specs.Prelude.{◌≡◌, ◌%◌, length, replicate, IfOk};
ghost use Rattle.rv_bench.specs.Loaded.{is_read_as_elf as is_read_as_elf_of, planned as planned_of, bench_of, reset_over, Starts};

use rv_command_line::{ImageKind, Setup};
use rv_debug::Bench;
use rv_elf::{ElfFault, Plan, is_elf, load, plan, plan_raw};
use rv_fast_path::{BoxedCache, Machine};
use rv_memory::Ram;
use rv_monitor::MonitoredMachine;
use rv_pmp::Mode;
use rv_streams::BenchFault;
use std::alloc::Global;

/// Returns whether the image is read as an ELF file. If the kind does not decide it, the first four bytes do.
fn is_read_as_elf(kind: ImageKind, image: &[u8]) -> bool
    ensures { result ≡ is_read_as_elf_of kind image.now }
{
    match kind {
        ImageKind::Auto => is_elf(image),
        ImageKind::Raw => false,
        ImageKind::Elf => true,
    }
}

/// Returns which parts of the image are loaded where. For a monitored bench, nothing is loaded into the range that is reserved for the monitor.
///
/// # Errors
///
/// The error of the lowest number that the image has.
fn planned(image: &[u8], setup: &Setup) -> Result<Plan, ElfFault>
    ensures value { result ≡ planned_of image.now setup.now }
    ensures of_these { IfOk result (λ plan. (plan.image_size ≡ length image.now) × (plan.ram_size ≡ setup.now.ram)) }
{
    if is_read_as_elf(setup.kind, image) {
        plan(image, setup.ram, setup.monitored)
    } else {
        plan_raw(image.len(), setup.ram, setup.monitored)
    }
}

/// Returns the bench at reset with a RAM. A bare bench has the image on one hart in mode M. A monitored bench has the host on each hart, above
/// the monitor.
fn reset(ram: Ram, cache: BoxedCache, entry: u32, setup: &Setup) -> Bench
    requires { entry % 4 ≡ 0 }
    ensures { result ≡ reset_over setup.now ram entry }
{
    if setup.monitored {
        let mut machine = MonitoredMachine::new(ram, entry, setup.harts);
        machine.set_decode_cache(cache);
        Bench::monitored(machine)
    } else {
        let mut machine = Machine::new(ram, entry, Mode::M);
        machine.set_decode_cache(cache);
        Bench::bare(machine)
    }
}

/// Loads the image into a RAM that is all zeros, and returns the bench at reset.
///
/// # Errors
///
/// The error of the lowest number that the image has.
fn loaded(mut ram: Ram, cache: BoxedCache, image: &[u8], setup: &Setup) -> Result<Bench, ElfFault>
    requires { ram ≡ replicate setup.now.ram 0 }
    ensures { result ≡ bench_of image.now setup.now }
{
    let plan = planned(image, setup)?;
    load(&plan, image, &mut ram);
    Ok(reset(ram, cache, plan.entry(), setup))
}

/// Returns the bench at reset, with the image in its RAM.
///
/// # Errors
///
/// In this order:
/// - `Ram(BadSize)`, if the RAM's size is not valid;
/// - `Ram(NoMemory)`, if memory for the RAM was refused;
/// - `Image`, if the image does not load, with the error of the lowest number that it has.
pub(crate) fn start(alloc: Global, image: &[u8], setup: &Setup) -> Result<Bench, BenchFault>
    ensures { Starts image.now setup.now result }
{
    let cache = BoxedCache::allocate(alloc);
    let ram = match Ram::new(alloc, setup.ram) {
        Ok(ram) => ram,
        Err(fault) => return Err(BenchFault::Ram(fault)),
    };
    match loaded(ram, cache, image, setup) {
        Ok(bench) => Ok(bench),
        Err(fault) => Err(BenchFault::Image(fault)),
    }
}
