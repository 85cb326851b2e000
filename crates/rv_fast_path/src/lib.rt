//! The fast path of a hart: many steps in one call, from a cache of decoded words. It also has the machine of one hart, its memory and its decode
//! cache. (The cache is not defined by a standard. Each step is the step of `rv_hart`.)
//!
//! `run_fast` executes steps that end in no trap and access only bytes inside the limits of the caller (`FastSteps` in the specs). Its contract
//! says that each of them is a step. It stops before any other step.
//!
//! ```text
//! let mut machine = Machine::new(ram, 0x8000_0000, Mode::M);
//! machine.set_decode_cache(BoxedCache::allocate(alloc));
//! let steps = machine.run_fast(&limits, 1000);
//! let outcome = machine.step();
//! ```
#![tactic(auto)]

mod decode_cache;
mod decoded;
mod destination;
mod fast;
mod fast_ops;
mod fused;
mod interpreter;
mod limits;
mod machine;
mod permitted_ranges;

pub use decode_cache::BoxedCache;
pub use fast::run_fast;
pub use limits::{Interval, Limits};
pub use machine::Machine;
