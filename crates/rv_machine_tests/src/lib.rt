//! The tests of `rv_pmp`, `rv_memory`, `rv_state`, `rv_hart`, `rv_fast_path`, `rv_enclaves`, `rv_monitor` and `rv_debug`, through their public
//! functions. They are in a crate of their own, so that no library is proved a second time for them.
#![tactic(auto)]

#[cfg(test)]
mod bench_tests;
#[cfg(test)]
mod benches;
#[cfg(test)]
mod both_tests;
#[cfg(test)]
mod csr_numbers;
#[cfg(test)]
mod enclaves_tests;
#[cfg(test)]
mod hart_tests;
#[cfg(test)]
mod memory_tests;
#[cfg(test)]
mod monitor_tests;
#[cfg(test)]
mod monitored_tests;
#[cfg(test)]
mod pmp_tests;
#[cfg(test)]
mod reply_tests;
#[cfg(test)]
mod state_tests;
