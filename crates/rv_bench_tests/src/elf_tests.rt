//! Tests of ELF files and raw images: plans, the errors of a file, and the content of RAM after loading.

mod fields;
mod files;
mod loading_tests;
mod monitored_tests;
mod planning_tests;
mod two_errors;
