//! Tests of the table of control and status registers by number, and of values computed by hand from the manual.

mod followed;
mod table;
mod trapping;
