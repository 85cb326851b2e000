//! Laws of the table of enclaves and of its PMP entries, for the crates above to cite. Each is proved about the definitions in `specs/`.

ghost use Rattle.rv_enclaves.specs.CallLaws.{CallsAlikeLaw, CallsKeepLaw, ScrambledLaw, ScrambledTwiceLaw};
ghost use Rattle.rv_enclaves.specs.CallNumbers.{CallNumbersLaw, AcceptsCallsLaw};
ghost use Rattle.rv_enclaves.specs.AccessibleMemory.{ApartLaw, LayoutAccessLaw};
ghost use Rattle.rv_enclaves.specs.Measurement.{MeasurementLaw};

/// States access control. With the PMP entries of a valid table and a world, S and U are permitted an access to bytes in RAM if and only if it
/// is accessible.
pub const fn accessible()
    ensures { LayoutAccessLaw }
{}

/// States that no permitted access of S or U has a byte in the region of an enclave other than the one that runs.
pub const fn apart()
    ensures { ApartLaw }
{}

/// States that a create, a destroy or a measure that is not refused preserves the invariant.
pub const fn calls_keep()
    ensures { CallsKeepLaw }
{}

/// States noninterference of create, destroy and measure: their effect does not depend on what is private to an enclave.
pub const fn calls_noninterference()
    ensures { CallsAlikeLaw }
{}

/// States that scrambling changes only what is private to an enclave that does not run, and preserves the invariant.
pub const fn scrambled()
    ensures { ScrambledLaw }
{}

/// States that scrambling the private state of an enclave twice restores it.
pub const fn scrambled_twice()
    ensures { ScrambledTwiceLaw }
{}

/// States what the measurement covers: its input determines the region, the window, the entry and every byte of the region.
pub const fn measurement_covers()
    ensures { MeasurementLaw }
{}

/// States the calls in numbers: the key, the numbers of the calls, the statuses in the order of the checks, and the effects.
pub const fn call_numbers()
    ensures { CallNumbersLaw }
{}

/// States when each call is accepted. A create needs good arguments and a free slot. A destroy needs an enclave that does not run. A run needs a
/// Fresh one, and a resume a Stopped one. A measure needs a live enclave, and 32 bytes that the caller may store. A stop and an exit need nothing.
pub const fn accepts_calls()
    ensures { AcceptsCallsLaw }
{}
