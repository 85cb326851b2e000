//! Properties of the definitions in `specs/`, for the crates above.

ghost use Rattle.rv_memory.specs.BlockLaws.{MeetsLaw};

/// States that two blocks meet if and only if both have a common byte. It executes nothing.
pub const fn blocks_meet()
    ensures { MeetsLaw }
{}
