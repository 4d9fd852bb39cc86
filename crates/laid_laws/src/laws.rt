// What holds of every mode that a text writes.
ghost use Rattle.laid_laws.specs.Laws.{AreAllLaid, IsNoneLarge};

/// No place in a mode that a text writes is impossible, no two fields in it share a bit, and it has no more scalars than a
/// mode may have.
#[tactic(auto, using(crate::proofs::FoundModes::all_laid, crate::proofs::FoundModes::none_large))]
pub fn found_modes_law()
    ensures laid { AreAllLaid }
    ensures few { IsNoneLarge }
{}
