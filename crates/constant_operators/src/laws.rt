// A law of the scalars of values.
ghost use Rattle.constant_operators.specs.Values.{ReadLaw};

/// A value of a class is what its scalars are read as.
#[tactic(auto, using(crate::proofs::ReadValues::values_read))]
pub fn values_law()
    ensures read { ReadLaw }
{}
