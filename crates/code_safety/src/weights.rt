// Between two ticks code only goes forward. Each is a fact about the definitions.
ghost use Rattle.code_safety.specs.Weights.{FallLaw, WeightLaw};

/// Whatever stands well falls in weight by each move that is no tick and takes no answer.
pub fn fall_law()
    ensures { FallLaw }
{}

/// Whatever stands well weighs no more than the most, by the length of the code.
pub fn weight_law()
    ensures { WeightLaw }
{}
