// Laws of the definitions.
ghost use Rattle.checks_model.specs.TestLaws.{SimilarTestLaw, VEquivalentTestLaw, GoesWithTestLaw, CompatibleTestLaw};

/// The tests that the rules ask of modes and classes are true exactly where the relations of `modes` hold.
#[tactic(auto, using(crate::proofs::Tests::similar_tested, crate::proofs::Tests::v_equivalent_tested, crate::proofs::Tests::goes_tested, crate::proofs::Tests::compatible_tested))]
pub fn tests_law()
    ensures similar { SimilarTestLaw }
    ensures v_equivalent { VEquivalentTestLaw }
    ensures goes_with { GoesWithTestLaw }
    ensures compatible { CompatibleTestLaw }
{}
