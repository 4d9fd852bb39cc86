// The law of the test.
ghost use Rattle.cycles.specs.Testing.{TestingLaw};

/// The test of dependence tells what depends on what.
#[tactic(auto, using(crate::proofs::Testing::tests))]
pub fn testing_law()
    ensures { TestingLaw }
{}
