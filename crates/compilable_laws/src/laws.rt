// Laws of programs that may be compiled. Each is a fact about the definitions, which a caller learns by calling the function.
ghost use Rattle.compilable_laws.specs.Laws.{CompilableLaw, FitsLaw};

/// The numbers of a typed program in range are in range for its code, where it has few things.
pub fn fits_law()
    ensures { FitsLaw }
{}

/// So a typed program in range with few things, whose bodies are well made, may be compiled.
pub fn compilable_law()
    ensures { CompilableLaw }
{}
