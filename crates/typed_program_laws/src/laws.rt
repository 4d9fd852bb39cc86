// A law of the elaborated program. It is a fact about the definitions, which a caller learns by calling the function.
ghost use Rattle.typed_program_laws.specs.Typed.{TypedProgramLaw};

/// The elaborated program of a text of bytes that breaks no rule is typed.
pub fn typed_program_law()
    ensures { TypedProgramLaw }
{}
