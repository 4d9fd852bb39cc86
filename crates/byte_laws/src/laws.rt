// A law of bytes. It is a fact about the definitions, which a caller learns by calling the function.
ghost use Rattle.byte_laws.specs.Bytes.{BytesLaw};

/// The characters and the text literals in each node of a text of bytes are bytes.
pub fn bytes_law()
    ensures { BytesLaw }
{}
