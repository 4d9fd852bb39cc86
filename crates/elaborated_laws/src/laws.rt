// Laws of what the elaborated program is made of. Each is a fact about the definitions, which a caller learns by calling
// the function.
ghost use Rattle.elaborated_laws.specs.Classes.{ClassModeLaw};
ghost use Rattle.elaborated_laws.specs.Constants.{ConstantClassLaw};
ghost use Rattle.elaborated_laws.specs.Entries.{TableModesLaw};
ghost use Rattle.elaborated_laws.specs.Modes.{WrittenModeLaw};
ghost use Rattle.elaborated_laws.specs.Rows.{ReadsInputLaw, RowsLaw, TextSizeLaw};
ghost use Rattle.elaborated_laws.specs.Table.{KnownTableLaw};

/// A constant in which nothing is told, and which has a value, has a class. The mode that a text writes, where it is
/// known, is one that a location may have: its bounds are in order and in those of its parent, and its numbers within
/// their limits; so is the mode of an expression's class. In a table that an order of its definitions leads through, what
/// constants and modes need of names is known of each. The number of a definition leads to the row of the elaborated
/// program that is made of it; the program has the size of the text, and reads input exactly where a name stands for
/// GET_INT.
pub fn known_law()
    ensures class { ConstantClassLaw }
    ensures mode { WrittenModeLaw }
    ensures class_mode { ClassModeLaw }
    ensures table { KnownTableLaw }
    ensures rows { RowsLaw }
    ensures size { TextSizeLaw }
    ensures input { ReadsInputLaw }
{}

/// In a table that an order of its definitions leads through each mode is one that a location may have.
pub fn table_modes_law()
    ensures { TableModesLaw }
{}
