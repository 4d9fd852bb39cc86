// Laws of the table of definitions. Each is a fact about the definitions, which a caller learns by calling the function.
ghost use Rattle.table_laws.specs.Frames.{ClassFrame, FormFrame, ConstantFrame, ToldConstantFrame, ModeFrame, ToldModeFrame, EntryFrame, ToldFrame, CounterFrame};
ghost use Rattle.table_laws.specs.OneTable.{OneTableLaw, FilledLaw};

/// The class of an expression is the same where the same is known of the names in it. Its value, whether it has the form of a
/// constant, and what is told of the constants in it are so already where the same is known of those names that a constant
/// looks up: of synonyms, elements and modes, and of what can be measured (Z.200, chapter on values).
pub fn constants_frame()
    ensures class { ClassFrame }
    ensures form { FormFrame }
    ensures value { ConstantFrame }
    ensures told { ToldConstantFrame }
{}

/// The mode that is written and what is told of it are the same where the same is known of the names in it that a constant or a
/// mode looks up.
pub fn modes_frame()
    ensures mode { ModeFrame }
    ensures told { ToldModeFrame }
{}

/// What the table has of a definition is the same where the same is known of what the definition needs.
pub fn entries_frame()
    ensures { EntryFrame }
{}

/// What is told of an expression in a statement, and the mode of a loop's counter, are the same where the same is known of the
/// names in it, and of the parameters of what these call or start.
pub fn told_frame()
    ensures told { ToldFrame }
    ensures counter { CounterFrame }
{}

/// Where there is an order of the definitions in which each stands behind those that it needs, two tables of them are one; and a
/// table that is filled in that order is theirs.
pub fn one_table_law()
    ensures one { OneTableLaw }
    ensures filled { FilledLaw }
{}
