// The numbers of a program's definitions.
ghost use Rattle.std.specs.Prelude.{◌≡◌, ◌<◌, ◌^◌, length};
ghost use Rattle.chill_tree.specs.ItemTree.{ProgramTree};
ghost use Rattle.names_model.specs.Sizes.{sizes_of};
ghost use Rattle.names_model.specs.Definitions.{text_definitions};
ghost use Rattle.names_model.specs.Resolving.{level_of};
ghost use Rattle.reach_tables.specs.Offsets.{Fits};

/// Where fewer than 2^32 definitions stand in a program, each has its number.
pub fn fits_law()
    ensures { (tree : ProgramTree) → sizes_of (level_of tree) < 2 ^ 32 → Fits 0 (level_of tree) }
{}

/// A program has as many definitions as its parts say.
pub fn size_law()
    ensures { (tree : ProgramTree) → length (text_definitions (level_of tree)) ≡ sizes_of (level_of tree) }
{}
