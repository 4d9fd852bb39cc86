// Reading a program from the front, against the grammar.
ghost use Rattle.std.specs.Prelude.{◌≡◌, ℕ, List, Ok, Err, None};
ghost use Rattle.chill_tree.specs.declared.token.Token.{Token};
ghost use Rattle.chill_tree.specs.ItemTree.{ProgramTree};
ghost use Rattle.rules_model.specs.ItemGrammar.{HasOneTree, IsTreeOf};
ghost use Rattle.rules_model.specs.ItemReading.{program_at};
ghost use Rattle.rules_model.specs.Nesting.{first_deep};
ghost use Rattle.rules_model.specs.Reading.{Fault};
ghost use Rattle.chill_parser.specs.Parsing.{HasNoTree};

/// What is read as a program, with however many levels, is a tree of all the tokens.
pub fn read_law()
    ensures { (levels : ℕ) (tokens : List Token) (tree : ProgramTree)
        → program_at levels tokens ≡ Ok tree → IsTreeOf tokens tree }
{}

/// Where the nesting stays below 65 and nothing is read with 64 levels, the tokens have no tree.
pub fn none_read_law()
    ensures { (tokens : List Token) (fault : Fault)
        → first_deep 65 tokens ≡ None → program_at 64 tokens ≡ Err fault → HasNoTree tokens }
{}

/// A list of tokens has at most one tree: the one that is parsed.
pub fn one_tree_law()
    ensures { (tokens : List Token) → HasOneTree tokens }
{}
