// The laws of trees and places.
ghost use Rattle.tree_print.specs.SameProgram.{SameProgramLaw, SameTextLaw};
ghost use Rattle.tree_print.specs.SameTree.{SameTreeLaw, TreeTokensLaw};

/// Tokens that have a tree are the tree's tokens, each of the tree's kind in its turn.
pub fn tree_tokens_law()
    ensures { TreeTokensLaw }
{}

/// Where tokens have a tree, so have any others of the same kinds at other places: the same tree but for places.
pub fn same_tree_law()
    ensures { SameTreeLaw }
{}

/// The canonical text of a program is the same program: what is written of a text with a tree is written of that tree
/// alone, and has the same tree but for places, unless it is longer than a text may be.
pub fn same_program_law()
    ensures { SameProgramLaw }
{}

/// Two texts are the same program exactly where their canonical texts are the same: they have the same tree but for
/// places.
pub fn same_text_law()
    ensures { SameTextLaw }
{}
