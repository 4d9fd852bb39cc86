//! The elaborated program of a tree whose names are known: the definitions (Z.200, chapters on program structure, on values,
//! on actions and on concurrent execution).
#![tactic(auto)]
