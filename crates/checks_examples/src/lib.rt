//! The definitions of `checks_model` on whole programs, computed: what they tell of the texts of `rows/rules`, each with the
//! lines that its row has.
#![tactic(auto)]
