// The grammar of a table sheet: its productions by value, document 01's grammar rules, and FIRST. Everything stands under the
// caller's judgement that the sheet is well laid out.
#![tactic(auto)]

// one production by value
pub mod production;

// the grammar of a sheet: its productions by value, beside the sheet
pub mod productions;

// the nonterminals that derive some string, and those that derive the empty one
pub mod least;

// the grammar rules
pub mod rules;

// FIRST of each nonterminal, and of what follows a dot
pub mod first;
