// One state of a sheet well laid out, judged: each method of `State` answers what one of the state conditions says of it.
#![tactic(auto)]

// the states and their items
pub mod items;

// sets gathered over the items
pub mod gathering;

// conditions 3 to 5: where the items lead
pub mod moves;

// condition 6: what enters a state
pub mod entering;

// condition 7: chains of items with the dot at 0
pub mod chains;

// condition 1, and what condition 2 goes by
pub mod firsts;
