// One line a side: the orders of a side one after the other, the larger key first. An order's entry is its key
// and an amount in one number, so the entries of a line are numbers that fall.
#![tactic(auto)]

pub mod keys;
pub mod line;
