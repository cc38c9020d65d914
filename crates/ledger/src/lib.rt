// The figures of a plan: costs from prices and marks, and a choice as a list of rows with its total.
#![tactic(auto)]

pub mod costs;
pub mod listing;
