// The rows and the columns of an array, decoded one after the other.
#![tactic(auto)]

pub mod columns;
pub mod rows;
