// The text of a program: what it is the writing of, whether that is within the limits, and the program's nodes.
#![tactic(auto)]

mod bare;
pub mod cut;
pub mod judge;
mod kinds;
pub mod limits;
mod links;
pub mod load;
mod numbers;
mod reader;
pub mod signs;
mod table;
