// What the programs share at the command line: reading arguments, and ending with a status.
#![tactic(auto)]

pub mod arguments;
pub mod exit;
pub mod request;
#[cfg(test)]
mod tests;
pub mod text;
