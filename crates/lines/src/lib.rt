// Lines of text and numbers in decimal: what they are, how they are written into a buffer, and how they are read back.
#![tactic(auto)]

mod decimals;
pub mod fields;
