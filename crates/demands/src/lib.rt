// What the whole is trusted for: the demands and the checked list, as theorems over the definitions of the crates below; and two
// clients of the operations.
#![tactic(auto)]

pub mod clients;
