// Collateral of any kind: the interface, and cash, guarantees and two kinds joined.

#![tactic(auto)]

pub mod bounds;
pub mod cash;
mod folder;
pub mod guarantees;
pub mod joined;
pub mod kind;
#[cfg(test)]
mod tests;
