// What a participant owes and is owed: dues, claims, invoices, the payout balance.

#![tactic(auto)]

mod accounts;
mod invoices;
mod settling;

pub use accounts::{Account, Invoice, MOST_INVOICES};
pub use settling::{debt_laws, worked_by_hand};

#[cfg(test)]
mod tests;
