//! What a survey found: which image each meter runs, and who would refuse another; as a table, as comma-separated values and as JSON.
#![tactic(auto)]

mod cell;
mod csv;
mod inventory;
mod json;
mod table;
mod verdict;

pub use inventory::{InventoryForm, append_inventory};
pub use verdict::{Offer, Verdict, verdict_of};
