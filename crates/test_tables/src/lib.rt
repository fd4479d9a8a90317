//! Runners of tables, that tests stand on. It is no part of the product.
#![tactic(auto)]

mod expected;
mod kept;
mod tables;

pub use expected::{expect, expect_at, present};
pub use kept::Kept;
pub use tables::{FromWords, Reads, Words, each_line, each_part, each_prints, each_table, named};
