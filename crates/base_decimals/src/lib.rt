//! Decimals of 18 places, exact or refused.
//!
//! A [`Dec`] is a whole number of units of 10^-18 below 10^38. Each operation gives the rounded value of
//! its definition, or [`Over`] with its operands exactly where that value is 10^38 units or more. The rules
//! are those of `LegacyDec` in Cosmos SDK v0.47 (module `math`): products are rounded from their exact
//! value, and quotients from 36 digits behind the point. No number is wider than 128 bits, and nothing
//! allocates.
#![tactic(auto)]

mod dec;
mod kernel;
pub mod laws;
mod over;
mod rounding;
mod text;
pub mod worked;

pub use dec::Dec;
pub use kernel::{LIMIT, mul_div};
pub use over::{Over, OverKind};
