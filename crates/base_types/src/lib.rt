//! The plain values of the accounting: accounts, consensus addresses, denominations and moments, with
//! their texts; and what tables need of the values that they hold.
#![tactic(auto)]

mod account;
mod address;
mod cons;
mod copied;
mod denom;
mod digits;
mod fault;
mod laws;
mod moment;
mod status;
mod steps;
mod words;

pub use account::{Account, Addr, Module};
pub use address::{print_account, print_cons, read_account, read_addr, read_cons};
pub use cons::ConsAddr;
pub use copied::{Copied, TableFault};
pub use denom::{Denom, read_denom};
pub use digits::address_digits;
pub use fault::TextFault;
pub use laws::{
    accounts_keep_their_bytes, addresses_have_one_text, addresses_read_back, moments_read_back,
    orders_of_keys, texts_by_example,
};
pub use moment::{Moment, print_moment, read_moment};
pub use status::BondStatus;
pub use steps::Steps;
