//! Addresses as explorers and wallets print them: a prefix that names the kind of the address, `1`, and
//! thirty-eight letters, of which the last six check the others (BIP 173, the form Bech32).
#![tactic(auto)]

mod alphabet;
mod digits;
mod fault;
mod form;
mod laws;
mod reading;
mod residue;
mod spelling;

pub use fault::BechFault;
pub use form::Form;
pub use laws::{spellings_are_plain, spellings_by_example, spellings_read_back};
pub use reading::unspell;
pub use spelling::{spell, spell_into};
