//! A keeper over a keeper that also keeps what each commit's rows replaced.
#![tactic(auto)]

mod changes;
mod committing;
mod forms;
mod going_back;
mod history;
mod keeper;
mod laws;
mod loading;
mod visible;
mod worked;

pub use going_back::{PastFault, past};
pub use history::History;
pub use keeper::{HistoryKeeper, Loan, open};
pub use laws::past_rows_are_what_stood;
pub use loading::{OpenFault, read_history};
pub use worked::worked_rows;
