//! Tests of the lines of inputs and outputs (`line_json`), of ballots and tallies (`line_ballots`), of reward statements
//! (`line_statements`), and of reports and of answers to questions (`line_report`). Lines that are not of their form are
//! rows of `cases/forms.txt`, which the whole program reads. These stand apart so that what they try is proved without
//! them, and nothing waits for them.
#![tactic(auto)]

#[cfg(test)]
mod address_tests;
#[cfg(test)]
mod ballot_tests;
#[cfg(test)]
mod checks;
#[cfg(test)]
mod reading_tests;
#[cfg(test)]
mod report_tests;
#[cfg(test)]
mod statement_tests;
#[cfg(test)]
mod writing_tests;
