//! The commands, each with what its words say: `replay`, `resume`, `query`, `tally`, `check`, `statement`, `gen` and
//! `trial`; and before them the word `bech32`, which tells the form of addresses, the word `keep`, the word `every` with a number
//! of blocks, and the word `past` with a height.
use base_bech32::Form;
use base_types::Account;
use line_report::Query;

/// What the words ask for: a command, and how it is carried out.
#[derive(Clone, Copy, Debug, PartialEq, Eq)]
pub struct Command {
    /// How addresses are read and printed.
    pub form: Form,
    /// Whether what commits replace is kept: of a replay or a resume.
    pub keep: bool,
    /// At how many blocks a replay or a resume commits, from 1 to 1,000,000: 1 of all other commands.
    pub every: u64,
    /// The height whose past rows answer a query, from 0 to 2^63 - 1; without one the present rows do.
    pub past: Option<u64>,
    /// The command.
    pub mode: Mode,
}

/// What a command does.
#[derive(Clone, Copy, Debug, PartialEq, Eq)]
pub enum Mode {
    /// The blocks of an input are applied, and what they do is written.
    Replay,
    /// Further blocks are applied to the chain of a store, and what they do is written.
    Resume,
    /// Lines of the report of a stored chain are written.
    Query(Query),
    /// Ballots are counted by the stake of a stored chain, and the totals are written.
    Tally,
    /// Reward statements are checked, and whether each is right is written.
    Check,
    /// The blocks of an input are applied, and the reward statements of a pair are written.
    Statement {
        /// Who was paid.
        delegator: Account,
        /// Whose validator paid.
        operator: Account,
    },
    /// An input is generated and written.
    Gen {
        /// What its draws begin with.
        seed: u64,
        /// How many blocks it has, from 1 to 100,000.
        count: u32,
    },
    /// An input is generated and applied, and a summary is written.
    Trial {
        /// What its draws begin with.
        seed: u64,
        /// How many blocks it has, from 1 to 100,000.
        count: u32,
    },
}
