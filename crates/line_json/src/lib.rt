//! The lines of an input, read into values, and the lines of an output, written from them.
//!
//! What a line means is the tree that `serde_json` reads from it, of which each member has its number and its form.
//! It is walked on a tape of the line's tokens; a tape that holds a number which is no count, or too many brackets, is
//! left for the tree itself. The line of a block is tried as compact text first, which most are: then no tape is made. A line is written member by member, without a tree, in ascending order of their names.
#![tactic(auto)]

mod addresses;
mod block_reading;
mod coin_reading;
mod compact;
mod compact_block;
mod compact_messages;
mod count;
mod facts;
mod genesis_reading;
mod kind;
mod lines;
mod members;
mod message_reading;
mod names;
mod nested;
mod outcomes;
mod params_reading;
mod pieces;
mod place;
mod plain;
mod reading;
mod reading_example;
mod spelled_example;
mod told;
mod tree;
mod value_tree;
mod words;
mod writing;
mod written;

pub use addresses::{account_of_text, cons_of_text, operator_asked};
pub use block_reading::read_block;
pub use coin_reading::dec_coins_at;
pub use genesis_reading::read_genesis;
pub use lines::{push_line_of_genesis, push_lines_of_block};
pub use members::{
    Scalar, account_at, cons_at, member_at, only_named, operator_at, user_at, word_at,
};
pub use nested::FromTree;
pub use reading::read_line;
pub use reading_example::lines_read_by_example;
pub use spelled_example::lines_spelled_by_example;
pub use told::Told;
pub use tree::Tree;
pub use writing::{push_line, push_object, push_told};
pub use written::lines_written_by_example;
