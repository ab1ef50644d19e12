//! Where a run keeps its rows: by the name of its store, by what the words ask for, and by whether there is a file of that
//! name.

ghost use Rattle.std.specs.Prelude.{◌≡◌};
ghost use Rattle.run_words.specs.Words.{is_option};
ghost use Rattle.stakeplay.specs.Places.{makes_store, place_of, status_of_opening};

use base_io::KeepFault;
use run_app::Status;
use run_words::{Command, Mode};

/// Where the rows of a run are.
#[derive(Clone, Copy, Debug, PartialEq, Eq)]
pub(crate) enum Place {
    /// Nowhere: none are kept, and there are none.
    Nowhere,
    /// In the database file of the name.
    File,
    /// The name is an option, and no store has such a name.
    Refused,
}

/// Whether the name begins with a hyphen.
fn is_option(name: &[u8]) -> bool
    ensures { result ≡ is_option name.now }
{
    !name.is_empty() && name[0] == b'-'
}

/// Whether the words ask for a command that makes a store where there is none: only a replay does.
fn makes_store(asked: Option<Command>) -> bool
    ensures { result ≡ makes_store asked }
{
    match asked {
        Some(command) => matches!(command.mode, Mode::Replay),
        None => false,
    }
}

/// Where the rows of a run are whose store has this name, where the words ask for this, or for nothing. `is_absent` says
/// that there is no file of the name.
pub(crate) fn place_of(store: &str, asked: Option<Command>, is_absent: bool) -> Place
    ensures { result ≡ place_of store.now asked is_absent }
{
    if store == "-" {
        Place::Nowhere
    } else if is_option(store.as_bytes()) {
        Place::Refused
    } else if is_absent && !makes_store(asked) {
        Place::Nowhere
    } else {
        Place::File
    }
}

/// How a run ends whose store does not open.
pub(crate) fn status_of_opening(fault: KeepFault) -> Status
    ensures { result ≡ status_of_opening fault }
{
    match fault {
        KeepFault::Failed => Status::KeepFault,
        KeepFault::NoMemory => Status::NoMemory,
    }
}
