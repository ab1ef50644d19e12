//! `stakeplay STORE WORDS`: replays the accounting of a chain from standard input to standard output, answers questions
//! about a store, counts ballots over one, makes and checks reward statements, or writes input that it generates. STORE is
//! the path of a database file, in which the chain's rows are kept, or `-`, and then nothing is kept. WORDS is `replay`,
//! `resume`, `query` with a kind and perhaps an address, `tally`, `check`, `statement DELEGATOR OPERATOR`, `gen SEED COUNT`
//! or `trial SEED COUNT`. The word `keep`, or the words `every N`, may stand before `replay` and `resume`, the words
//! `past HEIGHT` before `query`, and the word `bech32` before all others.
#![tactic(auto)]

mod place;

ghost use Rattle.std.specs.Prelude.{◌≡◌};
ghost use Rattle.store_history.specs.Held.{TakesDistinct};
ghost use Rattle.stakeplay.specs.Statuses.{fault_number, line_number, status_number, number_of_fault};

use crate::place::{Place, place_of, status_of_opening};
use base_io::{Keeper, NoKeeper, StdSink, StdSource};
use base_messages::BlockFault;
use run_app::{InputFault, LimitKind, Status, run};
use run_words::{WordsFault, read_words};
use sqlite::Unknown;
use std::alloc::Global;
use std::env::{self, Env};
use std::io::ErrorKind;
use std::path::Path;
use std::process::ExitCode;
use store_sqlite::SqlKeeper;

/// The number by which the process ends.
fn number_of(status: &Status) -> u8
    ensures { result ≡ status_number status.now }
{
    match status {
        Status::Done => 0,
        Status::Usage => 1,
        Status::BadInput(_, _) => 2,
        Status::Limit(_, _) => 3,
        Status::ReadFault => 4,
        Status::WriteFault => 5,
        Status::KeepFault => 6,
        Status::NoMemory => 7,
        Status::BadStore => 8,
        Status::WrongStore(_) => 9,
        Status::NotFound => 10,
        Status::NoPast(_, _) => 11,
    }
}

/// The number by which a block's fault is named.
fn number_of_fault(fault: &BlockFault) -> u8
    ensures { result ≡ number_of_fault fault.now }
{
    match fault {
        BlockFault::BadHeight(_) => 1,
        BlockFault::BadTime(_) => 2,
        BlockFault::UnknownVote(_) => 3,
        BlockFault::RepeatedVote(_) => 4,
        BlockFault::BadPower(_) => 5,
        BlockFault::BadEvidence(_) => 6,
        BlockFault::RatioLimit(_) => 7,
        BlockFault::NoMemory => 8,
    }
}

/// The number of the line at which a run ended, and 0 where it ended at none.
fn line_number(status: &Status) -> u64
    ensures { result ≡ line_number status.now }
{
    match status {
        Status::BadInput(line, _) => *line,
        Status::Limit(line, _) => *line,
        _ => 0,
    }
}

/// The number of the member, of the condition or of the block's fault by which a run ended, and 0 where it
/// ended otherwise.
fn fault_number(status: &Status) -> u16
    ensures { result ≡ fault_number status.now }
{
    match status {
        Status::BadInput(_, InputFault::BadShape(member)) => *member,
        Status::BadInput(_, InputFault::BadGenesis(condition)) => u16::from(*condition),
        Status::BadInput(_, InputFault::Block(fault)) => u16::from(number_of_fault(fault)),
        _ => 0,
    }
}

/// The words that the program was called with, its own name among them. Words that are no UTF-8
/// are no words of a command.
fn words(rt: &(impl Env + Alloc<A = Global>)) -> Result<Vec<String>, Status> {
    let args = match env::args(rt) {
        Ok(args) => args,
        Err(fault) if fault.kind() == ErrorKind::OutOfMemory => return Err(Status::NoMemory),
        Err(_) => return Err(Status::Usage),
    };
    let mut words = Vec::new(rt.alloc());
    for word in args {
        match words.push(word) {
            Ok(()) => {}
            Err(_) => return Err(Status::NoMemory),
        }
    }
    Ok(words)
}

/// Carries out a command over standard input and output, and this keeper.
fn serve<D: Keeper>(rt: &HostRuntime, command: &[String], keeper: &mut D) -> Status
    requires { TakesDistinct (D.takes keeper.old) }
{
    let mut source = StdSource::new(rt.stdin());
    let mut sink = StdSink::new(rt.stdout());
    run(rt.alloc(), command, &mut source, &mut sink, keeper)
}

/// Whether there is no file of this name, in a folder that is there. Of the name that SQLite has for a database in memory
/// it is not asked: no store has it.
fn is_absent(rt: &HostRuntime, name: &str) -> bool {
    if name == ":memory:" {
        return false;
    }
    match Path::new(name).try_exists(rt) {
        Ok(false) => {}
        Ok(true) | Err(_) => return false,
    }
    match Path::new(name).parent() {
        Some(folder) => folder.as_str().is_empty() || folder.is_dir(rt),
        None => false,
    }
}

/// Carries out a command over the store of this name. Of the name `-` there is none: nobody could read it when the program
/// has ended, so nothing is kept. Where there is no file of the name, only a replay makes one.
fn serve_from(rt: &HostRuntime, store: &str, command: &[String]) -> Status {
    let asked = match read_words(rt.alloc(), command) {
        Ok(asked) => Some(asked),
        Err(WordsFault::Usage) => None,
        Err(WordsFault::NoMemory) => return Status::NoMemory,
    };
    match place_of(store, asked, is_absent(rt, store)) {
        Place::Nowhere => {
            let mut keeper = NoKeeper::new(rt.alloc());
            serve(rt, command, &mut keeper)
        }
        Place::Refused => Status::Usage,
        Place::File => match SqlKeeper::open(rt, store, Unknown) {
            Ok(mut keeper) => serve(rt, command, &mut keeper),
            Err(fault) => status_of_opening(fault),
        },
    }
}

fn main(rt: HostRuntime) -> ExitCode {
    let status = match words(&rt) {
        Ok(words) => match words.as_slice() {
            [_, store, command @ ..] => serve_from(&rt, store.as_str(), command),
            _ => Status::Usage,
        },
        Err(status) => status,
    };
    let line = line_number(&status);
    let number = fault_number(&status);
    let _ = match status {
        Status::Done => Ok(()),
        Status::Usage => eprintln!(rt; "stakeplay: usage"),
        Status::BadInput(_, InputFault::Missing) => eprintln!(rt;
            "stakeplay: line {line}: missing"
        ),
        Status::BadInput(_, InputFault::NotJson) => eprintln!(rt;
            "stakeplay: line {line}: not JSON"
        ),
        Status::BadInput(_, InputFault::BadShape(_)) => eprintln!(rt;
            "stakeplay: line {line}: bad shape {number}"
        ),
        Status::BadInput(_, InputFault::BadGenesis(_)) => eprintln!(rt;
            "stakeplay: line {line}: bad genesis {number}"
        ),
        Status::BadInput(_, InputFault::Block(_)) => eprintln!(rt;
            "stakeplay: line {line}: bad block {number}"
        ),
        Status::Limit(_, LimitKind::Line) => eprintln!(rt; "stakeplay: line {line}: limit line"),
        Status::Limit(_, LimitKind::Input) => eprintln!(rt; "stakeplay: line {line}: limit input"),
        Status::Limit(_, LimitKind::Bound(_)) => eprintln!(rt;
            "stakeplay: line {line}: limit bound"
        ),
        Status::Limit(_, LimitKind::Ratio(_)) => eprintln!(rt;
            "stakeplay: line {line}: limit ratio"
        ),
        Status::ReadFault => eprintln!(rt; "stakeplay: read fault"),
        Status::WriteFault => eprintln!(rt; "stakeplay: write fault"),
        Status::KeepFault => eprintln!(rt; "stakeplay: store fault"),
        Status::NoMemory => eprintln!(rt; "stakeplay: no memory"),
        Status::BadStore => eprintln!(rt; "stakeplay: bad store"),
        Status::WrongStore(true) => eprintln!(rt; "stakeplay: store is empty"),
        Status::WrongStore(false) => eprintln!(rt; "stakeplay: store is not empty"),
        Status::NotFound => eprintln!(rt; "stakeplay: not found"),
        Status::NoPast(_, _) => eprintln!(rt; "stakeplay: no past"),
    };
    ExitCode::from(number_of(&status))
}
