//! The answer of a chain to a question.

ghost use Rattle.std.specs.Prelude.{◌≡◌, option_map, Ok, IfOk, IfErr};
ghost use Rattle.rule_machine.specs.Report.{report_of};
ghost use Rattle.chain_modules.specs.Kept.{StandsFor};
ghost use Rattle.line_report.specs.Asking.{answered_by, ArePendingOf};
ghost use Rattle.rule_modules.specs.Chain.{State};

use crate::status::EndStop;
use base_bech32::Form;
use base_messages::{LineFault, Pending};
use base_types::Account;
use chain_whole::{Chain, ChainFault};
use line_report::{Query, query, states_are_asked};
use std::alloc::Global;

/// The pending rewards of a chain, where it told them. The only error is `NoMemory`.
fn pending_told(told: Result<Vec<Pending>, ChainFault>) -> Result<Vec<Pending>, EndStop>
    requires fault { IfErr told (λ fault. fault ≡ ChainFault.NoMemory) }
    ensures list { IfOk result (λ list. told ≡ Ok list) }
    ensures fault { IfErr result (λ stop. stop ≡ EndStop.NoMemory) }
{
    match told {
        Ok(list) => Ok(list),
        Err(ChainFault::NoMemory) => Err(EndStop::NoMemory),
        Err(_) => unreachable!(),
    }
}

/// The pending rewards that are asked of an account: its own, and for a module's perhaps others. The only error is
/// `NoMemory`.
fn pending_of(alloc: Global, chain: &Chain, who: &Account) -> Result<Vec<Pending>, EndStop>
    ensures list { (p : State) → StandsFor chain.now.kept p
        → IfOk result (λ list. ArePendingOf p (Query.Rewards who.now) list.items) }
    ensures fault { IfErr result (λ stop. stop ≡ EndStop.NoMemory) }
{
    match who {
        Account::User(who) => pending_told(chain.pending_to(alloc, who)),
        Account::Module(_) => pending_told(chain.pending(alloc)),
    }
}

/// The pending rewards that a question asks for: none where it is about something else. The only error is `NoMemory`.
fn pending_asked(alloc: Global, chain: &Chain, what: &Query) -> Result<Vec<Pending>, EndStop>
    ensures list { (p : State) → StandsFor chain.now.kept p
        → IfOk result (λ list. ArePendingOf p what.now list.items) }
    ensures fault { IfErr result (λ stop. stop ≡ EndStop.NoMemory) }
{
    match what {
        Query::Rewards(who) => pending_of(alloc, chain, who),
        _ => Ok(Vec::new(alloc)),
    }
}

/// The report's lines that answer a question; None exactly where no line belongs to its address. Of the pending rewards
/// only those that are asked for are computed. The only error is `NoMemory`.
pub(crate) fn answer_text(
    form: Form,
    alloc: Global,
    chain: &Chain,
    what: &Query,
) -> Result<Option<Vec<u8>>, EndStop>
    ensures text { (p : State) → StandsFor chain.now.kept p → IfOk result (λ answer.
        option_map (λ text. text.items) answer ≡ answered_by form (report_of p) what.now) }
    ensures fault { IfErr result (λ stop. stop ≡ EndStop.NoMemory) }
{
    states_are_asked();
    let items = match chain.items(alloc) {
        Ok(items) => items,
        Err(ChainFault::NoMemory) => return Err(EndStop::NoMemory),
        Err(_) => unreachable!(),
    };
    let pending = pending_asked(alloc, chain, what)?;
    match query(form, alloc, &items, &pending, what) {
        Ok(answer) => Ok(answer),
        Err(LineFault::NoMemory) => Err(EndStop::NoMemory),
        Err(_) => unreachable!(),
    }
}
