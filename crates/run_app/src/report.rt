//! The report at the end of a run: what the chain keeps, with the pending rewards of its delegations, as a text.

ghost use Rattle.std.specs.Prelude.{◌≡◌, Ok, Some, IfOk, IfErr};
ghost use Rattle.run_app.specs.Machine.{report_of};
ghost use Rattle.chain_modules.specs.Kept.{StandsFor};
ghost use Rattle.rule_modules.specs.Chain.{State};

use crate::status::EndStop;
use base_bech32::Form;
use base_messages::LineFault;
use chain_whole::{Chain, ChainFault};
use line_report::{report, states_are_reported};
use std::alloc::Global;

/// The report of a chain, with its pending rewards, and with addresses in this form. The only error is `NoMemory`.
#[tactic(auto, unfolding(crate::specs::Machine::report_of))]
pub fn report_text(form: Form, alloc: Global, chain: &Chain) -> Result<Vec<u8>, EndStop>
    ensures text { (p : State) → StandsFor chain.now.kept p
        → IfOk result (λ text. report_of form (Some p) ≡ Ok text.items) }
    ensures fault { IfErr result (λ stop. stop ≡ EndStop.NoMemory) }
{
    states_are_reported();
    let items = match chain.items(alloc) {
        Ok(items) => items,
        Err(ChainFault::NoMemory) => return Err(EndStop::NoMemory),
        Err(_) => unreachable!(),
    };
    let pending = match chain.pending(alloc) {
        Ok(pending) => pending,
        Err(ChainFault::NoMemory) => return Err(EndStop::NoMemory),
        Err(_) => unreachable!(),
    };
    match report(form, alloc, &items, &pending) {
        Ok(text) => Ok(text),
        Err(LineFault::NoMemory) => Err(EndStop::NoMemory),
        Err(_) => unreachable!(),
    }
}
