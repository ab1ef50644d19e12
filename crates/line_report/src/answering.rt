//! The answers to questions about a state.
ghost use Rattle.std.specs.Prelude.{◌≡◌, ◌++◌, option_map, IfOk, IfErr, OnOk};
ghost use Rattle.line_report.specs.Lines.{text_of};
ghost use Rattle.line_report.specs.Queries.{answer_of, lines_asked, names_address};

use crate::question::Query;
use crate::sections::{
    accounts, community_pool, redelegation_entries, rewards, shares, supply, unbonding_entries,
    validators_with_purses, votes,
};
use base_bech32::Form;
use base_messages::{LineFault, Pending};
use base_roles::Item;
use std::alloc::Global;

/// Whether a question is about an address.
fn names_address(what: &Query) -> bool
    ensures { result ≡ names_address what.now }
{
    !matches!(what, Query::Supply | Query::Pool | Query::Validators)
}

/// Appends the lines that are asked for.
fn push_asked(
    form: Form,
    alloc: Global,
    out: &mut Vec<u8>,
    items: &[Item],
    pending: &[Pending],
    what: &Query,
) -> Result<(), LineFault>
    ensures ok { OnOk result (out.new.items
        ≡ out.old.items ++ text_of (lines_asked form items.now pending.now what.now)) }
    ensures fault { IfErr result (λ fault. fault ≡ LineFault.NoMemory) }
{
    match what {
        Query::Supply => supply(alloc, out, items),
        Query::Pool => community_pool(alloc, out, items),
        Query::Validators => validators_with_purses(form, alloc, out, None, items),
        Query::Account(who) => accounts(form, alloc, out, Some(who.bytes()), items),
        Query::Validator(who) => validators_with_purses(form, alloc, out, Some(who.bytes()), items),
        Query::Delegations(who) => shares(form, alloc, out, Some(who.bytes()), items),
        Query::Rewards(who) => rewards(form, alloc, out, Some(who.bytes()), pending),
        Query::Unbondings(who) => unbonding_entries(form, alloc, out, Some(who.bytes()), items),
        Query::Redelegations(who) => redelegation_entries(
            form,
            alloc,
            out,
            Some(who.bytes()),
            items,
        ),
        Query::Signing(cons) => votes(form, alloc, out, Some(cons.bytes()), items),
    }
}

/// The answer to a question: the report's lines of its kind, of all or of the address that it names. None exactly
/// where no line belongs to the address. The only error is `NoMemory`.
pub fn query(
    form: Form,
    alloc: Global,
    items: &[Item],
    pending: &[Pending],
    what: &Query,
) -> Result<Option<Vec<u8>>, LineFault>
    ensures answer { IfOk result (λ answer. option_map (λ text. text.items) answer
        ≡ answer_of form items.now pending.now what.now) }
    ensures fault { IfErr result (λ fault. fault ≡ LineFault.NoMemory) }
{
    let mut out = Vec::new(alloc);
    push_asked(form, alloc, &mut out, items, pending, what)?;
    if names_address(what) && out.is_empty() {
        return Ok(None);
    }
    Ok(Some(out))
}
