//! The lines of accounts.
ghost use Rattle.std.specs.Prelude.{◌≡◌, ◌++◌, ◌∷◌, [], ℕ, List, map, option_map, IfOk, IfErr, OnOk};
ghost use Rattle.base_types.specs.declared.account.Account.{Account};
ghost use Rattle.base_coins.specs.Coins.{Money};
ghost use Rattle.rule_machine.specs.Report.{accounts_in, joined};
ghost use Rattle.line_report.specs.Groups.{opened};
ghost use Rattle.line_report.specs.Lines.{account_line, text_of};
ghost use Rattle.line_json.specs.Told.{coins_seen};

use crate::lines::push_account;
use base_bech32::Form;
use base_messages::LineFault;
use base_types::{Account, Denom};
use std::alloc::Global;
use std::collections::BTreeMap;

/// An account with its coins so far.
#[derive(Drop)]
struct Open<'a> {
    account: Account,
    coins: Vec<(&'a Denom, u128)>,
}

/// Adds a coin to those of its account, after the line of the account before where that is another.
fn with_coin<'a>(
    form: Form,
    alloc: Global,
    out: &mut Vec<u8>,
    last: Option<Open<'a>>,
    account: &Account,
    denom: &'a Denom,
    amount: u128,
) -> Result<Open<'a>, LineFault>
    ensures next { IfOk result (λ next. (rest : List (Account × Money)) →
        out.new.items ++ text_of (map (account_line form)
        (joined next.account (coins_seen next.coins.items) rest))
        ≡ out.old.items ++ text_of (map (account_line form)
        (opened (option_map (λ o. (o.account, coins_seen o.coins.items)) last.entry)
        (joined account.now ((denom.now, amount) ∷ []) rest)))) }
    ensures fault { IfErr result (λ fault. fault ≡ LineFault.NoMemory) }
{
    let mut coins = Vec::new(alloc);
    if let Some(before) = last {
        coins = before.coins;
        if before.account == *account {
            coins.push((denom, amount))?;
            return Ok(Open {
                account: before.account,
                coins,
            });
        }
        push_account(form, alloc, out, &before.account, &coins)?;
        coins.clear();
    }
    coins.push((denom, amount))?;
    Ok(Open {
        account: *account,
        coins,
    })
}

/// Appends a line for each account, with its coins.
pub(crate) fn push_accounts(
    form: Form,
    alloc: Global,
    out: &mut Vec<u8>,
    balances: &BTreeMap<(Account, Denom), u128>,
) -> Result<(), LineFault>
    ensures ok { OnOk result (out.new.items
        ≡ out.old.items ++ text_of (map (account_line form) (accounts_in balances.now.entries))) }
    ensures fault { IfErr result (λ fault. fault ≡ LineFault.NoMemory) }
{
    let mut last: Option<Open> = None;
    for (place, amount) in balances {
        last = Some(with_coin(form, alloc, out, last, &place.0, &place.1, *amount)?);
    }
    if let Some(open) = last {
        push_account(form, alloc, out, &open.account, &open.coins)?;
    }
    Ok(())
}
