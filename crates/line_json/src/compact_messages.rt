//! Messages read from compact text: sends, delegations, what takes from them or moves them, and withdrawals.
//!
//! Each is read in the order of its members in `docs/FORMATS.md` and in ascending order of their names. A byte tells
//! which of them a text may be; whether it is one, the pieces tell.
ghost use Rattle.std.specs.Prelude.{IfSome};
ghost use Rattle.line_json.specs.Compact.{IsCompact};
ghost use Rattle.line_json.specs.Messages.{message_of};

use crate::addresses::{ACCOUNT, OPERATOR};
use crate::compact::{FromCompact, address, coin_parts, list, money};
use base_bech32::Form;
use base_coins::Coin;
use base_messages::{
    BeginRedelegate, Delegate, Msg, Send, Undelegate, WithdrawCommission, WithdrawReward,
};
use base_types::{Account, Addr, Denom};
use line_compact::after;
use std::alloc::Global;

fn send(form: Form, alloc: Global, text: &[u8]) -> Option<(Msg, &[u8])>
    ensures { IfSome result (λ found. IsCompact (message_of form) 3 text.now found.0 found.1.now) }
{
    let at_from = after(text, b"{\"kind\":\"send\",\"from\":")?;
    let (payer, behind_from) = address(form, ACCOUNT, at_from)?;
    let from = Addr::of(payer)?;
    let at_to = after(behind_from, b",\"to\":")?;
    let (to, behind_to) = address(form, ACCOUNT, at_to)?;
    let at_coins = after(behind_to, b",\"coins\":")?;
    let (parts, behind_coins) = list(form, alloc, at_coins)?;
    let coins = money(parts)?;
    let rest = after(behind_coins, b"}")?;
    let send = Send {
        from,
        to: Account::of(to),
        coins,
    };
    Some((Msg::Send(send), rest))
}

fn send_by_name(form: Form, alloc: Global, text: &[u8]) -> Option<(Msg, &[u8])>
    ensures { IfSome result (λ found. IsCompact (message_of form) 3 text.now found.0 found.1.now) }
{
    let at_coins = after(text, b"{\"coins\":")?;
    let (parts, behind_coins) = list(form, alloc, at_coins)?;
    let coins = money(parts)?;
    let at_from = after(behind_coins, b",\"from\":")?;
    let (payer, behind_from) = address(form, ACCOUNT, at_from)?;
    let from = Addr::of(payer)?;
    let at_to = after(behind_from, b",\"kind\":\"send\",\"to\":")?;
    let (to, behind_to) = address(form, ACCOUNT, at_to)?;
    let rest = after(behind_to, b"}")?;
    let send = Send {
        from,
        to: Account::of(to),
        coins,
    };
    Some((Msg::Send(send), rest))
}

fn delegate(form: Form, text: &[u8]) -> Option<(Msg, &[u8])>
    ensures { IfSome result (λ found. IsCompact (message_of form) 3 text.now found.0 found.1.now) }
{
    let at_delegator = after(text, b"{\"kind\":\"delegate\",\"delegator\":")?;
    let (user, behind_delegator) = address(form, ACCOUNT, at_delegator)?;
    let delegator = Addr::of(user)?;
    let at_validator = after(behind_delegator, b",\"validator\":")?;
    let (operator, behind_validator) = address(form, OPERATOR, at_validator)?;
    let validator = Addr::of(operator)?;
    let at_amount = after(behind_validator, b",\"amount\":")?;
    let (name, amount, behind_amount) = coin_parts(at_amount)?;
    let denom = Denom::of(name)?;
    let rest = after(behind_amount, b"}")?;
    let delegate = Delegate {
        delegator,
        validator,
        amount: Coin { denom, amount },
    };
    Some((Msg::Delegate(delegate), rest))
}

fn undelegate(form: Form, text: &[u8]) -> Option<(Msg, &[u8])>
    ensures { IfSome result (λ found. IsCompact (message_of form) 3 text.now found.0 found.1.now) }
{
    let at_delegator = after(text, b"{\"kind\":\"undelegate\",\"delegator\":")?;
    let (user, behind_delegator) = address(form, ACCOUNT, at_delegator)?;
    let delegator = Addr::of(user)?;
    let at_validator = after(behind_delegator, b",\"validator\":")?;
    let (operator, behind_validator) = address(form, OPERATOR, at_validator)?;
    let validator = Addr::of(operator)?;
    let at_amount = after(behind_validator, b",\"amount\":")?;
    let (name, amount, behind_amount) = coin_parts(at_amount)?;
    let denom = Denom::of(name)?;
    let rest = after(behind_amount, b"}")?;
    let undelegate = Undelegate {
        delegator,
        validator,
        amount: Coin { denom, amount },
    };
    Some((Msg::Undelegate(undelegate), rest))
}

fn begin_redelegate(form: Form, text: &[u8]) -> Option<(Msg, &[u8])>
    ensures { IfSome result (λ found. IsCompact (message_of form) 3 text.now found.0 found.1.now) }
{
    let at_delegator = after(text, b"{\"kind\":\"begin_redelegate\",\"delegator\":")?;
    let (user, behind_delegator) = address(form, ACCOUNT, at_delegator)?;
    let delegator = Addr::of(user)?;
    let at_source = after(behind_delegator, b",\"source\":")?;
    let (left, behind_source) = address(form, OPERATOR, at_source)?;
    let source = Addr::of(left)?;
    let at_target = after(behind_source, b",\"target\":")?;
    let (joined, behind_target) = address(form, OPERATOR, at_target)?;
    let target = Addr::of(joined)?;
    let at_amount = after(behind_target, b",\"amount\":")?;
    let (name, amount, behind_amount) = coin_parts(at_amount)?;
    let denom = Denom::of(name)?;
    let rest = after(behind_amount, b"}")?;
    let begin_redelegate = BeginRedelegate {
        delegator,
        source,
        target,
        amount: Coin { denom, amount },
    };
    Some((Msg::BeginRedelegate(begin_redelegate), rest))
}

fn withdraw_reward(form: Form, text: &[u8]) -> Option<(Msg, &[u8])>
    ensures { IfSome result (λ found. IsCompact (message_of form) 3 text.now found.0 found.1.now) }
{
    let at_delegator = after(text, b"{\"kind\":\"withdraw_reward\",\"delegator\":")?;
    let (user, behind_delegator) = address(form, ACCOUNT, at_delegator)?;
    let delegator = Addr::of(user)?;
    let at_validator = after(behind_delegator, b",\"validator\":")?;
    let (operator, behind_validator) = address(form, OPERATOR, at_validator)?;
    let validator = Addr::of(operator)?;
    let rest = after(behind_validator, b"}")?;
    let withdraw_reward = WithdrawReward {
        delegator,
        validator,
    };
    Some((Msg::WithdrawReward(withdraw_reward), rest))
}

fn withdraw_reward_by_name(form: Form, text: &[u8]) -> Option<(Msg, &[u8])>
    ensures { IfSome result (λ found. IsCompact (message_of form) 3 text.now found.0 found.1.now) }
{
    let at_delegator = after(text, b"{\"delegator\":")?;
    let (user, behind_delegator) = address(form, ACCOUNT, at_delegator)?;
    let delegator = Addr::of(user)?;
    let at_validator = after(
        behind_delegator,
        b",\"kind\":\"withdraw_reward\",\"validator\":",
    )?;
    let (operator, behind_validator) = address(form, OPERATOR, at_validator)?;
    let validator = Addr::of(operator)?;
    let rest = after(behind_validator, b"}")?;
    let withdraw_reward = WithdrawReward {
        delegator,
        validator,
    };
    Some((Msg::WithdrawReward(withdraw_reward), rest))
}

/// Its members stand in ascending order too.
fn withdraw_commission(form: Form, text: &[u8]) -> Option<(Msg, &[u8])>
    ensures { IfSome result (λ found. IsCompact (message_of form) 3 text.now found.0 found.1.now) }
{
    let at_validator = after(text, b"{\"kind\":\"withdraw_commission\",\"validator\":")?;
    let (operator, behind_validator) = address(form, OPERATOR, at_validator)?;
    let validator = Addr::of(operator)?;
    let rest = after(behind_validator, b"}")?;
    Some((
        Msg::WithdrawCommission(WithdrawCommission { validator }),
        rest,
    ))
}

/// A message that names a coin, in ascending order of its members.
fn coin_moved_by_name(form: Form, text: &[u8]) -> Option<(Msg, &[u8])>
    ensures { IfSome result (λ found. IsCompact (message_of form) 3 text.now found.0 found.1.now) }
{
    let at_amount = after(text, b"{\"amount\":")?;
    let (name, number, behind_amount) = coin_parts(at_amount)?;
    let denom = Denom::of(name)?;
    let at_delegator = after(behind_amount, b",\"delegator\":")?;
    let (user, behind_delegator) = address(form, ACCOUNT, at_delegator)?;
    let delegator = Addr::of(user)?;
    let amount = Coin {
        denom,
        amount: number,
    };
    if let Some(at_joined) = after(behind_delegator, b",\"kind\":\"delegate\",\"validator\":") {
        let (operator, behind_joined) = address(form, OPERATOR, at_joined)?;
        let validator = Addr::of(operator)?;
        let rest = after(behind_joined, b"}")?;
        let delegate = Delegate {
            delegator,
            validator,
            amount,
        };
        return Some((Msg::Delegate(delegate), rest));
    }
    if let Some(at_left) = after(behind_delegator, b",\"kind\":\"undelegate\",\"validator\":") {
        let (operator, behind_left) = address(form, OPERATOR, at_left)?;
        let validator = Addr::of(operator)?;
        let rest = after(behind_left, b"}")?;
        let undelegate = Undelegate {
            delegator,
            validator,
            amount,
        };
        return Some((Msg::Undelegate(undelegate), rest));
    }
    let at_source = after(
        behind_delegator,
        b",\"kind\":\"begin_redelegate\",\"source\":",
    )?;
    let (left, behind_source) = address(form, OPERATOR, at_source)?;
    let source = Addr::of(left)?;
    let at_target = after(behind_source, b",\"target\":")?;
    let (joined, behind_target) = address(form, OPERATOR, at_target)?;
    let target = Addr::of(joined)?;
    let rest = after(behind_target, b"}")?;
    let begin_redelegate = BeginRedelegate {
        delegator,
        source,
        target,
        amount,
    };
    Some((Msg::BeginRedelegate(begin_redelegate), rest))
}

/// A message whose members stand in the order of the table, which has the kind first.
fn by_kind(form: Form, alloc: Global, text: &[u8]) -> Option<(Msg, &[u8])>
    ensures { IfSome result (λ found. IsCompact (message_of form) 3 text.now found.0 found.1.now) }
{
    match (text.get(9), text.get(18)) {
        (Some(b's'), _) => send(form, alloc, text),
        (Some(b'd'), _) => delegate(form, text),
        (Some(b'u'), _) => undelegate(form, text),
        (Some(b'b'), _) => begin_redelegate(form, text),
        (_, Some(b'r')) => withdraw_reward(form, text),
        _ => withdraw_commission(form, text),
    }
}

impl FromCompact for Msg {
    ghost deep = { 3 };

    fn from_compact(form: Form, alloc: Global, text: &[u8]) -> Option<(Msg, &[u8])> {
        match text.get(2) {
            Some(b'k') => by_kind(form, alloc, text),
            Some(b'a') => coin_moved_by_name(form, text),
            Some(b'c') => send_by_name(form, alloc, text),
            _ => withdraw_reward_by_name(form, text),
        }
    }
}
