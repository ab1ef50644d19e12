//! The row of an item, and the item of a row.

ghost use Rattle.std.specs.Prelude.{◌≡◌, ◌≢◌, ◌++◌, OnOk, IfOk, IfErr, IsErrOf};
ghost use Rattle.base_io.specs.Changes.{pair_of};
ghost use Rattle.base_roles.specs.declared.items.Item.{Item};
ghost use Rattle.store_rows.specs.Reading.{Gives, item_of, or_bad};
ghost use Rattle.store_rows.specs.Kinds.{kind_of};
ghost use Rattle.store_rows.specs.Rows.{key_bytes, key_fields, kind_in, row_in, value_in};
ghost use Rattle.store_rows.specs.Spelled.{HasRow, IsInRange, IsKeyInRange, IsWritable};

use crate::fault::RowFault;
use crate::fields::byte_at;
use crate::format::Format;
use crate::front::Unread;
use crate::items::item_in;
use crate::kind::Kind;
use crate::rings::push_ring;
use crate::writing::{
    push_account, push_coins, push_cons, push_decimal, push_denom, push_history, push_info,
    push_moment, push_params, push_purse, push_redelegations, push_starting, push_u64, push_u128,
    push_unbondings, push_user, push_validator,
};
use base_io::Row;
use base_roles::Item;
use std::alloc::{AllocError, Global};

/// How many bytes a key or a value has room for from the beginning, which is enough for most: so each is
/// allocated once.
const ROOM: usize = 64;

fn kind_of(item: &Item) -> Kind
    ensures { result ≡ kind_in item.now }
{
    match item {
        Item::Head { .. } => Kind::Head,
        Item::Parameters { .. } => Kind::Parameters,
        Item::Balance { .. } => Kind::Balance,
        Item::Supply { .. } => Kind::Supply,
        Item::Validator { .. } => Kind::Validator,
        Item::Delegation { .. } => Kind::Delegation,
        Item::Unbonding { .. } => Kind::Unbonding,
        Item::Redelegation { .. } => Kind::Redelegation,
        Item::Signing { .. } => Kind::Signing,
        Item::Purse { .. } => Kind::Purse,
        Item::Pool { .. } => Kind::Pool,
        Item::Withdraw { .. } => Kind::Withdraw,
        Item::CurrentPeriod { .. } => Kind::CurrentPeriod,
        Item::Historical { .. } => Kind::Historical,
        Item::Start { .. } => Kind::Start,
        Item::Event { .. } => Kind::Event,
    }
}

/// Appends the fields of the key behind the kind's byte.
fn push_key_fields(out: &mut Vec<u8>, item: &Item) -> Result<(), AllocError>
    ensures written { OnOk result (out.new.items ≡ out.old.items ++ key_fields item.now) }
    ensures range { OnOk result (IsKeyInRange item.now) }
{
    match item {
        Item::Head { .. } | Item::Parameters { .. } | Item::Pool { .. } => Ok(()),
        Item::Balance { account, denom, .. } => {
            push_account(out, account)?;
            push_denom(out, denom)
        }
        Item::Supply { denom, .. } => push_denom(out, denom),
        Item::Validator { validator } => push_user(out, &validator.operator),
        Item::Purse { operator, .. } | Item::CurrentPeriod { operator, .. } => {
            push_user(out, operator)
        }
        Item::Withdraw { delegator, .. } => push_user(out, delegator),
        Item::Signing { cons, .. } => push_cons(out, cons),
        Item::Delegation {
            operator,
            delegator,
            ..
        }
        | Item::Start {
            operator,
            delegator,
            ..
        } => {
            push_user(out, operator)?;
            push_user(out, delegator)
        }
        Item::Unbonding {
            delegator,
            operator,
            ..
        } => {
            push_user(out, delegator)?;
            push_user(out, operator)
        }
        Item::Redelegation {
            delegator,
            source,
            target,
            ..
        } => {
            push_user(out, delegator)?;
            push_user(out, source)?;
            push_user(out, target)
        }
        Item::Historical {
            operator,
            period,
            ..
        } => {
            push_user(out, operator)?;
            push_u64(out, *period)
        }
        Item::Event { operator, event } => {
            push_user(out, operator)?;
            push_u64(out, event.height)?;
            push_u64(out, event.period)
        }
    }
}

/// Appends the key.
fn push_key(out: &mut Vec<u8>, item: &Item) -> Result<(), AllocError>
    ensures written { OnOk result (out.new.items ≡ out.old.items ++ key_bytes item.now) }
    ensures range { OnOk result (IsKeyInRange item.now) }
{
    out.push(kind_of(item).prefix())?;
    push_key_fields(out, item)
}

/// Appends the value.
fn push_value(out: &mut Vec<u8>, format: Format, item: &Item) -> Result<(), AllocError>
    requires { IsWritable item.now }
    ensures written { OnOk result (out.new.items ≡ out.old.items ++ value_in format item.now) }
    ensures range { OnOk result (IsKeyInRange item.now → IsInRange item.now) }
{
    match item {
        Item::Head { height, time } => {
            out.push(format.number())?;
            push_u64(out, *height)?;
            push_moment(out, *time)
        }
        Item::Parameters { params } => push_params(out, params),
        Item::Balance { amount, .. } | Item::Supply { amount, .. } => push_u128(out, *amount),
        Item::Validator { validator } => push_validator(out, validator),
        Item::Delegation { shares, .. } => push_decimal(out, *shares),
        Item::Unbonding { entries, .. } => push_unbondings(out, entries.as_slice()),
        Item::Redelegation { entries, .. } => push_redelegations(out, entries.as_slice()),
        Item::Signing { info, ring, .. } => {
            push_info(out, info)?;
            push_ring(out, format, ring.as_slice())
        }
        Item::Purse { purse, .. } => push_purse(out, purse),
        Item::Pool { coins } => push_coins(out, coins),
        Item::Withdraw { to, .. } => push_user(out, to),
        Item::CurrentPeriod { period, .. } => push_u64(out, *period),
        Item::Historical { history, .. } => push_history(out, history),
        Item::Start { info, .. } => push_starting(out, info),
        Item::Event { event, .. } => push_decimal(out, event.fraction),
    }
}

/// The key of the item's row, which only the fields of its key tell.
///
/// # Errors
/// `NoMemory` alone.
pub fn key_of(alloc: Global, item: &Item) -> Result<Vec<u8>, RowFault>
    ensures key { IfOk result (λ key. key.items ≡ key_bytes item.now) }
    // Each value of the key is in the range of its type.
    ensures range { IfOk result (λ _. IsKeyInRange item.now) }
    ensures fault { IfErr result (λ fault. fault ≡ RowFault.NoMemory) }
{
    let mut key = Vec::with_capacity(alloc, ROOM)?;
    push_key(&mut key, item)?;
    Ok(key)
}

/// The row of an item in a format. Its lists have fewer than 2^32 elements, and a balance or a
/// supply is not 0.
///
/// # Errors
/// `NoMemory` alone.
pub fn encode(alloc: Global, format: Format, item: &Item) -> Result<Row, RowFault>
    requires { IsWritable item.now }
    ensures row { IfOk result (λ row. pair_of row ≡ row_in format item.now) }
    // So its row is read as this item.
    ensures has { IfOk result (λ _. HasRow item.now) }
    ensures fault { IfErr result (λ fault. fault ≡ RowFault.NoMemory) }
{
    let key = key_of(alloc, item)?;
    let mut value = Vec::with_capacity(alloc, ROOM)?;
    push_value(&mut value, format, item)?;
    Ok(Row { key, value })
}

/// The kind whose keys begin with this byte.
fn kind_at(prefix: u8) -> Result<Kind, RowFault>
    ensures { result ≡ or_bad (kind_of prefix) }
{
    Kind::of(prefix).ok_or(RowFault::BadRow)
}

#[tactic(auto, unfolding(crate::specs::Reading::item_of))]
fn item_of(alloc: Global, format: Format, key: &[u8], value: &[u8]) -> Result<Item, RowFault>
    ensures { Gives (λ i. i) result (item_of format key.now value.now) }
{
    let mut key = Unread { left: key };
    let prefix = byte_at(&mut key)?;
    let kind = kind_at(prefix)?;
    item_in(alloc, format, kind, key.left, value)
}

/// The item of these bytes, and what is known of it.
fn item_found(alloc: Global, format: Format, key: &[u8], value: &[u8]) -> Result<Item, RowFault>
    ensures found { IfOk result
        (λ item. HasRow item × (row_in format item ≡ (key.now, value.now))) }
    ensures alone { IfOk result (λ item. (other : Item) → HasRow other
        → row_in format other ≡ (key.now, value.now) → other ≡ item) }
    ensures only { IsErrOf result RowFault.BadRow
        → (item : Item) → HasRow item → row_in format item ≢ (key.now, value.now) }
{
    item_of(alloc, format, key, value)
}

/// The item of a row in a format.
///
/// # Errors
/// `BadRow`, exactly where the row is that of no item, and `NoMemory`.
pub fn decode(alloc: Global, format: Format, row: &Row) -> Result<Item, RowFault>
    // What is read has a row, and it is this one.
    ensures found { IfOk result (λ item. HasRow item × (row_in format item ≡ pair_of row.now)) }
    // It is the only one that has.
    ensures alone { IfOk result (λ item. (other : Item) → HasRow other
        → row_in format other ≡ pair_of row.now → other ≡ item) }
    // A row that is refused is that of no item.
    ensures only { IsErrOf result RowFault.BadRow
        → (item : Item) → HasRow item → row_in format item ≢ pair_of row.now }
{
    item_found(alloc, format, row.key.as_slice(), row.value.as_slice())
}

/// The item as its row is read.
///
/// # Errors
/// `NoMemory` alone.
pub fn read_back(alloc: Global, format: Format, item: &Item) -> Result<Item, RowFault>
    requires { IsWritable item.now }
    // It is the item that was written.
    ensures same { IfOk result (λ again. again ≡ item.now) }
    ensures fault { IfErr result (λ fault. fault ≡ RowFault.NoMemory) }
{
    let row = encode(alloc, format, item)?;
    decode(alloc, format, &row)
}
