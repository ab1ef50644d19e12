//! The last height and time, and the parameters, as items, and which of them changed.

ghost use Rattle.std.specs.Prelude.{◌≡◌, ◌++◌, List, Bool, OnOk};
ghost use Rattle.base_roles.specs.declared.items.Item.{Item};
ghost use Rattle.base_roles.specs.declared.items.Item.TheVariants as item;
ghost use Rattle.chain_modules.specs.Items.{ctx_items, ctx_changes, head_changes, params_changes, same_head, same_params};

use base_roles::{Ctx, Item, Params, RecordFault};

/// Appends the last height and time, and the parameters.
pub(crate) fn ctx_into(ctx: &Ctx, out: &mut Vec<Item>) -> Result<(), RecordFault>
    ensures items { OnOk result (out.new.items ≡ out.old.items ++ ctx_items ctx.now) }
    ensures err { (some : List Item) × (out.new.items ≡ out.old.items ++ some) }
{
    out.push(head_of(ctx))?;
    out.push(Item::Parameters { params: ctx.params })?;
    Ok(())
}

/// The item of the last height and time.
fn head_of(ctx: &Ctx) -> Item
    ensures { result ≡ item.Head ctx.now.height ctx.now.time }
{
    Item::Head {
        height: ctx.height,
        time: ctx.time,
    }
}

/// Appends those of the last height and time and of the parameters that changed.
pub(crate) fn ctx_changes_into(
    settled: &Ctx,
    ctx: &Ctx,
    out: &mut Vec<(Item, bool)>,
) -> Result<(), RecordFault>
    ensures changes { OnOk result
        (out.new.items ≡ out.old.items ++ ctx_changes settled.now ctx.now) }
    ensures err { (some : List (Item × Bool)) × (out.new.items ≡ out.old.items ++ some) }
{
    head_changes_into(settled, ctx, out)?;
    params_changes_into(settled, ctx, out)
}

/// Appends the last height and time where one of them changed.
fn head_changes_into(
    settled: &Ctx,
    ctx: &Ctx,
    out: &mut Vec<(Item, bool)>,
) -> Result<(), RecordFault>
    ensures changes { OnOk result
        (out.new.items ≡ out.old.items ++ head_changes settled.now ctx.now) }
    ensures err { (some : List (Item × Bool)) × (out.new.items ≡ out.old.items ++ some) }
{
    if is_same_head(ctx, settled) {
        return Ok(());
    }
    out.push((head_of(ctx), true))?;
    Ok(())
}

/// Appends the parameters where one of them changed.
fn params_changes_into(
    settled: &Ctx,
    ctx: &Ctx,
    out: &mut Vec<(Item, bool)>,
) -> Result<(), RecordFault>
    ensures changes { OnOk result
        (out.new.items ≡ out.old.items ++ params_changes settled.now ctx.now) }
    ensures err { (some : List (Item × Bool)) × (out.new.items ≡ out.old.items ++ some) }
{
    if is_same_params(&ctx.params, &settled.params) {
        return Ok(());
    }
    out.push((Item::Parameters { params: ctx.params }, true))?;
    Ok(())
}

/// Whether two contexts are of one height and time.
fn is_same_head(a: &Ctx, b: &Ctx) -> bool
    ensures { result ≡ same_head a.now b.now }
{
    a.height == b.height && a.time.nanos() == b.time.nanos()
}

/// Whether two parameters are one, field by field.
fn is_same_params(a: &Params, b: &Params) -> bool
    ensures { result ≡ same_params a.now b.now }
{
    a.bond_denom == b.bond_denom
        && a.power_reduction == b.power_reduction
        && a.unbonding_time == b.unbonding_time
        && a.max_validators == b.max_validators
        && a.max_entries == b.max_entries
        && a.min_commission_rate.raw() == b.min_commission_rate.raw()
        && a.community_tax.raw() == b.community_tax.raw()
        && a.withdraw_addr_enabled == b.withdraw_addr_enabled
        && a.signed_blocks_window == b.signed_blocks_window
        && a.min_signed_per_window.raw() == b.min_signed_per_window.raw()
        && a.downtime_jail_duration == b.downtime_jail_duration
        && a.slash_fraction_double_sign.raw() == b.slash_fraction_double_sign.raw()
        && a.slash_fraction_downtime.raw() == b.slash_fraction_downtime.raw()
        && a.max_age_duration == b.max_age_duration
        && a.max_age_num_blocks == b.max_age_num_blocks
        && a.authority == b.authority
}
