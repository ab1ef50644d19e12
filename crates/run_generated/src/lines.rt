//! The lines of an input: of a genesis, and of a block.
ghost use Rattle.std.specs.Prelude.{◌≡◌, ◌++◌, IfErr, OnOk};
ghost use Rattle.line_json.specs.Line.{line_of};
ghost use Rattle.run_generated.specs.Lines.{block_data, block_line, delegation_data, evidence_data, genesis_data, genesis_line, holder_data, tx_data, validator_data, vote_data};

use crate::params::push_params;
use crate::spelling::{
    Spelled, push_fee, push_kind, push_named_list, push_object, push_payer, push_time,
};
use base_bech32::Form;
use base_messages::{
    Block, Genesis, GenesisAccount, GenesisDelegation, GenesisValidator, LineFault, Msg, Tx,
};
use base_roles::{Evidence, Vote};
use json::Writer;
use line_json::Told;
use std::alloc::Global;
use std::mem;

impl Spelled for Vote {
    ghost spelled = { vote_data };

    fn spell(&self, form: Form, alloc: Global, writer: &mut Writer) -> Result<(), LineFault> {
        let members = [
            ("cons", Told::Cons(form, &self.cons)),
            ("power", Told::Count(self.power)),
            ("signed", Told::Flag(self.signed)),
        ];
        push_object(alloc, writer, &members)
    }
}

impl Spelled for Evidence {
    ghost spelled = { evidence_data };

    fn spell(&self, form: Form, alloc: Global, writer: &mut Writer) -> Result<(), LineFault> {
        let members = [
            ("cons", Told::Cons(form, &self.cons)),
            ("height", Told::Count(self.height)),
            ("power", Told::Count(self.power)),
            ("time", Told::Moment(self.time)),
        ];
        push_object(alloc, writer, &members)
    }
}

impl Spelled for Tx {
    ghost spelled = { tx_data };

    fn spell(&self, form: Form, alloc: Global, writer: &mut Writer) -> Result<(), LineFault> {
        writer.begin_object()?;
        push_fee(alloc, writer, &self.fee)?;
        push_named_list::<Msg>(form, alloc, writer, "msgs", self.msgs.as_slice())?;
        push_payer(form, alloc, writer, &self.payer)?;
        writer.end_object()?;
        Ok(())
    }
}

impl Spelled for GenesisAccount {
    ghost spelled = { holder_data };

    fn spell(&self, form: Form, alloc: Global, writer: &mut Writer) -> Result<(), LineFault> {
        let members = [
            ("address", Told::Account(form, &self.address)),
            ("coins", Told::Coins(&self.coins)),
        ];
        push_object(alloc, writer, &members)
    }
}

impl Spelled for GenesisValidator {
    ghost spelled = { validator_data };

    fn spell(&self, form: Form, alloc: Global, writer: &mut Writer) -> Result<(), LineFault> {
        let members = [
            ("cons", Told::Cons(form, &self.cons)),
            ("max_change_rate", Told::Decimal(self.max_change_rate)),
            ("max_rate", Told::Decimal(self.max_rate)),
            (
                "min_self_delegation",
                Told::Amount(self.min_self_delegation),
            ),
            ("operator", Told::Operator(form, &self.operator)),
            ("rate", Told::Decimal(self.rate)),
        ];
        push_object(alloc, writer, &members)
    }
}

impl Spelled for GenesisDelegation {
    ghost spelled = { delegation_data };

    fn spell(&self, form: Form, alloc: Global, writer: &mut Writer) -> Result<(), LineFault> {
        let members = [
            ("amount", Told::Amount(self.amount)),
            ("delegator", Told::User(form, &self.delegator)),
            ("validator", Told::Operator(form, &self.validator)),
        ];
        push_object(alloc, writer, &members)
    }
}

impl Spelled for Genesis {
    ghost spelled = { genesis_data };

    fn spell(&self, form: Form, alloc: Global, writer: &mut Writer) -> Result<(), LineFault> {
        writer.begin_object()?;
        push_named_list::<GenesisAccount>(
            form,
            alloc,
            writer,
            "accounts",
            self.accounts.as_slice(),
        )?;
        push_named_list::<GenesisDelegation>(
            form,
            alloc,
            writer,
            "delegations",
            self.delegations.as_slice(),
        )?;
        push_kind(writer, "genesis")?;
        writer.key("params")?;
        push_params(form, alloc, writer, &self.params)?;
        push_time(alloc, writer, self.time)?;
        push_named_list::<GenesisValidator>(
            form,
            alloc,
            writer,
            "validators",
            self.validators.as_slice(),
        )?;
        writer.end_object()?;
        Ok(())
    }
}

impl Spelled for Block {
    ghost spelled = { block_data };

    fn spell(&self, form: Form, alloc: Global, writer: &mut Writer) -> Result<(), LineFault> {
        writer.begin_object()?;
        push_named_list::<Evidence>(form, alloc, writer, "evidence", self.evidence.as_slice())?;
        writer.key("height")?;
        writer.u64(self.height)?;
        push_kind(writer, "block")?;
        push_time(alloc, writer, self.time)?;
        push_named_list::<Tx>(form, alloc, writer, "txs", self.txs.as_slice())?;
        push_named_list::<Vote>(form, alloc, writer, "votes", self.votes.as_slice())?;
        writer.end_object()?;
        Ok(())
    }
}

/// Appends the line of a value, and its end.
fn push_line_of<T: Spelled>(
    form: Form,
    alloc: Global,
    out: &mut Vec<u8>,
    value: &T,
) -> Result<(), LineFault>
    ensures ok { OnOk result
        (out.new.items ≡ out.old.items ++ line_of (T.spelled form value.now)) }
    ensures fault { IfErr result (λ fault. fault ≡ LineFault.NoMemory) }
{
    let mut writer = Writer::new(mem::replace(out, Vec::new(alloc)));
    let pushed = value.spell(form, alloc, &mut writer);
    *out = writer.into_inner();
    pushed?;
    out.push(b'\n')?;
    Ok(())
}

/// Appends the line of a genesis, with its end. The only error is `NoMemory`.
pub fn push_genesis_line(
    form: Form,
    alloc: Global,
    out: &mut Vec<u8>,
    genesis: &Genesis,
) -> Result<(), LineFault>
    ensures text { OnOk result (out.new.items ≡ out.old.items ++ genesis_line form genesis.now) }
    ensures fault { IfErr result (λ fault. fault ≡ LineFault.NoMemory) }
{
    push_line_of::<Genesis>(form, alloc, out, genesis)
}

/// Appends the line of a block, with its end. The only error is `NoMemory`.
pub fn push_block_line(
    form: Form,
    alloc: Global,
    out: &mut Vec<u8>,
    block: &Block,
) -> Result<(), LineFault>
    ensures text { OnOk result (out.new.items ≡ out.old.items ++ block_line form block.now) }
    ensures fault { IfErr result (λ fault. fault ≡ LineFault.NoMemory) }
{
    push_line_of::<Block>(form, alloc, out, block)
}
