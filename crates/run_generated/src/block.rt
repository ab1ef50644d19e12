//! The blocks of the generated input, drawn one after another.
ghost use Rattle.std.specs.Prelude.{◌≡◌, ◌≤◌, ◌<◌, ℕ, IfErr, IfOk, OnOk};
ghost use Rattle.run_generated.specs.Drawing.{Draw, in_turn, numbers_from};
ghost use Rattle.run_generated.specs.Input.{block_drawn, chance_drawn, choices_drawn, evidence_drawn, message_of, offence_drawn, payer_of, tx_drawn, tx_of, vote_drawn};

use crate::choices::Choices;
use crate::drawing::Generator;
use crate::names::{address, coin_of, coins_of, signer, time_at};
use base_messages::{
    BeginRedelegate, Block, Delegate, LineFault, Msg, Send, Tx, Undelegate, WithdrawCommission,
    WithdrawReward,
};
use base_roles::{Evidence, Listed, Vote};
use base_types::{Account, Addr};
use std::alloc::Global;

/// What a block has several of, each drawn by its number.
trait FromDraws: Drop {
    // how the one of a number is drawn
    ghost drawing: { ℕ → Draw Self };

    /// Draws the one of this number. The only error is `NoMemory`.
    fn draw(generator: &mut Generator, alloc: Global, number: u8) -> Result<Self, LineFault>
        ensures value { IfOk result (λ value. value ≡ (drawing number generator.old).value) }
        ensures state { OnOk result (generator.new ≡ (drawing number generator.old).state) }
        ensures fault { IfErr result (λ fault. fault ≡ LineFault.NoMemory) };
}

/// Draws so many, one after another. The only error is `NoMemory`.
fn in_turn<T: FromDraws>(
    generator: &mut Generator,
    alloc: Global,
    many: u8,
) -> Result<Listed<T>, LineFault>
    ensures value { IfOk result
        (λ list. list ≡ (in_turn T.drawing (numbers_from 0 many) generator.old).value) }
    ensures state { OnOk result
        (generator.new ≡ (in_turn T.drawing (numbers_from 0 many) generator.old).state) }
    ensures fault { IfErr result (λ fault. fault ≡ LineFault.NoMemory) }
{
    let mut list = Vec::new(alloc);
    for number in 0..many {
        let value = T::draw(generator, alloc, number)?;
        list.push(value)?;
    }
    Ok(Listed::of(list))
}

impl FromDraws for Vote {
    ghost drawing = { vote_drawn };

    fn draw(generator: &mut Generator, _alloc: Global, number: u8) -> Result<Vote, LineFault> {
        let missed = generator.pick(20);
        Ok(Vote {
            cons: signer(number),
            power: 10,
            signed: missed != 0,
        })
    }
}

impl FromDraws for Tx {
    ghost drawing = { λ place. tx_drawn };

    fn draw(generator: &mut Generator, alloc: Global, number: u8) -> Result<Tx, LineFault> {
        // All are drawn alike.
        let _place = number;
        let choices = choose(generator);
        let tx = tx_of(alloc, &choices)?;
        Ok(tx)
    }
}

/// What a transaction is made of, drawn whatever its kind is.
fn choose(generator: &mut Generator) -> Choices
    ensures value { result ≡ (choices_drawn generator.old).value }
    ensures state { generator.new ≡ (choices_drawn generator.old).state }
{
    let kind = generator.pick(6);
    let delegator = generator.pick(30);
    let validator = generator.pick(10);
    let amount = generator.pick(1_000_000);
    let other = generator.pick(40);
    Choices {
        kind: kind as u8,
        delegator: 10 + delegator as u8,
        validator: validator as u8,
        amount: 1 + amount,
        other: other as u8,
    }
}

/// The one message of a transaction. The only error is `NoMemory`.
fn message_of(alloc: Global, choices: &Choices) -> Result<Msg, LineFault>
    ensures message { IfOk result (λ message. message ≡ message_of choices.now) }
    ensures fault { IfErr result (λ fault. fault ≡ LineFault.NoMemory) }
{
    let chosen = *choices;
    let delegator = address(chosen.delegator);
    let validator = address(chosen.validator);
    let amount = coin_of(chosen.amount);
    if chosen.kind == 0 {
        Ok(Msg::Delegate(Delegate {
            delegator,
            validator,
            amount,
        }))
    } else if chosen.kind == 1 {
        Ok(Msg::Undelegate(Undelegate {
            delegator,
            validator,
            amount,
        }))
    } else if chosen.kind == 2 {
        Ok(Msg::BeginRedelegate(BeginRedelegate {
            delegator,
            source: validator,
            target: address(chosen.other % 10),
            amount,
        }))
    } else if chosen.kind == 3 {
        Ok(Msg::WithdrawReward(WithdrawReward {
            delegator,
            validator,
        }))
    } else if chosen.kind == 4 {
        Ok(Msg::WithdrawCommission(WithdrawCommission { validator }))
    } else {
        let sent = coins_of(alloc, chosen.amount)?;
        Ok(Msg::Send(Send {
            from: delegator,
            to: Account::User(address(chosen.other)),
            coins: sent,
        }))
    }
}

/// Who pays the fee: the operator for the withdrawal of its commission, and the delegator for all else.
fn payer_of(choices: &Choices) -> Addr
    ensures { result ≡ payer_of choices.now }
{
    if choices.kind == 4 {
        address(choices.validator)
    } else {
        address(choices.delegator)
    }
}

/// The transaction, with a fee of 1,000. The only error is `NoMemory`.
fn tx_of(alloc: Global, choices: &Choices) -> Result<Tx, LineFault>
    ensures tx { IfOk result (λ tx. tx ≡ tx_of choices.now) }
    ensures fault { IfErr result (λ fault. fault ≡ LineFault.NoMemory) }
{
    let message = message_of(alloc, choices)?;
    let fee = coins_of(alloc, 1_000)?;
    let mut msgs = Vec::new(alloc);
    msgs.push(message)?;
    Ok(Tx {
        payer: payer_of(choices),
        fee,
        msgs: Listed::of(msgs),
    })
}

/// Evidence against some validator, of the block before. The only error is `NoMemory`.
fn offence_drawn(
    generator: &mut Generator,
    alloc: Global,
    height: u64,
) -> Result<Listed<Evidence>, LineFault>
    requires some { 0 < height }
    requires most { height ≤ 100_000 }
    ensures value { IfOk result (λ list. list ≡ (offence_drawn height generator.old).value) }
    ensures state { OnOk result (generator.new ≡ (offence_drawn height generator.old).state) }
    ensures fault { IfErr result (λ fault. fault ≡ LineFault.NoMemory) }
{
    let offender = generator.pick(10);
    let mut list = Vec::new(alloc);
    list.push(Evidence {
        cons: signer(offender as u8),
        height: height - 1,
        time: time_at(height - 1),
        power: 10,
    })?;
    Ok(Listed::of(list))
}

/// Evidence in one block of five hundred. The only error is `NoMemory`.
fn chance_drawn(
    generator: &mut Generator,
    alloc: Global,
    height: u64,
) -> Result<Listed<Evidence>, LineFault>
    requires some { 0 < height }
    requires most { height ≤ 100_000 }
    ensures value { IfOk result (λ list. list ≡ (chance_drawn height generator.old).value) }
    ensures state { OnOk result (generator.new ≡ (chance_drawn height generator.old).state) }
    ensures fault { IfErr result (λ fault. fault ≡ LineFault.NoMemory) }
{
    let chance = generator.pick(500);
    if chance == 0 {
        offence_drawn(generator, alloc, height)
    } else {
        Ok(Listed::new(alloc))
    }
}

/// The evidence of a block; nothing is drawn for the first. The only error is `NoMemory`.
fn evidence_drawn(
    generator: &mut Generator,
    alloc: Global,
    height: u64,
) -> Result<Listed<Evidence>, LineFault>
    requires some { 0 < height }
    requires most { height ≤ 100_000 }
    ensures value { IfOk result (λ list. list ≡ (evidence_drawn height generator.old).value) }
    ensures state { OnOk result (generator.new ≡ (evidence_drawn height generator.old).state) }
    ensures fault { IfErr result (λ fault. fault ≡ LineFault.NoMemory) }
{
    if height < 2 {
        Ok(Listed::new(alloc))
    } else {
        chance_drawn(generator, alloc, height)
    }
}

impl Generator {
    /// Draws the block of this height, which is the one behind those that were drawn. The only error is `NoMemory`.
    pub fn block(&mut self, alloc: Global, height: u64) -> Result<Block, LineFault>
        requires some { 0 < height }
        requires most { height ≤ 100_000 }
        ensures value { IfOk result (λ block. block ≡ (block_drawn height self.old).value) }
        ensures state { OnOk result (self.new ≡ (block_drawn height self.old).state) }
        ensures fault { IfErr result (λ fault. fault ≡ LineFault.NoMemory) }
    {
        let votes = in_turn::<Vote>(self, alloc, 10)?;
        let evidence = evidence_drawn(self, alloc, height)?;
        let many = self.pick(4);
        let txs = in_turn::<Tx>(self, alloc, many as u8)?;
        Ok(Block {
            height,
            time: time_at(height),
            votes,
            evidence,
            txs,
        })
    }
}
