//! A chain: a genesis starts it (`InitGenesis`), blocks lead it on, and it lists its items, what changed of them, its
//! supplies, the community pool and pending rewards.

ghost use Rattle.std.specs.Prelude.{◌≡◌, ◌<◌, ◌^◌, All, None, false, IfOk, IfErr, OnOk};
ghost use Rattle.std.specs.List.Sorted.{IsPermutation};
ghost use Rattle.std.specs.Option.{option_copied};
ghost use Rattle.base_roles.specs.Items.{AreChanges};
ghost use Rattle.base_roles.specs.Staked.{validator_at};
ghost use Rattle.rule_machine.specs.GenesisConditions.{start_condition};
ghost use Rattle.rule_machine.specs.Items.{IsInKeyOrder, items_of};
ghost use Rattle.rule_machine.specs.Listening.{block_heard, genesis_heard, hearing};
ghost use Rattle.rule_machine.specs.Promises.{TxHasCoins};
ghost use Rattle.rule_machine.specs.Report.{pending_of};
ghost use Rattle.rule_modules.specs.Chain.{State, shared_in};
ghost use Rattle.law_rewards.specs.Running.{AreStarted};
ghost use Rattle.law_rewards.specs.States.{AreReached};
ghost use Rattle.mod_distribution.specs.Items.{AreInOrder};
ghost use Rattle.chain_modules.specs.Kept.{StandsFor};
ghost use Rattle.chain_modules.specs.Marks.{AreAtRest, settled_of};
ghost use Rattle.chain_blocks.specs.Answers.{Applies};
ghost use Rattle.chain_whole.specs.Answers.{HasHeard, IsGenesisFault, Starts, LeavesChain, GoesOnFairly};
ghost use Rattle.chain_whole.specs.Chained.{chained};
ghost use Rattle.chain_whole.specs.Pending.{ArePendingTo};

use crate::conditions::condition;
use crate::fault::ChainFault;
use crate::listing::{changes_of, items_of, pool_of, settle_modules, supply_of, validator_of};
use crate::pending::{pending_of, pending_to};
use crate::start::start;
use base_coins::{Coins, DecCoins};
use base_messages::{Block, BlockFault, BlockReport, Genesis, Pending};
use base_roles::{Ctx, Extra, Facts, Item, NoHooks, Validator};
use base_types::Addr;
use chain_blocks::apply;
use chain_modules::{Modules, let_go};
use std::alloc::Global;
use std::marker::{Brand, Model};
use std::sync::ledger::Blank;

/// A chain, with a listener that hears what staking does and changes nothing of it; mostly there is none. Contracts
/// see what it keeps and what was settled, which stand for states of the machine, and whether memory was wanting in
/// a block; of these nothing depends on the listener. They also see the listener.
pub struct Chain<E: Extra = NoHooks> {
    modules: Modules<E>,
    /// The height, time and parameters at the last settling.
    settled: Ctx,
    spent: bool,
}

impl<E: Extra> Drop for Chain<E> {
    fn drop(self) {
        let Chain {
            modules,
            settled: _,
            spent: _,
        } = self;
        let_go(modules);
    }
}

impl<E: Extra> Model for Chain<E> {
    ghost use Rattle.mod_distribution.specs.Items.{AreInOrder};
    ghost use Rattle.chain_modules.specs.Marks.{AreAtRest, settled_of};
    ghost use Rattle.chain_whole.specs.Chained.{Listened, chained};

    ghost Value = { Listened E };

    ghost view = { λ c. chained c.modules c.settled c.spent };

    ghost invariant = { λ c. AreAtRest c.modules × AreInOrder (settled_of c.modules).shared };
}

/// The context in which modules stand.
fn ctx_of<E: Extra>(modules: &Modules<E>) -> Ctx
    ensures { result ≡ modules.now.ground.ctx }
{
    modules.ground.ctx
}

impl Chain<NoHooks> {
    /// The chain that a genesis starts, which is settled, and the facts of its start.
    ///
    /// The errors are `BadGenesis`, exactly where a condition keeps the genesis from starting a chain, with
    /// the smallest number of such, and `NoMemory`.
    pub fn genesis(alloc: Global, genesis: &Genesis) -> Result<(Chain, Facts), ChainFault>
        ensures starts { IfOk result (λ _. start_condition genesis.now ≡ None) }
        ensures chain { IfOk result (λ first. Starts genesis.now first.1 first.0.kept) }
        ensures settled { IfOk result (λ first. first.0.settled ≡ first.0.kept) }
        ensures unspent { IfOk result (λ first. first.0.spent ≡ false) }
        ensures fault { IfErr result (IsGenesisFault (start_condition genesis.now)) }
    {
        Chain::with(alloc, genesis, NoHooks::new())
    }
}

impl<E: Extra> Chain<E> {
    /// The chain of modules that were settled as they stand.
    pub fn over(modules: Modules<E>) -> Chain<E>
        requires rest { AreAtRest modules }
        requires order { AreInOrder (settled_of modules).shared }
        ensures { result ≡ chained modules modules.ground.ctx false }
    {
        let settled = ctx_of(&modules);
        Chain {
            modules,
            settled,
            spent: false,
        }
    }

    /// The chain that a genesis starts, with a listener, and the facts of its start, as `genesis` tells of it. The
    /// listener hears the hooks that the start calls.
    pub fn with(
        alloc: Global,
        genesis: &Genesis,
        listener: E,
    ) -> Result<(Chain<E>, Facts), ChainFault>
        ensures starts { IfOk result (λ _. start_condition genesis.now ≡ None) }
        ensures chain { IfOk result (λ first. Starts genesis.now first.1 first.0.kept) }
        ensures heard { IfOk result (λ first. HasHeard
            (genesis_heard E.hears genesis.now (E.heard listener)) (E.heard first.0.listener)) }
        ensures settled { IfOk result (λ first. first.0.settled ≡ first.0.kept) }
        ensures unspent { IfOk result (λ first. first.0.spent ≡ false) }
        ensures fault { IfErr result (IsGenesisFault (start_condition genesis.now)) }
    {
        if let Some(number) = condition(alloc, genesis)? {
            return Err(ChainFault::BadGenesis(number));
        }
        let (modules, facts) = start::<E, Brand>(alloc, genesis, listener, Blank::new(1))?;
        Ok((Chain::over(modules), facts))
    }

    /// The listener. Takes no memory.
    pub fn extra(&self) -> &E
        ensures { result.now ≡ self.now.listener }
    {
        &self.modules.hooks.first.second.listener
    }

    /// The validator of an operator, or None exactly where none has it. Takes no memory.
    pub fn validator(&self, operator: &Addr) -> Option<&Validator>
        ensures { (p : State) → StandsFor self.now.kept p
            → option_copied result ≡ validator_at p.mine.staked operator.now }
    {
        validator_of::<E, Brand>(&self.modules, operator, Blank::new(1))
    }

    /// Applies a block, and tells what it did.
    ///
    /// The errors, of which the first that holds is answered, are: `BadHeight` with the height that was due,
    /// where the block's is another; `BadTime` with the last time, where the time is before the last or in a year
    /// past 9899; then for each vote in order `UnknownVote` where no validator has its consensus address,
    /// `RepeatedVote` where an earlier vote has it, `BadPower` where the powers up to it stand for more than
    /// 10^18 tokens; then for each piece of evidence in order `BadEvidence` where its height is 0 or not below the
    /// block's, its time is after the block's, or its power stands for more than 10^18 tokens; `RatioLimit` with
    /// the operands, where a result of the block's beginning would be 10^38 units or more, or a period that it
    /// ends is 10^18; and `NoMemory`. After all but the last nothing has changed; after `NoMemory` each later
    /// call answers `NoMemory`. Of a block that was applied the listener has heard all hooks.
    pub fn apply_block(&mut self, alloc: Global, block: &Block) -> Result<BlockReport, BlockFault>
        requires height { block.now.height < 2 ^ 63 }
        ensures applies { (p : State) → StandsFor self.old.kept p
            → Applies block.now p self.new.kept result }
        ensures heard { (p : State) → StandsFor self.old.kept p → OnOk result (HasHeard
            (block_heard E.hears E.parted E.ended block.now
            (hearing (E.heard self.old.listener) p)) (E.heard self.new.listener)) }
        ensures leaves { LeavesChain E.heard self.old self.new result }
        // Where the chain stood for a state of reached accounts, as a genesis starts one, a block pays
        // fairly, and leaves such a state again.
        ensures fairly { (p : State) → StandsFor self.old.kept p → AreReached p → AreStarted p
            → All TxHasCoins block.now.txs → IfOk result (GoesOnFairly p self.new.kept) }
    {
        if self.spent {
            return Err(BlockFault::NoMemory);
        }
        match apply::<E, Brand>(alloc, &mut self.modules, block, Blank::new(1)) {
            Ok(report) => Ok(report),
            Err(BlockFault::NoMemory) => {
                self.spent = true;
                Err(BlockFault::NoMemory)
            }
            Err(fault) => Err(fault),
        }
    }

    /// All that the chain keeps, as items: the last height and time, the parameters, balances and supplies,
    /// validators and delegations, unbonding and redelegation entries, signing records, purses and the community
    /// pool, to whom payments go, periods, starts and slash events. Keys ascend in each of these lists. The only
    /// error is `NoMemory`.
    pub fn items(&self, alloc: Global) -> Result<Vec<Item>, ChainFault>
        ensures items { (p : State) → StandsFor self.now.kept p
            → IfOk result (λ items. items.items ≡ items_of p) }
        ensures order { (p : State) → StandsFor self.now.kept p → OnOk result (IsInKeyOrder p) }
        ensures spent { IfOk result (λ _. self.now.spent ≡ false) }
        ensures fault { IfErr result (λ fault. fault ≡ ChainFault.NoMemory) }
    {
        if self.spent {
            return Err(ChainFault::NoMemory);
        }
        Ok(items_of::<E, Brand>(alloc, &self.modules, Blank::new(1))?)
    }

    /// The items by which the state differs from that at the last settling, each once: with true one that is new or
    /// has another value, with false, by its key alone, one that is gone. The only error is `NoMemory`.
    pub fn changes(&self, alloc: Global) -> Result<Vec<(Item, bool)>, ChainFault>
        ensures changes { (p q : State) → StandsFor self.now.settled p → StandsFor self.now.kept q
            → IfOk result (λ changes. AreChanges (items_of p) (items_of q) changes.items) }
        ensures spent { IfOk result (λ _. self.now.spent ≡ false) }
        ensures fault { IfErr result (λ fault. fault ≡ ChainFault.NoMemory) }
    {
        if self.spent {
            return Err(ChainFault::NoMemory);
        }
        let last = &self.settled;
        Ok(changes_of::<E, Brand>(alloc, &self.modules, last, Blank::new(1))?)
    }

    /// From now on changes are told from here. Takes no memory.
    pub fn settle(&mut self)
        ensures settled { self.new.settled ≡ self.old.kept }
        ensures kept { self.new.kept ≡ self.old.kept }
        ensures listener { self.new.listener ≡ self.old.listener }
        ensures spent { self.new.spent ≡ self.old.spent }
    {
        settle_modules::<E, Brand>(&mut self.modules, Blank::new(1));
        self.settled = self.modules.ground.ctx;
    }

    /// What a withdrawal of each delegation at the last height would be paid from, by operator, then delegator; it
    /// changes nothing. The coins are None exactly where the computation meets the limit of decimals. The only error
    /// is `NoMemory`.
    pub fn pending(&self, alloc: Global) -> Result<Vec<Pending>, ChainFault>
        ensures pending { (p : State) → StandsFor self.now.kept p
            → IfOk result (λ list. IsPermutation (pending_of p) list.items) }
        ensures spent { IfOk result (λ _. self.now.spent ≡ false) }
        ensures fault { IfErr result (λ fault. fault ≡ ChainFault.NoMemory) }
    {
        if self.spent {
            return Err(ChainFault::NoMemory);
        }
        Ok(pending_of::<E, Brand>(alloc, &self.modules, Blank::new(1))?)
    }

    /// What a withdrawal of each delegation of this delegator at the last height would be paid from, by operator; it
    /// changes nothing. The only error is `NoMemory`.
    pub fn pending_to(&self, alloc: Global, who: &Addr) -> Result<Vec<Pending>, ChainFault>
        ensures pending { (p : State) → StandsFor self.now.kept p
            → IfOk result (λ list. ArePendingTo p who.now list.items) }
        ensures spent { IfOk result (λ _. self.now.spent ≡ false) }
        ensures fault { IfErr result (λ fault. fault ≡ ChainFault.NoMemory) }
    {
        if self.spent {
            return Err(ChainFault::NoMemory);
        }
        Ok(pending_to::<E, Brand>(alloc, &self.modules, who, Blank::new(1))?)
    }

    /// How much there is of each denomination. The only error is `NoMemory`.
    pub fn supply(&self, alloc: Global) -> Result<Coins, ChainFault>
        ensures coins { (p : State) → StandsFor self.now.kept p
            → IfOk result (λ coins. coins ≡ p.view.bank.supplies) }
        ensures spent { IfOk result (λ _. self.now.spent ≡ false) }
        ensures fault { IfErr result (λ fault. fault ≡ ChainFault.NoMemory) }
    {
        if self.spent {
            return Err(ChainFault::NoMemory);
        }
        Ok(supply_of::<Brand>(alloc, &self.modules.ground.bank, Blank::new(1))?)
    }

    /// The community pool, in units of 10^-18. The only error is `NoMemory`.
    pub fn pool(&self) -> Result<DecCoins, ChainFault>
        ensures coins { (p : State) → StandsFor self.now.kept p
            → IfOk result (λ coins. coins ≡ (shared_in p).purses.pool) }
        ensures spent { IfOk result (λ _. self.now.spent ≡ false) }
        ensures fault { IfErr result (λ fault. fault ≡ ChainFault.NoMemory) }
    {
        if self.spent {
            return Err(ChainFault::NoMemory);
        }
        Ok(pool_of::<Brand>(&self.modules.hooks.first.first, Blank::new(1))?)
    }
}
