//! What a genesis starts: the accounts hold their coins, validators and delegations stand, and the bonded set is made
//! (Cosmos SDK: `InitGenesis` of `x/bank`, `x/staking`, `x/distribution` and `x/slashing`).

ghost use Rattle.std.specs.Prelude.{◌≡◌, ◌<◌, ◌^◌, [], None, Ok, Err, length, IfOk, IfErr, OnOk};
ghost use Rattle.base_roles.specs.Holdings.{IsBacked};
ghost use Rattle.rule_modules.specs.Answers.{StopsForMemory, WantsMemory};
ghost use Rattle.base_roles.specs.Flow.{each};
ghost use Rattle.base_roles.specs.Staked.{Staked};
ghost use Rattle.base_roles.specs.World.{World};
ghost use Rattle.rule_modules.specs.Chain.{State, Stakes, chain_told, staked_in, with_staked};
ghost use Rattle.mod_bank.specs.Booked.{holding, new_book};
ghost use Rattle.rule_machine.specs.Genesis.{held_at_start};
ghost use Rattle.rule_machine.specs.GenesisConditions.{start_condition, accounts_at_start, creation_of};
ghost use Rattle.rule_machine.specs.GenesisState.{validator_added, delegation_added};
ghost use Rattle.rule_machine.specs.Listening.{Overheard, genesis_heard, overheard_told};
ghost use Rattle.rule_machine.specs.Promises.{IsGoodGenesis};
ghost use Rattle.mod_distribution.specs.Items.{AreInOrder};
ghost use Rattle.chain_modules.specs.Heard.{Hears};
ghost use Rattle.chain_modules.specs.Kept.{Keeps, kept_of, listener_of, parts_of, IsStakeScene};
ghost use Rattle.chain_modules.specs.Marks.{GoOn, AreAtRest, marks_of, no_marks, settled_of};
ghost use Rattle.chain_whole.specs.Answers.{HasHeard, Starts};
ghost use Rattle.chain_whole.specs.Founding.{AreAdding, HaveStarted, IsEmpty, IsAdded, IsNextValidator, IsNextDelegation, delegations_left, set_left, founding_heard, StakesHeard};

use crate::accounts::holders;
use crate::fault::ChainFault;
use crate::supplies::delegated_coins;
use base_coins::Coin;
use base_messages::{Genesis, GenesisDelegation, GenesisValidator};
use base_roles::{BankFault, CreateValidator, Ctx, Extra, Facts, Ground, HookFault, MessageFault};
use base_types::{Account, BondStatus, Denom, Module, Steps};
use chain_blocks::update_set;
use chain_modules::{Modules, let_go};
use mod_bank::BankBalances;
use mod_staking::Origin;
use std::alloc::Global;
use std::mem;
use std::sync::ledger::{Blank, Ledger};

/// The modules that a genesis starts of which no condition holds, settled, with a listener, and the facts of its
/// start.
pub(crate) fn start<E: Extra, L: Ledger>(
    alloc: Global,
    genesis: &Genesis,
    listener: E,
    blank: Blank,
) -> Result<(Modules<E>, Facts), ChainFault>
    requires name { blank.name ≡ L.name }
    requires parts { blank.parts ≡ L.parts }
    requires some { 0 < L.parts }
    requires starts { start_condition genesis.now ≡ None }
    ensures started { IfOk result (λ first. Starts genesis.now first.1 (kept_of first.0)) }
    ensures heard { IfOk result (λ first. HasHeard
        (genesis_heard E.hears genesis.now (E.heard listener)) (E.heard (listener_of first.0))) }
    ensures rest { IfOk result (λ first. AreAtRest first.0) }
    ensures settled { IfOk result (λ first. settled_of first.0 ≡ parts_of first.0) }
    ensures order { IfOk result (λ first. AreInOrder (settled_of first.0).shared) }
    ensures fault { IfErr result (λ fault. fault ≡ ChainFault.NoMemory) }
{
    let mut steps: Steps<L> = Steps::new(blank);
    let mut modules = empty_modules(alloc, genesis, listener, &mut steps)?;
    let told = found(alloc, &mut modules, genesis, &mut steps);
    founded(modules, told)
}

/// The modules, with what founding them told; or why that failed.
fn founded<E: Extra>(
    modules: Modules<E>,
    told: Result<Facts, ChainFault>,
) -> Result<(Modules<E>, Facts), ChainFault>
    ensures modules { IfOk result (λ first. first.0 ≡ modules) }
    ensures facts { IfOk result (λ first. told ≡ Ok first.1) }
    ensures fault { IfErr result (λ fault. told ≡ Err fault) }
{
    match told {
        Ok(facts) => Ok((modules, facts)),
        Err(fault) => {
            let_go(modules);
            Err(fault)
        }
    }
}

/// The modules before the first validator of a genesis that starts a chain: the accounts hold their coins.
fn empty_modules<E: Extra, L: Ledger>(
    alloc: Global,
    genesis: &Genesis,
    listener: E,
    steps: &mut Steps<L>,
) -> Result<Modules<E>, ChainFault>
    requires starts { start_condition genesis.now ≡ None }
    ensures empty { IfOk result (IsEmpty genesis.now) }
    ensures unmarked { IfOk result (λ modules. marks_of modules ≡ no_marks) }
    ensures listener { IfOk result (λ modules. listener_of modules ≡ listener) }
    ensures fault { IfErr result (λ fault. fault ≡ ChainFault.NoMemory) }
{
    let bank = start_book(alloc, genesis, steps)?;
    let ground = Ground {
        bank,
        ctx: Ctx {
            height: 0,
            time: genesis.time,
            params: genesis.params,
        },
        facts: Facts::new(alloc),
    };
    Ok(Modules::over(alloc, ground, listener))
}

/// Adds what a genesis delegates, makes the bonded set, settles the modules, and takes the facts of all that.
fn found<E: Extra, L: Ledger>(
    alloc: Global,
    modules: &mut Modules<E>,
    genesis: &Genesis,
    steps: &mut Steps<L>,
) -> Result<Facts, ChainFault>
    requires starts { start_condition genesis.now ≡ None }
    requires empty { IsEmpty genesis.now modules.old }
    requires unmarked { marks_of modules.old ≡ no_marks }
    ensures started { IfOk result (λ facts. Starts genesis.now facts (kept_of modules.new)) }
    ensures heard { IfOk result (λ _. HasHeard
        (genesis_heard E.hears genesis.now (E.heard (listener_of modules.old)))
        (E.heard (listener_of modules.new))) }
    ensures rest { IfOk result (λ _. AreAtRest modules.new) }
    ensures settled { IfOk result (λ _. settled_of modules.new ≡ parts_of modules.new) }
    ensures order { IfOk result (λ _. AreInOrder (settled_of modules.new).shared) }
    ensures fault { IfErr result (λ fault. fault ≡ ChainFault.NoMemory) }
{
    are_few(genesis.delegations.as_slice());
    add_stake(alloc, modules, genesis, steps)?;
    let facts = mem::replace(&mut modules.ground.facts, Facts::new(alloc));
    modules.ordered();
    modules.settle(steps);
    Ok(facts)
}

/// It tells that there are fewer than 10^18 delegations, since each takes more than 16 bytes, and does nothing.
fn are_few(delegations: &[GenesisDelegation])
    ensures { length delegations.now < 10 ^ 18 }
{
    let _ = delegations.len();
}

/// The bank of a genesis that starts a chain: each account has its coins, and the not-bonded account what is
/// delegated.
fn start_book<L: Ledger>(
    alloc: Global,
    genesis: &Genesis,
    steps: &mut Steps<L>,
) -> Result<BankBalances, ChainFault>
    requires starts { start_condition genesis.now ≡ None }
    ensures book { IfOk result
        (λ book. book ≡ holding (held_at_start (accounts_at_start genesis.now)) new_book) }
    ensures backed { IfOk result (λ book. IsBacked book.holdings) }
    ensures fault { IfErr result (λ fault. fault ≡ ChainFault.NoMemory) }
{
    let mut holders = holders(alloc, genesis.accounts.as_slice())?;
    let pool = Account::Module(Module::NotBonded);
    holders.push((pool, delegated_coins(alloc, genesis)?))?;
    match BankBalances::start(alloc, &holders, steps) {
        Ok(book) => Ok(book),
        Err(BankFault::NoMemory) => Err(ChainFault::NoMemory),
        Err(BankFault::Short) => unreachable!(),
    }
}

/// The message that would create a validator of a genesis, with an amount of nothing.
fn creation_of(bond: &Denom, v: &GenesisValidator) -> CreateValidator
    ensures { result ≡ creation_of bond.now v.now }
{
    CreateValidator {
        validator: v.operator,
        cons: v.cons,
        rate: v.rate,
        max_rate: v.max_rate,
        max_change_rate: v.max_change_rate,
        min_self_delegation: v.min_self_delegation,
        amount: Coin {
            denom: *bond,
            amount: 0,
        },
    }
}

/// The fault of a call that is not refused.
fn never_refused(why: MessageFault) -> ChainFault
    requires { StopsForMemory why }
    ensures { result ≡ ChainFault.NoMemory }
{
    match why {
        MessageFault::NoMemory => ChainFault::NoMemory,
        MessageFault::Refused(_) => unreachable!(),
    }
}

/// The fault of a call that is not over.
fn never_over(fault: HookFault) -> ChainFault
    requires { WantsMemory fault }
    ensures { result ≡ ChainFault.NoMemory }
{
    match fault {
        HookFault::NoMemory => ChainFault::NoMemory,
        HookFault::Over(_) => unreachable!(),
    }
}

/// Adds the validators and the delegations of a genesis that starts a chain, and makes the bonded set.
fn add_stake<E: Extra, L: Ledger>(
    alloc: Global,
    modules: &mut Modules<E>,
    genesis: &Genesis,
    steps: &mut Steps<L>,
) -> Result<(), ChainFault>
    requires good { IsGoodGenesis genesis.now }
    requires empty { IsEmpty genesis.now modules.old }
    ensures started { OnOk result (HaveStarted genesis.now modules.new) }
    ensures heard { (c : Stakes) (s : World Staked (Overheard E.Heard))
        → Hears E.heard Keeps modules.old (with_staked c s) → OnOk result (StakesHeard E.heard c
        (founding_heard E.hears genesis.now s) modules.new) }
    ensures go_on { GoOn modules.old modules.new }
    ensures fault { IfErr result (λ fault. fault ≡ ChainFault.NoMemory) }
{
    add_validators(alloc, modules, genesis, steps)?;
    add_delegations(alloc, modules, genesis, steps)?;
    match update_set(alloc, modules, steps) {
        Ok(()) => Ok(()),
        Err(fault) => Err(never_over(fault)),
    }
}

/// Adds the validators of a genesis that starts a chain, in their order.
fn add_validators<E: Extra, L: Ledger>(
    alloc: Global,
    modules: &mut Modules<E>,
    genesis: &Genesis,
    steps: &mut Steps<L>,
) -> Result<(), ChainFault>
    requires starts { start_condition genesis.now ≡ None }
    requires empty { IsEmpty genesis.now modules.old }
    ensures added { OnOk result (AreAdding genesis.now genesis.now.delegations
        (delegations_left genesis.now.delegations) modules.new) }
    ensures heard { (c : Stakes) (s : World Staked (Overheard E.Heard))
        → Hears E.heard Keeps modules.old (with_staked c s) → OnOk result (StakesHeard E.heard c
        (each (validator_added (overheard_told E.hears)) genesis.now.validators s) modules.new) }
    ensures go_on { GoOn modules.old modules.new }
    ensures fault { IfErr result (λ fault. fault ≡ ChainFault.NoMemory) }
{
    let validators = genesis.validators.as_slice();
    for v in validators {
        add_validator(alloc, modules, v, steps)?;
    }
    Ok(())
}

/// Adds the next validator of a genesis.
fn add_validator<E: Extra, L: Ledger>(
    alloc: Global,
    modules: &mut Modules<E>,
    v: &GenesisValidator,
    steps: &mut Steps<L>,
) -> Result<(), ChainFault>
    requires next { IsNextValidator v.now modules.old }
    ensures added { (p : State) → Keeps (kept_of modules.old) p → OnOk result
        (IsAdded p.mine (validator_added chain_told v.now (staked_in p)) (kept_of modules.new)) }
    ensures heard { (c : Stakes) (s : World Staked (Overheard E.Heard))
        → Hears E.heard Keeps modules.old (with_staked c s) → OnOk result (StakesHeard E.heard c
        (validator_added (overheard_told E.hears) v.now s) modules.new) }
    ensures scene { OnOk result (IsStakeScene modules.new) }
    ensures go_on { GoOn modules.old modules.new }
    ensures fault { IfErr result (λ fault. fault ≡ ChainFault.NoMemory) }
{
    let m = creation_of(&modules.ground.ctx.params.bond_denom, v);
    let admitted = modules
        .stakes
        .staking
        .admit(alloc, &mut modules.ground, &mut modules.hooks, &m, steps);
    match admitted {
        Ok(()) => Ok(()),
        Err(fault) => Err(never_over(fault)),
    }
}

/// Adds the delegations of a genesis whose validators stand, in their order.
fn add_delegations<E: Extra, L: Ledger>(
    alloc: Global,
    modules: &mut Modules<E>,
    genesis: &Genesis,
    steps: &mut Steps<L>,
) -> Result<(), ChainFault>
    requires good { IsGoodGenesis genesis.now }
    requires adding { AreAdding genesis.now genesis.now.delegations
        (delegations_left genesis.now.delegations) modules.old }
    ensures added { OnOk result (AreAdding genesis.now [] set_left modules.new) }
    ensures heard { (c : Stakes) (s : World Staked (Overheard E.Heard))
        → Hears E.heard Keeps modules.old (with_staked c s) → OnOk result (StakesHeard E.heard c
        (each (delegation_added (overheard_told E.hears)) genesis.now.delegations s) modules.new) }
    ensures go_on { GoOn modules.old modules.new }
    ensures fault { IfErr result (λ fault. fault ≡ ChainFault.NoMemory) }
{
    let delegations = genesis.delegations.as_slice();
    for d in delegations {
        add_delegation(alloc, modules, d, steps)?;
    }
    Ok(())
}

/// Adds the next delegation of a genesis, of coins that the not-bonded account has already.
fn add_delegation<E: Extra, L: Ledger>(
    alloc: Global,
    modules: &mut Modules<E>,
    d: &GenesisDelegation,
    steps: &mut Steps<L>,
) -> Result<(), ChainFault>
    requires next { IsNextDelegation d.now modules.old }
    ensures added { (p : State) → Keeps (kept_of modules.old) p → OnOk result
        (IsAdded p.mine (delegation_added chain_told d.now (staked_in p)) (kept_of modules.new)) }
    ensures heard { (c : Stakes) (s : World Staked (Overheard E.Heard))
        → Hears E.heard Keeps modules.old (with_staked c s) → OnOk result (StakesHeard E.heard c
        (delegation_added (overheard_told E.hears) d.now s) modules.new) }
    ensures scene { OnOk result (IsStakeScene modules.new) }
    ensures go_on { GoOn modules.old modules.new }
    ensures fault { IfErr result (λ fault. fault ≡ ChainFault.NoMemory) }
{
    let delegated = modules.stakes.staking.delegate(
        alloc,
        &mut modules.ground,
        &mut modules.hooks,
        &d.delegator,
        &d.validator,
        d.amount,
        Origin::Pool(BondStatus::Unbonded),
        steps,
    );
    match delegated {
        Ok(_) => Ok(()),
        Err(why) => Err(never_refused(why)),
    }
}
