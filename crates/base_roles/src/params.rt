//! The parameters of a chain, and the context of a call: height, time and parameters (Cosmos SDK: `Params`,
//! `Context`).

ghost use Rattle.std.specs.Prelude.{◌≡◌, ◌^◌, nat_lt, nat_le, is_none, ⊤};
ghost use Rattle.base_roles.specs.Ranges.{first_number, is_within, out_of_range, ranges_of_slashing, ranges_of_staking};

use base_decimals::Dec;
use base_types::{Addr, Copied, Denom, Moment, TableFault};

/// One, in units of 10^-18, and the most tokens that are one unit of power.
const ONE: u64 = 1_000_000_000_000_000_000;

/// The most that is allowed of a duration in seconds.
const MOST_SECONDS: u64 = 1_000_000_000;

/// The parameters of a chain (Cosmos SDK: those of `x/staking`, `x/distribution`, `x/slashing` and
/// `x/evidence` that the accounting reads).
#[derive(Clone, Copy, Debug, PartialEq, Eq)]
pub struct Params {
    /// The denomination of what is delegated.
    pub bond_denom: Denom,
    /// How many tokens are one unit of power: 1 to 10^18.
    pub power_reduction: u64,
    /// Seconds: 1 to 10^9.
    pub unbonding_time: u64,
    /// 1 to 1,000.
    pub max_validators: u64,
    /// 1 to 100.
    pub max_entries: u64,
    /// At most one.
    pub min_commission_rate: Dec,
    /// At most one.
    pub community_tax: Dec,
    /// Whether a delegator may name another address for its rewards.
    pub withdraw_addr_enabled: bool,
    /// In blocks: 1 to 100,000.
    pub signed_blocks_window: u64,
    /// The part of the window that is to be signed, at most one.
    pub min_signed_per_window: Dec,
    /// Seconds: 0 to 10^9.
    pub downtime_jail_duration: u64,
    /// At most one.
    pub slash_fraction_double_sign: Dec,
    /// At most one.
    pub slash_fraction_downtime: Dec,
    /// Seconds: 0 to 10^9.
    pub max_age_duration: u64,
    /// 0 to 2^63 - 1.
    pub max_age_num_blocks: u64,
    /// Who may spend from the community pool and replace the parameters.
    pub authority: Addr,
}

impl Params {
    /// Whether each is in its range.
    pub fn are_in_range(&self) -> bool
        ensures { result ≡ is_none (out_of_range self.now) }
    {
        self.out_of_range().is_none()
    }

    /// The first that is out of its range, by the number by which lines name it. The bond denomination (10), whether
    /// another payee may be named (17) and the authority (25) have none.
    #[tactic(auto, using(crate::proofs::RangeLemmas::found_first, crate::proofs::RangeLemmas::found_later))]
    pub fn out_of_range(&self) -> Option<u16>
        ensures { result ≡ out_of_range self.now }
    {
        match self.staking_out_of_range() {
            Some(number) => Some(number),
            None => self.slashing_out_of_range(),
        }
    }

    /// The same of those of staking and distribution.
    fn staking_out_of_range(&self) -> Option<u16>
        ensures { result ≡ first_number (ranges_of_staking self.now) }
    {
        if !is_within(1, ONE, self.power_reduction) {
            return Some(11);
        }
        if !is_within(1, MOST_SECONDS, self.unbonding_time) {
            return Some(12);
        }
        if !is_within(1, 1000, self.max_validators) {
            return Some(13);
        }
        if !is_within(1, 100, self.max_entries) {
            return Some(14);
        }
        if !is_part(self.min_commission_rate) {
            return Some(15);
        }
        if !is_part(self.community_tax) {
            return Some(16);
        }
        None
    }

    /// The same of those of slashing and evidence.
    fn slashing_out_of_range(&self) -> Option<u16>
        ensures { result ≡ first_number (ranges_of_slashing self.now) }
    {
        if !is_within(1, 100_000, self.signed_blocks_window) {
            return Some(18);
        }
        if !is_part(self.min_signed_per_window) {
            return Some(19);
        }
        if !is_duration(self.downtime_jail_duration) {
            return Some(20);
        }
        if !is_part(self.slash_fraction_double_sign) {
            return Some(21);
        }
        if !is_part(self.slash_fraction_downtime) {
            return Some(22);
        }
        if !is_duration(self.max_age_duration) {
            return Some(23);
        }
        if !is_count(self.max_age_num_blocks) {
            return Some(24);
        }
        None
    }
}

/// Whether a number is from the one to the other.
fn is_within(least: u64, most: u64, number: u64) -> bool
    ensures { result ≡ is_within least most number }
{
    least <= number && number <= most
}

/// Whether a part is at most one.
fn is_part(part: Dec) -> bool
    ensures { result ≡ nat_le part (10 ^ 18) }
{
    part.raw() <= ONE as u128
}

/// Whether a duration in seconds is at most 10^9.
fn is_duration(seconds: u64) -> bool
    ensures { result ≡ nat_le seconds (10 ^ 9) }
{
    seconds <= MOST_SECONDS
}

/// Whether a number is one that lines can have.
fn is_count(number: u64) -> bool
    ensures { result ≡ nat_lt number (2 ^ 63) }
{
    number < 1 << 63
}

/// Where a call happens: the block's height and time, and the parameters.
#[derive(Clone, Copy, Debug, PartialEq, Eq)]
pub struct Ctx {
    /// At most 2^63 - 1.
    pub height: u64,
    /// Its year is at most 9899.
    pub time: Moment,
    pub params: Params,
}

impl Copied for Params {
    ghost is_infallible = { ⊤ };

    fn copied(&self) -> Result<Params, TableFault> {
        Ok(*self)
    }
}

impl Copied for Ctx {
    ghost is_infallible = { ⊤ };

    fn copied(&self) -> Result<Ctx, TableFault> {
        Ok(*self)
    }
}
