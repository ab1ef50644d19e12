//! Those who take part, and what they pay.
ghost use Rattle.std.specs.Prelude.{◌≡◌, ◌≤◌, IfErr, IfOk};
ghost use Rattle.run_generated.specs.Input.{address, coin, coins, signer, time_at, uatom};

use base_coins::{Coin, Coins};
use base_messages::LineFault;
use base_types::{Addr, ConsAddr, Denom, Moment};
use std::alloc::Global;

/// The address of a number: the byte 40 (hexadecimal), zeros, and the number.
pub(crate) fn address(number: u8) -> Addr
    ensures { result ≡ address number }
{
    Addr::of([
        0x40, 0, 0, 0, 0, 0, 0, 0, 0, 0, 0, 0, 0, 0, 0, 0, 0, 0, 0, number,
    ])
    .unwrap()
}

/// The consensus address of a number, which begins with the byte 50.
pub(crate) fn signer(number: u8) -> ConsAddr
    ensures { result ≡ signer number }
{
    ConsAddr::of([
        0x50, 0, 0, 0, 0, 0, 0, 0, 0, 0, 0, 0, 0, 0, 0, 0, 0, 0, 0, number,
    ])
}

/// The one denomination.
pub(crate) fn uatom() -> Denom
    ensures { result ≡ uatom }
{
    Denom::of(b"uatom").unwrap()
}

/// So much of it, as a coin.
pub(crate) fn coin_of(amount: u64) -> Coin
    ensures { result ≡ coin amount }
{
    Coin {
        denom: uatom(),
        amount: amount as u128,
    }
}

/// So much of it, as coins. The only error is `NoMemory`.
pub(crate) fn coins_of(alloc: Global, amount: u64) -> Result<Coins, LineFault>
    ensures coins { IfOk result (λ list. list ≡ coins amount) }
    ensures fault { IfErr result (λ fault. fault ≡ LineFault.NoMemory) }
{
    let mut list = Vec::new(alloc);
    list.push(Coin {
        denom: uatom(),
        amount: amount as u128,
    })?;
    match Coins::of(list) {
        Ok(coins) => Ok(coins),
        // It never comes: one denomination stands once.
        Err(_) => Err(LineFault::NoMemory),
    }
}

/// The time of the block at a height: five seconds for each, after 2024-01-01T00:00:00Z.
pub(crate) fn time_at(height: u64) -> Moment
    requires { height ≤ 100_000 }
    ensures { result ≡ time_at height }
{
    Moment::of((1_704_067_200 + 5 * height as u128) * 1_000_000_000).unwrap()
}
