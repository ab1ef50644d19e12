//! The counts of a report, and the line of a summary.

use base_coins::{Coin, Coins, DecCoin, DecCoins};
use base_decimals::Dec;
use base_messages::{BlockReport, Outcome, TxReport};
use base_roles::{Fact, Facts, Listed};
use base_types::{Denom, Module, Moment};
use run_trial::{Counts, push_summary};
use std::process::Abort;
use std::test::Fail;

fn uatom(rt: &impl Abort, amount: u64) -> Coin {
    Coin {
        denom: Denom::of(b"uatom".as_slice()).expect(rt, "a denomination"),
        amount: amount.into(),
    }
}

fn coins(rt: &(impl Abort + AllocGlobal), amount: u64) -> Result<Coins, Fail> {
    let coin = Coin {
        denom: Denom::of(b"uatom".as_slice()).expect(rt, "a denomination"),
        amount: amount.into(),
    };
    Ok(Coins::of(vec![in rt.alloc(); coin]?)?)
}

/// So many units of 10^-18.
fn part(rt: &(impl Abort + AllocGlobal), raw: u128) -> Result<DecCoins, Fail> {
    let coin = DecCoin {
        denom: Denom::of(b"uatom".as_slice()).expect(rt, "a denomination"),
        amount: Dec::from_raw(raw).expect(rt, "below the limit"),
    };
    Ok(DecCoins::of(vec![in rt.alloc(); coin]?)?)
}

/// The summary of four blocks, worked by hand.
#[test]
fn a_summary_is_one_line(rt: HostRuntime) -> Result<(), Fail> {
    let counts = Counts {
        blocks: 4,
        accepted: 5,
        refused: 2,
        burned: 50_000,
    };
    let supply = coins(&rt, 4_951_000)?;
    let pool = part(&rt, 51_999_999_999_997_000_300)?;
    let mut text = Vec::new(rt.alloc());
    push_summary(rt.alloc(), &mut text, &counts, &supply, &pool)?;
    assert!(rt;
        text.as_slice()
            == b"{\"accepted\":5,\"blocks\":4,\"burned\":\"50000\",\"kind\":\"trial\",\"pool\":[{\"amount\":\"51.999999999997000300\",\"denom\":\"uatom\"}],\"refused\":2,\"supply\":[{\"amount\":\"4951000\",\"denom\":\"uatom\"}]}\n".as_slice()
    );
    Ok(())
}

/// A block that burns 3 at its beginning, and whose only transaction has an unpaid fee.
#[test]
fn a_report_is_counted(rt: HostRuntime) -> Result<(), Fail> {
    let burn = Fact::Burn {
        from: Module::Bonded,
        coin: uatom(&rt, 3),
    };
    let unpaid = TxReport {
        facts: Facts::new(rt.alloc()),
        outcome: Outcome::FeeUnpaid,
    };
    let report = BlockReport {
        height: 1,
        time: Moment::of(1_704_067_205_000_000_000).expect(&rt, "a moment"),
        begun: Facts::of(vec![in rt.alloc(); burn]?),
        txs: Listed::of(vec![in rt.alloc(); unpaid]?),
        ended: Facts::new(rt.alloc()),
    };
    let mut counts = Counts::new();
    counts.add(&report);
    assert_eq!(rt; counts.blocks, 1);
    assert_eq!(rt; counts.accepted, 0);
    assert_eq!(rt; counts.refused, 1);
    assert_eq!(rt; counts.burned, 3);
    Ok(())
}
