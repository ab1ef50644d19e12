//! Coins and decimal coins: sorted, added, taken apart, multiplied, divided and copied.

use crate::checks::holds;
use crate::values::dec;
use base_coins::{Coin, CoinFault, Coins, DecCoin, DecCoins};
use base_decimals::{LIMIT, Over, OverKind};
use base_types::{Copied, Denom};
use std::process::Abort;

fn denom(rt: &impl Abort, name: &str) -> Denom {
    Denom::of(name.as_bytes()).expect(rt, "a denomination")
}

fn coins(rt: &(impl Abort + AllocGlobal), list: &[(&str, u128)]) -> Coins {
    let mut coins = Vec::new(rt.alloc());
    for (name, amount) in list {
        assert!(rt; *amount < LIMIT);
        let coin = Coin {
            denom: denom(rt, name),
            amount: *amount,
        };
        coins.push(coin).expect(rt, "memory");
    }
    Coins::of(coins).expect(rt, "coins")
}

fn dec_coins(rt: &(impl Abort + AllocGlobal), list: &[(&str, u128)]) -> DecCoins {
    let mut coins = Vec::new(rt.alloc());
    for (name, raw) in list {
        let coin = DecCoin {
            denom: denom(rt, name),
            amount: dec(rt, *raw),
        };
        coins.push(coin).expect(rt, "memory");
    }
    DecCoins::of(coins).expect(rt, "coins")
}

fn has_coin(coins: &Coins, place: usize, denom: &Denom, amount: u128) -> bool {
    match coins.at(place) {
        Some(coin) => (coin.denom == *denom) & (coin.amount == amount),
        None => false,
    }
}

fn has_dec_coin(coins: &DecCoins, place: usize, denom: &Denom, raw: u128) -> bool {
    match coins.at(place) {
        Some(coin) => (coin.denom == *denom) & (coin.amount.raw() == raw),
        None => false,
    }
}

fn expect_coins(rt: &impl Abort, case: &str, coins: &Coins, want: &[(&str, u128)]) {
    for (place, (name, amount)) in want.iter().enumerate() {
        let denom = denom(rt, name);
        holds(rt, case, has_coin(coins, place, &denom, *amount));
        holds(rt, case, coins.amount_of(&denom) == *amount);
    }
    holds(
        rt,
        case,
        (coins.len() == want.len()) & coins.at(want.len()).is_none(),
    );
}

fn expect_dec_coins(rt: &impl Abort, case: &str, coins: &DecCoins, want: &[(&str, u128)]) {
    for (place, (name, raw)) in want.iter().enumerate() {
        let denom = denom(rt, name);
        holds(rt, case, has_dec_coin(coins, place, &denom, *raw));
        holds(rt, case, coins.amount_of(&denom).raw() == *raw);
    }
    holds(
        rt,
        case,
        (coins.len() == want.len()) & coins.at(want.len()).is_none(),
    );
}

fn gives_coins(
    rt: &impl Abort,
    case: &str,
    coins: Result<Coins, CoinFault>,
    want: &[(&str, u128)],
) {
    expect_coins(rt, case, &coins.expect(rt, "coins"), want);
}

fn gives_dec_coins(
    rt: &impl Abort,
    case: &str,
    coins: Result<DecCoins, CoinFault>,
    want: &[(&str, u128)],
) {
    expect_dec_coins(rt, case, &coins.expect(rt, "coins"), want);
}

#[test]
fn a_difference_is_short_at_the_first_greater_coin(rt: HostRuntime) {
    let here = coins(&rt, &[("uatom", 5)]);
    let other = coins(&rt, &[("uatom", 2), ("uosmo", 1)]);
    let second = here.sub_checked(rt.alloc(), &other).err();
    holds(
        &rt,
        "short at the second",
        second == Some(CoinFault::Short(1)),
    );
    let more = coins(&rt, &[("uatom", 6), ("uosmo", 1)]);
    let first = here.sub_checked(rt.alloc(), &more).err();
    holds(
        &rt,
        "short at the first",
        first == Some(CoinFault::Short(0)),
    );
    let rest = other.sub_checked(rt.alloc(), &coins(&rt, &[("uosmo", 1)]));
    gives_coins(&rt, "what is left", rest, &[("uatom", 2)]);
}

#[test]
fn a_decimal_coin_splits_into_whole_and_fraction(rt: HostRuntime) {
    let list = dec_coins(&rt, &[("uatom", 2_750_000_000_000_000_000), ("uosmo", 1)]);
    let (whole, fraction) = list.split(rt.alloc()).expect(&rt, "two lists");
    expect_coins(&rt, "the whole", &whole, &[("uatom", 2)]);
    expect_dec_coins(
        &rt,
        "the fraction",
        &fraction,
        &[("uatom", 750_000_000_000_000_000), ("uosmo", 1)],
    );
}

#[test]
fn the_smaller_list_has_the_smaller_amounts(rt: HostRuntime) {
    let two = dec_coins(
        &rt,
        &[
            ("a1x", 2_000_000_000_000_000_000),
            ("b1x", 1_000_000_000_000_000_000),
        ],
    );
    let one = dec_coins(&rt, &[("a1x", 1_000_000_000_000_000_000)]);
    gives_dec_coins(
        &rt,
        "the smaller second",
        two.min(rt.alloc(), &one),
        &[("a1x", 1_000_000_000_000_000_000)],
    );
    gives_dec_coins(
        &rt,
        "the smaller first",
        one.min(rt.alloc(), &two),
        &[("a1x", 1_000_000_000_000_000_000)],
    );
}

#[test]
fn a_sum_keeps_what_one_side_has_and_is_over_at_the_limit(rt: HostRuntime) {
    let here = coins(&rt, &[("uosmo", 2), ("b1x", 7)]);
    let other = coins(&rt, &[("uatom", 1), ("uosmo", 3)]);
    gives_coins(
        &rt,
        "a sum",
        here.add(rt.alloc(), &other),
        &[("b1x", 7), ("uatom", 1), ("uosmo", 5)],
    );
    let most = dec_coins(
        &rt,
        &[("b1x", 1), ("uatom", LIMIT - 1), ("uosmo", LIMIT - 1)],
    );
    let more = dec_coins(&rt, &[("uatom", 1), ("uosmo", 2)]);
    let over = Over {
        kind: OverKind::Sum,
        a: LIMIT - 1,
        b: 1,
        c: 0,
    };
    let sum = most.add(rt.alloc(), &more).err();
    holds(&rt, "a sum of 10^38", sum == Some(CoinFault::Over(over)));
}

// The expected numbers are by Python's whole numbers.
#[test]
fn products_and_quotients_are_those_of_each_amount(rt: HostRuntime) {
    let list = dec_coins(
        &rt,
        &[
            ("uatom", 1_633_333_333_333_333_331_730),
            ("uosmo", 123_456_789_012_345_678_901),
            ("ux1", 1),
            ("ux2", 30),
        ],
    );
    let rate = dec(&rt, 50_000_000_000_000_000);
    let cut = [
        ("uatom", 81_666_666_666_666_666_586),
        ("uosmo", 6_172_839_450_617_283_945),
        ("ux2", 1),
    ];
    gives_dec_coins(&rt, "cut", list.mul_cut(rt.alloc(), rate), &cut);
    let even = [
        ("uatom", 81_666_666_666_666_666_586),
        ("uosmo", 6_172_839_450_617_283_945),
        ("ux2", 2),
    ];
    gives_dec_coins(
        &rt,
        "to the nearest",
        list.mul_even(rt.alloc(), rate),
        &even,
    );
    let thirds = [
        ("uatom", 544_444_444_444_444_443_910),
        ("uosmo", 41_152_263_004_115_226_300),
        ("ux2", 10),
    ];
    let three = dec(&rt, 3_000_000_000_000_000_000);
    gives_dec_coins(&rt, "a third", list.quo_cut(rt.alloc(), three), &thirds);
    let over = Over {
        kind: OverKind::Quotient,
        a: 1_633_333_333_333_333_331_730,
        b: 1_000_000_000_000_000_000,
        c: 1,
    };
    let least = dec(&rt, 1);
    let quotient = list.quo_cut(rt.alloc(), least).err();
    holds(
        &rt,
        "a quotient above",
        quotient == Some(CoinFault::Over(over)),
    );
}

#[test]
fn whole_amounts_become_decimals_below_10_to_the_20(rt: HostRuntime) {
    let list = coins(&rt, &[("uatom", 3), ("uosmo", 99_999_999_999_999_999_999)]);
    gives_dec_coins(
        &rt,
        "decimals",
        DecCoins::of_coins(rt.alloc(), &list),
        &[
            ("uatom", 3_000_000_000_000_000_000),
            ("uosmo", 99_999_999_999_999_999_999_000_000_000_000_000_000),
        ],
    );
    let more = coins(&rt, &[("uatom", 100_000_000_000_000_000_000)]);
    let over = Over {
        kind: OverKind::Quotient,
        a: 100_000_000_000_000_000_000,
        b: 1_000_000_000_000_000_000,
        c: 1,
    };
    let decimals = DecCoins::of_coins(rt.alloc(), &more).err();
    holds(&rt, "10^20", decimals == Some(CoinFault::Over(over)));
}

#[test]
fn coins_in_any_order_are_sorted_without_zeros(rt: HostRuntime) {
    expect_coins(&rt, "none", &coins(&rt, &[]), &[]);
    expect_dec_coins(&rt, "no decimals", &DecCoins::new(rt.alloc()), &[]);
    let list = coins(&rt, &[("uosmo", 4), ("b1x", 0), ("uatom", 2)]);
    expect_coins(&rt, "sorted", &list, &[("uatom", 2), ("uosmo", 4)]);
    holds(&rt, "of 0", list.amount_of(&denom(&rt, "b1x")) == 0);
}

fn copy_of<T: Copied>(rt: &impl Abort, value: &T) -> T {
    value.copied().expect(rt, "memory")
}

#[test]
fn copies_are_equal(rt: HostRuntime) {
    let list = coins(&rt, &[("uatom", 2), ("uosmo", 4)]);
    expect_coins(
        &rt,
        "a copy",
        &copy_of(&rt, &list),
        &[("uatom", 2), ("uosmo", 4)],
    );
    let decimals = DecCoins::of_coins(rt.alloc(), &list).expect(&rt, "decimals");
    let copy = copy_of(&rt, &decimals);
    holds(&rt, "as long", copy.len() == 2);
    let coin = copy.at(1).expect(&rt, "a coin");
    holds(&rt, "of a decimal coin", copy_of(&rt, coin) == *coin);
    let whole = list.at(0).expect(&rt, "a coin");
    holds(&rt, "of a coin", copy_of(&rt, whole) == *whole);
}

#[test]
fn a_denomination_stands_once_also_with_amount_0(rt: HostRuntime) {
    let list = vec![in rt.alloc();
        DecCoin {
            denom: denom(&rt, "uosmo"),
            amount: dec(&rt, 4)
        },
        DecCoin {
            denom: denom(&rt, "uatom"),
            amount: dec(&rt, 2)
        },
        DecCoin {
            denom: denom(&rt, "uosmo"),
            amount: dec(&rt, 0)
        },
    ];
    let list = list.expect(&rt, "memory");
    holds(
        &rt,
        "twice",
        DecCoins::of(list).err() == Some(CoinFault::Repeated),
    );
}

#[test]
fn the_longest_denomination_stands_behind_its_beginning(rt: HostRuntime) {
    let longest = Denom::of(&[b'a'; 128]).expect(&rt, "128 bytes");
    let shorter = Denom::of(&[b'a'; 127]).expect(&rt, "127 bytes");
    let one = dec(&rt, 1);
    let list = vec![in rt.alloc();
        DecCoin {
            denom: longest,
            amount: one
        },
        DecCoin {
            denom: shorter,
            amount: one
        },
    ];
    let list = DecCoins::of(list.expect(&rt, "memory")).expect(&rt, "coins");
    holds(
        &rt,
        "the shorter first",
        has_dec_coin(&list, 0, &shorter, 1),
    );
    holds(
        &rt,
        "the longest behind",
        has_dec_coin(&list, 1, &longest, 1),
    );
    holds(&rt, "its amount", list.amount_of(&longest) == one);
}

// The last digit of a number.
fn digit(number: u32) -> u8 {
    (number % 10) as u8 + b'0'
}

// One of a thousand denominations, in the order of the numbers.
fn numbered(rt: &impl Abort, number: u32) -> Denom {
    let name = [b'd', digit(number / 100), digit(number / 10), digit(number)];
    Denom::of(&name).expect(rt, "a denomination")
}

#[test]
fn a_thousand_denominations_are_sorted_from_any_order(rt: HostRuntime) {
    let mut list = Vec::new(rt.alloc());
    for k in 0..1000u32 {
        let number = k * 337 % 1000;
        let coin = DecCoin {
            denom: numbered(&rt, number),
            amount: dec(&rt, u128::from(number) + 1),
        };
        list.push(coin).expect(&rt, "memory");
    }
    let list = DecCoins::of(list).expect(&rt, "coins");
    holds(&rt, "all", list.len() == 1000);
    let twice = list.add(rt.alloc(), &list).expect(&rt, "a sum");
    for k in 0..1000u32 {
        let (denom, amount) = (numbered(&rt, k), u128::from(k) + 1);
        holds(
            &rt,
            "in order",
            has_dec_coin(&list, k as usize, &denom, amount),
        );
        holds(&rt, "twice", twice.amount_of(&denom).raw() == 2 * amount);
    }
    gives_dec_coins(
        &rt,
        "nothing is left",
        list.sub_checked(rt.alloc(), &list),
        &[],
    );
}
