use base_bech32::{BechFault, Form, spell, spell_into, unspell};
use std::fmt::Display;
use std::process::Abort;

// The row of thirty-two letters among the test vectors of BIP 173.
const EVERY_LETTER: [u8; 20] = [
    0, 68, 50, 20, 199, 66, 84, 182, 53, 207, 132, 101, 58, 86, 215, 198, 117, 190, 119, 223,
];

const EVERY_LETTER_SPELLED: &str = "abcdef1qpzry9x8gf2tvdw0s3jn54khce6mua7lmqqqxw";

// The addresses of three modules, each the first twenty bytes of the SHA-256 of its name (Cosmos SDK:
// `authtypes.NewModuleAddress`), as chains with the prefix `cosmos` print them, and as an operator's.
const ACCOUNTS: [([u8; 20], &str, &str); 3] = [
    (
        [
            241, 130, 150, 118, 219, 87, 118, 130, 233, 68, 252, 52, 147, 212, 81, 182, 127, 243,
            226, 159,
        ],
        "cosmos17xpfvakm2amg962yls6f84z3kell8c5lserqta",
        "cosmosvaloper17xpfvakm2amg962yls6f84z3kell8c5l4dh48w",
    ),
    (
        [
            79, 234, 118, 66, 123, 131, 69, 134, 30, 128, 163, 84, 10, 138, 157, 147, 111, 211,
            147, 145,
        ],
        "cosmos1fl48vsnmsdzcv85q5d2q4z5ajdha8yu34mf0eh",
        "cosmosvaloper1fl48vsnmsdzcv85q5d2q4z5ajdha8yu3s0a64y",
    ),
    (
        [
            147, 53, 72, 69, 3, 2, 116, 205, 75, 241, 104, 106, 189, 96, 171, 40, 236, 82, 225, 167,
        ],
        "cosmos1jv65s3grqf6v6jl3dp4t6c9t9rk99cd88lyufl",
        "cosmosvaloper1jv65s3grqf6v6jl3dp4t6c9t9rk99cd8ztsf9v",
    ),
];

fn text_of(rt: &(impl Abort + AllocGlobal), value: impl Display + Drop) -> String {
    format!(in rt.alloc(); "{value}").expect(rt, "memory")
}

#[test]
fn addresses_are_spelled_and_read(rt: HostRuntime) {
    for (bytes, account, operator) in ACCOUNTS {
        let text = spell(rt.alloc(), "cosmos", &bytes).expect(&rt, "memory");
        assert_eq!(rt; text.as_str(), account);
        let text = spell(rt.alloc(), "cosmosvaloper", &bytes).expect(&rt, "memory");
        assert_eq!(rt; text.as_str(), operator);
        assert!(rt; unspell("cosmos", account) == Ok(bytes));
        assert!(rt; unspell("cosmosvaloper", operator) == Ok(bytes));
        assert!(rt; unspell("cosmos", operator) == Err(BechFault::Prefix));
    }
}

#[test]
fn a_spelling_is_written_into_the_front(rt: HostRuntime) {
    let mut out = [7u8; 64];
    let end = spell_into("abcdef", &EVERY_LETTER, &mut out);
    assert_eq!(rt; end, 45);
    assert!(rt; &out[..end] == EVERY_LETTER_SPELLED.as_bytes());
    assert!(rt; out[end..].iter().all(|byte| *byte == 7));
}

#[test]
fn other_texts_are_refused_by_their_first_fault(rt: HostRuntime) {
    assert!(rt; unspell("abcdef", EVERY_LETTER_SPELLED) == Ok(EVERY_LETTER));
    for (text, fault) in [
        ("", BechFault::Prefix),
        ("abcdef", BechFault::Prefix),
        (
            "abcdefqpzry9x8gf2tvdw0s3jn54khce6mua7lmqqqxw",
            BechFault::Prefix,
        ),
        (
            "ABCDEF1QPZRY9X8GF2TVDW0S3JN54KHCE6MUA7LMQQQXW",
            BechFault::Prefix,
        ),
        (
            "abcdef1qpzry9x8gf2tvdw0s3jn54khce6mua7lmqqqx",
            BechFault::Length,
        ),
        (
            "abcdef1bpzry9x8gf2tvdw0s3jn54khce6mua7lmqqqx",
            BechFault::Length,
        ),
        (
            "abcdef1qpzry9x8gf2tvdw0s3jn54khce6mua7lmqqqxww",
            BechFault::Length,
        ),
        (
            "abcdef1bpzry9x8gf2tvdw0s3jn54khce6mua7lmqqqxw",
            BechFault::Digit(0),
        ),
        (
            "abcdef1qpzry9x8gf2tvdw0s3jn54khce6mua7lmqqqxW",
            BechFault::Digit(37),
        ),
        (
            "abcdef1qpzry9x8gf2tvdw0s3jn54khce6mua7lmqqqi1",
            BechFault::Digit(36),
        ),
        (
            "abcdef1qpzry9x8gf2tvdw0s3jn54khce6mua7lmqqqxq",
            BechFault::Sum,
        ),
        (
            "abcdef1pqzry9x8gf2tvdw0s3jn54khce6mua7lmqqqxw",
            BechFault::Sum,
        ),
    ] {
        assert!(rt; unspell("abcdef", text) == Err(fault), "{text}");
    }
}

#[test]
fn faults_have_their_names_as_texts(rt: HostRuntime) {
    for (fault, text) in [
        (BechFault::Prefix, "Prefix"),
        (BechFault::Length, "Length"),
        (BechFault::Digit(12), "Digit at 12"),
        (BechFault::Sum, "Sum"),
        (BechFault::NoMemory, "NoMemory"),
    ] {
        assert_eq!(rt; text_of(&rt, fault).as_str(), text);
    }
    assert!(rt; Form::Hex != Form::Bech32);
}
