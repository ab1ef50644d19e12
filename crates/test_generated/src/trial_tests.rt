//! Summaries of generated inputs, as a second program has them.

use run_trial::try_input;
use std::test::Fail;

/// Seeds and numbers of blocks, and the summaries of their inputs.
const SUMMARIES: [(u64, u32, &str); 6] = [
    (
        0,
        1,
        "{\"accepted\":2,\"blocks\":1,\"burned\":\"0\",\"kind\":\"trial\",\"pool\":[],\"refused\":1,\"supply\":[{\"amount\":\"40100000000\",\"denom\":\"uatom\"}]}\n",
    ),
    (
        0,
        2,
        "{\"accepted\":3,\"blocks\":2,\"burned\":\"0\",\"kind\":\"trial\",\"pool\":[{\"amount\":\"60.000000000000000000\",\"denom\":\"uatom\"}],\"refused\":3,\"supply\":[{\"amount\":\"40100000000\",\"denom\":\"uatom\"}]}\n",
    ),
    (
        101,
        2,
        "{\"accepted\":1,\"blocks\":2,\"burned\":\"500000\",\"kind\":\"trial\",\"pool\":[{\"amount\":\"40.000000000000000000\",\"denom\":\"uatom\"}],\"refused\":2,\"supply\":[{\"amount\":\"40099500000\",\"denom\":\"uatom\"}]}\n",
    ),
    (
        7,
        10,
        "{\"accepted\":7,\"blocks\":10,\"burned\":\"0\",\"kind\":\"trial\",\"pool\":[{\"amount\":\"400.000000000000000000\",\"denom\":\"uatom\"}],\"refused\":14,\"supply\":[{\"amount\":\"40100000000\",\"denom\":\"uatom\"}]}\n",
    ),
    (
        18_446_744_073_709_551_615,
        100,
        "{\"accepted\":95,\"blocks\":100,\"burned\":\"0\",\"kind\":\"trial\",\"pool\":[{\"amount\":\"3161.815757049520307122\",\"denom\":\"uatom\"}],\"refused\":66,\"supply\":[{\"amount\":\"40100000000\",\"denom\":\"uatom\"}]}\n",
    ),
    (
        101,
        200,
        "{\"accepted\":139,\"blocks\":200,\"burned\":\"500000\",\"kind\":\"trial\",\"pool\":[{\"amount\":\"5285.575871239235861114\",\"denom\":\"uatom\"}],\"refused\":127,\"supply\":[{\"amount\":\"40099500000\",\"denom\":\"uatom\"}]}\n",
    ),
];

#[test]
fn summaries_are_those_of_a_second_program(rt: HostRuntime) -> Result<(), Fail> {
    for (seed, count, summary) in SUMMARIES {
        if count <= 100_000 {
            let text = try_input(rt.alloc(), seed, count);
            assert!(rt; text.is_ok(), "{seed} {count}");
            if let Ok(text) = text {
                assert!(rt; text.as_slice() == summary.as_bytes(), "{seed} {count}");
            }
        }
    }
    Ok(())
}
