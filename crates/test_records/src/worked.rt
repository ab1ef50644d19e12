//! Worked rows, as functions that do nothing: their contracts are the rows.

ghost use Rattle.test_records.specs.Worked.{AccountsFail, EntriesFail, EventsFail, HistoriesFail, KeysStandOnce, RecordsPass, SigningFails, StakesFail, StandingFails, ValuesFail};

/// The records of a state after three blocks pass each test, in any order of the items; and no key stands twice.
pub fn records_by_example()
    ensures pass { RecordsPass }
    ensures once { KeysStandOnce }
{}

/// With one record changed, a test of what is held and staked fails.
pub fn stakes_by_example()
    ensures values { ValuesFail }
    ensures stakes { StakesFail }
    ensures accounts { AccountsFail }
{}

/// With one record changed, a test of distribution fails.
pub fn rewards_by_example()
    ensures standing { StandingFails }
    ensures histories { HistoriesFail }
    ensures events { EventsFail }
{}

/// With one record changed, a test of signing records or of entries fails.
pub fn others_by_example()
    ensures signing { SigningFails }
    ensures entries { EntriesFail }
{}
