//! What all tests together tell, as functions that do nothing: their contracts are the laws.

ghost use Rattle.law_records.specs.PassLaws.{ItemsAreListed, SoundRecordsPass, TestsMakeSound};

/// Records that pass all tests are those of a sound state.
pub fn tests_make_sound()
    ensures { TestsMakeSound }
{}

/// The items of a state are those of its records.
#[tactic(auto, using(crate::proofs::RecordLaws::items_are_listed))]
pub fn items_are_listed()
    ensures { ItemsAreListed }
{}

/// The records of a sound state pass all tests.
pub fn sound_records_pass()
    ensures { SoundRecordsPass }
{}
