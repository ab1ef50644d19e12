//! The records of a module as every module keeps them: marks to go back to, items, changes, and loading.

ghost use Rattle.std.specs.Prelude.{◌≡◌, ◌≢◌, ◌++◌, ◌∷◌, [], List, Bool, true, false, IsErr, OnOk, IfOk, OnErr};
ghost use Rattle.base_roles.specs.declared.items.Item.{Item};
ghost use Rattle.base_roles.specs.Items.{IsOnce, HasRoom, IsAdded, AreChanges};

use crate::faults::RecordFault;
use crate::items::Item;
use base_types::Steps;
use std::alloc::Global;
use std::sync::ledger::Ledger;

/// The records of a module, as all modules keep them: they can be marked and gone back to, listed as
/// items, and loaded from them.
///
/// Marks nest: `back` and `forget` close the latest. A module that wanted memory in a change answers
/// `NoMemory` from then on.
pub trait Records {
    /// The records, apart from how they are kept.
    ghost Kept: { Type 0 };

    ghost kept: { Self → Kept };

    /// The records at each open mark, the latest last.
    ghost marks: { Self → List Kept };

    /// The records at the last `settle`, and before the first those of a new module.
    ghost settled: { Self → Kept };

    /// Whether memory was wanting in a change.
    ghost spent: { Self → Bool };

    /// The keys of records ascend, in each list of them.
    ghost AreInOrder: { Kept → Type 0 };

    /// The items of records, each once.
    ghost items: { Kept → List Item };

    /// Whether an item is of a kind of this module.
    ghost is_kind: { Item → Bool };

    /// It tells that the keys of the records ascend, and does nothing.
    fn ordered(&self)
        ensures { AreInOrder (kept self.now) };

    /// Opens a mark. The only error is `NoMemory`, which also comes where memory was wanting in a change; no mark
    /// is opened then.
    fn mark<L: Ledger>(&mut self, alloc: Global, steps: &mut Steps<L>) -> Result<(), RecordFault>
        ensures opened { OnOk result (marks self.new ≡ marks self.old ++ kept self.old ∷ []) }
        ensures err { OnErr result (marks self.new ≡ marks self.old) }
        ensures kept { kept self.new ≡ kept self.old }
        ensures settled { settled self.new ≡ settled self.old }
        ensures spent { spent self.old ≡ true → IsErr result }
        ensures spent_stays { spent self.new ≡ spent self.old };

    /// Restores the records of the latest mark and closes it. Takes no memory.
    fn back<L: Ledger>(&mut self, steps: &mut Steps<L>)
        requires { marks self.old ≢ [] }
        ensures back { marks self.new ++ kept self.new ∷ [] ≡ marks self.old }
        ensures settled { settled self.new ≡ settled self.old }
        ensures spent { spent self.new ≡ spent self.old };

    /// Closes the latest mark, and changes nothing else. Takes no memory.
    fn forget<L: Ledger>(&mut self, steps: &mut Steps<L>)
        requires { marks self.old ≢ [] }
        ensures closed { (last : Kept) × (marks self.new ++ last ∷ [] ≡ marks self.old) }
        ensures kept { kept self.new ≡ kept self.old }
        ensures settled { settled self.new ≡ settled self.old }
        ensures spent { spent self.new ≡ spent self.old };

    /// Appends the items of the records, each once. After `NoMemory` some of them may stand there.
    fn items_into<L: Ledger>(
        &self,
        out: &mut Vec<Item>,
        steps: &mut Steps<L>,
    ) -> Result<(), RecordFault>
        ensures items { OnOk result (out.new.items ≡ out.old.items ++ items (kept self.now)) }
        ensures once { OnOk result (IsOnce (items (kept self.now))) }
        ensures err { (some : List Item) × (out.new.items ≡ out.old.items ++ some) };

    /// Appends the items by which the records differ from those at the last `settle`, each once: with true an
    /// item that is new or has another value, with false, by its key alone, one that is gone. After
    /// `NoMemory` some of them may stand there.
    fn changes_into<L: Ledger>(
        &self,
        out: &mut Vec<(Item, bool)>,
        steps: &mut Steps<L>,
    ) -> Result<(), RecordFault>
        ensures changes { OnOk result ((changes : List (Item × Bool))
            × ((out.new.items ≡ out.old.items ++ changes)
            × AreChanges (items (settled self.now)) (items (kept self.now)) changes)) }
        ensures err { (some : List (Item × Bool)) × (out.new.items ≡ out.old.items ++ some) };

    /// Adds an item, of whose key none stands; answers false exactly where it is of no kind of this module, and
    /// then changes nothing. The open marks stay. After `NoMemory` the module is spent, and no more is said.
    fn load<L: Ledger>(
        &mut self,
        alloc: Global,
        item: &Item,
        steps: &mut Steps<L>,
    ) -> Result<bool, RecordFault>
        requires room { HasRoom (items (kept self.old)) item.now }
        ensures kind { IfOk result (λ added. added ≡ is_kind item.now) }
        ensures added { is_kind item.now ≡ true
            → OnOk result (IsAdded (items (kept self.old)) item.now (items (kept self.new))) }
        ensures other { is_kind item.now ≡ false → kept self.new ≡ kept self.old }
        ensures marks { marks self.new ≡ marks self.old }
        ensures settled { settled self.new ≡ settled self.old }
        ensures spent { spent self.old ≡ true → IsErr result }
        ensures spent_ok { OnOk result (spent self.new ≡ spent self.old) }
        ensures spent_err { OnErr result (spent self.new ≡ true) };

    /// From now on changes are told from here. No mark is open. Takes no memory.
    fn settle<L: Ledger>(&mut self, steps: &mut Steps<L>)
        requires { marks self.old ≡ [] }
        ensures settled { settled self.new ≡ kept self.old }
        ensures kept { kept self.new ≡ kept self.old }
        ensures marks { marks self.new ≡ [] }
        ensures spent { spent self.new ≡ spent self.old };
}
