//! The four tables of F1: they are marked together, and each change is of one entry.

ghost use Rattle.std.specs.Prelude.{◌≡◌, ◌+◌, ◌≤◌, ◌<◌, ◌^◌, [], length, true, option_map, OnOk, OnErr, IfOk, IsErr};
ghost use Rattle.std.specs.List.Sorted.{IsStrictlySortedBy};
ghost use Rattle.std.specs.Map.{keys_of};
ghost use Rattle.std.specs.Option.{option_copied};
ghost use Rattle.base_types.specs.Orders.{addr_cmp};
ghost use Rattle.base_roles.specs.Orders.{pair_cmp};
ghost use Rattle.mod_periods.specs.Kept.{new_records, current_of, record_of, info_of, with_current, with_record, with_info, without_info, with_event, with_history, with_mark, IsGoneBack, IsForgotten, keeping, spent_now, period_cmp, event_cmp, record_set};
ghost use Rattle.mod_periods.specs.Scenes.{Changes};
ghost use Rattle.base_table.specs.Tabled.{spent_now as table_spent, with_value};

use crate::items::{CurrentKind, EventKind, HistoricalKind, StartKind};
use crate::slash::Slash;
use base_coins::DecCoins;
use base_records::{Both, One, mark_both};
use base_roles::{Historical, SlashEvent, StartingInfo};
use base_table::{Table, TableFault};
use base_types::{Addr, Copied, Steps};
use std::alloc::Global;
use std::marker::Model;
use std::sync::ledger::Ledger;

/// The tables as kinds of records.
pub(crate) type F1Kinds<'a> = Both<
    One<'a, CurrentKind>,
    Both<One<'a, HistoricalKind>, Both<One<'a, StartKind>, One<'a, EventKind>>>,
>;

/// The records of F1. Once memory was wanting in a change they are spent, and each later change answers
/// `Spent`.
#[derive(Drop)]
pub(crate) struct Tables {
    /// The periods that run, by operator.
    pub(crate) current: Table<Addr, u64>,
    /// The records of ended periods, by operator and period.
    pub(crate) historical: Table<(Addr, u64), Historical>,
    /// Where rewards begin, by operator and delegator.
    pub(crate) starts: Table<(Addr, Addr), StartingInfo>,
    /// The slash events, by operator, height and period.
    pub(crate) events: Table<(Addr, u64, u64), Slash>,
    pub(crate) spent: bool,
}

impl Model for Tables {
    ghost use Rattle.std.specs.Prelude.{◌≡◌, length};
    ghost use Rattle.mod_periods.specs.Kept.{Recorded, HaveSameMarks, side_by_side};

    ghost Value = { Recorded };

    ghost view = { λ t. record {
      kept = record {
        current = t.current.entries;
        historical = t.historical.entries;
        starts = t.starts.entries;
        events = t.events.entries;
      };
      marks = side_by_side t.current.marks t.historical.marks t.starts.marks t.events.marks;
      settled = record {
        current = t.current.settled;
        historical = t.historical.settled;
        starts = t.starts.settled;
        events = t.events.settled;
      };
      spent = t.spent;
    } };

    ghost invariant = { λ t. HaveSameMarks t.current.marks t.historical.marks t.starts.marks
        t.events.marks };
}

impl Tables {
    /// Empty tables. They take no memory yet.
    pub(crate) fn new(alloc: Global) -> Tables
        ensures { result ≡ new_records }
    {
        Tables {
            current: Table::new(alloc),
            historical: Table::new(alloc),
            starts: Table::new(alloc),
            events: Table::new(alloc),
            spent: false,
        }
    }

    /// Whether memory was wanting in a change.
    pub(crate) fn is_spent(&self) -> bool
        ensures { result ≡ self.now.spent }
    {
        self.spent
    }

    /// It tells that the keys ascend, and that numbers of entries have their bounds.
    pub(crate) fn known(&self)
        ensures current { IsStrictlySortedBy addr_cmp (keys_of self.now.kept.current) }
        ensures historical { IsStrictlySortedBy period_cmp (keys_of self.now.kept.historical) }
        ensures starts { IsStrictlySortedBy pair_cmp (keys_of self.now.kept.starts) }
        ensures events { IsStrictlySortedBy event_cmp (keys_of self.now.kept.events) }
        ensures few_starts { length self.now.kept.starts < 2 ^ 64 }
        ensures few_events { length self.now.kept.events < 2 ^ 64 }
    {
        self.current.known();
        self.historical.known();
        self.starts.known();
        self.events.known();
    }

    /// The four tables, to be listed.
    pub(crate) fn kinds(&self) -> F1Kinds<'_>
        ensures held { record {
          current = result.first.table.now.entries;
          historical = result.second.first.table.now.entries;
          starts = result.second.second.first.table.now.entries;
          events = result.second.second.second.table.now.entries;
        } ≡ self.now.kept }
        ensures settled { record {
          current = result.first.table.now.settled;
          historical = result.second.first.table.now.settled;
          starts = result.second.second.first.table.now.settled;
          events = result.second.second.second.table.now.settled;
        } ≡ self.now.settled }
    {
        let later = Both {
            first: One {
                table: &self.starts,
            },
            second: One {
                table: &self.events,
            },
        };
        let rest = Both {
            first: One {
                table: &self.historical,
            },
            second: later,
        };
        Both {
            first: One {
                table: &self.current,
            },
            second: rest,
        }
    }

    /// The period of an operator that runs.
    pub(crate) fn current<L: Ledger>(&self, operator: &Addr, steps: &mut Steps<L>) -> Option<u64>
        ensures period { result ≡ current_of self.now.kept operator.now }
        ensures cost { steps.new ≡ steps.old + 1 }
    {
        self.current.get(operator, steps).copied()
    }

    /// The record of an ended period.
    pub(crate) fn record<L: Ledger>(
        &self,
        operator: &Addr,
        period: u64,
        steps: &mut Steps<L>,
    ) -> Option<&Historical>
        ensures found { option_copied result ≡ record_of self.now.kept operator.now period }
        ensures cost { steps.new ≡ steps.old + 1 }
    {
        self.historical.get(&(*operator, period), steps)
    }

    /// Where the rewards of a delegation begin.
    pub(crate) fn info<L: Ledger>(
        &self,
        delegator: &Addr,
        operator: &Addr,
        steps: &mut Steps<L>,
    ) -> Option<StartingInfo>
        ensures info { result ≡ info_of self.now.kept delegator.now operator.now }
        ensures cost { steps.new ≡ steps.old + 1 }
    {
        self.starts.get(&(*operator, *delegator), steps).copied()
    }

    /// Puts the period of an operator that runs.
    pub(crate) fn put_current<L: Ledger>(
        &mut self,
        operator: &Addr,
        period: u64,
        steps: &mut Steps<L>,
    ) -> Result<(), TableFault>
        ensures changes { Changes (with_current operator.now period self.old.kept)
            self.old self.new result }
        ensures cost { steps.new ≤ steps.old + 1 }
    {
        if self.spent {
            return Err(TableFault::Spent);
        }
        match self.current.put(operator, period, steps) {
            Ok(()) => Ok(()),
            Err(fault) => {
                self.spent = true;
                Err(fault)
            }
        }
    }

    /// Puts the record of a period to which so many refer, or takes it out where nothing does.
    pub(crate) fn put_record<L: Ledger>(
        &mut self,
        operator: &Addr,
        period: u64,
        history: Historical,
        steps: &mut Steps<L>,
    ) -> Result<(), TableFault>
        ensures changes { Changes
            (with_record operator.now period history.ratio history.count self.old.kept)
            self.old self.new result }
        ensures cost { steps.new ≤ steps.old + 1 }
    {
        if self.spent {
            return Err(TableFault::Spent);
        }
        match set_record(&mut self.historical, &(*operator, period), history, steps) {
            Ok(()) => Ok(()),
            Err(fault) => {
                self.spent = true;
                Err(fault)
            }
        }
    }

    /// Puts the record of a period, also one to which nothing refers.
    pub(crate) fn add_record<L: Ledger>(
        &mut self,
        operator: &Addr,
        period: u64,
        history: &Historical,
        steps: &mut Steps<L>,
    ) -> Result<(), TableFault>
        ensures ok { OnOk result (self.new
            ≡ keeping (with_history operator.now period history.now self.old.kept) self.old) }
        ensures err { OnErr result (self.new ≡ spent_now self.old) }
        ensures cost { steps.new ≤ steps.old + 1 }
    {
        match put_copy(&mut self.historical, &(*operator, period), history, steps) {
            Ok(()) => Ok(()),
            Err(fault) => {
                self.spent = true;
                Err(fault)
            }
        }
    }

    /// Puts where the rewards of a delegation begin.
    pub(crate) fn put_info<L: Ledger>(
        &mut self,
        delegator: &Addr,
        operator: &Addr,
        info: StartingInfo,
        steps: &mut Steps<L>,
    ) -> Result<(), TableFault>
        ensures changes { Changes (with_info delegator.now operator.now info self.old.kept)
            self.old self.new result }
        ensures cost { steps.new ≤ steps.old + 1 }
    {
        if self.spent {
            return Err(TableFault::Spent);
        }
        match self.starts.put(&(*operator, *delegator), info, steps) {
            Ok(()) => Ok(()),
            Err(fault) => {
                self.spent = true;
                Err(fault)
            }
        }
    }

    /// Takes out where the rewards of a delegation begin, and answers what stood there.
    pub(crate) fn take_info<L: Ledger>(
        &mut self,
        delegator: &Addr,
        operator: &Addr,
        steps: &mut Steps<L>,
    ) -> Result<Option<StartingInfo>, TableFault>
        ensures info { IfOk result
            (λ info. info ≡ info_of self.old.kept delegator.now operator.now) }
        ensures changes { Changes (without_info delegator.now operator.now self.old.kept)
            self.old self.new result }
        ensures cost { steps.new ≤ steps.old + 1 }
    {
        if self.spent {
            return Err(TableFault::Spent);
        }
        match self.starts.remove(&(*operator, *delegator), steps) {
            Ok(info) => Ok(info),
            Err(fault) => {
                self.spent = true;
                Err(fault)
            }
        }
    }

    /// Puts a slash event.
    pub(crate) fn put_event<L: Ledger>(
        &mut self,
        operator: &Addr,
        event: SlashEvent,
        steps: &mut Steps<L>,
    ) -> Result<(), TableFault>
        ensures changes { Changes (with_event operator.now event self.old.kept)
            self.old self.new result }
        ensures cost { steps.new ≤ steps.old + 1 }
    {
        if self.spent {
            return Err(TableFault::Spent);
        }
        let key = (*operator, event.height, event.period);
        match self.events.put(&key, Slash::of(event.fraction), steps) {
            Ok(()) => Ok(()),
            Err(fault) => {
                self.spent = true;
                Err(fault)
            }
        }
    }

    /// Opens a mark of all four tables. Where memory is wanting all is as it was.
    pub(crate) fn mark(&mut self) -> Result<(), TableFault>
        ensures ok { OnOk result (self.new ≡ with_mark self.old) }
        ensures err { OnErr result (self.new ≡ self.old) }
        ensures spent { self.old.spent ≡ true → IsErr result }
    {
        if self.spent {
            return Err(TableFault::Spent);
        }
        mark_both(&mut self.current, &mut self.historical)?;
        match mark_both(&mut self.starts, &mut self.events) {
            Ok(()) => Ok(()),
            Err(fault) => {
                self.current.back();
                self.historical.back();
                Err(fault)
            }
        }
    }

    /// Goes back to the latest open mark and closes it. Takes no memory.
    pub(crate) fn back(&mut self)
        requires some { 0 < length self.old.marks }
        ensures { IsGoneBack self.old self.new }
    {
        self.current.back();
        self.historical.back();
        self.starts.back();
        self.events.back();
    }

    /// Closes the latest open mark and keeps the records. Takes no memory.
    pub(crate) fn forget(&mut self)
        requires some { 0 < length self.old.marks }
        ensures { IsForgotten self.old self.new }
    {
        self.current.forget();
        self.historical.forget();
        self.starts.forget();
        self.events.forget();
    }

    /// Settles the four tables. Takes no memory.
    pub(crate) fn settle(&mut self)
        requires closed { self.old.marks ≡ [] }
        ensures { self.new ≡ record self.old { settled = self.old.kept } }
    {
        self.current.settle();
        self.historical.settle();
        self.starts.settle();
        self.events.settle();
    }
}

/// Puts a record to which so many refer, or takes it out where nothing does.
fn set_record<L: Ledger>(
    historical: &mut Table<(Addr, u64), Historical>,
    key: &(Addr, u64),
    history: Historical,
    steps: &mut Steps<L>,
) -> Result<(), TableFault>
    ensures ok { OnOk result (historical.new ≡ record_set historical.old key.now history) }
    ensures err { OnErr result (historical.new ≡ table_spent historical.old) }
    ensures cost { steps.new ≡ steps.old + 1 }
{
    if history.count == 0 {
        historical.remove(key, steps)?;
        return Ok(());
    }
    historical.put(key, history, steps)
}

/// Puts a copy of a record.
fn put_copy<L: Ledger>(
    historical: &mut Table<(Addr, u64), Historical>,
    key: &(Addr, u64),
    history: &Historical,
    steps: &mut Steps<L>,
) -> Result<(), TableFault>
    ensures ok { OnOk result
        (historical.new ≡ with_value period_cmp historical.old key.now history.now) }
    ensures err { OnErr result
        (historical.new ≡ record historical.old { spent = historical.new.spent }) }
    ensures cost { steps.new ≤ steps.old + 1 }
{
    let copy = history.copied()?;
    historical.put(key, copy, steps)
}
