//! The walk over the slash events of an operator.

ghost use Rattle.std.specs.Prelude.{◌≡◌, ◌+◌, ◌≤◌, length, IfOk, IfErr};
ghost use Rattle.base_roles.specs.declared.faults.HookFault.TheVariants.{NoMemory};
ghost use Rattle.mod_periods.specs.Earning.{events_since};
ghost use Rattle.mod_periods.specs.Kept.{events_of};

use crate::tables::Tables;
use base_roles::{HookFault, SlashEvent};
use base_types::{Addr, Steps};
use std::alloc::Global;
use std::sync::ledger::Ledger;

impl Tables {
    /// The slash events of an operator that are not below a height, by height, then by period. The walk is
    /// over these alone.
    pub(crate) fn events_since<L: Ledger>(
        &self,
        alloc: Global,
        operator: &Addr,
        height: u64,
        steps: &mut Steps<L>,
    ) -> Result<Vec<SlashEvent>, HookFault>
        ensures events { IfOk result
            (λ events. events.items ≡ events_since height (events_of self.now.kept operator.now)) }
        ensures fault { IfErr result (λ fault. fault ≡ NoMemory) }
        ensures cost { steps.new ≤ steps.old
            + (length (events_since height (events_of self.now.kept operator.now)) + 1) }
    {
        self.events.known();
        let mut events = Vec::new(alloc);
        let mut entry = self.events.seek(&(*operator, height, 0), steps);
        while let Some((key, slash)) = entry {
            if key.0 != *operator {
                return Ok(events);
            }
            events.push(SlashEvent {
                height: key.1,
                period: key.2,
                fraction: slash.fraction(),
            })?;
            entry = self.events.next(Some(key), steps);
        }
        Ok(events)
    }
}
