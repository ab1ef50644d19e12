//! A program that keeps everything, and what is thrown for it.

ghost use Rattle.std.specs.Prelude.{◌≡◌, ◌==◌, ◌&&◌, not, nat_le};
ghost use Rattle.std.specs.List.{list_all};
ghost use Rattle.base_roles.specs.declared.entities.SlashEvent.{SlashEvent};

use base_decimals::Dec;
use base_roles::{MessageFault, SlashEvent, StartingInfo};
use std::process::Abort;

pub(crate) const ONE: u128 = 1_000_000_000_000_000_000;

pub(crate) fn dec(rt: &impl Abort, raw: u128) -> Dec {
    Dec::from_raw(raw).expect(rt, "a decimal")
}

/// Whether no slash event is at this period, nor above this height.
pub(crate) fn is_free(events: &[SlashEvent], height: u64, period: u64) -> bool
    ensures { result ≡ list_all
        (λ (e : SlashEvent). not (e.period == period) && nat_le e.height height) events.now }
{
    events
        .iter()
        .all(|event| event.period != period && event.height <= height)
}

/// What a turn does.
#[derive(Clone, Copy)]
pub(crate) struct Dice {
    pub call: u64,
    pub who: u8,
    pub height: u64,
    pub stake: u128,
    pub increment: u128,
    pub fraction: u128,
}

/// The numbers of a turn, from a seed.
pub(crate) fn thrown(seed: u64, turn: u64) -> Dice {
    Dice {
        call: (seed >> 33) % 5,
        who: 10 + ((seed >> 40) % 3) as u8,
        height: turn / 4,
        stake: u128::from(seed >> 1),
        increment: u128::from(seed >> 14),
        fraction: u128::from(seed >> 5),
    }
}

/// The seed of the next turn.
pub(crate) fn next_seed(seed: u64) -> u64 {
    seed.wrapping_mul(6_364_136_223_846_793_005)
        .wrapping_add(1_442_695_040_888_963_407)
}

/// One validator with the ratios of all its periods, of which none is ever deleted.
#[derive(Drop)]
pub(crate) struct Plain {
    ratios: Vec<u128>,
    /// The latest of a delegation is the last, and None where it stopped.
    starts: Vec<(u8, Option<StartingInfo>)>,
    events: Vec<SlashEvent>,
}

impl Plain {
    pub(crate) fn new(rt: &(impl Abort + AllocGlobal)) -> Plain {
        let mut ratios = Vec::new(rt.alloc());
        ratios.push(0).expect(rt, "memory");
        Plain {
            ratios,
            starts: Vec::new(rt.alloc()),
            events: Vec::new(rt.alloc()),
        }
    }

    pub(crate) fn last(&self) -> u64 {
        (self.ratios.len() as u64).saturating_sub(1)
    }

    pub(crate) fn ratio(&self, period: u64) -> u128 {
        match self.ratios.get(period as usize) {
            Some(ratio) => *ratio,
            None => 0,
        }
    }

    pub(crate) fn end(&mut self, increment: u128) -> Result<(), MessageFault> {
        let next = self.ratio(self.last()).saturating_add(increment);
        self.ratios.push(next)?;
        Ok(())
    }

    pub(crate) fn start_of(&self, who: u8) -> Option<StartingInfo> {
        let mut info = None;
        for start in &self.starts {
            if start.0 == who {
                info = start.1;
            }
        }
        info
    }

    /// A delegation that has started stops, and any other starts; whether it had.
    pub(crate) fn turn(&mut self, rt: &impl Abort, dice: Dice) -> Result<bool, MessageFault> {
        let had = self.start_of(dice.who).is_some();
        let info = StartingInfo {
            period: self.last(),
            stake: dec(rt, dice.stake),
            height: dice.height,
        };
        let start = if had { None } else { Some(info) };
        self.starts.push((dice.who, start))?;
        Ok(had)
    }

    /// A slash, where the last period has none; whether there is one.
    pub(crate) fn strike(&mut self, rt: &impl Abort, dice: Dice) -> Result<bool, MessageFault> {
        let event = SlashEvent {
            height: dice.height,
            period: self.last(),
            fraction: dec(rt, dice.fraction),
        };
        let free = is_free(&self.events, event.height, event.period);
        if free {
            self.events.push(event)?;
        }
        Ok(free)
    }

    /// The reward of a delegation, where it has started.
    pub(crate) fn due(&self, who: u8, height: u64, value: u128) -> Option<u128> {
        match self.start_of(who) {
            Some(info) => Some(self.reward(info, height, value)),
            None => None,
        }
    }

    pub(crate) fn references(&self, period: u64) -> u128 {
        let mut count = u128::from(self.last() == period);
        for who in 10..13 {
            if let Some(info) = self.start_of(who) {
                count = count.saturating_add(u128::from(info.period == period));
            }
        }
        for event in &self.events {
            count = count.saturating_add(u128::from(event.period == period));
        }
        count
    }

    pub(crate) fn reward(&self, info: StartingInfo, height: u64, value: u128) -> u128 {
        if info.height == height {
            return 0;
        }
        let mut total = 0u128;
        let mut after = info.period;
        let mut stake = info.stake.raw();
        for event in &self.events {
            if event.height >= info.height && event.period > info.period {
                total = total.saturating_add(self.grown(after, event.period, stake));
                stake = stake.saturating_mul(ONE.saturating_sub(event.fraction.raw())) / ONE;
                after = event.period;
            }
        }
        total.saturating_add(self.grown(after, self.last(), stake.min(value)))
    }

    pub(crate) fn grown(&self, after: u64, last: u64, stake: u128) -> u128 {
        let growth = self.ratio(last).saturating_sub(self.ratio(after));
        growth.saturating_mul(stake) / ONE
    }
}
