//! The kinds of items, such as balances, validators and delegations, each by the byte with which its keys begin.

ghost use Rattle.std.specs.Prelude.{◌≡◌};
ghost use Rattle.store_rows.specs.Kinds.{kind_of, prefix_of};

/// The kinds of items.
#[derive(Clone, Copy)]
pub(crate) enum Kind {
    Head,
    Parameters,
    Balance,
    Supply,
    Validator,
    Delegation,
    Unbonding,
    Redelegation,
    Signing,
    Purse,
    Pool,
    Withdraw,
    CurrentPeriod,
    Historical,
    Start,
    Event,
}

impl Kind {
    /// The byte with which the keys of this kind begin.
    pub(crate) fn prefix(self) -> u8
        ensures { result ≡ prefix_of self }
    {
        match self {
            Kind::Head => 0x01,
            Kind::Parameters => 0x02,
            Kind::Balance => 0x10,
            Kind::Supply => 0x11,
            Kind::Validator => 0x20,
            Kind::Delegation => 0x21,
            Kind::Unbonding => 0x22,
            Kind::Redelegation => 0x23,
            Kind::Signing => 0x30,
            Kind::Purse => 0x40,
            Kind::Pool => 0x41,
            Kind::Withdraw => 0x42,
            Kind::CurrentPeriod => 0x50,
            Kind::Historical => 0x51,
            Kind::Start => 0x52,
            Kind::Event => 0x53,
        }
    }

    /// The kind whose keys begin with this byte.
    pub(crate) fn of(prefix: u8) -> Option<Kind>
        ensures { result ≡ kind_of prefix }
    {
        match prefix {
            0x01 => Some(Kind::Head),
            0x02 => Some(Kind::Parameters),
            0x10 => Some(Kind::Balance),
            0x11 => Some(Kind::Supply),
            0x20 => Some(Kind::Validator),
            0x21 => Some(Kind::Delegation),
            0x22 => Some(Kind::Unbonding),
            0x23 => Some(Kind::Redelegation),
            0x30 => Some(Kind::Signing),
            0x40 => Some(Kind::Purse),
            0x41 => Some(Kind::Pool),
            0x42 => Some(Kind::Withdraw),
            0x50 => Some(Kind::CurrentPeriod),
            0x51 => Some(Kind::Historical),
            0x52 => Some(Kind::Start),
            0x53 => Some(Kind::Event),
            _ => None,
        }
    }
}
