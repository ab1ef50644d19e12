use base_decimals::Dec;

/// How much stake each choice has (Cosmos SDK: `govtypes.TallyResult`), in tokens: decimals in units of 10^-18.
#[derive(Clone, Copy, Debug, PartialEq, Eq)]
pub struct Tally {
    pub yes: Dec,
    pub abstain: Dec,
    pub no: Dec,
    pub veto: Dec,
    /// The tokens of all bonded validators, in units of the bond denomination (`TotalBondedTokens`).
    pub bonded: u128,
}
