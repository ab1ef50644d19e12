//! Questions as words.
ghost use Rattle.std.specs.Prelude.{◌≡◌};
ghost use Rattle.run_words.specs.Questions.{address_asked, kind_asked, of_account};

use base_bech32::Form;
use base_types::Account;
use line_json::{account_of_text, cons_of_text, operator_asked};
use line_report::Query;

/// The question of this kind, of no address.
pub(crate) fn kind_asked(what: &str) -> Option<Query>
    ensures { result ≡ kind_asked what.now }
{
    if what == "supply" {
        Some(Query::Supply)
    } else if what == "pool" {
        Some(Query::Pool)
    } else if what == "validators" {
        Some(Query::Validators)
    } else {
        None
    }
}

/// The question of this kind, of an account.
fn of_account(what: &str, who: &Account) -> Option<Query>
    ensures { result ≡ of_account what.now who.now }
{
    if what == "account" {
        Some(Query::Account(*who))
    } else if what == "delegations" {
        Some(Query::Delegations(*who))
    } else if what == "rewards" {
        Some(Query::Rewards(*who))
    } else if what == "unbondings" {
        Some(Query::Unbondings(*who))
    } else if what == "redelegations" {
        Some(Query::Redelegations(*who))
    } else {
        None
    }
}

/// The question of this kind, of the address that the text spells in this form: of a validator its operator, of signing a
/// consensus address, and of all others an account.
pub(crate) fn address_asked(form: Form, what: &str, text: &str) -> Option<Query>
    ensures { result ≡ address_asked form what.now text.now }
{
    if what == "signing" {
        Some(Query::Signing(cons_of_text(form, text)?))
    } else if what == "validator" {
        Some(Query::Validator(operator_asked(form, text)?))
    } else {
        of_account(what, &account_of_text(form, text)?)
    }
}
