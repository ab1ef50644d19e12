//! The texts of addresses, in either form.
ghost use Rattle.std.specs.Prelude.{◌≡◌, IsTrue};
ghost use Rattle.base_bech32.specs.Spelling.{is_prefix};
ghost use Rattle.line_json.specs.Addresses.{account_in, bytes_in, cons_in, operator_asked, operator_in, user_in};

use base_bech32::{Form, unspell};
use base_types::{Account, Addr, ConsAddr, read_cons};

/// The prefix of the accounts of users and modules.
pub(crate) const ACCOUNT: &str = "cosmos";

/// The prefix of the operators of validators.
pub(crate) const OPERATOR: &str = "cosmosvaloper";

/// The prefix of consensus addresses.
pub(crate) const CONS: &str = "cosmosvalcons";

/// The twenty bytes of a text, which has this prefix where it is a spelling.
pub(crate) fn bytes_in(form: Form, prefix: &str, text: &str) -> Option<[u8; 20]>
    requires { IsTrue (is_prefix prefix.now) }
    ensures { result ≡ bytes_in form prefix.now text.now }
{
    match form {
        Form::Hex => match read_cons(text) {
            Ok(cons) => Some(cons.bytes()),
            Err(_) => None,
        },
        Form::Bech32 => unspell(prefix, text).ok(),
    }
}

/// The user of a text: forty hexadecimal digits with small letters, or the spelling of BIP 173 behind `cosmos`. None at
/// any other text, and at a module's address. Takes no memory.
pub(crate) fn user_of_text(form: Form, text: &str) -> Option<Addr>
    ensures { result ≡ user_in form text.now }
{
    bytes_in(form, ACCOUNT, text).and_then(Addr::of)
}

/// The operator of a text: forty hexadecimal digits with small letters, or the spelling of BIP 173 behind `cosmosvaloper`.
/// None at any other text, and at a module's address. Takes no memory.
pub(crate) fn operator_of_text(form: Form, text: &str) -> Option<Addr>
    ensures { result ≡ operator_in form text.now }
{
    bytes_in(form, OPERATOR, text).and_then(Addr::of)
}

/// The account of a text: forty hexadecimal digits with small letters, or the spelling of BIP 173 behind `cosmos`, which
/// may be of a module's address. None at any other text. Takes no memory.
pub fn account_of_text(form: Form, text: &str) -> Option<Account>
    ensures { result ≡ account_in form text.now }
{
    bytes_in(form, ACCOUNT, text).map(Account::of)
}

/// Whoever has the operator's address of a text: forty hexadecimal digits with small letters, or the spelling of BIP 173
/// behind `cosmosvaloper`, which may be of a module's address. None at any other text. Takes no memory.
pub fn operator_asked(form: Form, text: &str) -> Option<Account>
    ensures { result ≡ operator_asked form text.now }
{
    bytes_in(form, OPERATOR, text).map(Account::of)
}

/// The consensus address of a text: forty hexadecimal digits with small letters, or the spelling of BIP 173 behind
/// `cosmosvalcons`. None at any other text. Takes no memory.
pub fn cons_of_text(form: Form, text: &str) -> Option<ConsAddr>
    ensures { result ≡ cons_in form text.now }
{
    bytes_in(form, CONS, text).map(ConsAddr::of)
}
