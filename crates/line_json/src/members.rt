//! The members of an object, each with its number and its form.
ghost use Rattle.std.specs.Prelude.{◌≡◌, Option};
ghost use Rattle.std.specs.List.{list_all};
ghost use Rattle.std.specs.Char.{is_ascii_digit};
ghost use Rattle.serde_json.specs.Data.{Data};
ghost use Rattle.base_decimals.specs.Texts.{is_number};
ghost use Rattle.line_json.specs.Members.{account_at, amount_of, cons_at, member_at, operator_at, optional_at, word_at, texts_of, only_named, user_at};

use crate::addresses::{account_of_text, cons_of_text, operator_of_text, user_of_text};
use crate::tree::Tree;
use base_bech32::Form;
use base_decimals::Dec;
use base_messages::LineFault;
use base_types::{Account, Addr, ConsAddr, Denom, Moment, read_denom, read_moment};

/// A value that one string, one number or one truth value stands for. Reading it takes no memory.
pub trait Scalar: Copy {
    ghost form: { Data → Option Self };

    fn from_tree<N: Tree>(tree: &N) -> Option<Self>
        ensures { result ≡ form (N.seen tree.now) };
}

/// A whole number below 2^63, written with digits alone.
impl Scalar for u64 {
    ghost use Rattle.line_json.specs.Members.{number_in};

    ghost form = { number_in };

    fn from_tree<N: Tree>(tree: &N) -> Option<u64> {
        match tree.as_count() {
            Some(number) if number < 1 << 63 => Some(number),
            _ => None,
        }
    }
}

/// True or false.
impl Scalar for bool {
    ghost use Rattle.serde_json.specs.Find.{as_bool};

    ghost form = { as_bool };

    fn from_tree<N: Tree>(tree: &N) -> Option<bool> {
        tree.as_bool()
    }
}

/// Whether each byte is a digit.
fn are_digits(text: &[u8]) -> bool
    ensures { result ≡ list_all is_ascii_digit text.now }
{
    text.iter().all(|byte| byte.is_ascii_digit())
}

/// Whether the text is 1 to 38 digits.
fn is_amount(text: &str) -> bool
    ensures { result ≡ is_number 38 text.now }
{
    !text.is_empty() && text.len() <= 38 && are_digits(text.as_bytes())
}

/// The whole amount that 1 to 38 digits spell.
pub(crate) fn amount_of(text: &str) -> Option<u128>
    ensures { result ≡ amount_of text.now }
{
    if is_amount(text) {
        text.parse().ok()
    } else {
        None
    }
}

/// A whole amount: a string of 1 to 38 digits.
impl Scalar for u128 {
    ghost use Rattle.line_json.specs.Members.{amount_of, spelled_by};

    ghost form = { spelled_by amount_of };

    fn from_tree<N: Tree>(tree: &N) -> Option<u128> {
        tree.as_str().and_then(amount_of)
    }
}

/// A decimal: a string of digits, perhaps with a point.
impl Scalar for Dec {
    ghost use Rattle.base_decimals.specs.Texts.{dec_of};
    ghost use Rattle.line_json.specs.Members.{spelled_by};

    ghost form = { spelled_by dec_of };

    fn from_tree<N: Tree>(tree: &N) -> Option<Dec> {
        match tree.as_str() {
            Some(text) => Dec::parse(text.as_bytes()),
            None => None,
        }
    }
}

/// A string that spells a moment.
impl Scalar for Moment {
    ghost use Rattle.base_types.specs.Moment.{moment_of};
    ghost use Rattle.line_json.specs.Members.{spelled_by};

    ghost form = { spelled_by moment_of };

    fn from_tree<N: Tree>(tree: &N) -> Option<Moment> {
        match tree.as_str() {
            Some(text) => read_moment(text).ok(),
            None => None,
        }
    }
}

/// A string that names a denomination.
impl Scalar for Denom {
    ghost use Rattle.base_types.specs.Denom.{denom_of};
    ghost use Rattle.line_json.specs.Members.{spelled_by};

    ghost form = { spelled_by denom_of };

    fn from_tree<N: Tree>(tree: &N) -> Option<Denom> {
        match tree.as_str() {
            Some(text) => read_denom(text).ok(),
            None => None,
        }
    }
}

/// The member of this name. The only error is `BadShape` with the given number, exactly where the member is missing or
/// not of its form.
pub fn member_at<T: Scalar, N: Tree>(number: u16, name: &str, tree: &N) -> Result<T, LineFault>
    ensures { result ≡ member_at T.form number name.now (N.seen tree.now) }
{
    match tree.get(name) {
        Some(found) => T::from_tree(&found).ok_or(LineFault::BadShape(number)),
        None => Err(LineFault::BadShape(number)),
    }
}

/// The member of this name, which may be missing. The only error is `BadShape` with the given number, exactly where it
/// is there and not of its form.
pub fn optional_at<T: Scalar, N: Tree>(
    number: u16,
    name: &str,
    tree: &N,
) -> Result<Option<T>, LineFault>
    ensures { result ≡ optional_at T.form number name.now (N.seen tree.now) }
{
    match tree.get(name) {
        Some(found) => match T::from_tree(&found) {
            Some(member) => Ok(Some(member)),
            None => Err(LineFault::BadShape(number)),
        },
        None => Ok(None),
    }
}

/// The member of this name, the text of a user's address in this form. The only error is `BadShape` with the given
/// number, exactly where the member is missing or no such text.
pub fn user_at<N: Tree>(form: Form, number: u16, name: &str, tree: &N) -> Result<Addr, LineFault>
    ensures { result ≡ user_at form number name.now (N.seen tree.now) }
{
    match tree.get(name) {
        Some(found) => match found.as_str() {
            Some(text) => user_of_text(form, text).ok_or(LineFault::BadShape(number)),
            None => Err(LineFault::BadShape(number)),
        },
        None => Err(LineFault::BadShape(number)),
    }
}

/// The member of this name, the text of an operator's address in this form. The only error is `BadShape` with the given
/// number, exactly where the member is missing or no such text.
pub fn operator_at<N: Tree>(
    form: Form,
    number: u16,
    name: &str,
    tree: &N,
) -> Result<Addr, LineFault>
    ensures { result ≡ operator_at form number name.now (N.seen tree.now) }
{
    match tree.get(name) {
        Some(found) => match found.as_str() {
            Some(text) => operator_of_text(form, text).ok_or(LineFault::BadShape(number)),
            None => Err(LineFault::BadShape(number)),
        },
        None => Err(LineFault::BadShape(number)),
    }
}

/// The member of this name, the text of the address of a user or of a module in this form. The only error is `BadShape` with the given
/// number, exactly where the member is missing or no such text.
pub fn account_at<N: Tree>(
    form: Form,
    number: u16,
    name: &str,
    tree: &N,
) -> Result<Account, LineFault>
    ensures { result ≡ account_at form number name.now (N.seen tree.now) }
{
    match tree.get(name) {
        Some(found) => match found.as_str() {
            Some(text) => account_of_text(form, text).ok_or(LineFault::BadShape(number)),
            None => Err(LineFault::BadShape(number)),
        },
        None => Err(LineFault::BadShape(number)),
    }
}

/// The member of this name, the text of a consensus address in this form. The only error is `BadShape` with the given
/// number, exactly where the member is missing or no such text.
pub fn cons_at<N: Tree>(
    form: Form,
    number: u16,
    name: &str,
    tree: &N,
) -> Result<ConsAddr, LineFault>
    ensures { result ≡ cons_at form number name.now (N.seen tree.now) }
{
    match tree.get(name) {
        Some(found) => match found.as_str() {
            Some(text) => cons_of_text(form, text).ok_or(LineFault::BadShape(number)),
            None => Err(LineFault::BadShape(number)),
        },
        None => Err(LineFault::BadShape(number)),
    }
}

/// Nothing, where the member of this name is the string of this word. The only error is `BadShape` with the given
/// number, exactly where it is not.
pub fn word_at<N: Tree>(number: u16, name: &str, word: &str, tree: &N) -> Result<(), LineFault>
    ensures { result ≡ word_at number name.now word.now (N.seen tree.now) }
{
    match tree.get(name) {
        Some(found) => match found.as_str() {
            Some(text) if text == word => Ok(()),
            _ => Err(LineFault::BadShape(number)),
        },
        None => Err(LineFault::BadShape(number)),
    }
}

/// Nothing, where the tree is an object with no member of another name. The only error is `BadShape` with 0, exactly
/// where it is not.
pub fn only_named<N: Tree>(names: &[&str], tree: &N) -> Result<(), LineFault>
    ensures { result ≡ only_named (texts_of names.now) (N.seen tree.now) }
{
    match tree.named_among(names) {
        Some(true) => Ok(()),
        _ => Err(LineFault::BadShape(0)),
    }
}
