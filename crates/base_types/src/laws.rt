//! Laws of the texts, of accounts and of the orders, as functions that do nothing: each contract is the
//! law.

ghost use Rattle.std.specs.Prelude.{◌≡◌, ◌<◌, ℕ, List, Some, None, codes};
ghost use Rattle.std.specs.Ordering.{ordering_then};
ghost use Rattle.base_types.specs.declared.account.Account.{Account};
ghost use Rattle.base_types.specs.declared.account.Module.{Module};
ghost use Rattle.base_types.specs.Accounts.{account_of, account_bytes, account_from};
ghost use Rattle.base_types.specs.Address.{address_of, address_text, user_of, IsAddress};
ghost use Rattle.base_types.specs.Calendar.{end_of_time};
ghost use Rattle.base_types.specs.Denom.{denom_of};
ghost use Rattle.base_types.specs.Modules.{module_bytes, module_name};
ghost use Rattle.base_types.specs.Orders.{addr_cmp, cons_cmp, denom_cmp, moment_cmp, account_cmp};
ghost use Rattle.base_types.specs.Moment.{moment_of, moment_text};

use crate::account::{Account, Addr, Module};
use crate::cons::ConsAddr;
use crate::denom::Denom;
use crate::moment::Moment;

/// A printed moment is read back as the same moment.
pub fn moments_read_back()
    ensures { (nanos : ℕ) → nanos < end_of_time → moment_of (moment_text nanos) ≡ Some nanos }
{}

/// A printed address is read back as the same address.
pub fn addresses_read_back()
    ensures { (bytes : List ℕ) → IsAddress bytes → address_of (address_text bytes) ≡ Some bytes }
{}

/// What is read of an address is twenty bytes, and no other text is read as these: the printed one is the
/// only spelling.
pub fn addresses_have_one_text()
    ensures address { (text bytes : List ℕ) → address_of text ≡ Some bytes → IsAddress bytes }
    ensures text { (text bytes : List ℕ) → address_of text ≡ Some bytes
        → text ≡ address_text bytes }
{}

/// An account keeps the bytes that it is made of, those of a module make that module, and a module's name
/// is read as no address.
pub fn accounts_keep_their_bytes()
    ensures bytes { (bytes : List ℕ) → account_bytes (account_from bytes) ≡ bytes }
    ensures modules { (m : Module) → account_from (module_bytes m) ≡ Account.Module m }
    ensures names { (m : Module) → address_of (module_name m) ≡ None }
{}

/// The orders of keys: addresses and denominations go by their bytes, moments by their numbers, accounts
/// by address with the modules last, and pairs by the first part and then the second.
pub fn orders_of_keys()
    ensures addresses { (a b : List ℕ) → ⟦<Addr as Ord>⟧.cmp a b ≡ addr_cmp a b }
    ensures consensus { (a b : List ℕ) → ⟦<ConsAddr as Ord>⟧.cmp a b ≡ cons_cmp a b }
    ensures denominations { (a b : List ℕ) → ⟦<Denom as Ord>⟧.cmp a b ≡ denom_cmp a b }
    ensures moments { (a b : ℕ) → ⟦<Moment as Ord>⟧.cmp a b ≡ moment_cmp a b }
    ensures accounts { (a b : Account) → ⟦<Account as Ord>⟧.cmp a b ≡ account_cmp a b }
    ensures pairs { (a b : List ℕ × List ℕ) → ⟦<(Addr, Addr) as Ord>⟧.cmp a b
        ≡ ordering_then (addr_cmp a.0 b.0) (addr_cmp a.1 b.1) }
{}

/// Worked rows of the texts. The numbers of the moments are those of Python's `datetime`.
pub fn texts_by_example()
    ensures first { moment_text 0 ≡ codes "1970-01-01T00:00:00Z" }
    ensures leap_day { moment_text 1_709_208_000_500_000_000 ≡ codes "2024-02-29T12:00:00.5Z" }
    ensures last { moment_text 253_402_300_799_999_999_999
        ≡ codes "9999-12-31T23:59:59.999999999Z" }
    ensures zeros { moment_of (codes "2024-02-29T12:00:00.500Z") ≡ Some 1_709_208_000_500_000_000 }
    ensures no_day { moment_of (codes "2023-02-29T12:00:00Z") ≡ None }
    ensures no_hour { moment_of (codes "2024-02-29T24:00:00Z") ≡ None }
    ensures no_year { moment_of (codes "1969-12-31T23:59:59Z") ≡ None }
    ensures no_digit { moment_of (codes "2024-02-29T12:00:00.Z") ≡ None }
    ensures ten_digits { moment_of (codes "2024-02-29T12:00:00.1234567890Z") ≡ None }

    ensures capital { address_of (codes "00112233445566778899aabbccddeeff0123456A") ≡ None }
    ensures short { address_of (codes "00112233445566778899aabbccddeeff012345") ≡ None }
    ensures module_address { account_of (codes "0000000000000000000000000000000000000002")
        ≡ Some (Account.Module Module.Bonded) }
    ensures no_user { user_of (codes "0000000000000000000000000000000000000002") ≡ None }

    ensures shortest { denom_of (codes "Ua-") ≡ Some (codes "Ua-") }
    ensures too_short { denom_of (codes "ua") ≡ None }
    ensures digit_first { denom_of (codes "1atom") ≡ None }
    ensures other_character { denom_of (codes "u atom") ≡ None }
{}
