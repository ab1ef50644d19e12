//! What the machine keeps, as functions that do nothing: their contracts are the laws.

ghost use Rattle.rule_machine.specs.Promises.{AllTransactionsEnd, PlainMessagesNameConditions};

/// Each transaction ends in one of three ways: its messages are all carried out; its fee is not
/// paid, and nothing changes; or a message is refused, and nothing but the fee has moved.
pub fn all_transactions_end()
    ensures { AllTransactionsEnd }
{}

/// Sending, editing a validator, leaving jail, withdrawing commission, naming a payee and spending from the pool are refused
/// by the first of their conditions that holds.
pub fn plain_messages_name_conditions()
    ensures { PlainMessagesNameConditions }
{
    rule_modules::laws::refusals_name_conditions();
}
