//! Worked lines, computed from the definitions.
ghost use Rattle.std.specs.Prelude.{◌≡◌, ◌++◌, ◌-◌, ◌^◌, [], replicate, codes, Ok, Err, Some, None};
ghost use Rattle.line_json.specs.Members.{amount_of};
ghost use Rattle.line_json.specs.Genesis.{genesis_of};
ghost use Rattle.line_json.specs.Block.{block_of};
ghost use Rattle.line_json.specs.ReadingExample as example;

use base_bech32::Form;
use base_messages::LineFault;

/// The lines of a chain with one account and one block with one send are read as these values, and so is a
/// message of each kind; what is no JSON, and what is not of the form, has its fault; and amounts have 1 to
/// 38 digits, of which `9` is 57.
pub fn lines_read_by_example()
    ensures genesis { genesis_of Form.Hex example.genesis_line ≡ Ok example.genesis }
    ensures block { block_of Form.Hex example.block_line ≡ Ok example.block }

    ensures send { example.message_in (codes "send") example.send_members ≡ Ok example.send }
    ensures create_validator { example.message_in (codes "create_validator")
        example.create_validator_members ≡ Ok example.create_validator }
    ensures edit_validator { example.message_in (codes "edit_validator")
        example.edit_validator_members ≡ Ok example.edit_validator }
    ensures delegate { example.message_in (codes "delegate") example.delegate_members
        ≡ Ok example.delegate }
    ensures undelegate { example.message_in (codes "undelegate") example.delegate_members
        ≡ Ok example.undelegate }
    ensures begin_redelegate { example.message_in (codes "begin_redelegate")
        example.begin_redelegate_members ≡ Ok example.begin_redelegate }
    ensures cancel_unbonding { example.message_in (codes "cancel_unbonding")
        example.cancel_unbonding_members ≡ Ok example.cancel_unbonding }
    ensures unjail { example.message_in (codes "unjail") example.unjail_members
        ≡ Ok example.unjail }
    ensures withdraw_reward { example.message_in (codes "withdraw_reward")
        example.withdraw_reward_members ≡ Ok example.withdraw_reward }
    ensures withdraw_commission { example.message_in (codes "withdraw_commission")
        example.unjail_members ≡ Ok example.withdraw_commission }
    ensures set_withdraw_address { example.message_in (codes "set_withdraw_address")
        example.set_withdraw_address_members ≡ Ok example.set_withdraw_address }
    ensures fund_community_pool { example.message_in (codes "fund_community_pool")
        example.fund_community_pool_members ≡ Ok example.fund_community_pool }
    ensures community_pool_spend { example.message_in (codes "community_pool_spend")
        example.community_pool_spend_members ≡ Ok example.community_pool_spend }
    ensures update_params { example.message_in (codes "update_params")
        example.update_params_members ≡ Ok example.update_params }

    ensures not_json { block_of Form.Hex (codes "{") ≡ Err LineFault.NotJson }
    ensures empty { block_of Form.Hex [] ≡ Err LineFault.NotJson }
    ensures of_genesis { block_of Form.Hex (codes "{\"kind\":\"genesis\"}") ≡ Err (LineFault.BadShape 60) }
    ensures no_height { block_of Form.Hex (codes "{\"kind\":\"block\"}") ≡ Err (LineFault.BadShape 61) }
    ensures twice { example.message_in (codes "send") example.twice_members
        ≡ Err (LineFault.BadShape 93) }
    ensures no_kind { example.message_in (codes "jail") [] ≡ Err (LineFault.BadShape 90) }
    ensures no_rate { example.message_in (codes "edit_validator")
        (example.unjail_members ++ codes ",\"rate\":null") ≡ Err (LineFault.BadShape 101) }
    ensures no_params { example.message_in (codes "update_params")
        (codes ",\"authority\":" ++ example.ones_text) ≡ Err (LineFault.BadShape 109) }
    ensures no_object { example.message_in (codes "update_params")
        (codes ",\"authority\":" ++ example.ones_text ++ codes ",\"params\":[]")
        ≡ Err (LineFault.BadShape 10) }
    ensures memo { example.message_in (codes "unjail")
        (example.unjail_members ++ codes ",\"memo\":0") ≡ Err (LineFault.BadShape 0) }

    ensures zeros { amount_of (codes "007") ≡ Some 7 }
    ensures sign { amount_of (codes "+7") ≡ None }
    ensures no_digits { amount_of [] ≡ None }
    ensures digits_38 { amount_of (replicate 38 57) ≡ Some (10 ^ 38 - 1) }
    ensures digits_39 { amount_of (replicate 39 57) ≡ None }
{}
