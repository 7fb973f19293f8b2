//! Rules of promotion in a text.

ghost use Rattle.std.specs.Prelude.{◌≡◌};
ghost use Rattle.scenario_servers.specs.Prelude.{Gives, fault_of, maybe, view};
ghost use Rattle.scenario_servers.specs.Rules.{rule_in};

use crate::orch_base::Rule;
use commands::rule_at;
use scenario_values::{FaultCode, ReadFault, fails, text_in, under};
use serde_json::Value;
use std::alloc::Global;

#[tactic(auto, unfolding(crate::specs::Rules::rule_in))]
fn rule_in(alloc: Global, value: &Value) -> Result<Rule, ReadFault>
    ensures { Gives (λ r. r) fault_of result (rule_in (view value.now)) }
{
    let text = text_in(alloc, value)?;
    match rule_at(text) {
        Some(rule) => Ok(rule),
        None => Err(fails(alloc, FaultCode::BadNumber)),
    }
}

/// The rule of promotion at a key of an object, if it has the key: `prefer`, `neutral`, `prefer_not` or `must_not`. No
/// text is `BadType`, another text `BadNumber`.
#[tactic(auto, using(scenario_values::proofs::Unders::gives_under))]
pub fn maybe_rule(alloc: Global, object: &Value, key: &str) -> Result<Option<Rule>, ReadFault>
    ensures { Gives (λ r. r) fault_of result (maybe key.now rule_in (view object.now)) }
{
    match object.get(key) {
        Some(value) => {
            let rule = under(alloc, key.as_bytes(), rule_in(alloc, value))?;
            Ok(Some(rule))
        }
        None => Ok(None),
    }
}
