//! The lists of filters.

ghost use Rattle.std.specs.Prelude.{◌≡◌, true, map, string_bytes, IfOk, OnOk};
ghost use Rattle.scenario_reader.specs.Prelude.{Gives, each, fault_of, form_of, has_pattern, holds, items_view, optional, under_item, view};
ghost use Rattle.scenario_values.specs.declared.fault.FaultCode.TheVariants.{BadPattern};
ghost use Rattle.scenario_reader.specs.Filters.{filter_in, list_in, everything, filters_in, no_filters, HavePatterns, AreRead};

use crate::orch_base::Memory;
use cluster_filters::{FilterFault, Filters};
use scenario_values::{
    FaultCode, ReadFault, fails, items_in, members_in, only_keys, text_in, under, under_item,
};
use scenarios::Texts;
use serde_json::Value;
use std::alloc::Global;

/// The texts of the two lists of filters.
#[derive(Drop)]
pub struct FilterTexts {
    pub master: Texts,
    pub intermediate: Texts,
}

// Nothing, if the regular expression of a filter, if it has one, has a pattern.
fn test_filter(alloc: Global, text: &str) -> Result<(), ReadFault>
    ensures exact { Gives (λ _. tt) fault_of result
        (holds BadPattern (has_pattern (form_of text.now))) }
    ensures read { OnOk result (has_pattern (form_of text.now) ≡ true) }
{
    match Filters::test(alloc, text) {
        Ok(()) => Ok(()),
        Err(FilterFault::BadPattern(_)) => Err(fails(alloc, FaultCode::BadPattern)),
        Err(FilterFault::Memory) => Err(ReadFault::Memory),
    }
}

#[tactic(auto, unfolding(crate::specs::Filters::filter_in))]
fn filter_in(alloc: Global, value: &Value) -> Result<String, ReadFault>
    ensures exact { Gives string_bytes fault_of result (filter_in (view value.now)) }
    ensures read { IfOk result (λ s. has_pattern (form_of (string_bytes s)) ≡ true) }
{
    let text = text_in(alloc, value)?;
    test_filter(alloc, text)?;
    Ok(String::from_str(alloc, text)?)
}

#[tactic(auto, using(scenario_values::proofs::Unders::gives_under))]
fn filter_at(alloc: Global, number: usize, value: &Value) -> Result<String, ReadFault>
    ensures exact { Gives string_bytes fault_of result
        (under_item number (filter_in (view value.now))) }
    ensures read { IfOk result (λ s. has_pattern (form_of (string_bytes s)) ≡ true) }
{
    under_item(alloc, number, filter_in(alloc, value))
}

fn each_filter(alloc: Global, items: &[Value]) -> Result<Vec<String>, ReadFault>
    ensures exact { Gives (λ v. map string_bytes v.items) fault_of result
        (each filter_in (items_view items.now)) }
    ensures read { IfOk result (λ v. HavePatterns (map string_bytes v.items)) }
{
    let mut texts = Vec::new(alloc);
    for (number, value) in items.iter().enumerate() {
        texts.push(filter_at(alloc, number, value)?)?;
    }
    Ok(texts)
}

#[tactic(auto, unfolding(crate::specs::Filters::list_in))]
fn list_in(alloc: Global, value: &Value) -> Result<Texts, ReadFault>
    ensures exact { Gives (λ t. t) fault_of result (list_in (view value.now)) }
    ensures read { IfOk result HavePatterns }
{
    let items = items_in(alloc, value)?;
    let texts = each_filter(alloc, items)?;
    Ok(Texts::new(texts))
}

// The list of the one filter `*`.
fn everything(alloc: Global) -> Result<Texts, Memory>
    ensures exact { IfOk result (λ t. t ≡ everything) }
    ensures read { IfOk result HavePatterns }
{
    let mut texts = Vec::new(alloc);
    texts.push(String::from_str(alloc, "*")?)?;
    Ok(Texts::new(texts))
}

#[tactic(auto, using(scenario_values::proofs::Unders::gives_under))]
fn list_at(alloc: Global, object: &Value, key: &str) -> Result<Texts, ReadFault>
    ensures exact { Gives (λ t. t) fault_of result
        (optional key.now list_in everything (view object.now)) }
    ensures read { IfOk result HavePatterns }
{
    match object.get(key) {
        Some(value) => under(alloc, key.as_bytes(), list_in(alloc, value)),
        None => Ok(everything(alloc)?),
    }
}

/// The filters of an object with the lists `master` and `intermediate`; a list that isn't there lets every cluster
/// through. For each element the kind is looked at first and then the pattern, and then the next element. `Memory` also
/// comes for a regular expression past the room that `regex` grants one.
#[tactic(auto, unfolding(crate::specs::Filters::filters_in))]
pub fn filters_in(alloc: Global, value: &Value) -> Result<FilterTexts, ReadFault>
    ensures exact { Gives (λ f. f) fault_of result (filters_in (view value.now)) }
    ensures read { IfOk result AreRead }
{
    let members = members_in(alloc, value)?;
    only_keys(alloc, members, &["master", "intermediate"])?;
    let master = list_at(alloc, value, "master")?;
    let intermediate = list_at(alloc, value, "intermediate")?;
    Ok(FilterTexts {
        master,
        intermediate,
    })
}

/// The lists that let every cluster through. `Err` means out of memory.
pub fn no_filters(alloc: Global) -> Result<FilterTexts, Memory>
    ensures exact { IfOk result (λ f. f ≡ no_filters) }
    ensures read { IfOk result AreRead }
{
    let master = everything(alloc)?;
    let intermediate = everything(alloc)?;
    Ok(FilterTexts {
        master,
        intermediate,
    })
}
