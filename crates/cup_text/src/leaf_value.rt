//! The JSON values of leaves and of lists.

ghost use Rattle.std.specs.Prelude.{◌≡◌, ◌∷◌, [], codes, IfOk};
ghost use Rattle.serde_json.specs.View.{view};
ghost use Rattle.cert_text.specs.Lines.{clubs, word};
ghost use Rattle.cert_text.specs.inside.Values.{clubs_value, parts_value};
ghost use Rattle.cup_text.specs.CupLines.{cup_leaf_parts, cup_reason_parts};
ghost use Rattle.cup_text.specs.CupValues as values;

use crate::cup_line::{CupKey, CupLeaf, CupReason};
use serde_json::{Value, json};
use std::alloc::{AllocError, Global};

/// A leaf after the name of its line.
pub fn leaf_value(alloc: Global, name: &str, leaf: &CupLeaf) -> Result<Value, AllocError>
    ensures { IfOk result
        (λ value. view value ≡ parts_value (word name.now ∷ cup_leaf_parts leaf.now)) }
{
    match leaf {
        CupLeaf::Plain(reason) => reason_value(alloc, name, reason),
        CupLeaf::In(reason) => sided_value(alloc, name, "in", reason),
        CupLeaf::Out(reason) => sided_value(alloc, name, "out", reason),
        CupLeaf::ByKey => json!(in alloc; [name, "key"]),
    }
}

fn reason_value(alloc: Global, name: &str, reason: &CupReason) -> Result<Value, AllocError>
    ensures { IfOk result
        (λ value. view value ≡ parts_value (word name.now ∷ cup_reason_parts reason.now)) }
{
    match reason {
        CupReason::Count => json!(in alloc; [name, "count"]),
        CupReason::Window => json!(in alloc; [name, "window"]),
        CupReason::Low(cut) => cut_value(alloc, name, "low", cut.list.as_slice()),
        CupReason::High(cut) => cut_value(alloc, name, "high", cut.list.as_slice()),
        CupReason::Tie => json!(in alloc; [name, "tie"]),
    }
}

fn cut_value(alloc: Global, name: &str, cut: &str, numbers: &[u8]) -> Result<Value, AllocError>
    ensures { IfOk result (λ value. view value
        ≡ parts_value (word name.now ∷ word cut.now ∷ clubs numbers.now ∷ [])) }
{
    let list = list_value(alloc, numbers)?;
    json!(in alloc; [name, cut, list])
}

// A reason after the side on which the club ends.
fn sided_value(
    alloc: Global,
    name: &str,
    side: &str,
    reason: &CupReason,
) -> Result<Value, AllocError>
    ensures { IfOk result (λ value. view value
        ≡ parts_value (word name.now ∷ word side.now ∷ cup_reason_parts reason.now)) }
{
    match reason {
        CupReason::Count => json!(in alloc; [name, side, "count"]),
        CupReason::Window => json!(in alloc; [name, side, "window"]),
        CupReason::Low(cut) => sided_cut(alloc, name, side, "low", cut.list.as_slice()),
        CupReason::High(cut) => sided_cut(alloc, name, side, "high", cut.list.as_slice()),
        CupReason::Tie => json!(in alloc; [name, side, "tie"]),
    }
}

fn sided_cut(
    alloc: Global,
    name: &str,
    side: &str,
    cut: &str,
    numbers: &[u8],
) -> Result<Value, AllocError>
    ensures { IfOk result (λ value. view value ≡ parts_value
        (word name.now ∷ word side.now ∷ word cut.now ∷ clubs numbers.now ∷ [])) }
{
    let list = list_value(alloc, numbers)?;
    json!(in alloc; [name, side, cut, list])
}

/// Clubs or groups as a list of numbers from 1.
pub fn list_value(alloc: Global, numbers: &[u8]) -> Result<Value, AllocError>
    ensures { IfOk result (λ value. view value ≡ clubs_value numbers.now) }
{
    let mut items = Vec::new(alloc);
    for number in numbers {
        items.push(Value::from(u64::from(*number) + 1))?;
    }
    Ok(Value::Array(items))
}

/// A key as a list of its parts.
pub fn key_value(alloc: Global, key: &CupKey) -> Result<Value, AllocError>
    ensures { IfOk result (λ value. view value ≡ values.key_value key.now) }
{
    numbers_value(alloc, key.parts.as_slice())
}

fn numbers_value(alloc: Global, parts: &[i32]) -> Result<Value, AllocError>
    ensures { IfOk result (λ value. view value ≡ values.integers_value parts.now) }
{
    let mut items = Vec::new(alloc);
    for part in parts {
        items.push(Value::from(*part))?;
    }
    Ok(Value::Array(items))
}
