//! Looking into a value.
ghost use Rattle.std.specs.Prelude.{◌≡◌};
ghost use Rattle.std.specs.Option.{option_map};
ghost use Rattle.serde_json.specs.Find.{as_array};
ghost use Rattle.serde_json.specs.View.{view, items_view};
ghost use Rattle.plan_json.specs.Looking.{whole_number, only_member, two_members, two_items, three_items};

use serde_json::Value;

// A whole number: one that is held as an i64 or as a u64.
pub(crate) fn whole_number(value: &Value) -> Option<i128>
    ensures { result ≡ whole_number (view value.now) }
{
    match value.as_i64() {
        Some(signed) => Some(signed as i128),
        None => match value.as_u64() {
            Some(unsigned) => Some(unsigned as i128),
            None => None,
        },
    }
}

// The key and the value of an object of one key.
#[tactic(auto, using(crate::proofs::Lemmas::looking))]
pub(crate) fn only_member(value: &Value) -> Option<(&str, &Value)>
    ensures { option_map (λ m. (m.0.now, view m.1.now)) result ≡ only_member (view value.now) }
{
    match value.as_object() {
        None => None,
        Some(members) => {
            if members.len() != 1 {
                return None;
            }
            match members.first_key_value() {
                None => None,
                Some((key, inner)) => Some((key.as_str(), inner)),
            }
        }
    }
}

// The values of an object of these two keys alone.
#[tactic(auto, using(crate::proofs::Lemmas::looking))]
pub(crate) fn two_members<'v>(
    value: &'v Value,
    first: &'static str,
    second: &'static str,
) -> Option<(&'v Value, &'v Value)>
    ensures { option_map (λ m. (view m.0.now, view m.1.now)) result
        ≡ two_members first.now second.now (view value.now) }
{
    match value.as_object() {
        None => None,
        Some(members) => {
            if members.len() != 2 {
                return None;
            }
            match value.get(first) {
                None => None,
                Some(left) => match value.get(second) {
                    None => None,
                    Some(right) => Some((left, right)),
                },
            }
        }
    }
}

// The items of a list.
pub(crate) fn items(value: &Value) -> Option<&[Value]>
    ensures { option_map (λ values. items_view values.now) result ≡ as_array (view value.now) }
{
    match value.as_array() {
        None => None,
        Some(values) => Some(values.as_slice()),
    }
}

// The items of a list of two.
#[tactic(auto, using(crate::proofs::Lemmas::looking))]
pub(crate) fn two_items(value: &Value) -> Option<(&Value, &Value)>
    ensures { option_map (λ m. (view m.0.now, view m.1.now)) result ≡ two_items (view value.now) }
{
    match items(value) {
        None => None,
        Some(items) => {
            if items.len() != 2 {
                return None;
            }
            Some((&items[0], &items[1]))
        }
    }
}

// The items of a list of three.
#[tactic(auto, using(crate::proofs::Lemmas::looking))]
pub(crate) fn three_items(value: &Value) -> Option<(&Value, &Value, &Value)>
    ensures { option_map (λ m. (view m.0.now, (view m.1.now, view m.2.now))) result ≡ three_items (view value.now) }
{
    match items(value) {
        None => None,
        Some(items) => {
            if items.len() != 3 {
                return None;
            }
            Some((&items[0], &items[1], &items[2]))
        }
    }
}

// What the text names, of what has a name.
macro_rules! named {
    ($alloc:ident, $value:ident, $named:ident) => {
        match $value.as_str() {
            None => Err(JsonError::shape($alloc, $value)),
            Some(name) => match $named(name) {
                None => Err(JsonError::shape($alloc, $value)),
                Some(named) => Ok(named),
            },
        }
    };
}

pub(crate) use named;

// What the row of an object's only key says of the value there.
macro_rules! keyed {
    ($alloc:ident, $value:ident, $word:ident => $row:expr, ($key:ident, $inner:ident) => $read:expr) => {
        match only_member($value) {
            None => Err(JsonError::shape($alloc, $value)),
            Some(($word, $inner)) => match $row {
                None => Err(JsonError::shape($alloc, $value)),
                Some((word, $key)) => match $read {
                    Err(error) => Err(error.below($alloc, Step::Key(word))),
                    Ok(read) => Ok(read),
                },
            },
        }
    };
}

pub(crate) use keyed;
