// When two JSON values are the same. `==` of `serde_json` states nothing, so the walk is our own.
ghost use Rattle.std.specs.Prelude.{◌≡◌, ◌&&◌};
ghost use Rattle.std.specs.Str.{bytes_eq};
ghost use Rattle.serde_json.specs.View.{view, items_view, members_view, number_view};
ghost use Rattle.oidc_claims.specs.Same.{same_number, same_data, same_items, same_members, same_list};

use oidc_members::OutMember;
use serde_json::{Map, Number, Value};

fn is_same_number(a: &Number, b: &Number) -> bool
    ensures { result ≡ same_number (number_view a.now) (number_view b.now) }
{
    match (a.as_u64(), b.as_u64()) {
        (Some(m), Some(n)) => m == n,
        (None, None) => match (a.as_i64(), b.as_i64()) {
            (Some(m), Some(n)) => m == n,
            _ => false,
        },
        _ => false,
    }
}

#[cycle(same)]
pub(crate) fn is_same_value(a: &Value, b: &Value) -> bool
    ensures { result ≡ same_data (view a.now) (view b.now) }
{
    match (a, b) {
        (Value::Null, Value::Null) => true,
        (Value::Bool(a), Value::Bool(b)) => *a == *b,
        (Value::Number(a), Value::Number(b)) => is_same_number(a, b),
        (Value::String(a), Value::String(b)) => a.as_str() == b.as_str(),
        (Value::Array(a), Value::Array(b)) => is_same_array(a, b),
        (Value::Object(a), Value::Object(b)) => is_same_object(a, b),
        _ => false,
    }
}

#[cycle(same)]
fn is_same_array(a: &Vec<Value>, b: &Vec<Value>) -> bool
    ensures { result ≡ same_items (items_view a.now.items) (items_view b.now.items) }
{
    let mut others = b.iter();
    for item in a.iter() {
        match others.next() {
            None => return false,
            Some(other) => {
                if !is_same_value(item, other) {
                    return false;
                }
            }
        }
    }
    others.next().is_none()
}

#[cycle(same)]
fn is_same_object(a: &Map<String, Value>, b: &Map<String, Value>) -> bool
    ensures { result ≡ same_members (members_view a.now.entries) (members_view b.now.entries) }
{
    let mut others = b.iter();
    for (key, member) in a.iter() {
        match others.next() {
            None => return false,
            Some((name, other)) => {
                if key.as_str() != name.as_str() || !is_same_value(member, other) {
                    return false;
                }
            }
        }
    }
    others.next().is_none()
}

// Whether two members have the same name and value.
fn is_same_member(a: &OutMember, b: &OutMember) -> bool
    ensures { result ≡ (bytes_eq a.now.name b.now.name && same_data a.now.value b.now.value) }
{
    a.name.as_str() == b.name.as_str() && is_same_value(&a.value, &b.value)
}

/// Whether two lists have the same names and values, one by one.
pub(crate) fn is_same_list(a: &[OutMember], b: &[OutMember]) -> bool
    ensures { result ≡ same_list a.now b.now }
{
    let mut others = b.iter();
    for member in a {
        match others.next() {
            None => return false,
            Some(other) => {
                if !is_same_member(member, other) {
                    return false;
                }
            }
        }
    }
    others.next().is_none()
}
