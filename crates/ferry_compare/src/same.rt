//! When two msgpack values are the same.
ghost use Rattle.std.specs.Prelude.{◌≡◌, ◌↔◌, IsTrue};
ghost use Rattle.ferry_msgpack.specs.View.{value_view, items_view, pairs_view};
ghost use Rattle.ferry_compare.specs.Same.{same_tree, same_items, same_pairs};

use ferry_msgpack::Value;

/// Whether two values are the same. Their `==`, which is derived, says nothing of values inside.
pub(crate) fn same_value(first: &Value, second: &Value) -> bool
    ensures same { IsTrue result ↔ (value_view first.now ≡ value_view second.now) }
{
    tests_same(first, second)
}

/// Whether two values are the same, as the test that computes it.
#[cycle(same)]
fn tests_same(first: &Value, second: &Value) -> bool
    ensures { result ≡ same_tree (value_view first.now) (value_view second.now) }
{
    match (first, second) {
        (Value::Nil, Value::Nil) => true,
        (Value::Flag(a), Value::Flag(b)) => *a == *b,
        (Value::Number(a), Value::Number(b)) => *a == *b,
        (Value::Raw(a), Value::Raw(b)) => a.as_slice() == b.as_slice(),
        (Value::Array(a), Value::Array(b)) => tests_items(a, b),
        (Value::Table(a), Value::Table(b)) => tests_pairs(a, b),
        _ => false,
    }
}

#[cycle(same)]
fn tests_items(first: &Vec<Value>, second: &Vec<Value>) -> bool
    ensures { result ≡ same_items (items_view first.now.items) (items_view second.now.items) }
{
    if first.len() != second.len() {
        return false;
    }
    for place in 0..first.len() {
        if !tests_same(&first[place], &second[place]) {
            return false;
        }
    }
    true
}

#[cycle(same)]
fn tests_pairs(first: &Vec<(Vec<u8>, Value)>, second: &Vec<(Vec<u8>, Value)>) -> bool
    ensures { result ≡ same_pairs (pairs_view first.now.items) (pairs_view second.now.items) }
{
    if first.len() != second.len() {
        return false;
    }
    for place in 0..first.len() {
        if first[place].0.as_slice() != second[place].0.as_slice() {
            return false;
        }
        if !tests_same(&first[place].1, &second[place].1) {
            return false;
        }
    }
    true
}
