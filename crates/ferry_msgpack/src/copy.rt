//! `clone`, written out since a derived one says nothing of a type that holds itself.

ghost use Rattle.std.specs.Prelude.{◌≡◌, IfOk};
ghost use Rattle.ferry_msgpack.specs.View.{value_view, items_view, pairs_view};

use crate::value::Value;
use std::alloc::AllocError;

impl Clone for Value {
    ghost is_clone = { λ v w. value_view w ≡ value_view v };

    fn clone(&self) -> Result<Value, AllocError> {
        copy_value(self)
    }
}

#[cycle(copy)]
fn copy_value(value: &Value) -> Result<Value, AllocError>
    ensures { IfOk result (λ v. value_view v ≡ value_view value.now) }
{
    match value {
        Value::Nil => Ok(Value::Nil),
        Value::Flag(flag) => Ok(Value::Flag(*flag)),
        Value::Number(number) => Ok(Value::Number(*number)),
        Value::Raw(content) => Ok(Value::Raw(Vec::from_slice(*content.allocator(), content)?)),
        Value::Array(items) => Ok(Value::Array(copy_items(items)?)),
        Value::Table(pairs) => Ok(Value::Table(copy_pairs(pairs)?)),
    }
}

#[cycle(copy)]
fn copy_items(items: &Vec<Value>) -> Result<Vec<Value>, AllocError>
    ensures { IfOk result (λ v. items_view v.items ≡ items_view items.now.items) }
{
    let mut copies = Vec::with_capacity(*items.allocator(), items.len())?;
    for item in items {
        copies.push(copy_value(item)?)?;
    }
    Ok(copies)
}

#[cycle(copy)]
fn copy_pairs(pairs: &Vec<(Vec<u8>, Value)>) -> Result<Vec<(Vec<u8>, Value)>, AllocError>
    ensures { IfOk result (λ v. pairs_view v.items ≡ pairs_view pairs.now.items) }
{
    let mut copies = Vec::with_capacity(*pairs.allocator(), pairs.len())?;
    for (key, value) in pairs {
        let name = Vec::from_slice(*key.allocator(), key)?;
        copies.push((name, copy_value(value)?))?;
    }
    Ok(copies)
}
