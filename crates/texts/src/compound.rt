//! Arrays and objects, written one part after another.

ghost use Rattle.std.specs.Prelude.{◌≡◌, Some, [], ◌∷◌, ◌++◌, map, IfOk};
ghost use Rattle.std.specs.List.{AllByRecursion};
ghost use Rattle.serde_json.specs.Data.{no_members, string, array, object, put};
ghost use Rattle.serde_json.specs.View.{view, items_of};
ghost use Rattle.texts.specs.Values.{bytes_of};
ghost use Rattle.texts.specs.Writing.{bytes_data};
ghost use Rattle.texts.specs.Compound.{items_in, members_in};

use crate::writing::{WriteValue, write_bytes, write_each};
use serde_json::{Map, Value};
use std::alloc::{AllocError, Global};

/// An array that is being written. The only error of a step is that memory ran out.
#[derive(Drop)]
pub(crate) struct ArrayWriter {
    alloc: Global,
    items: Vec<Value>,
}

impl ArrayWriter {
    /// The empty array.
    pub(crate) fn new(alloc: Global) -> Self
        ensures { items_in result ≡ [] }
    {
        ArrayWriter {
            alloc,
            items: Vec::new(alloc),
        }
    }

    /// An array whose first item is this name.
    pub(crate) fn named(alloc: Global, name: &str) -> Result<Self, AllocError>
        ensures { IfOk result (λ w. items_in w ≡ string name.now ∷ []) }
    {
        let name = Value::try_from_str(alloc, name)?;
        ArrayWriter::new(alloc).value(name)
    }

    /// Appends a value.
    pub(crate) fn value(mut self, value: Value) -> Result<Self, AllocError>
        ensures { IfOk result (λ w. items_in w ≡ items_in self ++ view value ∷ []) }
    {
        self.items.push(value)?;
        Ok(self)
    }

    /// Appends what is written of an item.
    pub(crate) fn item<T: WriteValue>(self, item: &T) -> Result<Self, AllocError>
        ensures form { IfOk result (λ w. items_in w ≡ items_in self ++ T.writes item.now ∷ []) }
        ensures back { IfOk result (λ _. T.comes_back item.now) }
    {
        let value = item.write_value(self.alloc)?;
        self.value(value)
    }

    /// Appends an array of these items.
    pub(crate) fn each<T: WriteValue>(self, items: &[T]) -> Result<Self, AllocError>
        ensures form { IfOk result (λ w. items_in w ≡ items_in self ++ array
            (items_of (map T.writes items.now)) ∷ []) }
        ensures back { IfOk result (λ _. AllByRecursion T.comes_back items.now) }
    {
        let value = write_each(self.alloc, items)?;
        self.value(value)
    }

    /// The finished array.
    pub(crate) fn finish(self) -> Value
        ensures { view result ≡ array (items_of (items_in self)) }
    {
        Value::Array(self.items)
    }
}

/// An object that is being written. The only error of a step is that memory ran out.
#[derive(Drop)]
pub(crate) struct ObjectWriter {
    alloc: Global,
    members: Map<String, Value>,
}

impl ObjectWriter {
    /// The empty object.
    pub(crate) fn new(alloc: Global) -> Self
        ensures { members_in result ≡ no_members }
    {
        ObjectWriter {
            alloc,
            members: Map::new(alloc),
        }
    }

    /// Adds a value under a name.
    pub(crate) fn value(mut self, name: &str, value: Value) -> Result<Self, AllocError>
        ensures { IfOk result (λ w. members_in w ≡ put name.now (view value) (members_in self)) }
    {
        serde_json::put(&mut self.members, self.alloc, name, value)?;
        Ok(self)
    }

    /// Adds what is written of a value under a name.
    pub(crate) fn member<T: WriteValue>(self, name: &str, member: &T) -> Result<Self, AllocError>
        ensures form { IfOk result (λ w. members_in w ≡ put name.now (T.writes member.now)
            (members_in self)) }
        ensures back { IfOk result (λ _. T.comes_back member.now) }
    {
        let value = member.write_value(self.alloc)?;
        self.value(name, value)
    }

    /// Adds bytes in hexadecimal under a name.
    pub(crate) fn bytes(self, name: &str, bytes: &[u8]) -> Result<Self, AllocError>
        ensures form { IfOk result (λ w. members_in w ≡ put name.now (bytes_data bytes.now)
            (members_in self)) }
        ensures back { IfOk result (λ _. bytes_of (bytes_data bytes.now) ≡ Some bytes.now) }
    {
        let value = write_bytes(self.alloc, bytes)?;
        self.value(name, value)
    }

    /// Adds an array of these items under a name.
    pub(crate) fn each<T: WriteValue>(self, name: &str, items: &[T]) -> Result<Self, AllocError>
        ensures form { IfOk result (λ w. members_in w ≡ put name.now
            (array (items_of (map T.writes items.now))) (members_in self)) }
        ensures back { IfOk result (λ _. AllByRecursion T.comes_back items.now) }
    {
        let value = write_each(self.alloc, items)?;
        self.value(name, value)
    }

    /// The finished object.
    pub(crate) fn finish(self) -> Value
        ensures { view result ≡ object (members_in self) }
    {
        Value::Object(self.members)
    }
}
