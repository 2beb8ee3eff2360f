// From text to a value, in one pass over the tokens.

ghost use Rattle.std.specs.Prelude.{◌≡◌, ◌<◌, length, Some, None, Err, IfOk, IfErr, OnOk, IsUtf8};
ghost use Rattle.json.specs.Json.{value, items, members};
ghost use Rattle.serde_json.specs.Data.{no_members};
ghost use Rattle.serde_json.specs.Read.{of_json, of_items, of_members, converted, read as read_text};
ghost use Rattle.json_value.specs.View.{view, items_view, members_view};
ghost use Rattle.json_value.specs.Reading.{IsRead};
ghost use Rattle.json_value.specs.declared.errors.ReadError.TheVariants.{NotJson};

use crate::errors::ReadError;
use crate::numbers::number_in;
use crate::objects::into_list;
use crate::value::Value;
use json::{Reader, Scratch, Token};
use std::alloc::Global;
use std::collections::BTreeMap;

// How deep arrays and objects may nest.
const MAX_DEPTH: usize = 127;

impl Value {
    /// Reads a text.
    pub fn from_str(alloc: Global, text: &str) -> Result<Value, ReadError>
        ensures { IsRead result (read_text text.now) }
    {
        let mut scratch = Scratch::new(alloc);
        read_all(alloc, text, &mut scratch)
    }

    /// Reads bytes, which are not JSON if they are not UTF-8.
    pub fn from_slice(alloc: Global, bytes: &[u8]) -> Result<Value, ReadError>
        ensures ok { IfOk result (λ v. IsUtf8 bytes.now × (read_text bytes.now ≡ Some (view v))) }
        ensures err { result ≡ Err NotJson → IsUtf8 bytes.now → read_text bytes.now ≡ None }
    {
        match simdutf8::compat::from_utf8(bytes) {
            Ok(text) => Value::from_str(alloc, text),
            Err(_) => Err(ReadError::NotJson),
        }
    }
}

// Reads a text, with a buffer for its strings.
fn read_all(alloc: Global, text: &str, scratch: &mut Scratch) -> Result<Value, ReadError>
    ensures { IsRead result (read_text text.now) }
{
    let mut reader = match Reader::new(text, scratch) {
        Ok(reader) => reader,
        Err(_) => return Err(ReadError::NoMemory),
    };
    let value = read(alloc, &mut reader, MAX_DEPTH)?;
    if reader.next().is_some() {
        return Err(ReadError::NotJson);
    }
    Ok(value)
}

#[cycle(read)]
#[inline(always)]
fn read(alloc: Global, reader: &mut Reader<'_>, depth: usize) -> Result<Value, ReadError>
    ensures ok { IfOk result
        (λ v. converted of_json (value depth reader.old) ≡ Some (view v, reader.new)) }
    ensures shorter { OnOk result (length reader.new < length reader.old) }
    ensures err { result ≡ Err NotJson → converted of_json (value depth reader.old) ≡ None }
{
    let token = reader.next().ok_or(ReadError::NotJson)?;
    match token {
        Token::String(text) => Ok(Value::String(String::from_str(alloc, text)?)),
        Token::Number(text) => match number_in(text) {
            Some(number) => Ok(Value::Number(number)),
            None => Err(ReadError::NotJson),
        },
        Token::Bool(holds) => Ok(Value::Bool(holds)),
        Token::Null => Ok(Value::Null),
        Token::EndObject | Token::EndArray | Token::Key(_) | Token::Bad => Err(ReadError::NotJson),
        Token::BeginArray => {
            if depth == 0 {
                return Err(ReadError::NotJson);
            }
            Ok(Value::Array(read_items(alloc, reader, depth - 1)?))
        }
        Token::BeginObject => {
            if depth == 0 {
                return Err(ReadError::NotJson);
            }
            Ok(Value::Object(read_members(alloc, reader, depth - 1)?))
        }
    }
}

#[cycle(read)]
#[inline(never)]
fn read_items(alloc: Global, reader: &mut Reader<'_>, depth: usize) -> Result<Vec<Value>, ReadError>
    ensures ok { IfOk result
        (λ v. converted of_items (items (value depth) (length reader.old) reader.old)
        ≡ Some (items_view v.items, reader.new)) }
    ensures shorter { OnOk result (length reader.new < length reader.old) }
    ensures err { result ≡ Err NotJson
        → converted of_items (items (value depth) (length reader.old) reader.old) ≡ None }
{
    let mut found = Vec::new(alloc);
    'items: while !reader.take_end_array() {
        let item = read(alloc, reader, depth)?;
        found.push(item)?;
    }
    Ok(found)
}

#[cycle(read)]
#[inline(never)]
fn read_members(
    alloc: Global,
    reader: &mut Reader<'_>,
    depth: usize,
) -> Result<Vec<(String, Value)>, ReadError>
    ensures ok { IfOk result
        (λ m. converted (λ ms. of_members ms no_members)
        (members (value depth) (length reader.old) reader.old)
        ≡ Some (members_view m.items, reader.new)) }
    ensures shorter { OnOk result (length reader.new < length reader.old) }
    ensures err { result ≡ Err NotJson
        → converted (λ ms. of_members ms no_members)
        (members (value depth) (length reader.old) reader.old) ≡ None }
{
    let mut found = BTreeMap::new(alloc);
    'members: while let Some(name) = reader.next_key()? {
        let key = String::from_str(alloc, name)?;
        let member = read(alloc, reader, depth)?;
        drop(found.insert(key, member)?);
    }
    Ok(into_list(alloc, found)?)
}
