// The items of an array, and the members of an object in the order of their names.

ghost use Rattle.std.specs.Prelude.{◌≡◌, bytes_eq, option_map, string_bytes, IfOk};
ghost use Rattle.serde_json.specs.Find.{get_item, get_member};
ghost use Rattle.json_value.specs.View.{view, items_view, members_view};

use crate::value::Value;
use std::alloc::{AllocError, Global};
use std::collections::BTreeMap;

/// The item at an index.
pub(crate) fn item_at(items: &[Value], index: usize) -> Option<&Value>
    ensures { option_map (λ v. view v.now) result ≡ get_item index (items_view items.now) }
{
    if index < items.len() {
        Some(&items[index])
    } else {
        None
    }
}

// Whether a member has this name.
fn is_named(member: &(String, Value), name: &str) -> bool
    ensures { result ≡ bytes_eq name.now (string_bytes member.now.0) }
{
    name == member.0.as_str()
}

/// The member with this name.
pub(crate) fn found_in<'v>(members: &'v [(String, Value)], name: &str) -> Option<&'v Value>
    ensures { option_map (λ v. view v.now) result ≡ get_member name.now (members_view members.now) }
{
    for index in 0..members.len() {
        let member = &members[index];
        if is_named(member, name) {
            return Some(&member.1);
        }
    }
    None
}

/// The entries of a map as a list of exactly as many. The only error is that memory ran out.
pub(crate) fn into_list(
    alloc: Global,
    map: BTreeMap<String, Value>,
) -> Result<Vec<(String, Value)>, AllocError>
    ensures { IfOk result (λ list. list.items ≡ map.entries) }
{
    let mut list = Vec::with_capacity(alloc, map.len())?;
    for entry in map {
        list.push(entry)?;
    }
    Ok(list)
}
