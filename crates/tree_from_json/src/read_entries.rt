//! The entries of a store from JSON values.
ghost use Rattle.std.specs.Prelude.{◌≡◌, ◌++◌, map, option_copied, option_to_list, OnOk};
ghost use Rattle.json_values.specs.View.{view};
ghost use Rattle.json_model.specs.StoreForms as plain;
ghost use Rattle.json_model.specs.Faults.{mapped};
ghost use Rattle.json_model.specs.Parts.{read_each};
ghost use Rattle.json_model.specs.Texts.{read_name as name_meant};
ghost use Rattle.tree_from_json.specs.Ends.{Reads};
ghost use Rattle.tree_from_json.specs.Entries.{entry_of, placed_of, shortened};

use crate::entries::{Content, Entry, Placed, comes_next};
use crate::read_digits::{read_guid, read_hex};
use crate::read_ends::{JsonWhy, ReadEnd, fault_here, under};
use crate::read_parts::{has_members, items, member};
use crate::read_texts::read_name;
use carrier_io::{NoMemory, Units};
use json_values::{Value, unboxed};
use std::alloc::Global;

/// The greatest number of units of a name. [MS-CFB 2.6.1]
const GREATEST_NAME: usize = 31;

/// The elements of an array as names.
fn read_names(alloc: Global, value: &Value) -> Result<Vec<Units>, ReadEnd>
    ensures { Reads (λ v. v.items) (read_each (name_meant plain.MOST_NAME) (view value.now)) result }
{
    let values = unboxed(items(alloc, value)?);
    let mut names = Vec::with_capacity(alloc, values.len())?;
    for k in 0..values.len() {
        let name = under(read_name(alloc, &values[k], GREATEST_NAME), k as u64)?;
        names.push(name)?;
    }
    Ok(names)
}

/// The names of a path, of which there is one at least.
fn read_path(alloc: Global, value: &Value) -> Result<Vec<Units>, ReadEnd>
    ensures { Reads (λ v. v.items) (plain.read_path (view value.now)) result }
{
    let names = read_names(alloc, value)?;
    if names.is_empty() {
        return Err(fault_here(alloc, JsonWhy::Form));
    }
    Ok(names)
}

fn read_storage(alloc: Global, value: &Value) -> Result<Entry, ReadEnd>
    ensures { Reads entry_of (plain.read_storage_entry (view value.now)) result }
{
    let class = member(alloc, value, "class")?;
    let class = under(read_guid(alloc, class), 0)?;
    let path = member(alloc, value, "path")?;
    let path = under(read_path(alloc, path), 1)?;
    Ok(Entry {
        path,
        content: Content::Storage(class),
    })
}

fn read_stream(alloc: Global, value: &Value) -> Result<Entry, ReadEnd>
    ensures { Reads entry_of (plain.read_stream_entry (view value.now)) result }
{
    let data = member(alloc, value, "data")?;
    let bytes = under(read_hex(alloc, data), 0)?;
    let path = member(alloc, value, "path")?;
    let path = under(read_path(alloc, path), 1)?;
    Ok(Entry {
        path,
        content: Content::Stream(bytes),
    })
}

fn read_entry(alloc: Global, value: &Value) -> Result<Entry, ReadEnd>
    ensures { Reads entry_of (plain.read_entry (view value.now)) result }
{
    if has_members(value, &["class", "path"]) {
        return read_storage(alloc, value);
    }
    if has_members(value, &["data", "path"]) {
        return read_stream(alloc, value);
    }
    Err(fault_here(alloc, JsonWhy::Form))
}

/// An entry behind the last one, or the first.
fn read_next(alloc: Global, value: &Value, last: Option<&Entry>) -> Result<Entry, ReadEnd>
    ensures { Reads entry_of (plain.read_next_entry (map entry_of (option_to_list (option_copied last.entry))) (view value.now)) result }
{
    let entry = read_entry(alloc, value)?;
    if !comes_next(last, &entry) {
        return Err(fault_here(alloc, JsonWhy::Order));
    }
    Ok(entry)
}

/// Puts what is kept of an entry, if there is one, behind the others.
fn keep(alloc: Global, kept: &mut Vec<Placed>, entry: Option<Entry>) -> Result<(), NoMemory>
    ensures { OnOk result (map placed_of kept.new.items ≡ map placed_of kept.old.items ++ map shortened (map entry_of (option_to_list entry))) }
{
    if let Some(entry) = entry {
        kept.push(entry.placed(alloc))?;
    }
    Ok(())
}

/// The entries of a store, each behind the one before it. A whole path is held only of the last one.
pub(crate) fn read_entries(alloc: Global, value: &Value) -> Result<Vec<Placed>, ReadEnd>
    ensures { Reads (λ v. map placed_of v.items) (mapped (map shortened) (plain.read_entries (view value.now))) result }
{
    let values = unboxed(items(alloc, value)?);
    let mut kept = Vec::with_capacity(alloc, values.len())?;
    let mut last = None;
    for k in 0..values.len() {
        let entry = under(read_next(alloc, &values[k], last.as_ref()), k as u64)?;
        keep(alloc, &mut kept, last)?;
        last = Some(entry);
    }
    keep(alloc, &mut kept, last)?;
    Ok(kept)
}
