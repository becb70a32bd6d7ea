//! Elements of multiple texts and binaries.
ghost use Rattle.std.specs.Prelude.{◌≡◌, ◌<◌, ◌≤◌, IfOk, IfErr, All, true, length};
ghost use Rattle.carrier_io.specs.Reads.{Gives, OnFault};
ghost use Rattle.carrier_model.specs.Kinds.{without_null};
ghost use Rattle.carrier_model.specs.Outcomes.{mapped};
ghost use Rattle.carrier_model.specs.Values as plain;
ghost use Rattle.cfb_directory.specs.Found.{IsThere};
ghost use Rattle.cfb_sectors.specs.Seen.{bytes_of};
ghost use Rattle.msg_model.specs.MsgValues.{elements_of, kind_in, parts_of};
ghost use Rattle.msg_model.specs.StreamNames.{element_name as plain_name};
ghost use Rattle.msg_props.specs.Elements.{IsElement, IsBad};
ghost use Rattle.msg_props.specs.Entries.{entry_of, streams_in, seen};
ghost use Rattle.prop_values.specs.Kinds.{kind_number};
ghost use Rattle.prop_values.specs.Shapes.{HasShape};

use crate::entries::Entry;
use crate::lengths::length_width;
use crate::stream_names::{bad_element, element_name, stream_of};
use crate::values::{fits_bytes, is_empty_size};
use carrier_io::{Blob, Fault, NoMemory, Reason, Stop};
use cfb_directory::{Files, StorageId};
use cfb_sectors::StreamView;
use prop_values::{Kind, Parts, Shape, Value};
use std::alloc::Global;

/// A text without its null, where it ends with one; it stays in the input. `null` is the null's size in bytes.
fn cut_null<'a>(view: &StreamView<'a>, null: usize) -> Result<StreamView<'a>, NoMemory>
    requires { null ≤ 2 }
    ensures { IfOk result (λ v. bytes_of v ≡ without_null null (bytes_of view.now)) }
{
    let len = view.len();
    if len < null {
        return Ok(view.copy()?);
    }
    if view.number(len - null, null) != 0 {
        return Ok(view.copy()?);
    }
    Ok(view.prefix(len - null)?)
}

/// The element at a place of a multiple text, whose size its length stream has; None where its stream is missing and the
/// size is not that of an empty one. The fault is BadElement at the size of its stream. [MS-OXMSG 2.1.4]
fn element<'a>(
    alloc: Global,
    files: &Files<'a>,
    at: StorageId,
    tag: u32,
    single: Kind,
    size: u32,
    k: u32,
) -> Result<Option<StreamView<'a>>, Stop>
    requires there { IsThere files.now at }
    requires single { plain.is_bytes_kind (kind_number single) ≡ true }
    ensures found { IfOk result (IsElement (kind_number single) (record { stream = streams_in files.now at (plain_name tag k); size = size })) }
    ensures fault { IfErr result (OnFault (IsBad (kind_number single) (record { stream = streams_in files.now at (plain_name tag k); size = size }))) }
{
    let name = element_name(tag, k);
    match stream_of(files, at, &name) {
        Some(view) => {
            if !fits_bytes(single, view.len()) {
                return Err(Stop::Fault(bad_element(files, at, &name)));
            }
            Ok(Some(cut_null(view, single.null_size())?))
        }
        None => {
            if is_empty_size(single, size) {
                Ok(Some(StreamView::empty(alloc)))
            } else {
                Ok(None)
            }
        }
    }
}

/// The elements of a multiple text: a bad one is a fault before any that is missing. [MS-OXMSG 2.1.4]
fn elements<'a>(
    alloc: Global,
    files: &Files<'a>,
    at: StorageId,
    entry: &Entry,
    kind: Kind,
    single: Kind,
    sizes: &StreamView<'a>,
) -> Result<Parts<StreamView<'a>>, Stop>
    requires there { IsThere files.now at }
    requires kind { kind_number kind ≡ kind_in (entry_of entry.now) }
    requires shape { HasShape (kind_number kind) (Shape.Parts single) }
    ensures list { Gives (λ p. p) result (parts_of (kind_number single) entry.now.place (elements_of (streams_in files.now at) entry.now.tag (bytes_of sizes.now))) }
    ensures fit { IfOk result (λ p. All (plain.IsBytes (kind_number single)) p) }
    ensures few { IfOk result (λ p. length p < 0x1000_0000) }
{
    let step = length_width(kind);
    let count = sizes.len() / step;
    let mut list = Parts::with_capacity(alloc, count)?;
    let mut missing = false;
    for k in 0..count {
        let size = sizes.u32_at(step * k);
        match element(alloc, files, at, entry.tag, single, size, k as u32)? {
            Some(part) => list.push(part)?,
            None => missing = true,
        }
    }
    if missing {
        return Err(Stop::Fault(Fault {
            reason: Reason::MissingStream,
            offset: entry.place,
        }));
    }
    Ok(list)
}

/// A value of several texts or binaries; `single` is the kind of one.
pub fn parts_value<'a>(
    alloc: Global,
    files: &Files<'a>,
    at: StorageId,
    entry: &Entry,
    kind: Kind,
    single: Kind,
    sizes: &StreamView<'a>,
) -> Result<Value<StreamView<'a>>, Stop>
    requires there { IsThere files.now at }
    requires kind { kind_number kind ≡ kind_in (entry_of entry.now) }
    requires shape { HasShape (kind_number kind) (Shape.Parts single) }
    ensures value { Gives seen result (mapped (plain.parts (kind_number kind)) (parts_of (kind_number single) entry.now.place (elements_of (streams_in files.now at) entry.now.tag (bytes_of sizes.now)))) }
    ensures valid { IfOk result (λ v. plain.IsValue (seen v)) }
{
    let list = elements(alloc, files, at, entry, kind, single, sizes)?;
    Ok(Value::Parts { kind, list })
}
