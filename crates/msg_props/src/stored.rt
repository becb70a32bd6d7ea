//! The value of an entry.
ghost use Rattle.std.specs.Prelude.{◌≡◌, ◌==◌, ◌&&◌, not, IfOk, true, false, length};
ghost use Rattle.carrier_io.specs.Reads.{Gives};
ghost use Rattle.carrier_model.specs.Kinds.{is_number_kind};
ghost use Rattle.carrier_model.specs.Values as plain;
ghost use Rattle.cfb_directory.specs.Found.{IsThere};
ghost use Rattle.cfb_sectors.specs.Seen.{bytes_of};
ghost use Rattle.msg_model.specs.MsgValues as values;
ghost use Rattle.msg_model.specs.MsgValues.{fits_kind, kind_in};
ghost use Rattle.msg_model.specs.StreamNames.{value_name as plain_name};
ghost use Rattle.msg_props.specs.Entries.{entry_of, streams_in, seen};
ghost use Rattle.prop_values.specs.Kinds.{kind_number};
ghost use Rattle.prop_values.specs.Shapes.{HasShape};

use crate::elements::parts_value;
use crate::entries::Entry;
use crate::stream_names::{bad_element, stream_of};
use crate::values::{bytes_value, fits, guid_value, guids_value, is_empty_size, numbers_value};
use carrier_io::{Blob, Fault, Reason, Stop};
use cfb_directory::{Files, StorageId};
use cfb_sectors::StreamView;
use msg_nameid::value_name;
use prop_values::{Kind, Shape, Value};
use std::alloc::Global;

/// The value whose stream this is. The fault is that of an element of a multiple text.
#[tactic(auto, unfolding(msg_model::specs::MsgValues::streamed_value))]
fn streamed_value<'a>(
    alloc: Global,
    files: &Files<'a>,
    at: StorageId,
    entry: &Entry,
    kind: Kind,
    shape: Shape,
    view: &StreamView<'a>,
) -> Result<Value<StreamView<'a>>, Stop>
    requires there { IsThere files.now at }
    requires kind { kind_number kind ≡ kind_in (entry_of entry.now) }
    requires shape { HasShape (kind_number kind) shape }
    requires streamed { is_number_kind (kind_number kind) ≡ false }
    requires fits { fits_kind (kind_number kind) (length (bytes_of view.now)) ≡ true }
    ensures value { Gives seen result (values.streamed_value (streams_in files.now at) (entry_of entry.now) (bytes_of view.now)) }
    ensures valid { IfOk result (λ v. plain.IsValue (seen v)) }
{
    match shape {
        Shape::Number(_) => unreachable!(),
        Shape::Guid => Ok(guid_value(view)),
        Shape::Bytes => Ok(bytes_value(view, kind)?),
        Shape::Numbers(width) => Ok(numbers_value(alloc, view, kind, width)?),
        Shape::Guids => Ok(guids_value(alloc, view)?),
        Shape::Parts(single) => parts_value(alloc, files, at, entry, kind, single, view),
    }
}

/// Whether an absent stream is an empty value by the entry's size. A GUID is never absent. [MS-OXMSG 2.4.2.2]
fn may_be_absent(entry: &Entry, kind: Kind, shape: Shape) -> bool
    requires kind { kind_number kind ≡ kind_in (entry_of entry.now) }
    requires shape { HasShape (kind_number kind) shape }
    ensures { result ≡ (not (kind_in (entry_of entry.now) == 0x0048) && values.means_empty (kind_in (entry_of entry.now)) (values.size_in (entry_of entry.now))) }
{
    match shape {
        Shape::Guid => false,
        _ => is_empty_size(kind, entry.size()),
    }
}

/// A value in the stream of the entry's tag. Faults are BadElement at the size of a stream whose length does not fit, and
/// MissingStream at the entry. [MS-OXMSG 2.1.3]
#[tactic(auto, unfolding(msg_model::specs::MsgValues::stored_value))]
fn stored_value<'a>(
    alloc: Global,
    files: &Files<'a>,
    at: StorageId,
    entry: &Entry,
    kind: Kind,
    shape: Shape,
) -> Result<Value<StreamView<'a>>, Stop>
    requires there { IsThere files.now at }
    requires kind { kind_number kind ≡ kind_in (entry_of entry.now) }
    requires shape { HasShape (kind_number kind) shape }
    requires streamed { is_number_kind (kind_number kind) ≡ false }
    ensures value { Gives seen result (values.stored_value (streams_in files.now at) (entry_of entry.now) (streams_in files.now at (plain_name entry.now.tag))) }
    ensures valid { IfOk result (λ v. plain.IsValue (seen v)) }
{
    let name = value_name(entry.tag);
    match stream_of(files, at, &name) {
        Some(view) => {
            if !fits(kind, shape, view.len()) {
                return Err(Stop::Fault(bad_element(files, at, &name)));
            }
            streamed_value(alloc, files, at, entry, kind, shape, view)
        }
        None => {
            if !may_be_absent(entry, kind, shape) {
                return Err(Stop::Fault(Fault {
                    reason: Reason::MissingStream,
                    offset: entry.place,
                }));
            }
            let empty = StreamView::empty(alloc);
            streamed_value(alloc, files, at, entry, kind, shape, &empty)
        }
    }
}

/// The value of an entry: a number in the entry, any other value in streams. It stays in the input. Faults are BadElement
/// at the size of a stream whose length does not fit, and MissingStream at the entry. [MS-OXMSG 2.4.2]
#[tactic(auto, unfolding(msg_model::specs::MsgValues::value_of))]
pub fn value<'a>(
    alloc: Global,
    files: &Files<'a>,
    at: StorageId,
    entry: &Entry,
    kind: Kind,
) -> Result<Value<StreamView<'a>>, Stop>
    requires there { IsThere files.now at }
    requires kind { kind_number kind ≡ kind_in (entry_of entry.now) }
    ensures value { Gives seen result (values.value_of (streams_in files.now at) (entry_of entry.now)) }
    ensures valid { IfOk result (λ v. plain.IsValue (seen v)) }
{
    let shape = kind.shape();
    match shape {
        Shape::Number(width) => Ok(Value::Number {
            kind,
            bits: entry.bits(kind, width),
        }),
        _ => stored_value(alloc, files, at, entry, kind, shape),
    }
}
