//! Streams of a storage by the names that a tag gives them.
ghost use Rattle.std.specs.Prelude.{◌≡◌, ◌++◌, codes, is_some, true};
ghost use Rattle.std.specs.Option.{option_map};
ghost use Rattle.std.specs.Str.{IsAscii};
ghost use Rattle.carrier_io.specs.Reasons.{fault_of};
ghost use Rattle.carrier_model.specs.Lookups.{size_place_at};
ghost use Rattle.carrier_model.specs.Reasons.{BAD_ELEMENT};
ghost use Rattle.cfb_directory.specs.Found.{IsThere};
ghost use Rattle.cfb_sectors.specs.Seen.{stream as stream_seen};
ghost use Rattle.msg_model.specs.StreamNames as plain;
ghost use Rattle.msg_props.specs.Entries.{streams_in};

use carrier_io::{Fault, Reason};
use cfb_directory::{Files, StorageId};
use cfb_sectors::StreamView;
use msg_nameid::{text_of, value_name};
use prop_names::upper_digits8;

/// What stands before the number in the names of the streams of a multiple value's elements. [MS-OXMSG 2.1.4]
pub fn element_front(tag: u32) -> [u8; 21]
    ensures { result ≡ plain.value_name tag ++ codes "-" }
{
    let mut front = [b'-'; 21];
    front[..20].copy_from_slice(&value_name(tag));
    front
}

/// The name of the stream of an element of a multiple value. [MS-OXMSG 2.1.4]
pub fn element_name(tag: u32, k: u32) -> [u8; 29]
    ensures { result ≡ plain.element_name tag k }
{
    let mut name = [0; 29];
    name[..21].copy_from_slice(&element_front(tag));
    name[21..].copy_from_slice(&upper_digits8(k));
    name
}

/// The stream of a name in a storage. [MS-CFB 2.6.4]
pub fn stream_of<'f, 'a>(
    files: &'f Files<'a>,
    at: StorageId,
    name: &[u8],
) -> Option<&'f StreamView<'a>>
    requires there { IsThere files.now at }
    requires ascii { IsAscii name.now }
    ensures { option_map (λ v. stream_seen v.now) result ≡ option_map (λ f. f.stream) (streams_in files.now at name.now) }
{
    files.stream(at, text_of(name))
}

/// The fault of a stream whose length does not fit its kind: BadElement, at its size in the directory.
pub fn bad_element(files: &Files<'_>, at: StorageId, name: &[u8]) -> Fault
    requires there { IsThere files.now at }
    requires ascii { IsAscii name.now }
    requires some { is_some (streams_in files.now at name.now) ≡ true }
    ensures { fault_of result ≡ (BAD_ELEMENT, size_place_at (streams_in files.now at name.now)) }
{
    match files.size_offset(at, text_of(name)) {
        Some(offset) => Fault {
            reason: Reason::BadElement,
            offset,
        },
        None => unreachable!(),
    }
}
