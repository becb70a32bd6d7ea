//! The recipients and plain attachments of samples.
ghost use Rattle.std.specs.Prelude.{◌≡◌, ◌<◌, map, IfOk};
ghost use Rattle.std.specs.List.{range_with_len};
ghost use Rattle.text_model.specs.SampleTrees.{sample_recipient, sample_data, plain_attachment};
ghost use Rattle.msg_tree.specs.Meaning.{attached_of};

use crate::small_props::{number_prop, text_prop};
use crate::sorted::{alone, in_order};
use carrier_io::NoMemory;
use msg_tree::{Attachment, Body, Recipients};
use prop_names::Key;
use prop_values::{Arrivals, Kind, Prop, Props, Value};
use std::alloc::Global;

/// PidTagDisplayName [MS-OXPROPS].
const DISPLAY_NAME: u16 = 0x3001;

/// PidTagAttachDataBinary [MS-OXPROPS].
const DATA: u16 = 0x3701;

/// PidTagAttachMethod [MS-OXPROPS], with the method of data by value.
const METHOD: u16 = 0x3705;

const BY_VALUE: u32 = 1;

fn recipient(alloc: Global, number: u32) -> Result<Props<Vec<u8>>, NoMemory>
    ensures { IfOk result (λ r. r ≡ sample_recipient number) }
{
    let text = format!(in alloc; "r{number}")?;
    alone(alloc, text_prop(alloc, DISPLAY_NAME, &text)?)
}

/// So many recipients.
pub fn recipients(alloc: Global, count: u32) -> Result<Recipients<Vec<u8>>, NoMemory>
    ensures { IfOk result (λ r. r ≡ map sample_recipient (range_with_len 0 count)) }
{
    let mut list = Recipients::new(alloc);
    for number in 0..count {
        list.push(recipient(alloc, number)?)?;
    }
    Ok(list)
}

fn data(alloc: Global, number: u32) -> Result<Vec<u8>, NoMemory>
    requires { number < 0x1000 }
    ensures { IfOk result (λ r. r.items ≡ sample_data number) }
{
    let length = 128 * number;
    let mut bytes = Vec::with_capacity(alloc, length as usize)?;
    for place in 0..length {
        bytes.push(((number + place) % 251) as u8)?;
    }
    Ok(bytes)
}

/// An attachment with data.
pub fn with_data(alloc: Global, number: u32) -> Result<Attachment<Vec<u8>>, NoMemory>
    requires { number < 0x1000 }
    ensures { IfOk result (λ r. attached_of (λ v. v.items) r ≡ plain_attachment number) }
{
    let mut props = Arrivals::new(alloc);
    let bytes = data(alloc, number)?;
    props.push(
        Prop {
            key: Key::Id(DATA),
            value: Value::Bytes {
                kind: Kind::Binary,
                bytes,
            },
        },
        0,
    )?;
    props.push(number_prop(METHOD, BY_VALUE), 0)?;
    Ok(Attachment {
        props: in_order(props)?,
        body: Body::Plain,
    })
}
