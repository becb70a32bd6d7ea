//! Attributes with lists of properties.
ghost use Rattle.std.specs.Prelude.{◌≡◌, ◌+◌, ◌≤◌, ◌<◌, ◌^◌, List, length, All, flat_map};
ghost use Rattle.carrier_model.specs.Keys.{Name};
ghost use Rattle.tnef_model.specs.TnefCanonical as canon;
ghost use Rattle.carrier_model.specs.Totals.{capped};
ghost use Rattle.tnef_writer.specs.Written.{content_bytes, ContentIsNamed, list_alone, table_bytes};
ghost use Rattle.tnef_props.specs.Named.{HasNames};
ghost use Rattle.carrier_io.specs.Summed.{Sums};

use carrier_io::{Blob, Failed, Sink, append, le16, le32};
use msg_tree::Recipients;
use prop_names::NameSet;
use prop_values::Props;
use tnef_attributes::attribute_head;
use tnef_props::{append_range, list_size};

/// The value of an attribute.
#[derive(Drop)]
pub enum ListContent<'a, B: Blob> {
    /// A list of properties.
    ListOf(&'a Props<B>),
    /// The count of recipients, and their lists.
    Table(&'a Recipients<B>),
}

/// The bytes of the recipients' lists with their count.
pub fn table_size<B: Blob>(recipients: &Recipients<B>) -> u64
    ensures { (names : List Name) → result ≡ capped (4 + length (flat_map (list_alone names) recipients.now)) }
{
    let mut size = 4u64;
    for k in 0..recipients.len() {
        size = size.saturating_add(list_size(recipients.get(k), None));
    }
    size
}

/// The bytes of a content.
fn content_size<B: Blob>(content: &ListContent<'_, B>) -> u64
    ensures { (names : List Name) → result ≡ capped (length (content_bytes names content.now)) }
{
    match content {
        ListContent::ListOf(props) => list_size(props, None),
        ListContent::Table(recipients) => table_size(recipients),
    }
}

/// Appends a list: the count and the properties.
fn append_list<B: Blob, W: Sink>(
    sink: &mut W,
    names: &NameSet,
    props: &Props<B>,
) -> Result<u16, Failed>
    requires fits { length (list_alone names.now props.now) < 2 ^ 32 }
    requires known { HasNames names.now props.now }
    requires few { length names.now ≤ 32000 }
    ensures { Sums (W.held sink.old) (W.held sink.new) (W.faults sink.old) (W.faults sink.new) result (list_alone names.now props.now) }
{
    let count = append(sink, &le32(props.len() as u32))?;
    let list = append_range(sink, props, names, 0, props.len())?;
    Ok(count.wrapping_add(list))
}

/// Appends the list of each recipient.
fn append_lists<B: Blob, W: Sink>(
    sink: &mut W,
    names: &NameSet,
    recipients: &Recipients<B>,
) -> Result<u16, Failed>
    requires fits { length (flat_map (list_alone names.now) recipients.now) < 2 ^ 32 }
    requires known { All (HasNames names.now) recipients.now }
    requires few { length names.now ≤ 32000 }
    ensures { Sums (W.held sink.old) (W.held sink.new) (W.faults sink.old) (W.faults sink.new) result (flat_map (list_alone names.now) recipients.now) }
{
    let mut sum = 0u16;
    for k in 0..recipients.len() {
        sum = sum.wrapping_add(append_list(sink, names, recipients.get(k))?);
    }
    Ok(sum)
}

/// Appends the count of recipients, and their lists.
fn append_table<B: Blob, W: Sink>(
    sink: &mut W,
    names: &NameSet,
    recipients: &Recipients<B>,
) -> Result<u16, Failed>
    requires fits { 4 + length (flat_map (list_alone names.now) recipients.now) < 2 ^ 32 }
    requires known { All (HasNames names.now) recipients.now }
    requires few { length names.now ≤ 32000 }
    ensures { Sums (W.held sink.old) (W.held sink.new) (W.faults sink.old) (W.faults sink.new) result (table_bytes names.now recipients.now) }
{
    let count = append(sink, &le32(recipients.len() as u32))?;
    let lists = append_lists(sink, names, recipients)?;
    Ok(count.wrapping_add(lists))
}

/// Appends a content.
fn append_content<B: Blob, W: Sink>(
    sink: &mut W,
    names: &NameSet,
    content: &ListContent<'_, B>,
) -> Result<u16, Failed>
    requires fits { length (content_bytes names.now content.now) < 2 ^ 32 }
    requires known { ContentIsNamed names.now content.now }
    requires few { length names.now ≤ 32000 }
    ensures { Sums (W.held sink.old) (W.held sink.new) (W.faults sink.old) (W.faults sink.new) result (content_bytes names.now content.now) }
{
    match content {
        ListContent::ListOf(props) => append_list(sink, names, props),
        ListContent::Table(recipients) => append_table(sink, names, recipients),
    }
}

/// Appends an attribute with a content: its head, the content as it is made, and its sum.
pub fn append_filled<B: Blob, W: Sink>(
    sink: &mut W,
    names: &NameSet,
    level: u8,
    id: u32,
    content: &ListContent<'_, B>,
) -> Result<u16, Failed>
    requires fits { length (content_bytes names.now content.now) < 2 ^ 32 }
    requires known { ContentIsNamed names.now content.now }
    requires few { length names.now ≤ 32000 }
    ensures { Sums (W.held sink.old) (W.held sink.new) (W.faults sink.old) (W.faults sink.new) result (canon.attribute level id (content_bytes names.now content.now)) }
{
    let size = content_size(content);
    let head = append(sink, &attribute_head(level, id, size as u32))?;
    let value = append_content(sink, names, content)?;
    let sum = append(sink, &le16(value))?;
    Ok(head.wrapping_add(value.wrapping_add(sum)))
}
