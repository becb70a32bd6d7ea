//! Ranges of a list as they are written.
ghost use Rattle.std.specs.Prelude.{◌≡◌, ◌≤◌, length};
ghost use Rattle.carrier_io.specs.Known.{Writes};
ghost use Rattle.carrier_model.specs.Bytes.{sum16};
ghost use Rattle.tnef_model.specs.TnefCanonical as canon;
ghost use Rattle.carrier_io.specs.Summed.{Sums};
ghost use Rattle.tnef_props.specs.Named.{HasKey, HasNames, between};

use crate::writing_keys::append_key;
use crate::writing_values::{append_unnamed, append_value};
use carrier_io::{Blob, Failed, Sink, SureSink};
use prop_names::{Key, NameSet};
use prop_values::{Prop, Props};

/// Appends a property: its key and its value.
fn append_keyed<B: Blob, W: Sink>(
    sink: &mut W,
    names: &NameSet,
    prop: &Prop<B>,
) -> Result<u16, Failed>
    requires known { HasKey names.now prop.now.key }
    requires few { length names.now ≤ 32000 }
    ensures { Sums (W.held sink.old) (W.held sink.new) (W.faults sink.old) (W.faults sink.new) result (canon.prop_bytes names.now prop.now) }
{
    let key = append_key(sink, names, &prop.key, prop.value.kind().number())?;
    let value = append_value(sink, &prop.value)?;
    Ok(key.wrapping_add(value))
}

/// Appends a property. A tag goes with the number, or with the size of the text, as one piece.
fn append_prop<B: Blob, W: Sink>(
    sink: &mut W,
    names: &NameSet,
    prop: &Prop<B>,
) -> Result<u16, Failed>
    requires known { HasKey names.now prop.now.key }
    requires few { length names.now ≤ 32000 }
    ensures { Sums (W.held sink.old) (W.held sink.new) (W.faults sink.old) (W.faults sink.new) result (canon.prop_bytes names.now prop.now) }
{
    match &prop.key {
        Key::Id(id) => append_unnamed(sink, *id, &prop.value),
        Key::Named(_) => append_keyed(sink, names, prop),
    }
}

/// Appends the properties from a place up to another, without that one, each with a name's id by its place among the
/// names, and answers the sum of their bytes modulo 65,536. Failed says that the sink failed; then a front of the bytes
/// may stand there. [MS-OXTNEF 2.1.3.4]
pub fn append_range<B: Blob, W: Sink>(
    sink: &mut W,
    props: &Props<B>,
    names: &NameSet,
    from: usize,
    to: usize,
) -> Result<u16, Failed>
    requires order { from ≤ to }
    requires within { to ≤ length props.now }
    requires known { HasNames names.now props.now }
    requires few { length names.now ≤ 32000 }
    ensures { Sums (W.held sink.old) (W.held sink.new) (W.faults sink.old) (W.faults sink.new) result (canon.props_bytes names.now (between from to props.now)) }
{
    let mut sum = 0u16;
    for k in 0..to - from {
        sum = sum.wrapping_add(append_prop(sink, names, props.get(from + k))?);
    }
    Ok(sum)
}

/// The sum modulo 65,536 of the bytes that `append_range` appends.
pub fn range_sum<B: Blob>(props: &Props<B>, names: &NameSet, from: usize, to: usize) -> u16
    requires order { from ≤ to }
    requires within { to ≤ length props.now }
    requires known { HasNames names.now props.now }
    requires few { length names.now ≤ 32000 }
    ensures { result ≡ sum16 (canon.props_bytes names.now (between from to props.now)) }
{
    let mut sink = SureSink::new();
    match append_range(&mut sink, props, names, from, to) {
        Ok(sum) => sum,
        Err(_) => unreachable!(),
    }
}

/// Appends what `append_range` does, without the sum. Failed says that the sink failed; then a front of the bytes may
/// stand there.
pub fn write_range<B: Blob, W: Sink>(
    sink: &mut W,
    props: &Props<B>,
    names: &NameSet,
    from: usize,
    to: usize,
) -> Result<(), Failed>
    requires order { from ≤ to }
    requires within { to ≤ length props.now }
    requires known { HasNames names.now props.now }
    requires few { length names.now ≤ 32000 }
    ensures { Writes (W.held sink.old) (W.held sink.new) (W.faults sink.old) (W.faults sink.new) result (canon.props_bytes names.now (between from to props.now)) }
{
    match append_range(sink, props, names, from, to) {
        Ok(_) => Ok(()),
        Err(failed) => Err(failed),
    }
}
