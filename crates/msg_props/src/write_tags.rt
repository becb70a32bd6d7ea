//! The tags of properties.
ghost use Rattle.std.specs.Prelude.{◌≡◌, IfOk, map};
ghost use Rattle.msg_model.specs.ReadBack.{NamesAmong};
ghost use Rattle.msg_model.specs.WrittenMsg.{number_of_key, tag_of};
ghost use Rattle.msg_nameid.specs.Maps.{IsAssigned, names_in};
ghost use Rattle.msg_props.specs.Tagged.{IsAmong};
ghost use Rattle.prop_names.specs.Meaning.{key_of};

use carrier_io::{Blob, NoMemory};
use msg_nameid::NameMap;
use prop_names::Key;
use prop_values::{Prop, Props};
use std::alloc::Global;

/// The number of an id, or the id that stands for a name, which may be guessed.
fn number_of(names: &NameMap, key: &Key, guess: u16) -> u16
    requires assigned { IsAssigned names.now }
    requires known { IsAmong (names_in names.now) (key_of key.now) }
    ensures { result ≡ number_of_key (names_in names.now) (key_of key.now) }
{
    match key {
        Key::Id(number) => *number,
        Key::Named(name) => match names.id_of(name, guess) {
            Some(id) => id,
            None => unreachable!(),
        },
    }
}

/// The tag of a property: its id, which may be guessed, in the upper half, and its type in the lower.
fn tag<B: Blob>(names: &NameMap, prop: &Prop<B>, guess: u16) -> u32
    requires assigned { IsAssigned names.now }
    requires known { IsAmong (names_in names.now) prop.now.key }
    ensures { result ≡ tag_of (names_in names.now) prop.now }
{
    let id = u32::from(number_of(names, &prop.key, guess));
    id * 65536 + u32::from(prop.value.kind().number())
}

/// The tags of a list's properties, in its order, in which a name's id often is the one behind the last. [MS-OXMSG 2.4.2]
pub fn tags_of<B: Blob>(
    alloc: Global,
    props: &Props<B>,
    names: &NameMap,
) -> Result<Vec<u32>, NoMemory>
    requires assigned { IsAssigned names.now }
    requires named { NamesAmong (names_in names.now) props.now }
    ensures { IfOk result (λ tags. tags.items ≡ map (tag_of (names_in names.now)) props.now) }
{
    let mut tags = Vec::with_capacity(alloc, props.len())?;
    let mut guess = 0x8000u16;
    for k in 0..props.len() {
        let tag = tag(names, props.get(k), guess);
        guess = ((tag >> 16) as u16).saturating_add(1);
        tags.push(tag)?;
    }
    Ok(tags)
}
