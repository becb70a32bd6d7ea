//! Changes of property lists, made in place.
ghost use Rattle.std.specs.Prelude.{◌≡◌, OnOk, Ok, Err, true, false};
ghost use Rattle.edit_model.specs.Edits.{no_property, with_prop, without_prop};
ghost use Rattle.prop_names.specs.Meaning.{key_of};
ghost use Rattle.prop_values.specs.Kinds.{kind_number};

use carrier_io::{Blob, NoMemory};
use prop_names::Key;
use prop_values::{InsertEnd, Kind, Prop, Props};

/// Puts a property in its place, and in the place of the one that has its key and kind.
pub fn set_prop<B: Blob>(props: &mut Props<B>, prop: Prop<B>) -> Result<(), NoMemory>
    ensures { OnOk result (with_prop prop props.old ≡ Ok props.new) }
{
    if let Some(at) = props.find(&prop.key, prop.value.kind()) {
        drop(props.remove(at));
    }
    match props.insert_sorted(prop) {
        Ok(()) => Ok(()),
        Err(InsertEnd::NoMemory) => Err(NoMemory),
        Err(InsertEnd::Duplicate(_)) => unreachable!(),
    }
}

/// Takes the property with the key and the kind out. It answers whether it was there.
pub fn remove_prop<B: Blob>(props: &mut Props<B>, key: &Key, kind: Kind) -> bool
    ensures there { result ≡ true → without_prop (key_of key.now) (kind_number kind) props.old ≡ Ok props.new }
    ensures absent { result ≡ false → without_prop (key_of key.now) (kind_number kind) props.old ≡ Err no_property }
{
    match props.find(key, kind) {
        Some(at) => {
            drop(props.remove(at));
            true
        }
        None => false,
    }
}
