//! Property lists that edits change.
ghost use Rattle.std.specs.Prelude.{◌≡◌, OnOk, IfOk, IfErr, Ok, Err, true, false};
ghost use Rattle.edit_model.specs.Edits.{no_property, with_prop, without_prop};
ghost use Rattle.prop_names.specs.Meaning.{key_of};
ghost use Rattle.prop_values.specs.Kinds.{kind_number};
ghost use Rattle.edit_words.specs.Meaning.{edit_of};
ghost use Rattle.tree_edit.specs.Changes.{IsCauseOf, on_props};
ghost use Rattle.tree_edit.specs.Opened.{props_of};

use crate::ends::{EditWhy, OnceEnd};
use crate::prop_changes::PropChanges;
use crate::prop_lists::{remove_prop, set_prop};
use carrier_io::{Blob, Holds, NoMemory};
use edit_words::Edit;
use prop_names::Key;
use prop_values::{Kind, Prop, Props};
use std::alloc::Global;
use std::mem::replace;

/// So many edits change a list in place, each of which moves what lies behind its property. What more of them change is kept
/// beside the list.
const FEW: u32 = 16;

/// A property list that edits change.
#[derive(Drop)]
pub enum OpenProps<B: Blob> {
    /// The list, and how many edits changed it.
    Kept { list: Props<B>, edits: u32 },
    /// The list with changes beside it.
    Changing(Box<PropChanges<B>>),
}

impl<B: Blob> OpenProps<B> {
    /// A list that no edit has changed.
    pub fn new(list: Props<B>) -> OpenProps<B>
        ensures { props_of result ≡ list }
    {
        OpenProps::Kept { list, edits: 0 }
    }

    /// Counts an edit that comes. Where it is one too many to be done in place, its change and those of all behind it go
    /// beside the list.
    fn count_edit(&mut self, alloc: Global) -> Result<(), NoMemory>
        ensures { OnOk result (props_of self.new ≡ props_of self.old) }
    {
        let OpenProps::Kept { list, edits } = self else {
            return Ok(());
        };
        if *edits < FEW {
            *edits += 1;
            return Ok(());
        }
        let changes = PropChanges::new(alloc, replace(list, Props::new(alloc)));
        *self = OpenProps::Changing(Box::new(alloc, changes)?);
        Ok(())
    }

    /// Puts a property in its place, and in the place of the one that has its key and kind.
    fn set(&mut self, alloc: Global, prop: Prop<B>) -> Result<(), NoMemory>
        ensures { OnOk result (with_prop prop (props_of self.old) ≡ Ok (props_of self.new)) }
    {
        match self {
            OpenProps::Kept { list, .. } => set_prop(list, prop),
            OpenProps::Changing(changes) => changes.set(alloc, prop),
        }
    }

    /// Takes the property with the key and the kind out. It answers whether it was there.
    fn remove(&mut self, alloc: Global, key: &Key, kind: Kind) -> Result<bool, NoMemory>
        ensures there { IfOk result (λ there. there ≡ true → without_prop (key_of key.now) (kind_number kind) (props_of self.old) ≡ Ok (props_of self.new)) }
        ensures absent { IfOk result (λ there. there ≡ false → without_prop (key_of key.now) (kind_number kind) (props_of self.old) ≡ Err no_property) }
    {
        match self {
            OpenProps::Kept { list, .. } => Ok(remove_prop(list, key, kind)),
            OpenProps::Changing(changes) => changes.remove(alloc, key, kind),
        }
    }

    /// The list after all edits.
    pub fn close(self, alloc: Global) -> Result<Props<B>, NoMemory>
        ensures { IfOk result (λ props. props ≡ props_of self) }
    {
        match self {
            OpenProps::Kept { list, .. } => Ok(list),
            OpenProps::Changing(changes) => Box::into_inner(changes).into_props(alloc),
        }
    }
}

/// Makes the change of an edit. It answers whether it could be made.
fn change_props<C: Holds<Vec<u8>>>(
    alloc: Global,
    props: &mut OpenProps<C>,
    edit: Edit,
) -> Result<bool, NoMemory>
    ensures done { IfOk result (λ done. done ≡ true → on_props (edit_of edit) (props_of props.old) ≡ Ok (props_of props.new)) }
    ensures absent { IfOk result (λ done. done ≡ false → on_props (edit_of edit) (props_of props.old) ≡ Err no_property) }
{
    match edit {
        Edit::SetProp { prop, .. } => {
            props.set(alloc, prop.into_held(alloc)?)?;
            Ok(true)
        }
        Edit::RemoveProp { key, kind, .. } => props.remove(alloc, &key, kind),
        _ => Ok(true),
    }
}

/// Does an edit of properties in a list. The list is of no use where it isn't done.
pub fn edit_props<C: Holds<Vec<u8>>>(
    alloc: Global,
    props: &mut OpenProps<C>,
    edit: Edit,
) -> Result<(), OnceEnd>
    ensures ok { OnOk result (on_props (edit_of edit) (props_of props.old) ≡ Ok (props_of props.new)) }
    ensures err { IfErr result (IsCauseOf (on_props (edit_of edit) (props_of props.old))) }
{
    props.count_edit(alloc)?;
    if change_props(alloc, props, edit)? {
        Ok(())
    } else {
        Err(OnceEnd::Cannot(EditWhy::NoProperty))
    }
}
