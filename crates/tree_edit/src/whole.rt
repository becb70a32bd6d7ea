//! Edits of a tree.
ghost use Rattle.std.specs.Prelude.{◌≡◌, IfOk, IfErr, Ok};
ghost use Rattle.edit_model.specs.Edits.{edited_tree};
ghost use Rattle.msg_tree.specs.Whole.{plain_of};
ghost use Rattle.tree_edit.specs.Meaning.{IsEndOf};

use crate::closing::close_message;
use crate::editing::edit_once;
use crate::ends::{EditEnd, EditFault, OnceEnd};
use crate::open_messages::OpenMessage;
use carrier_io::{Blob, Holds};
use edit_words::Edits;
use msg_tree::{Tree, copy_owned};
use std::alloc::Global;

/// The tree that edits make of another, over owned bytes, each of what those before it made. Fault has the first edit
/// that can't be done; NoMemory says that memory ran out.
pub fn edited<B: Blob>(
    alloc: Global,
    tree: &Tree<B>,
    edits: &Edits<'_>,
) -> Result<Tree<Vec<u8>>, EditEnd>
    ensures done { IfOk result (λ t. edited_tree edits.now (plain_of tree.now) ≡ Ok (plain_of t)) }
    ensures refused { IfErr result (IsEndOf edits.now (plain_of tree.now)) }
{
    edit_in_place(alloc, copy_owned(alloc, tree)?, edits)
}

/// The tree that edits make of one over blobs that owned bytes become, which they change in place. It ends as `edited`
/// does.
pub fn edit_in_place<C: Holds<Vec<u8>>>(
    alloc: Global,
    tree: Tree<C>,
    edits: &Edits<'_>,
) -> Result<Tree<C>, EditEnd>
    ensures done { IfOk result (λ t. edited_tree edits.now (plain_of tree) ≡ Ok (plain_of t)) }
    ensures refused { IfErr result (IsEndOf edits.now (plain_of tree)) }
{
    let mut message = OpenMessage::new(tree.into_message());
    for at in 0..edits.len() {
        match edit_once(alloc, &mut message, edits.read(alloc, at)?) {
            Ok(()) => {}
            Err(OnceEnd::Cannot(why)) => {
                let edit = at as u64;
                return Err(EditEnd::Fault(EditFault { edit, why }));
            }
            Err(OnceEnd::NoMemory) => return Err(EditEnd::NoMemory),
        }
    }
    Ok(Tree::from_shallow(close_message(alloc, message)?))
}
