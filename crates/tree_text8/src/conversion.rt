//! The conversion of a whole tree.
ghost use Rattle.std.specs.Prelude.{◌≡◌, false, IsTrue, IfOk, IfErr};
ghost use Rattle.carrier_model.specs.Tree.{Message as PlainMessage};
ghost use Rattle.msg_tree.specs.Whole.{plain_of};
ghost use Rattle.text8_model.specs.Become.{UnicodeOf};
ghost use Rattle.tree_text8.specs.Whole.{IsFirstEnd};

use crate::ends::TextEnd;
use crate::narrow::is_narrow;
use crate::trees::convert_message;
use carrier_io::{Blob, Holds};
use msg_tree::{Tree, copy_owned};
use std::alloc::Global;

/// The number of the page of a top message that names none: Windows-1252.
const FIRST_PAGE: u32 = 1252;

/// Whether a tree is its own Unicode form: none of its texts is converted.
pub fn is_unicode<B: Blob>(tree: &Tree<B>) -> bool
    ensures yes { IsTrue result → UnicodeOf (plain_of tree.now) (plain_of tree.now) }
    ensures no { result ≡ false → UnicodeOf (plain_of tree.now) (plain_of tree.now) → ⊥ }
{
    !is_narrow(tree.top())
}

/// The tree with all String8 and MultipleString8 properties as String and MultipleString, read in the pages of their
/// messages. One stays as it is where its list has the key with the new kind too. An error tells the first text that isn't
/// mapped, or that memory was refused.
pub fn unicode_of<B: Blob>(alloc: Global, tree: &Tree<B>) -> Result<Tree<Vec<u8>>, TextEnd>
    ensures ok { IfOk result (λ r. UnicodeOf (plain_of tree.now) (plain_of r)) }
    ensures only { IfOk result (λ r. (u : PlainMessage) → UnicodeOf (plain_of tree.now) u → u ≡ plain_of r) }
    ensures first { IfErr result (IsFirstEnd (plain_of tree.now)) }
{
    unicode_in_place(alloc, copy_owned(alloc, tree)?)
}

/// The same of a tree over blobs that owned bytes become, whose texts are converted in place. What isn't converted stays
/// where it is. It ends as `unicode_of` does.
pub fn unicode_in_place<C: Holds<Vec<u8>>>(alloc: Global, tree: Tree<C>) -> Result<Tree<C>, TextEnd>
    ensures ok { IfOk result (λ r. UnicodeOf (plain_of tree) (plain_of r)) }
    ensures only { IfOk result (λ r. (u : PlainMessage) → UnicodeOf (plain_of tree) u → u ≡ plain_of r) }
    ensures first { IfErr result (IsFirstEnd (plain_of tree)) }
{
    let mut message = tree.into_message();
    let mut next = 0;
    convert_message(alloc, FIRST_PAGE, &mut message, &mut next)?;
    Ok(Tree::from_shallow(message))
}
