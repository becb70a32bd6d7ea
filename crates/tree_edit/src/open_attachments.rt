//! Attachments of a message that edits change.
ghost use Rattle.std.specs.Prelude.{◌≡◌, map, OnOk, IfOk, IfErr, Ok};
ghost use Rattle.edit_model.specs.Edits.{changed_at, with_props};
ghost use Rattle.edit_words.specs.Meaning.{edit_of};
ghost use Rattle.msg_tree.specs.Meaning.{list_of};
ghost use Rattle.tree_edit.specs.Changes.{IsCauseOf, on_attachments, on_props};
ghost use Rattle.tree_edit.specs.ChunkedLists.{listed};
ghost use Rattle.tree_edit.specs.Opened.{open_attached_of, open_list_of};

use crate::chunked_list::{ChunkedList, put_row, remove_row, take_row};
use crate::ends::OnceEnd;
use crate::open_messages::{OpenAttachment, OpenAttachments};
use crate::open_props::edit_props;
use carrier_io::{Blob, Holds, NoMemory};
use edit_words::Edit;
use msg_tree::{Attachment, Attachments};
use std::alloc::Global;
use std::mem::replace;

/// The attachments of a list, each by itself. None is left in the list.
fn open_attachments<B: Blob>(
    alloc: Global,
    mut attachments: Attachments<B>,
) -> Result<ChunkedList<OpenAttachment<B>>, NoMemory>
    ensures { IfOk result (λ rows. map (open_attached_of B.bytes) (listed rows) ≡ list_of B.bytes attachments) }
{
    let mut rows = ChunkedList::new(alloc);
    for k in 0..attachments.len() {
        let attachment = attachments.replace(k, Attachment::empty(alloc));
        rows.push(alloc, OpenAttachment::new(attachment))?;
    }
    Ok(rows)
}

impl<B: Blob> OpenAttachments<B> {
    /// Takes the attachments out, each by itself. None is left.
    pub fn take_rows(&mut self, alloc: Global) -> Result<ChunkedList<OpenAttachment<B>>, NoMemory>
        ensures { IfOk result (λ rows. map (open_attached_of B.bytes) (listed rows) ≡ open_list_of B.bytes self.old) }
    {
        match replace(self, OpenAttachments::Kept(Attachments::new(alloc))) {
            OpenAttachments::Kept(attachments) => open_attachments(alloc, attachments),
            OpenAttachments::Open(rows) => Ok(rows),
        }
    }

    /// Does an edit of the list. The list is of no use where it isn't done.
    pub fn edit(&mut self, alloc: Global, edit: Edit) -> Result<(), OnceEnd>
        ensures ok { OnOk result (on_attachments (edit_of edit) (open_list_of B.bytes self.old) ≡ Ok (open_list_of B.bytes self.new)) }
        ensures err { IfErr result (IsCauseOf (on_attachments (edit_of edit) (open_list_of B.bytes self.old))) }
    {
        if let Edit::DropAttachment { number, .. } = edit {
            let mut rows = self.take_rows(alloc)?;
            remove_row(&mut rows, number)?;
            *self = OpenAttachments::Open(rows);
        }
        Ok(())
    }
}

/// Does an edit of the properties of an attachment. The list is of no use where it isn't done.
pub fn edit_attachment<C: Holds<Vec<u8>>>(
    alloc: Global,
    attachments: &mut OpenAttachments<C>,
    number: u64,
    edit: Edit,
) -> Result<(), OnceEnd>
    ensures ok { OnOk result (changed_at (with_props (on_props (edit_of edit))) number (open_list_of C.bytes attachments.old) ≡ Ok (open_list_of C.bytes attachments.new)) }
    ensures err { IfErr result (IsCauseOf (changed_at (with_props (on_props (edit_of edit))) number (open_list_of C.bytes attachments.old))) }
{
    let mut rows = attachments.take_rows(alloc)?;
    let blank = OpenAttachment::new(Attachment::empty(alloc));
    let mut attachment = take_row(&mut rows, number, blank)?;
    edit_props(alloc, &mut attachment.props, edit)?;
    put_row(&mut rows, number, attachment);
    *attachments = OpenAttachments::Open(rows);
    Ok(())
}
