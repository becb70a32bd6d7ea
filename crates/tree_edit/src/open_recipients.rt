//! Recipients of a message that edits change.
ghost use Rattle.std.specs.Prelude.{◌≡◌, ◌++◌, [], ◌∷◌, map, OnOk, IfOk, IfErr, Ok};
ghost use Rattle.edit_model.specs.Edits.{changed_at};
ghost use Rattle.edit_words.specs.Meaning.{edit_of};
ghost use Rattle.tree_edit.specs.Changes.{IsCauseOf, on_props, on_recipients};
ghost use Rattle.tree_edit.specs.ChunkedLists.{listed};
ghost use Rattle.tree_edit.specs.Opened.{props_of, recipients_of};

use crate::chunked_list::{ChunkedList, put_row, remove_row, take_row};
use crate::ends::OnceEnd;
use crate::open_props::{OpenProps, edit_props};
use carrier_io::{Blob, Holds, NoMemory};
use edit_words::Edit;
use msg_tree::Recipients;
use prop_values::Props;
use std::alloc::Global;
use std::mem::replace;

/// The recipients of a message.
#[derive(Drop)]
pub enum OpenRecipients<B: Blob> {
    /// Those that were read.
    Kept(Recipients<B>),
    /// Those of a list that an edit changed, each by itself.
    Open(ChunkedList<OpenProps<B>>),
}

/// The recipients of a list, each by itself. None is left in the list.
fn open_recipients<B: Blob>(
    alloc: Global,
    mut recipients: Recipients<B>,
) -> Result<ChunkedList<OpenProps<B>>, NoMemory>
    ensures { IfOk result (λ rows. map props_of (listed rows) ≡ recipients) }
{
    let mut rows = ChunkedList::new(alloc);
    for k in 0..recipients.len() {
        let props = recipients.replace(k, Props::new(alloc));
        rows.push(alloc, OpenProps::new(props))?;
    }
    Ok(rows)
}

impl<B: Blob> OpenRecipients<B> {
    /// Takes the recipients out, each by itself. None is left.
    fn take_rows(&mut self, alloc: Global) -> Result<ChunkedList<OpenProps<B>>, NoMemory>
        ensures { IfOk result (λ rows. map props_of (listed rows) ≡ recipients_of self.old) }
    {
        match replace(self, OpenRecipients::Kept(Recipients::new(alloc))) {
            OpenRecipients::Kept(recipients) => open_recipients(alloc, recipients),
            OpenRecipients::Open(rows) => Ok(rows),
        }
    }

    /// Puts a recipient without properties behind the others.
    fn add(&mut self, alloc: Global) -> Result<(), NoMemory>
        ensures { OnOk result (recipients_of self.new ≡ recipients_of self.old ++ [] ∷ []) }
    {
        let props = Props::new(alloc);
        match self {
            OpenRecipients::Kept(recipients) => recipients.push(props)?,
            OpenRecipients::Open(rows) => rows.push(alloc, OpenProps::new(props))?,
        }
        Ok(())
    }

    /// Does an edit of the list. The list is of no use where it isn't done.
    pub fn edit(&mut self, alloc: Global, edit: Edit) -> Result<(), OnceEnd>
        ensures ok { OnOk result (on_recipients (edit_of edit) (recipients_of self.old) ≡ Ok (recipients_of self.new)) }
        ensures err { IfErr result (IsCauseOf (on_recipients (edit_of edit) (recipients_of self.old))) }
    {
        match edit {
            Edit::AddRecipient { .. } => self.add(alloc)?,
            Edit::DropRecipient { number, .. } => {
                let mut rows = self.take_rows(alloc)?;
                remove_row(&mut rows, number)?;
                *self = OpenRecipients::Open(rows);
            }
            _ => {}
        }
        Ok(())
    }

    /// The list after all edits.
    pub fn close(self, alloc: Global) -> Result<Recipients<B>, NoMemory>
        ensures { IfOk result (λ recipients. recipients ≡ recipients_of self) }
    {
        match self {
            OpenRecipients::Kept(recipients) => Ok(recipients),
            OpenRecipients::Open(rows) => close_rows(alloc, rows),
        }
    }
}

/// The recipients that stand each by itself, as a list.
fn close_rows<B: Blob>(
    alloc: Global,
    rows: ChunkedList<OpenProps<B>>,
) -> Result<Recipients<B>, NoMemory>
    ensures { IfOk result (λ recipients. recipients ≡ map props_of (listed rows)) }
{
    let rows = rows.into_list(alloc)?;
    let mut recipients = Recipients::with_capacity(alloc, rows.len())?;
    for props in rows {
        recipients.push(props.close(alloc)?)?;
    }
    Ok(recipients)
}

/// Does an edit of the properties of a recipient. The list is of no use where it isn't done.
pub fn edit_recipient<C: Holds<Vec<u8>>>(
    alloc: Global,
    recipients: &mut OpenRecipients<C>,
    number: u64,
    edit: Edit,
) -> Result<(), OnceEnd>
    ensures ok { OnOk result (changed_at (on_props (edit_of edit)) number (recipients_of recipients.old) ≡ Ok (recipients_of recipients.new)) }
    ensures err { IfErr result (IsCauseOf (changed_at (on_props (edit_of edit)) number (recipients_of recipients.old))) }
{
    let mut rows = recipients.take_rows(alloc)?;
    let blank = OpenProps::new(Props::new(alloc));
    let mut props = take_row(&mut rows, number, blank)?;
    edit_props(alloc, &mut props, edit)?;
    put_row(&mut rows, number, props);
    *recipients = OpenRecipients::Open(rows);
    Ok(())
}
