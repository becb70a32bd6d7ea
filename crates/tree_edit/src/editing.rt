//! One edit of a message.
ghost use Rattle.std.specs.Prelude.{◌≡◌, drop, IfErr, OnOk, Ok};
ghost use Rattle.edit_model.specs.Edits.{at_path, at_spot, body_with, changed_at, edited_once, with_body};
ghost use Rattle.edit_words.specs.Meaning.{edit_of, spot_of};
ghost use Rattle.edit_words.specs.Parts.{part_of, path_of};
ghost use Rattle.tree_edit.specs.Changes.{IsCauseOf, on_part, on_props};
ghost use Rattle.tree_edit.specs.Opened.{open_body_of, open_list_of, open_tree_of};

use crate::chunked_list::{put_row, take_row};
use crate::ends::{EditWhy, OnceEnd};
use crate::open_attachments::edit_attachment;
use crate::open_messages::{OpenAttachment, OpenAttachments, OpenBody, OpenMessage};
use crate::open_props::edit_props;
use crate::open_recipients::edit_recipient;
use carrier_io::Holds;
use edit_words::{Edit, Part, Spot};
use msg_tree::Attachment;
use std::alloc::Global;

/// Edits the properties of a spot.
fn edit_spot<C: Holds<Vec<u8>>>(
    alloc: Global,
    message: &mut OpenMessage<C>,
    spot: Spot,
    edit: Edit,
) -> Result<(), OnceEnd>
    ensures ok { OnOk result (at_spot (on_props (edit_of edit)) (spot_of spot) (open_tree_of C.bytes message.old) ≡ Ok (open_tree_of C.bytes message.new)) }
    ensures err { IfErr result (IsCauseOf (at_spot (on_props (edit_of edit)) (spot_of spot) (open_tree_of C.bytes message.old))) }
{
    match spot {
        Spot::Message => edit_props(alloc, &mut message.props, edit),
        Spot::Recipient(k) => edit_recipient(alloc, &mut message.recipients, k, edit),
        Spot::Attachment(k) => edit_attachment(alloc, &mut message.attachments, k, edit),
    }
}

/// Edits a part of a message.
fn edit_here<C: Holds<Vec<u8>>>(
    alloc: Global,
    message: &mut OpenMessage<C>,
    edit: Edit,
) -> Result<(), OnceEnd>
    ensures ok { OnOk result (on_part (part_of (edit_of edit)) (edit_of edit) (open_tree_of C.bytes message.old) ≡ Ok (open_tree_of C.bytes message.new)) }
    ensures err { IfErr result (IsCauseOf (on_part (part_of (edit_of edit)) (edit_of edit) (open_tree_of C.bytes message.old))) }
{
    match edit.part() {
        Part::Props(spot) => edit_spot(alloc, message, spot, edit),
        Part::Recipients => message.recipients.edit(alloc, edit),
        Part::Attachments => message.attachments.edit(alloc, edit),
    }
}

/// Edits the message to which what is left of the path leads.
#[cycle(below)]
fn edit_below<C: Holds<Vec<u8>>>(
    alloc: Global,
    message: &mut OpenMessage<C>,
    at: usize,
    edit: Edit,
) -> Result<(), OnceEnd>
    ensures ok { OnOk result (at_path (on_part (part_of (edit_of edit)) (edit_of edit)) (drop at (path_of (edit_of edit))) (open_tree_of C.bytes message.old) ≡ Ok (open_tree_of C.bytes message.new)) }
    ensures err { IfErr result (IsCauseOf (at_path (on_part (part_of (edit_of edit)) (edit_of edit)) (drop at (path_of (edit_of edit))) (open_tree_of C.bytes message.old))) }
{
    let path = edit.path();
    if at >= path.len() {
        return edit_here(alloc, message, edit);
    }
    let number = *path.get(at);
    edit_in_attachment(alloc, &mut message.attachments, number, at + 1, edit)
}

/// Edits the message of an attachment, or one below it.
#[cycle(below)]
fn edit_in_attachment<C: Holds<Vec<u8>>>(
    alloc: Global,
    attachments: &mut OpenAttachments<C>,
    number: u64,
    at: usize,
    edit: Edit,
) -> Result<(), OnceEnd>
    ensures ok { OnOk result (changed_at (with_body (at_path (on_part (part_of (edit_of edit)) (edit_of edit)) (drop at (path_of (edit_of edit))))) number (open_list_of C.bytes attachments.old) ≡ Ok (open_list_of C.bytes attachments.new)) }
    ensures err { IfErr result (IsCauseOf (changed_at (with_body (at_path (on_part (part_of (edit_of edit)) (edit_of edit)) (drop at (path_of (edit_of edit))))) number (open_list_of C.bytes attachments.old))) }
{
    let mut rows = attachments.take_rows(alloc)?;
    let blank = OpenAttachment::new(Attachment::empty(alloc));
    let mut attachment = take_row(&mut rows, number, blank)?;
    edit_in_body(alloc, &mut attachment.body, at, edit)?;
    put_row(&mut rows, number, attachment);
    *attachments = OpenAttachments::Open(rows);
    Ok(())
}

/// Edits a message that an attachment holds, or one below it.
#[cycle(below)]
fn edit_in_body<C: Holds<Vec<u8>>>(
    alloc: Global,
    body: &mut OpenBody<C>,
    at: usize,
    edit: Edit,
) -> Result<(), OnceEnd>
    ensures ok { OnOk result (body_with (at_path (on_part (part_of (edit_of edit)) (edit_of edit)) (drop at (path_of (edit_of edit)))) (open_body_of C.bytes body.old) ≡ Ok (open_body_of C.bytes body.new)) }
    ensures err { IfErr result (IsCauseOf (body_with (at_path (on_part (part_of (edit_of edit)) (edit_of edit)) (drop at (path_of (edit_of edit)))) (open_body_of C.bytes body.old))) }
{
    let Some(mut inner) = body.take_message(alloc)? else {
        return Err(OnceEnd::Cannot(EditWhy::NoPlace));
    };
    edit_below(alloc, &mut inner, at, edit)?;
    *body = OpenBody::Message(inner);
    Ok(())
}

/// Does an edit. The message is of no use where it isn't done.
pub fn edit_once<C: Holds<Vec<u8>>>(
    alloc: Global,
    message: &mut OpenMessage<C>,
    edit: Edit,
) -> Result<(), OnceEnd>
    ensures ok { OnOk result (edited_once (edit_of edit) (open_tree_of C.bytes message.old) ≡ Ok (open_tree_of C.bytes message.new)) }
    ensures err { IfErr result (IsCauseOf (edited_once (edit_of edit) (open_tree_of C.bytes message.old))) }
{
    edit_below(alloc, message, 0, edit)
}
