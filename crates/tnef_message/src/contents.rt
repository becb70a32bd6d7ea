//! What the bytes of an attribute give, but for the list of an attachment.
ghost use Rattle.std.specs.Prelude.{◌≡◌, ◌+◌, ◌≤◌, ◌++◌, ℕ, List, IfOk, IfErr, false, length, map, nat_eq};
ghost use Rattle.std.specs.List.{flat_map};
ghost use Rattle.carrier_io.specs.Reads.{OnFault};
ghost use Rattle.carrier_model.specs.Grammar.{Means};
ghost use Rattle.tnef_model.specs.LegacyAttributes as plain;
ghost use Rattle.tnef_model.specs.TnefLists.{PropList, recipient_lists};
ghost use Rattle.tnef_attributes.specs.Views.{view};
ghost use Rattle.tnef_message.specs.Contents.{GivesPart, FailsPart};

use crate::gifts::Gift;
use crate::held::Held;
use crate::roles::{Role, role_of};
use carrier_io::{Fault, Passed, PassedList, Reason, Stop, u32_at};
use msg_tree::Recipients;
use prop_values::Part;
use std::alloc::Global;
use tnef_attributes::{Attribute, ids};
use tnef_props::read_list;

/// The lists of the recipients: a count, and a list for each.
fn recipients_in<'a>(
    alloc: Global,
    bytes: &'a [u8],
    at: u64,
    passed: &mut PassedList,
) -> Result<Recipients<Held<'a>>, Stop>
    requires { at + length bytes.now ≤ 268435456 }
    ensures found { IfOk result (λ r. (lists : List PropList) × Means recipient_lists at bytes.entry.now lists × (r ≡ map (λ l. l.props) lists) × (passed.new ≡ passed.old ++ flat_map (λ l. l.passed) lists)) }
    ensures fault { IfErr result (OnFault (recipient_lists.fails at bytes.entry.now)) }
{
    if bytes.len() < 4 {
        return Err(Stop::Fault(Fault {
            reason: Reason::ListTruncated,
            offset: at,
        }));
    }
    let count = u32_at(bytes, 0);
    // Each list has a count of four bytes.
    let room = (count as usize).min(bytes.len() / 4);
    let mut recipients = Recipients::with_capacity(alloc, room)?;
    let mut from = 4;
    for _k in 0..count {
        let list = read_list(alloc, bytes, from, at, Part::Recipient, passed)?;
        recipients.push(list.props)?;
        from = list.end;
    }
    Ok(recipients)
}

/// What the bytes of an attribute give that is not the list of an attachment. What is passed over is added to
/// `passed`.
pub fn plain_gift<'a>(
    alloc: Global,
    attribute: &Attribute<'a>,
    passed: &mut PassedList,
) -> Result<Gift<'a>, Stop>
    requires room { attribute.now.offset + 9 + length attribute.now.bytes.now ≤ 268435456 }
    requires other { nat_eq attribute.now.id plain.ATTACHMENT ≡ false }
    ensures found { IfOk result (λ g. (levels : ℕ) → GivesPart levels (view attribute.now) passed.old passed.new g) }
    ensures fault { IfErr result (OnFault (λ g. (levels : ℕ) → FailsPart levels (view attribute.now) g)) }
{
    let at = attribute.offset + 9;
    if attribute.id == ids::MESSAGE_PROPS {
        let list = read_list(alloc, attribute.bytes, 0, at, Part::Top, passed)?;
        return Ok(Gift::MessageList(list.props));
    }
    if attribute.id == ids::RECIPIENTS {
        return Ok(Gift::RecipientTable(recipients_in(alloc, attribute.bytes, at, passed)?));
    }
    match role_of(attribute.id) {
        Role::Unknown => {
            passed.push(Passed {
                attribute: true,
                what: attribute.id,
                offset: attribute.offset,
            })?;
            Ok(Gift::Nothing)
        }
        Role::Message => Ok(Gift::Nothing),
        Role::NewAttachment => Ok(Gift::Nothing),
        Role::Attachment => Ok(Gift::Nothing),
    }
}
