//! The tree of a number.
ghost use Rattle.std.specs.Prelude.{◌≡◌, ◌≤◌, ◌<◌, IfOk};
ghost use Rattle.text_model.specs.SampleTrees.{GREATEST_SAMPLE};
ghost use Rattle.text_model.specs.SampleTrees.{sample_props, sample_attachments, sample_tree};
ghost use Rattle.msg_tree.specs.Meaning.{list_of};
ghost use Rattle.msg_tree.specs.Whole.{plain_of};

use crate::levels::{at_level, holding};
use crate::parts::{recipients, with_data};
use crate::small_props::{named_number, number_prop, subject, text_prop};
use crate::sorted::in_order;
use carrier_io::NoMemory;
use msg_tree::{Attachments, Message, Tree};
use prop_values::{Arrivals, Props};
use std::alloc::Global;

/// PidTagImportance [MS-OXPROPS].
const IMPORTANCE: u16 = 0x0017;

/// PidTagMessageClass [MS-OXPROPS].
const MESSAGE_CLASS: u16 = 0x001a;

fn own_props(alloc: Global, number: u32) -> Result<Props<Vec<u8>>, NoMemory>
    requires { number ≤ GREATEST_SAMPLE }
    ensures { IfOk result (λ r. r ≡ sample_props number) }
{
    let mut props = Arrivals::new(alloc);
    props.make_room(number as usize + 3);
    props.push(number_prop(IMPORTANCE, number % 3), 0)?;
    props.push(text_prop(alloc, MESSAGE_CLASS, "IPM.Note")?, 0)?;
    props.push(subject(alloc, "sample", number)?, 0)?;
    for k in 0..number {
        props.push(named_number(k), 0)?;
    }
    in_order(props)
}

/// So many attachments with data, and where there are any one more that holds as many levels of messages.
fn attachments(alloc: Global, levels: u32) -> Result<Attachments<Vec<u8>>, NoMemory>
    requires { levels < 0x100 }
    ensures { IfOk result (λ r. list_of (λ v. v.items) r ≡ sample_attachments levels) }
{
    let mut list = Attachments::new(alloc);
    for number in 0..levels {
        list.push(with_data(alloc, number)?)?;
    }
    if levels > 0 {
        let message = at_level(alloc, levels - 1, 1)?;
        list.push(holding(alloc, message)?)?;
    }
    Ok(list)
}

/// The tree of a number: three properties and so many named ones, up to 2,048 recipients, and up to 32 attachments with
/// data, with as many levels of messages. NoMemory says that memory ran out.
pub fn sample(alloc: Global, number: u32) -> Result<Tree<Vec<u8>>, NoMemory>
    requires { number ≤ GREATEST_SAMPLE }
    ensures { IfOk result (λ tree. plain_of tree ≡ sample_tree number) }
{
    let message = Message {
        props: own_props(alloc, number)?,
        recipients: recipients(alloc, number % 2049)?,
        attachments: attachments(alloc, number % 33)?,
    };
    Ok(Tree::from_shallow(message))
}
