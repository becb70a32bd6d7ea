//! Entries of a property list.
ghost use Rattle.std.specs.Prelude.{◌≡◌, ◌+◌, ◌≤◌, length};
ghost use Rattle.cfb_sectors.specs.Seen.{bytes_of, stream as stream_seen};
ghost use Rattle.msg_model.specs.MsgProps.{prop_entry};
ghost use Rattle.msg_model.specs.MsgValues.{kind_in, id_in, size_in};
ghost use Rattle.msg_props.specs.Entries.{entry_of};

use carrier_io::u32_at;
use cfb_sectors::{StreamView, file_offset};

/// An entry of a property list: its tag, eight bytes that are the value or begin with the size of its stream, and where it
/// lies in the input, in bytes from the first. Its flags are not looked at. [MS-OXMSG 2.4.2]
#[derive(Clone, Copy)]
pub struct Entry {
    pub tag: u32,
    pub field: [u8; 8],
    pub place: u64,
}

impl Entry {
    /// The entry at a place of the stream of a list. [MS-OXMSG 2.4.2]
    #[tactic(auto, unfolding(carrier_model::specs::Sectors::u32_of))]
    pub fn read(view: &StreamView<'_>, at: usize) -> Entry
        requires { at + 16 ≤ length (bytes_of view.now) }
        ensures { entry_of result ≡ prop_entry (stream_seen view.now) at }
    {
        let mut field = [0; 8];
        view.copy_range(at + 8, &mut field);
        Entry {
            tag: view.u32_at(at),
            field,
            place: file_offset(view, at as u64),
        }
    }

    /// The number of its kind. [MS-OXMSG 2.4.2.1]
    pub fn kind(&self) -> u16
        ensures { result ≡ kind_in (entry_of self.now) }
    {
        (self.tag % 0x10000) as u16
    }

    /// Its id: that of a property, or from 8000 on one that stands for a name. [MS-OXMSG 2.4.2.1]
    pub fn id(&self) -> u16
        ensures { result ≡ id_in (entry_of self.now) }
    {
        (self.tag / 0x10000) as u16
    }

    /// The size of its stream, as the entry has it; of a text with the null. [MS-OXMSG 2.4.2.2]
    #[tactic(auto, unfolding(carrier_model::specs::Sectors::u32_of))]
    pub fn size(&self) -> u32
        ensures { result ≡ size_in (entry_of self.now) }
    {
        u32_at(&self.field, 0)
    }
}
