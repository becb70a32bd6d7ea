//! The links of siblings.
ghost use Rattle.std.specs.Prelude.{◌≡◌, ◌++◌, OnOk};
ghost use Rattle.carrier_model.specs.Layout as layout;

use carrier_io::NoMemory;

/// The link where there is no sibling and no child. [MS-CFB 2.6.1]
pub const NO_STREAM: u32 = 0xFFFF_FFFF;

/// The number at the top of a balanced tree of siblings: the middle one.
pub fn top_of(numbers: &[u32]) -> u32
    ensures { result ≡ layout.top_of numbers.now }
{
    if numbers.is_empty() {
        return NO_STREAM;
    }
    numbers[(numbers.len() - 1) / 2]
}

/// Appends the left and the right link of each sibling.
pub fn append_links(links: &mut Vec<(u32, u32)>, numbers: &[u32]) -> Result<(), NoMemory>
    ensures { OnOk result (links.new.items ≡ links.old.items ++ layout.links_of_siblings numbers.now) }
{
    if numbers.is_empty() {
        return Ok(());
    }
    let middle = (numbers.len() - 1) / 2;
    let before = &numbers[..middle];
    let (_, behind) = numbers.split_at(middle + 1);
    append_links(links, before)?;
    links.push((top_of(before), top_of(behind)))?;
    append_links(links, behind)
}
