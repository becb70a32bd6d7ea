//! How long the canonical stream of a message is. A number that is above the greatest `u64` stays there.
ghost use Rattle.std.specs.Prelude.{◌≡◌, ℕ, ◌+◌, List, Option, length};
ghost use Rattle.std.specs.Option.{option_map};
ghost use Rattle.carrier_model.specs.Keys.{Name};
ghost use Rattle.tnef_model.specs.TnefCanonical as canon;
ghost use Rattle.carrier_model.specs.Totals.{capped};
ghost use Rattle.tnef_writer.specs.Written.{own_bytes};

use crate::write_lists::table_size;
use carrier_io::Blob;
use msg_tree::Recipients;
use prop_values::Props;
use tnef_props::list_size;

/// The bytes of an attribute beside its value: level, id, length and sum.
const FRAME: u64 = 11;

/// The bytes before the recipients: the signature, the key, the version and the code page.
const HEAD: u64 = 40;

/// The bytes of the attribute that begins an attachment.
const RENDERING: u64 = 25;

/// The bytes of the recipients' attribute; none where there are no recipients.
fn recipients_size<B: Blob>(recipients: &Recipients<B>) -> u64
    ensures { (names : List Name) → result ≡ capped (length (canon.recipients_attribute names recipients.now)) }
{
    if recipients.len() == 0 {
        return 0;
    }
    table_size(recipients).saturating_add(FRAME)
}

/// The bytes before the attachments of a message.
pub fn own_size<B: Blob>(props: &Props<B>, recipients: &Recipients<B>) -> u64
    ensures { (names : List Name) → result ≡ capped (length (own_bytes names props.now recipients.now)) }
{
    list_size(props, None)
        .saturating_add(recipients_size(recipients))
        .saturating_add(HEAD + FRAME)
}

/// The bytes of an attachment's attributes, where the value of its Object, if it has one, has so many.
pub fn attachment_size<B: Blob>(props: &Props<B>, object: Option<u64>) -> u64
    ensures { (names : List Name) → (content : Option (List ℕ)) → option_map (λ x. capped (length x)) content ≡ object → result ≡ capped (36 + length (canon.list_bytes names props.now content)) }
{
    list_size(props, object).saturating_add(RENDERING + FRAME)
}
