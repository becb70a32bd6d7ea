//! What a .msg file means, and the files that a message is written as, as plain lists, numbers and finite trees. The
//! definitions stand in specs/; each function here is a law about them and does nothing.
#![tactic(auto)]

mod msg_laws;
mod msg_read_rows;
mod msg_rows;
mod msg_store_rows;
mod written_laws;

pub use msg_laws::{
    files_mean_one_message, files_of_a_message_may_be_written, lists_of_storages_are_exact,
    messages_of_files_are_exact, msg_carriers_are_exact, msg_carriers_are_trees, names_are_exact,
    numbered_storages_are_in_order, written_files_mean_the_message, written_lists_are_read,
    written_names_are_read,
};
pub use msg_read_rows::{
    a_name_twice, chains_of_a_small_file, files_are_read_back, files_of_either_version,
    lists_of_one_entry, one_name_is_read,
};
pub use msg_rows::{
    the_entry_of_one_property, the_file_of_an_empty_message, the_file_of_version_4,
    the_files_at_the_cutoff, the_map_of_one_name,
};
pub use msg_store_rows::{a_message_with_a_store, messages_are_no_stores};
pub use written_laws::written_files_carry_their_message;
