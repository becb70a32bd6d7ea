//! What both carriers stand on, as plain lists, numbers and finite trees: bytes, keys, values and trees of messages, and
//! compound files with their layout and the stores in them. The definitions stand in specs/; each function here is a law
//! about them and does nothing.
#![tactic(auto)]

mod file_laws;
mod file_rows;
mod layout_rows;
mod order_laws;
mod store_laws;
mod store_rows;

pub use file_laws::{
    chains_are_exact, claims_are_exact, files_are_exact, layouts_are_found, links_are_exact,
    loads_are_exact, the_list_is_longest, versions_say_sizes,
};
pub use file_rows::{
    faults_of_changed_chains, faults_of_changed_entries, faults_of_changed_versions,
    the_smallest_file_opens,
};
pub use layout_rows::the_least_table;
pub use order_laws::{keys_are_ordered, names_are_ordered, properties_are_ordered};
pub use store_laws::{
    siblings_are_put_in_order, stores_of_files_are_exact, stores_of_storages_are_exact,
    written_stores_are_read,
};
pub use store_rows::{faults_of_stores, stores_are_read_back, the_length_of_a_store};
