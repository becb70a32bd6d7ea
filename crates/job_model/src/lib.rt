//! What the commands take, refuse, write and say, as plain lists, numbers and finite trees. The definitions stand in specs/;
//! each function here is a law about them and does nothing.
#![tactic(auto)]

mod job_laws;
mod sample_laws;
mod text_rows;

pub use job_laws::{
    files_within_the_limits_carry_their_message, jobs_are_exact, json_texts_give_the_file,
    results_carry_their_message, trees_within_the_limits_are_carried,
};
pub use sample_laws::{no_sample_passes_a_limit, samples_are_trees};
pub use text_rows::{commands_by_their_words, lines_of_ends, the_first_sample};
