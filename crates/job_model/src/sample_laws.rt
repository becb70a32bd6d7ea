//! Laws about samples.
ghost use Rattle.std.specs.Prelude.{◌≡◌, ◌++◌, ◌≤◌, ℕ, List, None, IsTrue};
ghost use Rattle.carrier_model.specs.Limits.{first_limit, msg_limits};
ghost use Rattle.carrier_model.specs.Sectors.{is_size};
ghost use Rattle.carrier_model.specs.Tree.{Message};
ghost use Rattle.carrier_model.specs.Trees.{IsTree};
ghost use Rattle.job_model.specs.Commands.{to_msg, to_msg4, to_tnef, wrap};
ghost use Rattle.text_model.specs.SampleTrees.{GREATEST_SAMPLE};
ghost use Rattle.text_model.specs.SampleTrees.{sample_tree};
ghost use Rattle.job_model.specs.Targets.{passed_limit, passed_size};
ghost use Rattle.msg_model.specs.WrittenMsg.{msg_in};
ghost use Rattle.tnef_model.specs.TnefCanonical.{tnef_of};

/// A sample is a well-formed tree.
pub fn samples_are_trees()
    ensures { (n : ℕ) → n ≤ GREATEST_SAMPLE → IsTree (sample_tree n) }
{}

/// No sample passes a limit: not as a .msg file in sectors of either size, not as a TNEF stream, and not as the mail that
/// carries this stream.
pub fn no_sample_passes_a_limit()
    ensures file { (z n : ℕ) → IsTrue (is_size z) → n ≤ GREATEST_SAMPLE → first_limit (msg_limits (sample_tree n) ++ passed_size (msg_in z (sample_tree n))) ≡ None }
    ensures to_msg { (n : ℕ) (b : List ℕ) → n ≤ GREATEST_SAMPLE → passed_limit to_msg (sample_tree n) b ≡ None }
    ensures to_msg4 { (n : ℕ) (b : List ℕ) → n ≤ GREATEST_SAMPLE → passed_limit to_msg4 (sample_tree n) b ≡ None }
    ensures to_tnef { (n : ℕ) (b : List ℕ) → n ≤ GREATEST_SAMPLE → passed_limit to_tnef (sample_tree n) b ≡ None }
    ensures wrap { (n : ℕ) (t : Message) → n ≤ GREATEST_SAMPLE → passed_limit wrap t (tnef_of (sample_tree n)) ≡ None }
{}
