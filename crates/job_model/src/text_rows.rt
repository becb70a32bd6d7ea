//! Texts and samples, computed on small trees.
ghost use Rattle.std.specs.Prelude.{◌≡◌, ◌∷◌, [], codes, Some, None};
ghost use Rattle.edit_model.specs.Edits.{no_place};
ghost use Rattle.json_model.specs.Faults.{range};
ghost use Rattle.job_model.specs.Changes.{unmapped, undone, no_tree};
ghost use Rattle.job_model.specs.Commands.{command_of, translate, to_msg, to_msg4, change, to_unicode, from_json, sample};
ghost use Rattle.carrier_model.specs.Limits.{too_many_recipients};
ghost use Rattle.job_model.specs.ReportTexts.{report_text, refused, stuck, unfit, done};
ghost use Rattle.job_model.specs.SampleTexts.{sample_text};
ghost use Rattle.text8_model.specs.Unmapped.{at_byte};

/// The text of the sample of the number 0.
pub fn the_first_sample()
    ensures { sample_text 0 ≡ codes "sample 0\nmessages 1\nrecipients 0\nattachments 0\nproperties 3\nnames 0\ndepth 0\ntnef 127 bytes sum 3099\nenvelope 346 bytes sum 27148\nmsg 3072 bytes sum 14283\n" }
{}

/// Words that are commands, and words that are not.
pub fn commands_by_their_words()
    ensures one { command_of (codes "to-msg" ∷ []) ≡ Some (translate to_msg) }
    ensures later { command_of (codes "to-msg4" ∷ []) ≡ Some (translate to_msg4) }
    ensures changed { command_of (codes "to-unicode" ∷ []) ≡ Some (change to_unicode) }
    ensures json { command_of (codes "from-json" ∷ []) ≡ Some from_json }
    ensures no_edits { command_of (codes "edit" ∷ []) ≡ None }
    ensures two { command_of (codes "sample" ∷ codes "5000" ∷ []) ≡ Some (sample 5000) }
    ensures zero { command_of (codes "sample" ∷ codes "0" ∷ []) ≡ Some (sample 0) }
    ensures none { command_of [] ≡ None }
    ensures more { command_of (codes "to-msg" ∷ codes "x" ∷ []) ≡ None }
    ensures leading { command_of (codes "sample" ∷ codes "007" ∷ []) ≡ None }
    ensures greater { command_of (codes "sample" ∷ codes "5001" ∷ []) ≡ None }
{}

/// The lines of some ends.
pub fn lines_of_ends()
    ensures refused { report_text (refused (63, 61)) ≡ codes "refused 63 BadSum at 61\n" }
    ensures unfit { report_text (unfit (too_many_recipients 2049)) ≡ codes "unfit Recipients 2049\n" }
    ensures byte { report_text (stuck (unmapped (record { why = at_byte; property = 0; element = 0; at = 1; page = 1252 }))) ≡ codes "unmapped Byte property 0 element 0 at 1 page 1252\n" }
    ensures place { report_text (stuck (undone (1, no_place))) ≡ codes "edit 1 NoPlace\n" }
    ensures path { report_text (stuck (no_tree (record { why = range; path = 1 ∷ 0 ∷ 2 ∷ [] }))) ≡ codes "json Range at /1/0/2\n" }
    ensures done { report_text done ≡ [] }
{}
