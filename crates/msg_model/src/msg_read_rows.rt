//! Names and properties of .msg files, computed on small files.
ghost use Rattle.std.specs.Prelude.{◌≡◌, ◌∷◌, [], Ok, Err, false, replicate};
ghost use Rattle.carrier_model.specs.Bytes.{le32};
ghost use Rattle.carrier_model.specs.Keys.{numbered};
ghost use Rattle.msg_model.specs.WrittenMsg.{msg_of};
ghost use Rattle.msg_model.specs.MsgMessage.{file_meaning};
ghost use Rattle.msg_model.specs.NameMap.{pairs_of};
ghost use Rattle.carrier_model.specs.Reasons.{CYCLE, SHARED, SHORT_CHAIN, BAD_PROP_STREAM, UNKNOWN_TYPE, UNMAPPED_ID, MISSING_STREAM, DUPLICATE_PROPERTY};
ghost use Rattle.msg_model.specs.SampleFiles.{one_name, one_entry, changed, empty_text, empty_file, empty_file4, two_names, texts_message, numbers_message, parts_message, names_message, nested_message};
ghost use Rattle.carrier_model.specs.SmallTrees.{APPOINTMENT, integer32, string_prop};
ghost use Rattle.carrier_model.specs.Tree.{message, no_more};

/// The name map of one number is read back.
pub fn one_name_is_read()
    ensures { pairs_of (one_name (0x0D ∷ 0x82 ∷ 0x00 ∷ 0x00 ∷ 0x06 ∷ 0x00 ∷ 0x00 ∷ 0x00 ∷ [])) ≡ Ok ((0x8000, numbered APPOINTMENT 0x820D) ∷ []) }
{}

/// What a list of one entry means, or its fault. The file is that of a message without properties; the list has 16 bytes
/// more.
pub fn lists_of_one_entry()
    ensures integer { file_meaning (one_entry 48 (0x03 ∷ 0x00 ∷ 0x17 ∷ 0x00 ∷ 0x06 ∷ 0x00 ∷ 0x00 ∷ 0x00 ∷ 0x02 ∷ 0x00 ∷ 0x00 ∷ 0x00 ∷ 0x00 ∷ 0x00 ∷ 0x00 ∷ 0x00 ∷ [])) ≡ Ok (record { message = message (integer32 0x0017 2 ∷ []) [] no_more; passed = [] }) }
    ensures unmapped { file_meaning (one_entry 48 (0x03 ∷ 0x00 ∷ 0x00 ∷ 0x80 ∷ replicate 12 0)) ≡ Err (UNMAPPED_ID, 2592) }
    ensures unknown { file_meaning (one_entry 48 (0x08 ∷ 0x00 ∷ 0x17 ∷ 0x00 ∷ replicate 12 0)) ≡ Err (UNKNOWN_TYPE, 2592) }
    ensures missing { file_meaning (one_entry 48 (empty_text 6)) ≡ Err (MISSING_STREAM, 2592) }
    ensures empty { file_meaning (one_entry 48 (empty_text 2)) ≡ Ok (record { message = message (string_prop 0x0037 [] ∷ []) [] no_more; passed = [] }) }
    ensures object { file_meaning (one_entry 48 (0x0D ∷ 0x00 ∷ 0x12 ∷ 0x0E ∷ replicate 12 0)) ≡ Ok (record { message = message [] [] no_more; passed = (false, 0x0E12000D, 2592) ∷ [] }) }
    ensures short { file_meaning (one_entry 31 (empty_text 2)) ≡ Err (BAD_PROP_STREAM, 1784) }
{}

/// A chain that comes back to itself, one that another chain has, and one that is too short.
pub fn chains_of_a_small_file()
    ensures cycle { file_meaning (changed empty_file 520 (le32 1)) ≡ Err (CYCLE, 520) }
    ensures shared { file_meaning (changed empty_file 528 (le32 2)) ≡ Err (SHARED, 528) }
    ensures short { file_meaning (changed empty_file 1144 (le32 1024)) ≡ Err (SHORT_CHAIN, 528) }
{}

/// The high half of a size counts in version 4 alone.
pub fn files_of_either_version()
    ensures ignored { file_meaning (changed empty_file 1788 (le32 1)) ≡ Ok (record { message = message [] [] no_more; passed = [] }) }
    ensures read { file_meaning empty_file4 ≡ Ok (record { message = message [] [] no_more; passed = [] }) }
    ensures cycle { file_meaning (changed empty_file4 4100 (le32 1)) ≡ Err (CYCLE, 4100) }
    ensures counted { file_meaning (changed empty_file4 8956 (le32 1)) ≡ Err (SHARED, 8948) }
{}

/// Two ids of one name, with one type.
pub fn a_name_twice()
    ensures { file_meaning (changed (msg_of two_names) 2632 (0x0D ∷ [])) ≡ Err (DUPLICATE_PROPERTY, 2864) }
{}

/// The file of a message means that message: values of several forms, names, and messages in messages.
pub fn files_are_read_back()
    ensures texts { file_meaning (msg_of texts_message) ≡ Ok (record { message = texts_message; passed = [] }) }
    ensures numbers { file_meaning (msg_of numbers_message) ≡ Ok (record { message = numbers_message; passed = [] }) }
    ensures parts { file_meaning (msg_of parts_message) ≡ Ok (record { message = parts_message; passed = [] }) }
    ensures names { file_meaning (msg_of names_message) ≡ Ok (record { message = names_message; passed = [] }) }
    ensures nested { file_meaning (msg_of nested_message) ≡ Ok (record { message = nested_message; passed = [] }) }
{}
