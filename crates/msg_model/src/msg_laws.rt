//! Laws about .msg files.
ghost use Rattle.std.specs.Prelude.{◌≡◌, ◌≤◌, ℕ, List, [], length, IsPermutation, Ok, Err, Option};
ghost use Rattle.carrier_model.specs.Bytes.{AllBytes, MOST_BYTES};
ghost use Rattle.carrier_model.specs.FileTrees.{sorted};
ghost use Rattle.carrier_model.specs.Files.{Children, Files};
ghost use Rattle.carrier_model.specs.Holds.{AreApart, child_names};
ghost use Rattle.carrier_model.specs.Sorted.{IsStrictlySorted};
ghost use Rattle.carrier_model.specs.LayoutHolds.{MayBeWritten, StreamsFit};
ghost use Rattle.carrier_model.specs.Stores.{bare};
ghost use Rattle.msg_model.specs.WrittenMsg.{files_of};
ghost use Rattle.msg_model.specs.MsgMessage.{numbered_in, number_cmp, in_order, files_meaning, file_meaning, FilesMean, MsgCarrier, MsgFault};
ghost use Rattle.msg_model.specs.MsgProps.{Part, Section, MsgProps, props_of};
ghost use Rattle.msg_model.specs.MsgValues.{Streams};
ghost use Rattle.msg_model.specs.NameMap.{NameStreams, Pair, NamePairs, pairs_of, pairs_from};
ghost use Rattle.carrier_model.specs.Keys.{Name};
ghost use Rattle.msg_model.specs.ReadBack.{AreNames, HasNameMap, HasList, HasFewParts, NamesAmong, IsReadAs};
ghost use Rattle.carrier_model.specs.Meanings.{Meaning, Passed};
ghost use Rattle.carrier_model.specs.Values.{Prop};
ghost use Rattle.carrier_model.specs.Trail.{IsExact};
ghost use Rattle.carrier_model.specs.Tree.{Message, names_of};
ghost use Rattle.carrier_model.specs.Trees.{IsTree, IsPropList};

/// The names that are answered are the pairs of the file, and they are answered wherever it has them.
pub fn names_are_exact()
    ensures sound { (s : NameStreams) (pairs : List Pair) → pairs_of s ≡ Ok pairs → NamePairs s pairs }
    ensures only { (s : NameStreams) (pairs : List Pair) → NamePairs s pairs → pairs_of s ≡ Ok pairs }
{}

/// A storage has one property list, or has one first fault.
pub fn lists_of_storages_are_exact()
    ensures sound { (part : Part) (pairs : List Pair) (place : ℕ) (streams : Streams) (l : Section) → props_of part pairs place streams ≡ Ok l → MsgProps part pairs streams l }
    ensures only { (part : Part) (pairs : List Pair) (place : ℕ) (streams : Streams) (l : Section) → MsgProps part pairs streams l → props_of part pairs place streams ≡ Ok l }
{}

/// The files of a .msg mean one message, or have one first fault.
pub fn messages_of_files_are_exact()
    ensures sound { (root : Files) (m : Meaning) → files_meaning root ≡ Ok m → FilesMean root m }
    ensures only { (root : Files) (m : Meaning) → FilesMean root m → files_meaning root ≡ Ok m }
{}

/// Files mean at most one message and have at most one first fault, and never both.
pub fn files_mean_one_message()
    ensures { (root : Files) → IsExact (FilesMean root) (λ g. files_meaning root ≡ Err g) }
{}

/// What is answered of a .msg file is the message that it carries, with what was passed over, and it is answered
/// wherever there is one. So a file carries at most one message, or has one first fault, and not both.
pub fn msg_carriers_are_exact()
    ensures sound { (b : List ℕ) (m : Meaning) → file_meaning b ≡ Ok m → MsgCarrier b m.message m.passed }
    ensures only { (b : List ℕ) (m : Meaning) → length b ≤ MOST_BYTES → MsgCarrier b m.message m.passed → file_meaning b ≡ Ok m }
    ensures exact { (b : List ℕ) → length b ≤ MOST_BYTES → IsExact (λ (m : Meaning). MsgCarrier b m.message m.passed) (MsgFault b) }
{}

/// The name map that is written is read back: the k-th name, from 0, has the id 8000 plus k.
pub fn written_names_are_read()
    ensures { (s : NameStreams) (names : List Name) → AreNames names → HasNameMap s names → pairs_of s ≡ Ok (pairs_from 0 names) }
{}

/// What a .msg file means is a tree whose lists are sorted and whose values are of their kinds' forms and ranges, where
/// it is made of bytes and no longer than the greatest input.
pub fn msg_carriers_are_trees()
    ensures { (b : List ℕ) (t : Message) (passed : List Passed) → AllBytes b → length b ≤ MOST_BYTES → MsgCarrier b t passed → IsTree t }
{}

/// A property list that is written to streams is read back, with the entry of an object or without.
pub fn written_lists_are_read()
    ensures { (part : Part) (names : List Name) (place : ℕ) (streams : Streams) (props : List Prop) (object : Option ℕ) → length names ≤ 32000 → IsPropList props → NamesAmong names props → HasList part names streams props object → IsReadAs (props_of part (pairs_from 0 names) place streams) props object }
{}

/// The files that are written for a message, found in the order of their siblings, mean that message and nothing else,
/// and have no fault.
pub fn written_files_mean_the_message()
    ensures { (t : Message) (root : Files) → IsTree t → length (names_of t) ≤ 32000 → HasFewParts t → bare root.children ≡ sorted (files_of t) → files_meaning root ≡ Ok (record { message = t; passed = [] }) }
{}

/// The files of a message may be written to a compound file, whose streams have room for their bytes: their names are
/// short and differ in each storage, and no storage is too deep.
pub fn files_of_a_message_may_be_written()
    ensures { (t : Message) → IsTree t → length (names_of t) ≤ 32000 → HasFewParts t → StreamsFit (files_of t) → MayBeWritten (files_of t) }
{}

/// The recipients' storages, and the attachments', are put in order by rising number, each once: storages whose names
/// differ have different numbers.
pub fn numbered_storages_are_in_order()
    ensures { (prefix : List ℕ) (c : Children) → AreApart (child_names c) → IsStrictlySorted number_cmp (in_order (numbered_in prefix c)) × IsPermutation (numbered_in prefix c) (in_order (numbered_in prefix c)) }
{}
