//! Names, files and layouts of .msg files, computed on small trees.
ghost use Rattle.std.specs.Prelude.{◌≡◌, ◌++◌, ◌∷◌, [], length, take, drop, codes};
ghost use Rattle.carrier_model.specs.Bytes.{le16, le32};
ghost use Rattle.carrier_model.specs.KeyTexts.{label_family};
ghost use Rattle.carrier_model.specs.Keys.{numbered};
ghost use Rattle.carrier_model.specs.SmallestFile.{smallest_files};
ghost use Rattle.msg_model.specs.WrittenMsg.{files_of, msg_of, msg4_of};
ghost use Rattle.carrier_model.specs.SmallTrees.{integer32, zeros_prop};
ghost use Rattle.carrier_model.specs.Tree.{message, no_more};
ghost use Rattle.msg_model.specs.WrittenNames.{name_map_files};
ghost use Rattle.carrier_model.specs.FileTrees.{streams_from};

/// The name map of the one name 820D in the set of appointments: its GUID, its entry, no text, and its hash stream.
pub fn the_map_of_one_name()
    ensures { name_map_files (numbered (le32 0x00062002 ++ label_family) 0x820D ∷ []) ≡ streams_from (
        (codes "__substg1.0_00020102", le32 0x00062002 ++ label_family)
        ∷ (codes "__substg1.0_00030102", 0x0D ∷ 0x82 ∷ 0x00 ∷ 0x00 ∷ 0x06 ∷ 0x00 ∷ 0x00 ∷ 0x00 ∷ [])
        ∷ (codes "__substg1.0_00040102", [])
        ∷ (codes "__substg1.0_101C0102", 0x0D ∷ 0x82 ∷ 0x00 ∷ 0x00 ∷ 0x06 ∷ 0x00 ∷ 0x00 ∷ 0x00 ∷ [])
        ∷ []) }
{}

/// The file of a message without properties: what it is laid out of, its length, its table, and where its parts begin.
pub fn the_file_of_an_empty_message()
    ensures files { files_of (message [] [] no_more) ≡ smallest_files }
    ensures length { length (msg_of (message [] [] no_more)) ≡ 3072 }
    ensures table { take 24 (drop 512 (msg_of (message [] [] no_more))) ≡ le32 0xFFFFFFFD ++ (le32 2 ++ (le32 0xFFFFFFFE ++ (le32 0xFFFFFFFE ++ (le32 0xFFFFFFFE ++ le32 0xFFFFFFFF)))) }
    ensures root { take 12 (drop 1140 (msg_of (message [] [] no_more))) ≡ le32 4 ++ (le32 64 ++ le32 0) }
    ensures root_child { take 4 (drop 1100 (msg_of (message [] [] no_more))) ≡ le32 1 }
    ensures map_links { take 12 (drop 1220 (msg_of (message [] [] no_more))) ≡ le32 0xFFFFFFFF ++ (le32 5 ++ le32 3) }
    ensures properties { take 8 (drop 1780 (msg_of (message [] [] no_more))) ≡ le32 0 ++ le32 32 }
{}

/// The same of version 4: its length, the number of its directory's sectors, its table, and where its parts begin.
pub fn the_file_of_version_4()
    ensures length { length (msg4_of (message [] [] no_more)) ≡ 20480 }
    ensures versions { take 8 (drop 26 (msg4_of (message [] [] no_more))) ≡ le16 4 ++ (le16 0xFFFE ++ (le16 12 ++ le16 6)) }
    ensures directory { take 4 (drop 40 (msg4_of (message [] [] no_more))) ≡ le32 1 }
    ensures table { take 20 (drop 4096 (msg4_of (message [] [] no_more))) ≡ le32 0xFFFFFFFD ++ (le32 0xFFFFFFFE ++ (le32 0xFFFFFFFE ++ (le32 0xFFFFFFFE ++ le32 0xFFFFFFFF))) }
    ensures root { take 8 (drop 8192 (msg4_of (message [] [] no_more))) ≡ le16 0x52 ++ (le16 0x6F ++ (le16 0x6F ++ le16 0x74)) }
    ensures mini_table { take 4 (drop 12288 (msg4_of (message [] [] no_more))) ≡ le32 0xFFFFFFFE }
{}

/// The entry of an Integer32 property in the property stream of its file.
pub fn the_entry_of_one_property()
    ensures length { length (msg_of (message (integer32 0x0017 2 ∷ []) [] no_more)) ≡ 3072 }
    ensures entry { take 16 (drop 2592 (msg_of (message (integer32 0x0017 2 ∷ []) [] no_more))) ≡ 0x03 ∷ 0x00 ∷ 0x17 ∷ 0x00 ∷ 0x06 ∷ 0x00 ∷ 0x00 ∷ 0x00 ∷ 0x02 ∷ 0x00 ∷ 0x00 ∷ 0x00 ∷ 0x00 ∷ 0x00 ∷ 0x00 ∷ 0x00 ∷ [] }
{}

/// A value of 4,095 bytes lies in the mini stream, and one of 4,096 in sectors of its own, and both
/// files have one length.
pub fn the_files_at_the_cutoff()
    ensures short_length { length (msg_of (message (zeros_prop 0x1013 4095 ∷ []) [] no_more)) ≡ 7168 }
    ensures long_length { length (msg_of (message (zeros_prop 0x1013 4096 ∷ []) [] no_more)) ≡ 7168 }
{}
