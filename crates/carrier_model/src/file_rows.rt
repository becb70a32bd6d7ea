//! Compound files opened, computed on the file of a message without properties.
ghost use Rattle.std.specs.Prelude.{◌≡◌, ◌∷◌, ◌++◌, [], codes, replicate, Some, Ok, Err};
ghost use Rattle.std.specs.List.{range_with_len};
ghost use Rattle.carrier_model.specs.Bytes.{le16, le32};
ghost use Rattle.carrier_model.specs.Files.{open_file, opened_of, steps_of};
ghost use Rattle.carrier_model.specs.Holds.{child_names};
ghost use Rattle.carrier_model.specs.Lookups.{stream_named};
ghost use Rattle.carrier_model.specs.Outcomes.{mapped};
ghost use Rattle.carrier_model.specs.Reasons.{BAD_VERSION, BAD_HEADER, BAD_FAT_COUNT, CYCLE, SHARED, SHORT_CHAIN, ENTRY_OUT_OF_RANGE, ENTRY_SHARED, BAD_ENTRY_TYPE, BAD_NAME, DOUBLE_NAME};
ghost use Rattle.carrier_model.specs.SmallestFile.{smallest, changed_opens};
ghost use Rattle.carrier_model.specs.Tables.{sector_size};

/// The root's children, its property stream with the places of its bytes and of its entry, and how many words are
/// followed.
pub fn the_smallest_file_opens()
    ensures children { mapped (λ f. child_names f.children) (open_file smallest) ≡ Ok (codes "__nameid_version1.0" ∷ codes "__properties_version1.0" ∷ []) }
    ensures stream { mapped (λ f. stream_named f.children (codes "__PROPERTIES_version1.0")) (open_file smallest) ≡ Ok (Some (record { stream = record { bytes = replicate 32 0; places = range_with_len 2560 32 }; entry = 1664 })) }
    ensures steps { mapped steps_of (opened_of (sector_size smallest) smallest) ≡ Ok 5 }
{}

/// The faults of its chains, each after a change of one number.
pub fn faults_of_changed_chains()
    ensures cycle { changed_opens 520 (le32 1) ≡ Err (CYCLE, 520) }
    ensures shared { changed_opens 528 (le32 2) ≡ Err (SHARED, 528) }
    ensures short { changed_opens 1144 (le32 1024) ≡ Err (SHORT_CHAIN, 528) }
{}

/// The faults of its directory, each after a change of one number.
pub fn faults_of_changed_entries()
    ensures shared { changed_opens 1220 (le32 1) ≡ Err (ENTRY_SHARED, 1220) }
    ensures absent { changed_opens 1224 (le32 8) ≡ Err (ENTRY_OUT_OF_RANGE, 1224) }
    ensures kind { changed_opens 1730 (5 ∷ []) ≡ Err (BAD_ENTRY_TYPE, 1730) }
    ensures double { changed_opens 1566 (0x33 ∷ []) ≡ Err (DOUBLE_NAME, 1536) }
    ensures name { changed_opens 1728 (le16 3) ≡ Err (BAD_NAME, 1728) }
{}

/// The high half of a size counts in version 4 alone. The faults of other versions: one that is neither 3 nor 4; version 4
/// with the sector size of version 3; and version 4 in a file that is shorter than its first sector.
pub fn faults_of_changed_versions()
    ensures ignored { changed_opens 1788 (le32 1) ≡ open_file smallest }
    ensures unknown { changed_opens 26 (le16 5) ≡ Err (BAD_VERSION, 26) }
    ensures size { changed_opens 26 (le16 4) ≡ Err (BAD_HEADER, 30) }
    ensures cut { changed_opens 26 (le16 4 ++ (le16 0xFFFE ++ le16 12)) ≡ Err (BAD_FAT_COUNT, 44) }
{}
