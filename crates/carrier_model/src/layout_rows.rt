//! Sizes of layouts, computed.
ghost use Rattle.std.specs.Prelude.{◌≡◌, false};
ghost use Rattle.carrier_model.specs.Layout.{fat_count, suffices};

/// How many sectors a table has that needs one sector of DIFAT: 123 leave no word for it.
pub fn the_least_table()
    ensures least { fat_count 512 15621 ≡ 124 }
    ensures one_less { suffices 512 15621 123 ≡ false }
{}
