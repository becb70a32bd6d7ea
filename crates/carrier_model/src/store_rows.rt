//! Stores, computed on small files.
ghost use Rattle.std.specs.Prelude.{◌≡◌, [], length, Ok, Err};
ghost use Rattle.carrier_model.specs.Reasons.{FILE_TRUNCATED, STORE_TOO_DEEP, STORE_IS_MESSAGE};
ghost use Rattle.carrier_model.specs.SmallestFile.{smallest};
ghost use Rattle.carrier_model.specs.SmallTrees.{empty_store, small_store, nested_store};
ghost use Rattle.carrier_model.specs.Stores.{store_file, store_bytes};

/// How long the file of a store without members is.
pub fn the_length_of_a_store()
    ensures { length (store_bytes empty_store) ≡ 1536 }
{}

/// The file of a store is that store.
pub fn stores_are_read_back()
    ensures empty { store_file (store_bytes empty_store) ≡ Ok empty_store }
    ensures small { store_file (store_bytes small_store) ≡ Ok small_store }
{}

/// A message is no store; no bytes are none; and the 33rd of storages that stand one below another is too deep.
pub fn faults_of_stores()
    ensures message { store_file smallest ≡ Err (STORE_IS_MESSAGE, 1784) }
    ensures nothing { store_file [] ≡ Err (FILE_TRUNCATED, 0) }
    ensures deep { store_file (store_bytes (nested_store 32)) ≡ Ok (nested_store 32) }
    ensures deeper { store_file (store_bytes (nested_store 33)) ≡ Err (STORE_TOO_DEEP, 5314) }
{}
