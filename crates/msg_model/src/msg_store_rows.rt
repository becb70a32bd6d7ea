//! Messages with stores, computed on small files.
ghost use Rattle.std.specs.Prelude.{◌≡◌, [], length, Ok, Err};
ghost use Rattle.msg_model.specs.MsgMessage.{file_meaning};
ghost use Rattle.carrier_model.specs.Reasons.{STORE_IS_MESSAGE};
ghost use Rattle.msg_model.specs.SampleFiles.{empty_file, empty_file4};
ghost use Rattle.carrier_model.specs.SmallTrees.{empty_store, small_store, holding};
ghost use Rattle.carrier_model.specs.Stores.{store_file};
ghost use Rattle.msg_model.specs.WrittenMsg.{msg_of};

/// How long the .msg file of a message is whose one attachment holds a store without members, and that such a file means
/// its message.
pub fn a_message_with_a_store()
    ensures length { length (msg_of (holding empty_store)) ≡ 3584 }
    ensures read { file_meaning (msg_of (holding small_store)) ≡ Ok (record { message = holding small_store; passed = [] }) }
{}

/// A message is no store, in neither version.
pub fn messages_are_no_stores()
    ensures message { store_file empty_file ≡ Err (STORE_IS_MESSAGE, 1784) }
    ensures message4 { store_file empty_file4 ≡ Err (STORE_IS_MESSAGE, 8952) }
{}
