//! The classes of messages.
ghost use Rattle.std.specs.Prelude.{◌≡◌, ◌<◌, length};
ghost use Rattle.tnef_model.specs.LegacyAttributes as plain;

/// The class that an older one stands for; every other class stays (MS-OXTNEF, section 2.1.3.3.1).
pub fn class_of<'a>(old: &'a [u8]) -> &'a [u8]
    ensures class { result.now ≡ plain.class_of old.entry.now }
    ensures short { length old.entry.now < 268435456 → length result.now < 268435456 }
{
    if old == b"IPM.Microsoft Mail.Note".as_slice() {
        b"IPM.Note"
    } else if old == b"IPM.Microsoft Schedule.MtgReq".as_slice() {
        b"IPM.Schedule.Meeting.Request"
    } else if old == b"IPM.Microsoft Schedule.MtgRespP".as_slice() {
        b"IPM.Schedule.Meeting.Resp.Pos"
    } else if old == b"IPM.Microsoft Schedule.MtgRespN".as_slice() {
        b"IPM.Schedule.Meeting.Resp.Neg"
    } else if old == b"IPM.Microsoft Schedule.MtgRespA".as_slice() {
        b"IPM.Schedule.Meeting.Resp.Tent"
    } else if old == b"IPM.Microsoft Schedule.MtgCncl".as_slice() {
        b"IPM.Schedule.Meeting.Canceled"
    } else {
        old
    }
}
