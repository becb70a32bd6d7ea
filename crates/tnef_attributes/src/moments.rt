//! Moments of the civil calendar.
ghost use Rattle.std.specs.Prelude.{◌≡◌, ◌↔◌, ◌*◌, ◌+◌, ◌<◌, ◌≤◌, IsSome, IfSome, IsTrue, length, slice_index, ◌==◌, ◌&&◌};
ghost use Rattle.tnef_model.specs.Moments.{is_day, day_number, is_time_of_day, second_number, is_moment, ticks_of};
ghost use Rattle.carrier_model.specs.Bytes.{units_of};

use carrier_io::u16_at;
use jiff::civil::{Date, Time, date};

/// The days from 1 January 1601 to a day of the years 1601 to 9999.
fn days_to(year: u16, month: u16, day: u16) -> Option<u64>
    ensures exists { IsSome result ↔ IsTrue (is_day year month day) }
    ensures value { IfSome result (λ n. n ≡ day_number year month day) }
    ensures bound { IfSome result (λ n. n < 7_304_484) }
{
    if year < 1601 || year > 9999 || month > 12 || day > 31 {
        return None;
    }
    let Ok(given) = Date::new(year as i16, month as i8, day as i8) else {
        return None;
    };
    let first = date(1601, 1, 1);
    Some(u64::from(first.to_plain().until(given.to_plain()).unsigned_abs()))
}

/// The seconds since midnight.
fn seconds_to(hour: u16, minute: u16, second: u16) -> Option<u64>
    ensures exists { IsSome result ↔ IsTrue (is_time_of_day hour minute second) }
    ensures value { IfSome result (λ n. n ≡ second_number hour minute second) }
    ensures bound { IfSome result (λ n. n < 86_400) }
{
    if hour > 23 || minute > 59 || second > 59 {
        return None;
    }
    match Time::new(hour as i8, minute as i8, second as i8, 0) {
        Ok(_) => Some(u64::from(hour) * 3600 + u64::from(minute) * 60 + u64::from(second)),
        Err(_) => None,
    }
}

/// One of the seven words of a date.
fn word(bytes: &[u8], k: usize) -> u16
    requires { 2 * k + 2 ≤ length bytes.now }
    ensures { result ≡ slice_index (units_of bytes.now) k }
{
    u16_at(bytes, 2 * k)
}

/// The moment that 14 bytes say, in units of 100 nanoseconds from 1 January 1601, where there is one.
pub fn moment(bytes: &[u8]) -> Option<u64>
    ensures exists { IsSome result ↔ IsTrue ((length bytes.now == 14) && is_moment (units_of bytes.now)) }
    ensures value { IfSome result (λ n. n ≡ ticks_of (units_of bytes.now)) }
{
    if bytes.len() != 14 {
        return None;
    }
    let days = days_to(word(bytes, 0), word(bytes, 1), word(bytes, 2))?;
    let seconds = seconds_to(word(bytes, 3), word(bytes, 4), word(bytes, 5))?;
    Some(days * 864_000_000_000 + seconds * 10_000_000)
}
