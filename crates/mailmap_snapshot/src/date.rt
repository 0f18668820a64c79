//! The times of commit signatures.
ghost use Rattle.std.specs.Prelude.{◌+◌, ◌-◌, ◌*◌, ◌∷◌, [], ℤ, MatchOption};
ghost use Rattle.std.specs.Option.{SomeIff};
ghost use Rattle.std.specs.Char.{IsAsciiDigit};
ghost use Rattle.mailmap_snapshot.specs.Times.{AreDigits, decimal_value, SpellsSeconds, SpellsOffset, ParsesTime};

/// A point in time, and the offset to UTC of the clock that it was read from.
///
/// Times are ordered by `seconds`, then by `offset`. The default is zero in both.
#[derive(Clone, Copy, Default, Debug, PartialEq, Eq, PartialOrd, Ord, Hash)]
pub struct Time {
    /// Seconds since the beginning of 1970 in UTC, negative before it.
    pub seconds: i64,
    /// The seconds that the clock was ahead of UTC, negative if it was behind. This doesn't affect `seconds`.
    pub offset: i32,
}

impl Time {
    /// Parses a time as git stores it: the seconds, one space, and the offset as a sign, two digits of hours and two of
    /// minutes. `1711398853 +0800` is (1711398853, 28800).
    ///
    /// The seconds are one or more decimal digits, possibly with leading zeros, with a `-` in front if they are
    /// negative. They must fit an `i64`. Hours and minutes can be any two digits, so the offset is between -362340 and
    /// 362340. Any other text is `None`, even one with white space around it. Git understands many more formats of
    /// dates, but writes only this one.
    pub fn read(text: &str) -> Option<Time>
        ensures { ParsesTime text.now result }
    {
        let (seconds, offset) = text.split_once(' ')?;
        Some(Time {
            seconds: read_seconds(seconds)?,
            offset: read_offset(offset)?,
        })
    }
}

/// Parses a whole number as `parse` does, but doesn't accept a `+` in front.
fn read_seconds(text: &str) -> Option<i64>
    ensures { MatchOption result ((seconds : ℤ) → ¬ SpellsSeconds text.now seconds) (SpellsSeconds text.now) }
{
    if text.starts_with('+') {
        return None;
    }
    text.parse().ok()
}

/// Parses a sign, hours and minutes, as in `-0730`, and returns seconds.
fn read_offset(text: &str) -> Option<i32>
    ensures { MatchOption result ((offset : ℤ) → ¬ SpellsOffset text.now offset) (SpellsOffset text.now) }
{
    let [sign, hour_tens, hour_ones, minute_tens, minute_ones] = text.as_bytes() else {
        return None;
    };
    let seconds = read_clock(*hour_tens, *hour_ones, *minute_tens, *minute_ones)? as i32;
    match sign {
        b'+' => Some(seconds),
        b'-' => Some(-seconds),
        _ => None,
    }
}

/// Parses two digits of hours and two of minutes, and returns seconds.
fn read_clock(hour_tens: u8, hour_ones: u8, minute_tens: u8, minute_ones: u8) -> Option<u32>
    ensures { SomeIff result (AreDigits (hour_tens ∷ hour_ones ∷ []) × AreDigits (minute_tens ∷ minute_ones ∷ []))
        ((decimal_value (hour_tens ∷ hour_ones ∷ []) * 60 + decimal_value (minute_tens ∷ minute_ones ∷ [])) * 60) }
{
    let hours = read_pair(hour_tens, hour_ones)?;
    let minutes = read_pair(minute_tens, minute_ones)?;
    Some((hours * 60 + minutes) * 60)
}

fn read_pair(tens: u8, ones: u8) -> Option<u32>
    ensures { SomeIff result (AreDigits (tens ∷ ones ∷ [])) (decimal_value (tens ∷ ones ∷ [])) }
{
    Some(read_digit(tens)? * 10 + read_digit(ones)?)
}

fn read_digit(byte: u8) -> Option<u32>
    ensures { SomeIff result (IsAsciiDigit byte) (byte - 48) }
{
    match byte {
        b'0'..=b'9' => Some(u32::from(byte - b'0')),
        _ => None,
    }
}
