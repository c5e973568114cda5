//! Moments as texts (RFC 3339 section 5.6).
//!
//! `jiff` reads more than this grammar: a space for the `T`, a second 60, an offset of seconds. So the
//! text is read here, and dates, times and offsets are those of `jiff`.

ghost use Rattle.std.specs.Prelude.{◌≡◌, ℕ, ◌+◌, ◌*◌, ◌<◌, ◌≤◌, IfSome, length, neg_ℤ, option_map, pos, slice_index};
ghost use Rattle.std.specs.Char.{IsAsciiDigit, is_ascii_digit};
ghost use Rattle.std.specs.List.{prefix_len};
ghost use Rattle.std.specs.Option.{option_copied};
ghost use Rattle.jiff_core.specs.Calendar.{IsBetween};
ghost use Rattle.jiff_core.specs.Date.{epoch_day};
ghost use Rattle.jiff_core.specs.Time.{time_nanos};
ghost use Rattle.jiff_fmt.specs.Reader as digits;
ghost use Rattle.oidc_readers.specs.MomentTexts as spec;

use crate::moments::Moment;
use jiff::civil::{Date, DateTime, Time};
use jiff::tz::Offset;

// The text behind a byte, where it starts with that.
fn past_byte(text: &[u8], byte: u8) -> Option<&[u8]>
    ensures { option_copied result ≡ spec.past_byte byte text.now }
{
    match text {
        [first, rest @ ..] if *first == byte => Some(rest),
        _ => None,
    }
}

// The text behind a `T` in either case.
fn past_letter(text: &[u8]) -> Option<&[u8]>
    ensures { option_copied result ≡ spec.past_letter text.now }
{
    match text {
        [b'T' | b't', rest @ ..] => Some(rest),
        _ => None,
    }
}

// The number of two digits, and the text behind them.
#[tactic(auto, unfolding(jiff_fmt::specs::Reader::two_digits))]
fn two_digits(text: &[u8]) -> Option<(u8, &[u8])>
    ensures value { digits.option_view result ≡ digits.two_digits text.now }
    ensures bound { IfSome result (λ n. n.0 < 100) }
{
    match text {
        [high @ b'0'..=b'9', low @ b'0'..=b'9', rest @ ..] => {
            Some(((*high - b'0') * 10 + (*low - b'0'), rest))
        }
        _ => None,
    }
}

// The same, where the number is below that limit.
fn two_digits_below(text: &[u8], limit: u8) -> Option<(u8, &[u8])>
    ensures value { digits.option_view result ≡ spec.two_digits_below limit text.now }
    ensures bound { IfSome result (λ n. n.0 < limit) }
{
    let (number, rest) = two_digits(text)?;
    if number < limit {
        Some((number, rest))
    } else {
        None
    }
}

// The number of four digits, and the text behind them.
#[tactic(auto, unfolding(jiff_fmt::specs::Reader::four_digits))]
fn four_digits(text: &[u8]) -> Option<(u16, &[u8])>
    ensures value { digits.option_view result ≡ digits.four_digits text.now }
    ensures bound { IfSome result (λ n. n.0 < 10_000) }
{
    let (century, rest) = two_digits(text)?;
    let (year, rest) = two_digits(rest)?;
    Some((century as u16 * 100 + year as u16, rest))
}

// The date, where the calendar has it.
fn date_of(year: u16, month: u8, day: u8) -> Option<Date>
    requires year { year < 10_000 }
    requires month { month < 100 }
    requires day { day < 100 }
    ensures { option_map epoch_day result ≡ spec.day_number year month day }
{
    match Date::new(year as i16, month as i8, day as i8) {
        Ok(date) => Some(date),
        Err(_) => None,
    }
}

// `full-date`, and the text behind it.
#[tactic(auto, unfolding(crate::specs::MomentTexts::full_date))]
fn full_date(text: &[u8]) -> Option<(Date, &[u8])>
    ensures { option_map (λ p. (epoch_day p.0, p.1.now)) result ≡ spec.full_date text.now }
{
    let (year, rest) = four_digits(text)?;
    let (month, rest) = two_digits(past_byte(rest, b'-')?)?;
    let (day, rest) = two_digits(past_byte(rest, b'-')?)?;
    let date = date_of(year, month, day)?;
    Some((date, rest))
}

fn digits_len(text: &[u8]) -> usize
    ensures len { result ≡ prefix_len is_ascii_digit text.now }
    ensures within { result ≤ length text.now }
    ensures digits { (k : ℕ) → k < result → IsAsciiDigit (slice_index text.now k) }
{
    text.iter().take_while(|byte| byte.is_ascii_digit()).count()
}

// The nanoseconds of the first digits of a fraction.
fn nanoseconds(places: &[u8]) -> u32
    requires few { length places.now ≤ 9 }
    requires digits { (k : ℕ) → k < length places.now → IsAsciiDigit (slice_index places.now k) }
    ensures value { result ≡ digits.fraction_value 9 places.now }
    ensures bound { result < 1_000_000_000 }
{
    let mut nanosecond = 0;
    let mut worth = 1_000_000_000;
    for digit in places {
        worth /= 10;
        nanosecond += (*digit - b'0') as u32 * worth;
    }
    nanosecond
}

// One digit of a fraction or more, and the text behind them.
#[tactic(auto, unfolding(crate::specs::MomentTexts::fraction_digits))]
fn fraction_digits(text: &[u8]) -> Option<(u32, &[u8])>
    ensures value { digits.option_view result ≡ spec.fraction_digits text.now }
    ensures bound { IfSome result (λ n. n.0 < 1_000_000_000) }
{
    let len = digits_len(text);
    if len == 0 {
        return None;
    }
    Some((nanoseconds(&text[..len.min(9)]), &text[len..]))
}

// `time-secfrac` where there is one, and the text behind it.
fn fraction(text: &[u8]) -> Option<(u32, &[u8])>
    ensures value { digits.option_view result ≡ spec.fraction text.now }
    ensures bound { IfSome result (λ n. n.0 < 1_000_000_000) }
{
    match text {
        [b'.', rest @ ..] => fraction_digits(rest),
        _ => Some((0, text)),
    }
}

// The time of these parts.
fn time_of(hour: u8, minute: u8, second: u8, nanosecond: u32) -> Time
    requires hour { hour < 24 }
    requires minute { minute < 60 }
    requires second { second < 60 }
    requires nanosecond { nanosecond < 1_000_000_000 }
    ensures { time_nanos result ≡ (hour * 3600 + minute * 60 + second) * 1_000_000_000 + nanosecond }
{
    jiff::civil::time(hour as i8, minute as i8, second as i8, nanosecond as i32)
}

// `partial-time`, and the text behind it.
#[tactic(auto, unfolding(crate::specs::MomentTexts::partial_time))]
fn partial_time(text: &[u8]) -> Option<(Time, &[u8])>
    ensures { option_map (λ p. (time_nanos p.0, p.1.now)) result ≡ spec.partial_time text.now }
{
    let (hour, rest) = two_digits_below(text, 24)?;
    let (minute, rest) = two_digits_below(past_byte(rest, b':')?, 60)?;
    let (second, rest) = two_digits_below(past_byte(rest, b':')?, 60)?;
    let (nanosecond, rest) = fraction(rest)?;
    Some((time_of(hour, minute, second, nanosecond), rest))
}

// The seconds of the hours and minutes of an offset, which end the text.
#[tactic(auto, unfolding(crate::specs::MomentTexts::offset_digits))]
fn offset_digits(text: &[u8]) -> Option<i32>
    ensures value { result ≡ spec.offset_digits text.now }
    ensures bound { IfSome result (IsBetween (pos 0) (pos 86_340)) }
{
    let (hour, rest) = two_digits_below(text, 24)?;
    let (minute, rest) = two_digits_below(past_byte(rest, b':')?, 60)?;
    if rest.is_empty() {
        Some(hour as i32 * 3600 + minute as i32 * 60)
    } else {
        None
    }
}

// The seconds of `time-offset`, which ends the text.
#[tactic(auto, unfolding(crate::specs::MomentTexts::time_offset))]
fn offset_seconds(text: &[u8]) -> Option<i32>
    ensures value { result ≡ spec.time_offset text.now }
    ensures bound { IfSome result (IsBetween (neg_ℤ (pos 86_340)) (pos 86_340)) }
{
    match text {
        [b'Z' | b'z'] => Some(0),
        [b'+', rest @ ..] => offset_digits(rest),
        [b'-', rest @ ..] => Some(-offset_digits(rest)?),
        _ => None,
    }
}

// The offset of so many seconds.
fn offset_of(seconds: i32) -> Offset
    requires { IsBetween (neg_ℤ (pos 86_340)) (pos 86_340) seconds }
    ensures { result.seconds ≡ seconds }
{
    match Offset::from_seconds(seconds) {
        Ok(offset) => offset,
        Err(_) => unreachable!(),
    }
}

// The moment at which a clock of that offset shows this date and time.
#[tactic(auto, unfolding(jiff_core::specs::DateTime::civil_nanos))]
fn moment_at(date: Date, time: Time, offset: Offset) -> Option<Moment>
    ensures { result ≡ spec.moment_at_offset (epoch_day date) (time_nanos time) offset.seconds }
{
    match offset.to_timestamp(DateTime::from_parts(date, time)) {
        Ok(timestamp) => Some(Moment::of(timestamp)),
        Err(_) => None,
    }
}

// The moment that a text is, where it is one in range.
#[tactic(auto, unfolding(crate::specs::MomentTexts::moment_in))]
pub(crate) fn moment_in(text: &str) -> Option<Moment>
    ensures { result ≡ spec.moment_in text.now }
{
    let Some((date, rest)) = full_date(text.as_bytes()) else {
        return None;
    };
    let rest = past_letter(rest)?;
    let Some((time, rest)) = partial_time(rest) else {
        return None;
    };
    let seconds = offset_seconds(rest)?;
    moment_at(date, time, offset_of(seconds))
}
