//! A moment as a date and a time of day in UTC, as RFC 3339 writes them: `2026-11-30T14:02:40Z` (`specs/Moments.antt`).
//! Days are counted from the first of 1970, the days of a year from 0. The last second of 9999 stands for later ones.
//! Called by `lines` alone.
ghost use Rattle.std.specs.Prelude.{◌≡◌, ◌<◌, ◌≤◌, ◌++◌, codes, OnOk};
ghost use Rattle.fts_log.specs.Moments.{leap_days_before, days_before, year_of, days_before_month, month_of, two_digits, date_text, time_text, day_text, since_1970, moment_text};

use fts_tables::Memory;

/// The last second of the year 9999.
const LAST_SECOND: u64 = 253_402_300_799;

/// The days of a year without a leap day before each month, from 1, and before the end.
const BEFORE_MONTH: [u64; 14] = [
    0, 0, 31, 59, 90, 120, 151, 181, 212, 243, 273, 304, 334, 365,
];

/// The leap days of the years before one, from year 1 on.
fn leap_days_before(year: u64) -> u64
    requires year { 1 ≤ year }
    ensures { result ≡ leap_days_before year }
{
    let years = year - 1;
    years / 4 - years / 100 + years / 400
}

/// The days from the first of 1970 to the first of a year.
#[tactic(auto, unfolding(crate::specs::Moments::days_before))]
fn days_before(year: u64) -> u64
    requires from { 1970 ≤ year }
    requires to { year ≤ 10000 }
    ensures days { result ≡ days_before year }
    ensures few { result ≤ 5000000 }
{
    365 * (year - 1970) + leap_days_before(year).saturating_sub(477)
}

/// The year of a day.
fn year_of(day: u64) -> u64
    ensures year { result ≡ year_of day }
    ensures from { 1970 ≤ result }
    ensures to { result ≤ 9999 }
{
    for year in 1970..9999 {
        if day < days_before(year + 1) {
            return year;
        }
    }
    9999
}

/// The days of a year before a month, where it has so many leap days.
#[tactic(auto, unfolding(crate::specs::Moments::days_before_month))]
fn days_before_month(leap: u64, month: u64) -> u64
    requires month { month ≤ 12 }
    requires leap { leap ≤ 5000000 }
    ensures { result ≡ days_before_month leap month }
{
    let first = BEFORE_MONTH[month as usize];
    if month > 2 { first + leap } else { first }
}

/// The month of a day of a year.
fn month_of(leap: u64, day: u64) -> u64
    requires leap { leap ≤ 5000000 }
    ensures month { result ≡ month_of leap day }
    ensures to { result ≤ 12 }
{
    for month in 1..12 {
        if day < days_before_month(leap, month + 1) {
            return month;
        }
    }
    12
}

/// The last two digits of a number.
fn two_digits(number: u64) -> [u8; 2]
    ensures { result ≡ two_digits number }
{
    [b'0' + (number / 10 % 10) as u8, b'0' + (number % 10) as u8]
}

/// A date.
fn put_date(line: &mut Vec<u8>, year: u64, month: u64, day: u64) -> Result<(), Memory>
    ensures { OnOk result (line.new.items ≡ line.old.items ++ date_text year month day) }
{
    let [a, b] = two_digits(year / 100);
    let [c, d] = two_digits(year);
    let [e, f] = two_digits(month);
    let [g, h] = two_digits(day);
    line.extend_from_slice(&[a, b, c, d, b'-', e, f, b'-', g, h])?;
    Ok(())
}

/// A time of day, with what stands round it.
fn put_time(line: &mut Vec<u8>, second: u64) -> Result<(), Memory>
    ensures { OnOk result (line.new.items ≡ line.old.items ++ (codes "T" ++ time_text second ++ codes "Z")) }
{
    let [a, b] = two_digits(second / 3600);
    let [c, d] = two_digits(second / 60 % 60);
    let [e, f] = two_digits(second % 60);
    line.extend_from_slice(&[b'T', a, b, b':', c, d, b':', e, f, b'Z'])?;
    Ok(())
}

/// The date of a day of a year, which has so many leap days.
#[tactic(auto, unfolding(crate::specs::Moments::day_text))]
fn put_day(line: &mut Vec<u8>, year: u64, leap: u64, day: u64) -> Result<(), Memory>
    requires leap { leap ≤ 5000000 }
    requires day { day < 1000000000 }
    ensures { OnOk result (line.new.items ≡ line.old.items ++ day_text year leap day) }
{
    let month = month_of(leap, day);
    let before = days_before_month(leap, month);
    put_date(line, year, month, day.saturating_sub(before) + 1)
}

/// The date of a day since 1970.
#[tactic(auto, unfolding(crate::specs::Moments::since_1970))]
fn put_since_1970(line: &mut Vec<u8>, day: u64) -> Result<(), Memory>
    requires day { day < 1000000000 }
    ensures { OnOk result (line.new.items ≡ line.old.items ++ since_1970 day) }
{
    let year = year_of(day);
    let first = days_before(year);
    let leap = days_before(year + 1)
        .saturating_sub(first)
        .saturating_sub(365);
    put_day(line, year, leap, day.saturating_sub(first))
}

/// A moment in seconds since 1970.
#[tactic(auto, unfolding(crate::specs::Moments::moment_text))]
pub(crate) fn put_moment(line: &mut Vec<u8>, moment: u64) -> Result<(), Memory>
    ensures { OnOk result (line.new.items ≡ line.old.items ++ moment_text moment) }
{
    let second = moment.min(LAST_SECOND);
    put_since_1970(line, second / 86400)?;
    put_time(line, second % 86400)
}
