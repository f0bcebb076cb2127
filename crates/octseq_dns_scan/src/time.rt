//! Times of RRSIG records: RFC 4034, 3.2.
ghost use Rattle.std.specs.Prelude.{◌≡◌, ℕ, ◌+◌, ◌-◌, ◌*◌, ◌%◌, ◌^◌, ◌<◌, ◌≤◌, List, IsNone, IfSome};
ghost use Rattle.std.specs.Option.{SomeIff};
ghost use Rattle.octseq_dns_scan.specs.Time.{is_leap_year, days_of_month, days_of_years, days_of_months, IsDay};
ghost use Rattle.octseq_dns_scan.specs.Time.{days_before, IsClock, seconds_before, IsMoment, seconds_of, IsTime};

use crate::number::{scan_digits, scan_ttl};

/// The number of digits of a date and a time of day.
const MOMENT_DIGITS: usize = 14;

/// The first year of a date.
const FIRST_YEAR: u64 = 1970;

/// A word is one time at most.
///
/// It does nothing. Calling it brings the law into the caller's proof.
pub fn one_time_of_a_word()
    ensures { (word : List ℕ) (time other : ℕ) → IsTime word time → IsTime word other → time ≡ other }
{}

/// Reads a time: a number up to 4,294,967,295 of at most ten digits, or fourteen digits `YYYYMMDDHHmmSS` of a date from
/// 1970 on and a time of day, in UTC. Returns the seconds after 1970-01-01T00:00:00Z modulo 2^32 (RFC 1982), or `None`
/// if the word is no time.
pub fn scan_time(word: &[u8]) -> Option<u32>
    ensures some { IfSome result (λ time. IsTime word.now time) }
    ensures none { IsNone result → (time : ℕ) → ¬ IsTime word.now time }
{
    if word.len() == MOMENT_DIGITS {
        return moment_seconds(scan_digits(word, 99_999_999_999_999)?);
    }
    scan_ttl(word)
}

/// Returns the seconds modulo 2^32 of a number whose digits are `YYYYMMDDHHmmSS`.
fn moment_seconds(number: u64) -> Option<u32>
    requires { number < 100000000000000 }
    ensures { SomeIff result (IsMoment number) (seconds_of number % 4294967296) }
{
    let days = day_number(number / 1_000_000)?;
    let seconds = second_of_day(number % 1_000_000)?;
    Some(((days * 86_400 + seconds) % 4_294_967_296) as u32)
}

/// Returns the days from 1970-01-01 to a date, a number whose digits are `YYYYMMDD`.
fn day_number(date: u64) -> Option<u64>
    requires { date < 100000000 }
    ensures days { SomeIff result (IsDay date) (days_before date) }
    ensures most { IfSome result (λ days. days < 2 ^ 23) }
{
    let (year, month, day) = (date / 10_000, date / 100 % 100, date % 100);
    if year < FIRST_YEAR || month < 1 || month > 12 {
        return None;
    }
    let leap = is_leap_year(year);
    if day < 1 || day > days_of_month(month, leap) {
        return None;
    }
    Some(days_before_year(year) + days_before_month(month, leap) + (day - 1))
}

/// Returns the seconds from midnight to a time of day, a number whose digits are `HHmmSS`.
fn second_of_day(clock: u64) -> Option<u64>
    requires { clock < 1000000 }
    ensures { SomeIff result (IsClock clock) (seconds_before clock) }
{
    let (hour, minute, second) = (clock / 10_000, clock / 100 % 100, clock % 100);
    if hour >= 24 || minute >= 60 || second >= 60 {
        return None;
    }
    Some(hour * 3_600 + minute * 60 + second)
}

fn is_leap_year(year: u64) -> bool
    ensures { result ≡ is_leap_year year }
{
    year % 4 == 0 && (year % 100 != 0 || year % 400 == 0)
}

/// Returns the number of days of a month.
fn days_of_month(month: u64, leap: bool) -> u64
    ensures days { result ≡ days_of_month leap month }
    ensures most { result ≤ 31 }
{
    match month {
        2 => { if leap { 29 } else { 28 } }
        4 | 6 | 9 | 11 => 30,
        _ => 31,
    }
}

/// Returns the days from 1970-01-01 to the first of January of a year.
fn days_before_year(year: u64) -> u64
    requires first { 1970 ≤ year }
    requires last { year < 10000 }
    ensures days { result ≡ days_of_years (year - 1970) }
    ensures most { result < 2 ^ 22 }
{
    let years = year - FIRST_YEAR;
    365 * years + (years + 1) / 4 + (years + 369) / 400 - (years + 69) / 100
}

/// Returns the days from the first of January to the first of a month.
fn days_before_month(month: u64, leap: bool) -> u64
    requires first { 1 ≤ month }
    requires last { month ≤ 12 }
    ensures days { result ≡ days_of_months leap (month - 1) }
    ensures most { result ≤ 372 }
{
    let mut days = 0;
    for earlier in 1..month {
        days += days_of_month(earlier, leap);
    }
    days
}
