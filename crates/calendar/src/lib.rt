// The calendar: a minute as a date and a time of day, and back.
#![tactic(auto)]

ghost use Rattle.std.specs.Prelude.{◌≡◌, true, ◌<◌};
ghost use Rattle.minutes.specs.Believed.Minutes.{E};
ghost use Rattle.calendar.specs.Believed.Calendar.{
  leap,
  year_length,
  month_length,
  year_start,
  month_start,
  exists,
  year_on,
  month_on,
  date_at,
  date_of,
  minute_of,
};
ghost use Rattle.refusal.specs.Believed.Ends.{outcome_of};

use refusal::Refusal;

mod tables; // the starts of the months

#[derive(Clone, Copy)]
pub struct Date {
    pub year: u32,
    pub month: u32,
    pub day: u32,
    // 0 is Monday
    pub weekday: u32,
    pub hour: u32,
    pub minute: u32,
}

// The rule of the Gregorian leap years.
fn is_leap(year: u32) -> bool
    ensures { result ≡ leap year }
{
    year % 4 == 0 && (year % 100 != 0 || year % 400 == 0)
}

// The day number of 1 January of year 2001 + k. Where 2401 would start the formula is a day short.
fn year_start(k: u32) -> u32
    requires { k < 400 }
    ensures { result ≡ year_start k }
{
    365 * k + k / 4 - k / 100
}

// The days of a year before the first of month 1 + j; the year's length where j is 12. From March on, a leap year's months start a day later.
fn month_start(year: u32, j: u32) -> u32
    requires { j < 13 }
    ensures { result ≡ month_start year j }
{
    let common = tables::common_start(j);
    let leap = common + (2 <= j) as u32;
    if is_leap(year) { leap } else { common }
}

// The days of month 1 to 12.
fn month_length(year: u32, month: u32) -> u32
    requires { (0 < month) × (month < 13) }
    ensures { result ≡ month_length year month }
{
    month_start(year, month) - month_start(year, month - 1)
}

// The days of a year.
fn year_length(year: u32) -> u32
    ensures { result ≡ year_length year }
{
    if is_leap(year) { 366 } else { 365 }
}

// A year, counted from 2001, and the day number of its 1 January.
#[derive(Clone, Copy)]
struct Year {
    k: u32,
    start: u32,
}

// The year of a day. No year has more than 366 days, so the guess is never late, and it is at most one year early.
// The year's own start is the next one's less its length.
fn year_on(day: u32) -> Year
    requires { day < year_start 400 }
    ensures { (result.k ≡ year_on day) × (result.start ≡ year_start result.k) }
{
    let k = day / 366;
    if 399 <= k {
        return Year {
            k,
            start: year_start(k),
        };
    }
    let next = year_start(k + 1);
    if next <= day {
        return Year {
            k: k + 1,
            start: next,
        };
    }
    Year {
        k,
        start: next - year_length(2001 + k),
    }
}

// The month of day n of a year, counted from 0. No month has more than 31 days, so the guess is never late, and it is at most one month early.
fn month_on(year: u32, n: u32) -> u32
    requires { n < month_start year 12 }
    ensures { result ≡ month_on year n }
{
    let j = n / 31;
    if month_start(year, j + 1) <= n {
        j + 1
    } else {
        j
    }
}

// The date and time of day of a minute before the end.
fn date_at(t: u32) -> Date
    requires { t < E }
    ensures { result ≡ date_at t }
{
    let day = t / 1440;
    let y = year_on(day);
    let year = 2001 + y.k;
    let n = day - y.start;
    let j = month_on(year, n);
    Date {
        year,
        month: 1 + j,
        day: 1 + (n - month_start(year, j)),
        weekday: day % 7,
        hour: t / 60 % 24,
        minute: t % 60,
    }
}

// The date and time of day of minute t, or 33.
pub fn date_of(t: u32) -> Result<Date, Refusal>
    ensures { outcome_of result ≡ date_of t }
{
    if minutes::END <= t {
        return Err(Refusal::NoSuchMinute);
    }
    Ok(date_at(t))
}

// Whether a date and time of day exists and is in 2001 to 2400.
fn is_date(year: u32, month: u32, day: u32, hour: u32, minute: u32) -> bool
    ensures { result ≡ exists year month day hour minute }
{
    (2001..=2400).contains(&year)
        && (1..=12).contains(&month)
        && (1..=month_length(year, month)).contains(&day)
        && hour < 24
        && minute < 60
}

// The minute of a date and time of day, or 50.
pub fn minute_of(year: u32, month: u32, day: u32, hour: u32, minute: u32) -> Result<u32, Refusal>
    ensures { outcome_of result ≡ minute_of year month day hour minute }
{
    if !is_date(year, month, day, hour, minute) {
        return Err(Refusal::NoSuchDate);
    }
    let days = year_start(year - 2001) + month_start(year, month - 1) + (day - 1);
    Ok(days * 1440 + hour * 60 + minute)
}
