// The date of a second, written as `2024-02-29T06:00:00Z`. The year comes from one division by the mean year of 365.2425 days,
// which is at most one year short; the months are counted.
#![tactic(auto)]

ghost use Rattle.std.specs.Prelude.{◌≡◌, ◌∷◌, ◌≤◌, ◌<◌};
ghost use Rattle.protocol.specs.Calendar.{is_leap, month_length, year_of, month_of, date_of, padded, day_text, clock_text, date_text};
ghost use Rattle.protocol.specs.Written.{Room, Wrote};
ghost use Rattle.calendar.specs.Years.{days_in};

use protocol::{Date, Time, YearDay};

// A day by its number, from 1 January 1970 on; at most that of the latest time.
#[derive(Clone, Copy)]
struct Day {
    number: u64,
    ghost in_range: { number ≤ 12725829 },
}

// The days of the first years of our era, counted from year 1.
#[tactic(auto, unfolding(crate::specs::Years::days_in))]
fn days_in(years: u64) -> u64
    requires { years ≤ 40000 }
    ensures { result ≡ days_in years }
{
    365 * years + years / 4 + years / 400 - years / 100
}

// The year of a day. 719,162 days lie before 1 January 1970.
#[tactic(auto, using(crate::proofs::Years::this_before, crate::proofs::Years::this_year, crate::proofs::Years::next_year))]
fn year_of(day: Day) -> YearDay
    ensures { result ≡ year_of day.number }
{
    let n = day.number + 719162;
    let years = 400 * n / 146097;
    let next = days_in(years + 1);
    if n < next {
        return YearDay {
            year: years + 1,
            day: n - days_in(years),
        };
    }
    YearDay {
        year: years + 2,
        day: n - next,
    }
}

#[tactic(auto, unfolding(protocol::specs::Calendar::is_leap))]
fn is_leap(year: u64) -> bool
    ensures { result ≡ is_leap year }
{
    year % 4 == 0 && (year % 100 != 0 || year % 400 == 0)
}

#[tactic(auto, using(crate::proofs::Months::long_february, crate::proofs::Months::short_february, crate::proofs::Months::short_month, crate::proofs::Months::long_month))]
fn month_length(year: u64, month: u64) -> u64
    ensures { result ≡ month_length year month }
{
    match month {
        2 if is_leap(year) => 29,
        2 => 28,
        4 | 6 | 9 | 11 => 30,
        _ => 31,
    }
}

// The date of a day of a year.
// A `find` or a fold over the months would have to carry the days left beside the month, and be no plainer.
#[tactic(auto, using(crate::proofs::Months::count_start, crate::proofs::Months::count_found, crate::proofs::Months::count_on, crate::proofs::Months::count_december))]
fn month_of(year: u64, day: u64) -> Date
    requires { day < 366 }
    ensures { result ≡ month_of year day }
{
    let mut left = day;
    for month in 1..12 {
        let length = month_length(year, month);
        if left < length {
            return Date {
                year,
                month,
                day: left + 1,
            };
        }
        left -= length;
    }
    Date {
        year,
        month: 12,
        day: left + 1,
    }
}

// The date of a day.
#[tactic(auto, using(crate::proofs::Months::day_fits, crate::proofs::Months::date_is))]
fn date_of(day: Day) -> Date
    ensures { result ≡ date_of day.number }
{
    let y = year_of(day);
    month_of(y.year, y.day)
}

// A mark and a number of two digits.
// By hand and by no format, for the reason at `text::put_hex`; and `text::put_decimal` writes no leading zero.
fn put_two(out: &mut [u8], at: usize, mark: u8, v: u64) -> usize
    requires room { Room out.old at (mark ∷ padded 2 v) }
    requires v_bound { v < 100 }
    ensures { Wrote out.old at out.new result (mark ∷ padded 2 v) }
{
    let three = [mark, b'0' + (v / 10) as u8, b'0' + (v % 10) as u8];
    text::put_bytes(out, at, &three)
}

// `2024-02-29`
fn put_day(out: &mut [u8], at: usize, day: Day) -> usize
    requires { Room out.old at (day_text (date_of day.number)) }
    ensures { Wrote out.old at out.new result (day_text (date_of day.number)) }
{
    let d = date_of(day);
    let a1 = text::put_decimal(out, at, d.year);
    let a2 = put_two(out, a1, b'-', d.month);
    put_two(out, a2, b'-', d.day)
}

// `T06:00:00Z`
fn put_clock(out: &mut [u8], at: usize, s: u64) -> usize
    requires room { Room out.old at (clock_text s) }
    requires s_bound { s < 86400 }
    ensures { Wrote out.old at out.new result (clock_text s) }
{
    let a1 = put_two(out, at, b'T', s / 3600);
    let a2 = put_two(out, a1, b':', s / 60 % 60);
    let a3 = put_two(out, a2, b':', s % 60);
    text::put_bytes(out, a3, b"Z")
}

pub fn put_date(out: &mut [u8], at: usize, time: Time) -> usize
    requires { Room out.old at (date_text time.seconds) }
    ensures { Wrote out.old at out.new result (date_text time.seconds) }
{
    let day = Day {
        number: time.seconds / 86400,
    };
    let to = put_day(out, at, day);
    put_clock(out, to, time.seconds % 86400)
}
