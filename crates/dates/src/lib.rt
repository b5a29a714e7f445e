// Dates: as the number that a call takes for today, as eight digits of text, as the nine characters that are printed, as the
// eight bytes of a header; and the window of an expiry.
#![tactic(auto)]

ghost use Rattle.std.specs.Prelude.{◌≡◌, ◌≤◌, length};
ghost use Rattle.dates.specs.Calendar.{leap, days_in, exists};
ghost use Rattle.dates.specs.Date.{is_date, date_of, in_window};
ghost use Rattle.dates.specs.Moment.{is_moment};
ghost use Rattle.dates.specs.Pairs.{two_digits, year_of};
ghost use Rattle.dates.specs.Printed.{month_number, is_printed_date};

// The months that the calendar's rule names.
const JANUARY: u64 = 1;

const FEBRUARY: u64 = 2;

const AUGUST: u64 = 8;

const DECEMBER: u64 = 12;

// Every fourth year is a leap year, of the hundreds only every fourth.
fn is_leap(year: u64) -> bool
    ensures { result ≡ leap year }
{
    (year % 4 == 0) & (year % 100 != 0) | (year % 400 == 0)
}

// How many days a month of a year has; none, if there is no such month. The calendar's rule: the months alternate between 31
// and 30 days, starting again with 31 in August; only February has 28, in a leap year 29.
#[tactic(auto, using(crate::proofs::Calendars::days))]
fn days_in(year: u64, month: u64) -> u64
    ensures { result ≡ days_in year month }
{
    if month == FEBRUARY {
        return if is_leap(year) { 29 } else { 28 };
    }
    if (JANUARY <= month) & (month <= DECEMBER) {
        // From January, and again from August, every second month has 31 days.
        let first = if month < AUGUST { JANUARY } else { AUGUST };
        return if (month - first) % 2 == 0 { 31 } else { 30 };
    }
    0
}

// "year 0001 to 9999, Gregorian". A month that there is not has no days, so no day of it exists.
#[tactic(auto, using(crate::proofs::Calendars::existence))]
pub fn exists(year: u64, month: u64, day: u64) -> bool
    ensures { result ≡ exists year month day }
{
    (1 <= year) & (year <= 9999) & (1 <= day) & (day <= days_in(year, month))
}

// "Calls take today as a number": is it a date's?
#[tactic(auto, unfolding(crate::specs::Date::is_date))]
pub fn is_date(n: u64) -> bool
    ensures { result ≡ is_date n }
{
    exists(n / 10000, n / 100 % 100, n % 100)
}

// Two ASCII digits as a number; none, where a byte is no digit.
#[tactic(auto, unfolding(crate::specs::Pairs::two_digits))]
fn two_digits(a: u8, b: u8) -> Option<u64>
    ensures { result ≡ two_digits a b }
{
    if a.is_ascii_digit() & b.is_ascii_digit() {
        return Some(u64::from(a - b'0') * 10 + u64::from(b - b'0'));
    }
    None
}

// The year, with which every date's text begins.
#[tactic(auto, using(crate::proofs::Texts::most))]
fn year_of(s: &[u8]) -> Option<u64>
    requires { 4 ≤ length s.now }
    ensures { result ≡ year_of s.now }
{
    Some(two_digits(s[0], s[1])? * 100 + two_digits(s[2], s[3])?)
}

// "Eight ASCII digits": the number of the date that they are.
#[tactic(auto, using(crate::proofs::Texts::ways_out))]
pub fn date_of(s: &[u8]) -> Option<u64>
    ensures { result ≡ date_of s.now }
{
    if s.len() != 8 {
        return None;
    }
    let year = year_of(s)?;
    let month = two_digits(s[4], s[5])?;
    let day = two_digits(s[6], s[7])?;
    if !exists(year, month, day) {
        return None;
    }
    Some(year * 10000 + month * 100 + day)
}

// The month that three capitals name.
#[tactic(auto, unfolding(crate::specs::Printed::month_number))]
fn month_number(a: u8, b: u8, c: u8) -> Option<u64>
    ensures { result ≡ month_number a b c }
{
    match &[a, b, c] {
        b"JAN" => Some(1),
        b"FEB" => Some(2),
        b"MAR" => Some(3),
        b"APR" => Some(4),
        b"MAY" => Some(5),
        b"JUN" => Some(6),
        b"JUL" => Some(7),
        b"AUG" => Some(8),
        b"SEP" => Some(9),
        b"OCT" => Some(10),
        b"NOV" => Some(11),
        b"DEC" => Some(12),
        _ => None,
    }
}

// "four digits, three capitals JAN to DEC, two digits, a real date"
#[tactic(auto, unfolding(crate::specs::Printed::is_printed_date))]
pub fn is_printed_date(s: &[u8]) -> bool
    ensures { result ≡ is_printed_date s.now }
{
    if s.len() != 9 {
        return false;
    }
    let (Some(year), Some(month), Some(day)) = (
        year_of(s),
        month_number(s[4], s[5], s[6]),
        two_digits(s[7], s[8]),
    ) else {
        return false;
    };
    exists(year, month, day)
}

// "t <= e <= t + 60,000 (six years)"; the sum is not formed, since it need not fit.
pub fn in_window(today: u64, expiry: u64) -> bool
    ensures { result ≡ in_window today expiry }
{
    if expiry < today {
        return false;
    }
    expiry - today <= 60000
}

// "century, year (each 0 to 99), month, day (a date as above), hour to 23, minute and second to 59 as bytes, then 5A"
#[tactic(auto, unfolding(crate::specs::Moment::is_moment))]
pub fn is_moment(s: &[u8]) -> bool
    ensures { result ≡ is_moment s.now }
{
    if s.len() != 8 {
        return false;
    }
    let century = u64::from(s[0]);
    let year = u64::from(s[1]);
    (century <= 99)
        & (year <= 99)
        & exists(century * 100 + year, u64::from(s[2]), u64::from(s[3]))
        & (s[4] <= 23)
        & (s[5] <= 59)
        & (s[6] <= 59)
        & (s[7] == 0x5A)
}
