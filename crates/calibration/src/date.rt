// Dates: real ones of the Gregorian calendar in the years 2000 to 2099 (rule 19.4), as bytes of packed decimal (rule
// 19.3), and which of two is earlier (rule 19.6).
ghost use Rattle.std.specs.Prelude.{◌≡◌, true, ◌≤◌, ◌<◌};
ghost use Rattle.calibration.specs.Date.{days_in, is_real, precedes, is_decimal, two_digits, are_packed, date_in, date_of, date_reply, packed, date_bytes};

// Three numbers: a year, a month and a day. Where a date is taken, it is tested whether there is such a date. Dates
// compare by year, then by month, then by day (rule 19.6).
#[derive(Clone, Copy, PartialEq, Eq, PartialOrd, Ord)]
pub struct Date {
    pub year: u32,
    pub month: u32,
    pub day: u32,
}

// How many days a month has, in a year from 2000 to 2099: there, every fourth year is a leap year. Months 0 and above
// 12 have no days.
fn days_in(year: u32, month: u32) -> u32
    requires { (2000 ≤ year) × (year ≤ 2099) }
    ensures { result ≡ days_in year month }
{
    match month {
        2 if year % 4 == 0 => 29,
        2 => 28,
        4 | 6 | 9 | 11 => 30,
        1..=12 => 31,
        _ => 0,
    }
}

// Whether there is such a date (rule 19.4).
#[tactic(auto, unfolding(crate::specs::Date::is_real))]
pub(crate) fn is_real(date: Date) -> bool
    ensures { result ≡ is_real date }
{
    (2000..=2099).contains(&date.year) && (1..=days_in(date.year, date.month)).contains(&date.day)
}

// Whether a date is earlier than another one: by year, then by month, then by day (rule 19.6).
pub(crate) fn is_earlier(date: Date, other: Date) -> bool
    ensures { result ≡ precedes date other }
{
    date < other
}

// Whether both halves of a byte are decimal digits.
#[tactic(auto, unfolding(crate::specs::Date::is_decimal))]
fn is_decimal(b: u8) -> bool
    ensures { result ≡ is_decimal b }
{
    b / 16 <= 9 && b % 16 <= 9
}

// Whether four bytes are packed decimal.
fn are_packed(bytes: [u8; 4]) -> bool
    ensures { result ≡ are_packed bytes }
{
    bytes.iter().all(|b| is_decimal(*b))
}

// The number that the two digits of a byte say.
#[tactic(auto, unfolding(crate::specs::Date::two_digits))]
fn two_digits(b: u8) -> u32
    ensures { (result ≡ two_digits b) × (result < 256) }
{
    (b / 16 * 10 + b % 16) as u32
}

// The numbers that the digits of four bytes say: two bytes are the year, one the month, one the day (rule 19.3).
#[tactic(auto, unfolding(crate::specs::Date::date_in))]
fn date_in(bytes: [u8; 4]) -> Date
    ensures { result ≡ date_in bytes }
{
    let [century, year, month, day] = bytes;
    Date {
        year: two_digits(century) * 100 + two_digits(year),
        month: two_digits(month),
        day: two_digits(day),
    }
}

// The date that four bytes of packed decimal say, if there is such a date (rules 19.3 and 19.4).
#[tactic(auto, unfolding(crate::specs::Date::date_of))]
pub(crate) fn read_date(bytes: [u8; 4]) -> Option<Date>
    ensures { date_reply result ≡ date_of bytes }
{
    if !are_packed(bytes) {
        return None;
    }
    let date = date_in(bytes);
    is_real(date).then_some(date)
}

// A number below 100 as the two digits of a byte.
#[tactic(auto, unfolding(crate::specs::Date::packed))]
fn packed(n: u32) -> u8
    requires { n < 100 }
    ensures { result ≡ packed n }
{
    (n / 10 * 16 + n % 10) as u8
}

// The four bytes of a date.
pub(crate) fn date_bytes(date: Date) -> [u8; 4]
    requires { is_real date ≡ true }
    ensures { result ≡ date_bytes date }
{
    [
        packed(date.year / 100),
        packed(date.year % 100),
        packed(date.month),
        packed(date.day),
    ]
}
