// Times: a CAP time to seconds since 2000 began in UTC, from these the year, the day of the year, hour and minute, and back; the period of a header;
// and how a header writes both.
#![tactic(auto)]

ghost use Rattle.std.specs.Prelude.{◌≡◌, ◌+◌, ◌≤◌, ◌<◌, length};
ghost use Rattle.std.proofs.lemmas.List.Edits.{sets};
ghost use Rattle.std.specs.Int.Signed.{mag};
ghost use Rattle.clock.specs.Calendar.{leap, month_days, days_before, days_to};
ghost use Rattle.clock.specs.Time.{reads, date_tests, date_of, minutes_tests, minutes_of, second_tests, second_of, is_sign, zone_tests, signed, since2000, utc, span, in_span, time_of};
ghost use Rattle.clock.specs.Period.{period_of};
ghost use Rattle.clock.specs.Stamp.{year_day_of, stamp_of, instant_of};
ghost use Rattle.clock.specs.Written.{tttt, jjjhhmm};

// The seconds of 2000 to 2099.
pub const SPAN: u32 = 3155760000;

// A day in its year, the first being 1.
#[derive(Clone, Copy)]
pub struct YearDay {
    pub year: u32,
    pub day: u32,
}

// An instant in UTC, its seconds dropped.
#[derive(Clone, Copy)]
pub struct Stamp {
    pub year: u32,
    pub day: u32,
    pub hour: u32,
    pub minute: u32,
}

// ---- the calendar

pub fn is_leap(year: u32) -> bool
    ensures { result ≡ leap year }
{
    year % 4 == 0 && (year % 100 != 0 || year % 400 == 0)
}

const BEFORE: [u32; 13] = [0, 31, 59, 90, 120, 151, 181, 212, 243, 273, 304, 334, 365];

// The days of a year before a month; before the thirteenth, all of them.
fn days_before(leap: bool, month: u32) -> u32
    requires le_month { 1 ≤ month }
    requires month_bound { month ≤ 13 }
    ensures { result ≡ days_before leap month }
{
    let plain = BEFORE[(month - 1) as usize];
    if month > 2 && leap { plain + 1 } else { plain }
}

fn month_days(leap: bool, month: u32) -> u32
    requires le_month { 1 ≤ month }
    requires month_bound { month ≤ 12 }
    ensures { result ≡ month_days leap month }
{
    days_before(leap, month + 1) - days_before(leap, month)
}

// The days before a year.
fn days_to(year: u32) -> u32
    requires { year ≤ 9999 }
    ensures { result ≡ days_to year }
{
    year * 365 + year.div_ceil(4) + year.div_ceil(400) - year.div_ceil(100)
}

// ---- from a time to its instant

// `YYYY-MM-DD` at the start: the days before it.
fn date(t: &[u8; 25]) -> Option<u32>
    ensures { result ≡ reads (date_tests t.now) (date_of t.now) }
{
    let year = octets::ranged(t, 0, 4, 0, 9999)?;
    if t[4] != b'-' {
        return None;
    }
    let month = octets::ranged(t, 5, 2, 1, 12)?;
    if t[7] != b'-' {
        return None;
    }
    let leap = is_leap(year);
    let day = octets::ranged(t, 8, 2, 1, month_days(leap, month))?;
    Some(days_to(year) + days_before(leap, month) + (day - 1))
}

// `hh:mm` from `at`, in minutes.
fn minutes(t: &[u8], at: usize, most: u32) -> Option<u32>
    requires at_in_bounds { at + 5 ≤ length t.now }
    requires most_bound { most ≤ 99 }
    ensures { result ≡ reads (minutes_tests t.now at most) (minutes_of t.now at) }
{
    let hours = octets::ranged(t, at, 2, 0, most)?;
    if t[at + 2] != b':' {
        return None;
    }
    let minutes = octets::ranged(t, at + 3, 2, 0, 59)?;
    Some(hours * 60 + minutes)
}

// `Thh:mm:ss` behind the date, in seconds of the day.
fn second(t: &[u8; 25]) -> Option<u32>
    ensures { result ≡ reads (second_tests t.now) (second_of t.now) }
{
    if t[10] != b'T' {
        return None;
    }
    let minute = minutes(t, 11, 23)?;
    if t[16] != b':' {
        return None;
    }
    let second = octets::ranged(t, 17, 2, 0, 59)?;
    Some(minute * 60 + second)
}

// `+` or `-`.
fn is_sign(b: u8) -> bool
    ensures { result ≡ is_sign b }
{
    matches!(b, b'+' | b'-')
}

// `+zh:zm` or `-zh:zm` at the end: the minutes behind the sign.
fn zone(t: &[u8; 25]) -> Option<u32>
    ensures { result ≡ reads (zone_tests t.now) (minutes_of t.now 20) }
{
    if !is_sign(t[19]) {
        return None;
    }
    minutes(t, 20, 14)
}

// Minutes behind a sign.
fn with_sign(sign: u8, m: u32) -> i64
    ensures { result ≡ signed sign m }
{
    let n = i64::from(m);
    if sign == b'-' { -n } else { n }
}

// Seconds since 2000 began, by the same clock; negative before.
fn since_2000(days: u32, second: u32) -> i64
    requires days_bound { days ≤ 4000000 }
    requires second_bound { second < 86400 }
    ensures { result ≡ since2000 days second }
{
    i64::from(days) * 86400 + i64::from(second) - 63113904000
}

// Local time less the signed offset.
fn to_utc(local: i64, minutes: i64) -> i64
    requires local_bound { mag local < 1000000000000 }
    requires minutes_bound { mag minutes < 1000 }
    ensures { result ≡ utc local minutes }
{
    local - minutes * 60
}

// An instant of 2000 to 2099, or none.
fn in_span(t: i64) -> Option<u32>
    ensures { result ≡ in_span t }
{
    let seconds = u32::try_from(t).ok()?;
    (seconds < SPAN).then_some(seconds)
}

// The instant of a time.
pub fn instant(t: &[u8]) -> Option<u32>
    ensures { result ≡ time_of t.now }
{
    let t = <&[u8; 25]>::try_from(t).ok()?;
    let days = date(t)?;
    let seconds = second(t)?;
    let behind = zone(t)?;
    let offset = with_sign(t[19], behind);
    in_span(to_utc(since_2000(days, seconds), offset))
}

// ---- the period

// The minutes of a header's period for so many seconds.
pub fn period(seconds: u32) -> u32
    ensures { result ≡ period_of seconds }
{
    if seconds <= 2700 {
        seconds.div_ceil(900) * 15
    } else {
        (seconds.div_ceil(1800) * 30).min(5970)
    }
}

// ---- from an instant

// The day that is d days after 2000 began: every fourth year has 366 days, the first too.
fn year_day(d: u32) -> YearDay
    requires { d < 36525 }
    ensures { result ≡ year_day_of d }
{
    let four = 2000 + d / 1461 * 4;
    let rest = d % 1461;
    if rest < 366 {
        return YearDay {
            year: four,
            day: rest + 1,
        };
    }
    let later = rest - 366;
    YearDay {
        year: four + 1 + later / 365,
        day: later % 365 + 1,
    }
}

pub fn stamp_of(t: u32) -> Stamp
    requires { t < span }
    ensures { result ≡ stamp_of t }
{
    let on = year_day(t / 86400);
    Stamp {
        year: on.year,
        day: on.day,
        hour: t % 86400 / 3600,
        minute: t % 3600 / 60,
    }
}

// The instant of a second of a day of a year.
pub fn instant_of(year: u32, day: u32, second: u32) -> u32
    requires { (2000 ≤ year) × (year ≤ 2099) × (1 ≤ day) × (day ≤ 366) × (second < 86400) }
    ensures { (result ≡ instant_of year day second) × (result < span + 86400) }
{
    (days_to(year) + (day - 1) - days_to(2000)) * 86400 + second
}

// ---- into a header

// Puts `TTTT` of a period in minutes.
pub fn put_tttt(out: &mut [u8], at: usize, minutes: u32)
    requires { at + 4 ≤ length out.old }
    ensures { out.new ≡ sets out.old at (tttt minutes) }
{
    octets::put_number(out, at, 2, minutes / 60);
    octets::put_number(out, at + 2, 2, minutes % 60);
}

// Puts `JJJHHMM`: three numbers, as `jjjhhmm` takes them of a stamp and of a body alike.
pub fn put_jjjhhmm(out: &mut [u8], at: usize, day: u32, hour: u32, minute: u32)
    requires { at + 7 ≤ length out.old }
    ensures { out.new ≡ sets out.old at (jjjhhmm day hour minute) }
{
    octets::put_number(out, at, 3, day);
    octets::put_number(out, at + 3, 2, hour);
    octets::put_number(out, at + 5, 2, minute);
}
