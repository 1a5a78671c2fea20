// The parts of a header as a value: which parts a header has, and parts as a caller over numbers and bytes asks for them.
#![tactic(auto)]

ghost use Rattle.std.specs.Prelude.{◌≡◌, ◌+◌, ◌≤◌, length};
ghost use Rattle.std.specs.Option.{unwrap_or};
ghost use Rattle.octets.specs.Bytes.{part};
ghost use Rattle.parts.specs.Originator.{originator_bytes, originator_of, originator_number, numbered};
ghost use Rattle.parts.specs.Parts.{event_ok, locations_ok, is_period, times_ok, body_ok, is_station_byte, station_ok, no_body};
ghost use Rattle.parts.specs.WorkingAsked.{sixes_read, asked_body, asked_station, asked_parts};

#[derive(Clone, Copy, PartialEq, Eq)]
pub enum Originator {
    Pep,
    Eas,
    Wxr,
    Civ,
}

// The header through the dash after JJJHHMM; `locations` has zeros behind `count`, and `period` is in minutes. An array and a count, no Vec:
// nothing allocates, and `locations_ok`, `body_ok` and `body_bytes` are said of the two. Day, hour and minute are fields of their own: `body_ok`
// and `body_bytes` take each.
#[derive(Clone, Copy)]
pub struct Body {
    pub originator: Originator,
    pub event: [u8; 3],
    pub count: usize,
    pub locations: [u32; 31],
    pub period: u32,
    pub day: u32,
    pub hour: u32,
    pub minute: u32,
}

#[derive(Drop)]
pub struct Parts {
    pub body: Body,
    pub station: [u8; 8],
}

// ---- the originator

impl Originator {
    const ALL: [Originator; 4] = [
        Originator::Pep,
        Originator::Eas,
        Originator::Wxr,
        Originator::Civ,
    ];

    // Its three bytes.
    pub fn code(self) -> &'static [u8; 3]
        ensures { result.now ≡ originator_bytes self }
    {
        match self {
            Originator::Pep => b"PEP",
            Originator::Eas => b"EAS",
            Originator::Wxr => b"WXR",
            Originator::Civ => b"CIV",
        }
    }
}

// The originator that the three bytes from `at` name.
pub fn originator_of(s: &[u8], at: usize) -> Option<Originator>
    ensures { result ≡ originator_of (part s.now at 3) }
{
    Originator::ALL
        .iter()
        .find(|o| octets::stands_at(s, at, o.code()))
        .copied()
}

// The number that the C call has for it; clauses name the definition `originator_number`.
pub fn originator_number(o: Originator) -> u32
    ensures { result ≡ originator_number o }
{
    match o {
        Originator::Pep => 1,
        Originator::Eas => 2,
        Originator::Wxr => 3,
        Originator::Civ => 4,
    }
}

pub fn originator_numbered(n: u32) -> Option<Originator>
    ensures { result ≡ numbered n }
{
    match n {
        1 => Some(Originator::Pep),
        2 => Some(Originator::Eas),
        3 => Some(Originator::Wxr),
        4 => Some(Originator::Civ),
        _ => None,
    }
}

// ---- which parts a header has

pub fn event_ok(t: &[u8]) -> bool
    ensures { result ≡ event_ok t.now }
{
    t.len() == 3 && t.iter().all(|b| octets::is_capital(*b))
}

pub fn is_station(b: u8) -> bool
    ensures { result ≡ is_station_byte b }
{
    octets::is_between(32, 126, b) && b != b'-' && b != b'+'
}

pub fn station_ok(t: &[u8]) -> bool
    ensures { result ≡ station_ok t.now }
{
    t.len() == 8 && t.iter().all(|b| is_station(*b))
}

pub fn locations_ok(list: &[u32], n: usize) -> bool
    ensures { result ≡ locations_ok n list.now }
{
    1 <= n
        && n <= 31
        && list.len() == 31
        && list[..n].iter().all(|v| *v < 1000000)
        && list[n..].iter().all(|v| *v == 0)
}

pub fn is_period(m: u32) -> bool
    ensures { result ≡ is_period m }
{
    if m <= 45 {
        15 <= m && m % 15 == 0
    } else {
        60 <= m && m <= 5970 && m % 30 == 0
    }
}

// Four numbers, as the C call and the definition `times_ok` have them.
pub fn times_ok(period: u32, day: u32, hour: u32, minute: u32) -> bool
    ensures { result ≡ times_ok period day hour minute }
{
    is_period(period) && 1 <= day && day <= 366 && hour <= 23 && minute <= 59
}

pub fn body_ok(b: Body) -> bool
    ensures { result ≡ body_ok b }
{
    event_ok(&b.event)
        && locations_ok(&b.locations, b.count)
        && times_ok(b.period, b.day, b.hour, b.minute)
}

// ---- parts as they are asked

// The N bytes from `at`.
pub fn bytes_at<const N: usize>(s: &[u8], at: usize) -> [u8; N]
    requires { at + N ≤ length s.now }
    ensures { result ≡ part s.now at N }
{
    let mut bytes = [0u8; N];
    bytes.copy_from_slice(&s[at..at + N]);
    bytes
}

pub fn no_body() -> Body
    ensures { result ≡ no_body }
{
    Body {
        originator: Originator::Pep,
        event: [0u8; 3],
        count: 0,
        locations: [0u32; 31],
        period: 0,
        day: 0,
        hour: 0,
        minute: 0,
    }
}

// Locations of six digits each, one behind the other, with zeros behind them. By index: a proof knows nothing of what is written through an
// iterator.
fn asked_locations(s: &[u8]) -> Option<[u32; 31]>
    ensures { result ≡ sixes_read s.now }
{
    let n = s.len() / 6;
    if 186 < s.len() || s.len() != 6 * n {
        return None;
    }
    let mut list = [0u32; 31];
    for k in 0..n {
        list[k] = octets::number(s, 6 * k, 6)?;
    }
    Some(list)
}

// As many parameters as the C call has.
fn asked_body(
    originator: u32,
    event: &[u8],
    locations: &[u8],
    period: u32,
    day: u32,
    hour: u32,
    minute: u32,
) -> Option<Body>
    ensures { unwrap_or result no_body ≡ asked_body originator event.now locations.now period day hour minute }
{
    let originator = originator_numbered(originator)?;
    let event = <[u8; 3]>::try_from(event).ok()?;
    let count = locations.len() / 6;
    let locations = asked_locations(locations)?;
    Some(Body {
        originator,
        event,
        count,
        locations,
        period,
        day,
        hour,
        minute,
    })
}

fn asked_station(t: &[u8]) -> [u8; 8]
    ensures { result ≡ asked_station t.now }
{
    <[u8; 8]>::try_from(t).unwrap_or([0u8; 8])
}

// As many parameters as the C call has.
pub fn asked_parts(
    originator: u32,
    event: &[u8],
    locations: &[u8],
    period: u32,
    day: u32,
    hour: u32,
    minute: u32,
    station: &[u8],
) -> Parts
    ensures { result ≡ asked_parts originator event.now locations.now period day hour minute station.now }
{
    let asked = asked_body(originator, event, locations, period, day, hour, minute);
    Parts {
        body: asked.unwrap_or(no_body()),
        station: asked_station(station),
    }
}
