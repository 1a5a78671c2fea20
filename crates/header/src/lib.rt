// The EAS header, `ZCZC-ORG-EEE-PSSCCC+TTTT-JJJHHMM-LLLLLLLL-`: its parts read from bytes, and written as bytes.
#![tactic(auto)]

ghost use Rattle.std.specs.Prelude.{◌≡◌, ◌+◌, ◌*◌, ◌≤◌, length};
ghost use Rattle.std.proofs.lemmas.List.Edits.{sets};
ghost use Rattle.parts.specs.WorkingAsked.{asked_parts};
ghost use Rattle.header.specs.Body.{locations_bytes, times_bytes, body_bytes, head_read, locations_read, period_read, time_read, length_form, body_read, body_refusal, read_body_of};
ghost use Rattle.header.specs.Header.{header_bytes, parts_read, refusal, read_of, write_of, write_bytes};

use parts::{Body, Originator, Parts};

// The most bytes that a header has: those of 31 locations.
pub const MOST: usize = 252;

// The day of the year, hour and minute of a header.
#[derive(Clone, Copy)]
struct Time {
    day: u32,
    hour: u32,
    minute: u32,
}

// Number 0 and the body, or 17 and zeros: `read_body_of` promises zeros beside the number, which an option has not.
#[derive(Drop)]
pub struct BodyRead {
    pub number: u32,
    pub body: Body,
}

// Number 0 and the parts, or 17 and zeros, as the C call answers and `read_of` promises.
#[derive(Drop)]
pub struct Read {
    pub number: u32,
    pub parts: Parts,
}

// Number 0 and how many bytes were written, or 2, 3 or 17 and 0, as the C call answers and `write_of` promises.
#[derive(Drop)]
pub struct Written {
    pub number: u32,
    pub len: usize,
}

// ---- reading

// `ZCZC-ORG-EEE`: the originator, if these bytes are right.
fn head_of(s: &[u8]) -> Option<Originator>
    requires { 12 ≤ length s.now }
    ensures { result ≡ head_read s.now }
{
    if !octets::stands_at(s, 0, b"ZCZC-") {
        return None;
    }
    let originator = parts::originator_of(s, 5)?;
    if s[8] != b'-' || !parts::event_ok(&s[9..12]) {
        return None;
    }
    Some(originator)
}

// The n locations from `at`, each a dash and six digits. By index: a proof knows nothing of what is written through an iterator.
fn locations_of(s: &[u8], at: usize, n: usize) -> Option<[u32; 31]>
    requires n_in_bounds { at + 7 * n ≤ length s.now }
    requires n_bound { n ≤ 31 }
    ensures { result ≡ locations_read n s.now at }
{
    let mut list = [0u32; 31];
    for k in 0..n {
        let dash = at + 7 * k;
        if s[dash] != b'-' {
            return None;
        }
        list[k] = octets::number(s, dash + 1, 6)?;
    }
    Some(list)
}

// `+TTTT` at the start of t, in minutes.
fn period_of(t: &[u8]) -> Option<u32>
    requires { 14 ≤ length t.now }
    ensures { result ≡ period_read t.now }
{
    if t[0] != b'+' {
        return None;
    }
    let hours = octets::ranged(t, 1, 2, 0, 99)?;
    let minutes = octets::ranged(t, 3, 2, 0, 59)?;
    let period = hours * 60 + minutes;
    parts::is_period(period).then_some(period)
}

// `-JJJHHMM-` from index 5 of t.
fn time_of(t: &[u8]) -> Option<Time>
    requires { 14 ≤ length t.now }
    ensures { result ≡ time_read t.now }
{
    if t[5] != b'-' {
        return None;
    }
    let day = octets::ranged(t, 6, 3, 1, 366)?;
    let hour = octets::ranged(t, 9, 2, 0, 23)?;
    let minute = octets::ranged(t, 11, 2, 0, 59)?;
    if t[13] != b'-' {
        return None;
    }
    Some(Time { day, hour, minute })
}

// Whether a body can have n bytes.
fn length_ok(n: usize) -> bool
    ensures { result ≡ length_form n }
{
    if n < 33 {
        return false;
    }
    let count = (n - 26) / 7;
    count <= 31 && n == 26 + 7 * count
}

// The body that s is.
fn body_in(s: &[u8]) -> Option<Body>
    ensures { result ≡ body_read s.now }
{
    if !length_ok(s.len()) {
        return None;
    }
    let count = (s.len() - 26) / 7;
    let originator = head_of(s)?;
    let locations = locations_of(s, 12, count)?;
    let at = 12 + 7 * count;
    let times = &s[at..at + 14];
    let period = period_of(times)?;
    let time = time_of(times)?;
    Some(Body {
        originator,
        event: parts::bytes_at(s, 9),
        count,
        locations,
        period,
        day: time.day,
        hour: time.hour,
        minute: time.minute,
    })
}

pub fn refused_body() -> BodyRead
    ensures { result ≡ body_refusal }
{
    BodyRead {
        number: 17,
        body: parts::no_body(),
    }
}

// The body that s is, or 17.
pub fn read_body(s: &[u8]) -> BodyRead
    ensures { result ≡ read_body_of s.now }
{
    match body_in(s) {
        Some(body) => BodyRead { number: 0, body },
        None => refused_body(),
    }
}

// The parts of the header that s is.
fn parts_of(s: &[u8]) -> Option<Parts>
    ensures { result ≡ parts_read s.now }
{
    if s.len() < 9 {
        return None;
    }
    let at = s.len() - 9;
    let body = body_in(&s[..at])?;
    if !parts::station_ok(&s[at..at + 8]) {
        return None;
    }
    if s[at + 8] != b'-' {
        return None;
    }
    Some(Parts {
        body,
        station: parts::bytes_at(s, at),
    })
}

fn refused() -> Read
    ensures { result ≡ refusal }
{
    Read {
        number: 17,
        parts: Parts {
            body: parts::no_body(),
            station: [0u8; 8],
        },
    }
}

// The parts of a header, or 17.
pub fn read_header(s: &[u8]) -> Read
    ensures { result ≡ read_of s.now }
{
    match parts_of(s) {
        Some(parts) => Read { number: 0, parts },
        None => refused(),
    }
}

// ---- writing

// An output and a place in it go side by side: docs/PROMISES.md names what `put_body` asks of the two, and `sets` takes them apart.

// The locations, each after a dash.
fn put_locations(out: &mut [u8], at: usize, locations: &[u32])
    requires { at + 7 * length locations.now ≤ length out.old }
    ensures { out.new ≡ sets out.old at (locations_bytes locations.now) }
{
    for (k, location) in locations.iter().enumerate() {
        let dash = at + 7 * k;
        octets::put_byte(out, dash, b'-');
        octets::put_number(out, dash + 1, 6, *location);
    }
}

// `+TTTT-JJJHHMM-`
fn put_times(out: &mut [u8], at: usize, b: &Body)
    requires { at + 14 ≤ length out.old }
    ensures { out.new ≡ sets out.old at (times_bytes b.now.period b.now.day b.now.hour b.now.minute) }
{
    octets::put_byte(out, at, b'+');
    clock::put_tttt(out, at + 1, b.period);
    octets::put_byte(out, at + 5, b'-');
    clock::put_jjjhhmm(out, at + 6, b.day, b.hour, b.minute);
    octets::put_byte(out, at + 13, b'-');
}

// The header through the dash after JJJHHMM, from `at`. The count is asked for here, and no invariant of Body: parts that no header has are a Body, too.
pub fn put_body(out: &mut [u8], at: usize, b: Body)
    requires count_bound { b.count ≤ 31 }
    requires count_in_bounds { at + (26 + 7 * b.count) ≤ length out.old }
    ensures { out.new ≡ sets out.old at (body_bytes b) }
{
    octets::put_bytes(out, at, b"ZCZC-");
    octets::put_bytes(out, at + 5, b.originator.code());
    octets::put_byte(out, at + 8, b'-');
    octets::put_bytes(out, at + 9, &b.event);
    put_locations(out, at + 12, &b.locations[..b.count]);
    put_times(out, at + 12 + 7 * b.count, &b);
}

pub fn put_header(out: &mut [u8], p: Parts)
    requires count_bound { p.body.count ≤ 31 }
    requires count_in_bounds { 35 + 7 * p.body.count ≤ length out.old }
    ensures { out.new ≡ sets out.old 0 (header_bytes p) }
{
    let at = 26 + 7 * p.body.count;
    put_body(out, 0, p.body);
    octets::put_bytes(out, at, &p.station);
    octets::put_byte(out, at + 8, b'-');
}

// Writes the header of p, or answers 2, 3 or 17 and touches nothing.
pub fn write_header(out: &mut [u8], p: Parts) -> Written
    ensures value { result ≡ write_of out.old p }
    ensures out_after { out.new ≡ write_bytes out.old p }
{
    if out.len() < MOST {
        return Written { number: 2, len: 0 };
    }
    if !parts::station_ok(&p.station) {
        return Written { number: 3, len: 0 };
    }
    if !parts::body_ok(p.body) {
        return Written { number: 17, len: 0 };
    }
    let len = 35 + 7 * p.body.count;
    put_header(out, p);
    Written { number: 0, len }
}

// The same for parts as numbers and bytes, as the C call hands them over: originator 1 PEP, 2 EAS, 3 WXR, 4 CIV; locations six digits for each.
pub fn write_asked(
    originator: u32,
    event: &[u8],
    locations: &[u8],
    period: u32,
    day: u32,
    hour: u32,
    minute: u32,
    station: &[u8],
    out: &mut [u8],
) -> Written
    ensures value { result ≡ write_of out.old (asked_parts originator event.now locations.now period day hour minute station.now) }
    ensures out_after { out.new ≡ write_bytes out.old (asked_parts originator event.now locations.now period day hour minute station.now) }
{
    let p = parts::asked_parts(
        originator, event, locations, period, day, hour, minute, station,
    );
    write_header(out, p)
}
