// The case lines `read` and `write`.
use crate::lines::{self, Answer, Buffer, LENT, ROOM};
use parts::Parts;
use std::fmt;
use std::fmt::Write;

// ---- read HEADER

fn put_parts(p: &Parts, out: &mut Answer) -> fmt::Result {
    let b = p.body;
    out.put(b" ");
    out.put(b.originator.code());
    out.put(b" ");
    out.put(&b.event);
    out.put(b" ");
    lines::put_locations(lines::front(&b.locations, b.count), out)?;
    write!(out, " {} {} {} {} ", b.period, b.day, b.hour, b.minute)?;
    out.put_hex(&p.station);
    Ok(())
}

pub(crate) fn read(asked: &[u8], out: &mut Answer) -> Option<()> {
    let mut room = [0u8; ROOM];
    let r = header::read_header(lines::unhex(asked, &mut room)?);
    write!(out, "{}", r.number).ok()?;
    if r.number != 0 {
        return write!(out, " - - - 0 0 0 0 -").ok();
    }
    put_parts(&r.parts, out).ok()
}

// ---- write ORG EVENT LOCATIONS PERIOD DAY HOUR MINUTE STATION CAP

// Text, which has a byte at least.
fn text(t: &[u8]) -> Option<&[u8]> {
    if t.is_empty() { None } else { Some(t) }
}

// The number that `header::write_asked` takes for an originator's word, and 0 for any other.
fn originator_number(t: &[u8]) -> u32 {
    match parts::originator_of(t, 0) {
        Some(originator) if t.len() == 3 => parts::originator_number(originator),
        _ => 0,
    }
}

// Codes of six bytes joined by commas, put one behind the other; none where t is nothing of the kind, or more than 32 of them.
fn codes(t: &[u8]) -> Option<Buffer<192>> {
    let mut codes = Buffer::new();
    for code in t.split(|b| *b == b',') {
        if code.len() != 6 || codes.is_full() {
            return None;
        }
        codes.put(code);
    }
    Some(codes)
}

pub(crate) fn write(asked: &[u8], out: &mut Answer) -> Option<()> {
    let mut room = [0u8; ROOM];
    let mut header = [0u8; LENT];
    let mut fields = asked.splitn(9, lines::is_space);
    let originator = originator_number(text(fields.next()?)?);
    let event = text(fields.next()?)?;
    let locations = codes(text(fields.next()?)?).unwrap_or_else(Buffer::new);
    let period = lines::decimal(fields.next()?)?;
    let day = lines::decimal(fields.next()?)?;
    let hour = lines::decimal(fields.next()?)?;
    let minute = lines::decimal(fields.next()?)?;
    let station = lines::unhex(fields.next()?, &mut room)?;
    let header = lines::lent(fields.next()?, &mut header)?;
    let w = header::write_asked(
        originator,
        event,
        locations.bytes(),
        period,
        day,
        hour,
        minute,
        station,
        header,
    );
    write!(out, "{} ", w.number).ok()?;
    out.put_hex(lines::front(header, w.len));
    Some(())
}
