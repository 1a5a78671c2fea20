// The case lines `header`, `text`, `canadian` and `program`.
use crate::lines::{self, Answer, LENT, ROOM};
use outputs::TextAudio;
use std::fmt;
use std::fmt::Write;

// Each of the first three takes the lengths of its outputs before it makes an array, and makes the outputs when all else is read: a refused line fills no more
// than it has to.

// ---- header MESSAGE STATION HEADERCAP

fn header_with(message: &[u8], station: &[u8], cap: usize, out: &mut Answer) -> Option<()> {
    let mut header = [0u8; LENT];
    let header = header.get_mut(..cap)?;
    let h = convert::header(message, station, header);
    let carry = u8::from(h.carry);
    write!(out, "{} {} ", h.number, h.field).ok()?;
    out.put_hex(lines::front(header, h.header));
    write!(out, " {carry}").ok()
}

fn header_of(message: &[u8], station: &[u8], cap: usize, out: &mut Answer) -> Option<()> {
    let mut message_room = [0u8; ROOM];
    let mut station_room = [0u8; ROOM];
    let message = lines::unhex(message, &mut message_room)?;
    let station = lines::unhex(station, &mut station_room)?;
    header_with(message, station, cap, out)
}

pub(crate) fn header(asked: &[u8], out: &mut Answer) -> Option<()> {
    let mut fields = asked.splitn(3, lines::is_space);
    let message = fields.next()?;
    let station = fields.next()?;
    header_of(message, station, lines::cap(fields.next()?)?, out)
}

// ---- text MESSAGE STATION TEXTCAP URICAP

// What is answered, with what stands in the outputs.
fn put_worded(t: &TextAudio, text: &[u8], uri: &[u8], out: &mut Answer) -> fmt::Result {
    write!(out, "{} {} {} ", t.number, t.field, t.audio)?;
    out.put_hex(lines::front(uri, t.uri));
    out.put(b" ");
    out.put_hex(lines::front(text, t.text));
    Ok(())
}

fn text_with(message: &[u8], station: &[u8], caps: [usize; 2], out: &mut Answer) -> Option<()> {
    let mut text = [0u8; LENT];
    let mut uri = [0u8; LENT];
    let text = text.get_mut(..caps[0])?;
    let uri = uri.get_mut(..caps[1])?;
    let t = convert::text(message, station, text, uri);
    put_worded(&t, text, uri, out).ok()
}

fn text_of(message: &[u8], station: &[u8], caps: [usize; 2], out: &mut Answer) -> Option<()> {
    let mut message_room = [0u8; ROOM];
    let mut station_room = [0u8; ROOM];
    let message = lines::unhex(message, &mut message_room)?;
    let station = lines::unhex(station, &mut station_room)?;
    text_with(message, station, caps, out)
}

pub(crate) fn text(asked: &[u8], out: &mut Answer) -> Option<()> {
    let mut fields = asked.splitn(4, lines::is_space);
    let message = fields.next()?;
    let station = fields.next()?;
    let caps = [lines::cap(fields.next()?)?, lines::cap(fields.next()?)?];
    text_of(message, station, caps, out)
}

// ---- canadian MESSAGE TEXTCAP URICAP

fn canadian_with(message: &[u8], caps: [usize; 2], out: &mut Answer) -> Option<()> {
    let mut text = [0u8; LENT];
    let mut uri = [0u8; LENT];
    let text = text.get_mut(..caps[0])?;
    let uri = uri.get_mut(..caps[1])?;
    let t = canadian::convert(message, text, uri);
    put_worded(&t, text, uri, out).ok()
}

fn canadian_of(message: &[u8], caps: [usize; 2], out: &mut Answer) -> Option<()> {
    let mut message_room = [0u8; ROOM];
    canadian_with(lines::unhex(message, &mut message_room)?, caps, out)
}

pub(crate) fn canadian(asked: &[u8], out: &mut Answer) -> Option<()> {
    let mut fields = asked.splitn(3, lines::is_space);
    let message = fields.next()?;
    let caps = [lines::cap(fields.next()?)?, lines::cap(fields.next()?)?];
    canadian_of(message, caps, out)
}

// ---- program MESSAGE

pub(crate) fn program(asked: &[u8], out: &mut Answer) -> Option<()> {
    let mut message = [0u8; ROOM];
    let mut printed = [0u8; report::ROOM];
    let message = lines::unhex(asked, &mut message)?;
    let n = report::program(message, &mut printed);
    out.put_hex(lines::front(&printed, n));
    Some(())
}
