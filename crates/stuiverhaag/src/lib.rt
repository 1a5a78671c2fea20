// What the bench host calls from C: numbers and lent slices in, one number out. include/stuiverhaag.h declares the same.
#![tactic(auto)]

ghost use Rattle.std.specs.Prelude.{◌≡◌, ◌≤◌, length};
ghost use Rattle.std.proofs.lemmas.List.Edits.{sets};
ghost use Rattle.octets.specs.Bytes.{pick};
ghost use Rattle.parts.specs.WorkingAsked.{asked_parts};
ghost use Rattle.header.specs.Header.{read_of, write_of, write_bytes};
ghost use Rattle.outputs.specs.Outputs.{text_answer_of};
ghost use Rattle.canadian.specs.WorkingCanadian.{canadian_of};
ghost use Rattle.convert.specs.WorkingConvert.{header_call, text_call};
ghost use Rattle.convert.specs.Convert.{header_answer_of};
ghost use Rattle.board.specs.WorkingCalls.{hand_of};
ghost use Rattle.offers.specs.WorkingOffer.{message_offer};
ghost use Rattle.stuiverhaag.specs.Packed.{bit28, packed_text, NarrowText, packed_headed, NarrowHeaded, packed_body, NarrowBody, packed_read, packed_written, packed_offered, packed_handed};

use convert::Headed;
use outputs::TextAudio;
use parts::Body;

// What a bit counts. Numbers are packed by sums, as `packed_text` and its like say.
const BIT8: u64 = 1 << 8;

const BIT16: u64 = 1 << 16;

const BIT24: u64 = 1 << 24;

const BIT28: u64 = 1 << 28;

const BIT32: u64 = 1 << 32;

const BIT48: u64 = 1 << 48;

const BIT55: u64 = 1 << 55;

// ---- header and must-carry

fn pack_carry(carry: bool) -> u64
    ensures value { result ≡ pick carry bit28 0 }
    ensures upper_bound { result ≤ bit28 }
{
    if carry { BIT28 } else { 0 }
}

// By `as` where a usize is widened, which has no From.
fn pack_headed(c: Headed) -> u64
    requires { NarrowHeaded c }
    ensures { result ≡ packed_headed c }
{
    u64::from(c.number) + u64::from(c.field) * BIT8 + c.header as u64 * BIT16 + pack_carry(c.carry)
}

// Gives the header of a message from the start of `header`, and must-carry, or 2 to 14 and nothing written.
#[unsafe(no_mangle)]
pub extern "C" fn stuiverhaag_header(message: &[u8], station: &[u8], header: &mut [u8]) -> u64
    ensures value { result ≡ packed_headed (header_answer_of (header_call message.now station.now (length header.old))) }
    ensures header_after { header.new ≡ sets header.old 0 (header_call message.now station.now (length header.old)).given.header }
{
    pack_headed(convert::header(message, station, header))
}

// ---- text and audio

fn pack_text(t: TextAudio) -> u64
    requires { NarrowText t }
    ensures { result ≡ packed_text t }
{
    u64::from(t.number)
        + u64::from(t.field) * BIT8
        + u64::from(t.audio) * BIT24
        + t.uri as u64 * BIT32
        + t.text as u64 * BIT48
}

// Gives the text and the uri of a message, from the start of each output, or 2 to 14 and nothing written.
#[unsafe(no_mangle)]
pub extern "C" fn stuiverhaag_text(
    message: &[u8],
    station: &[u8],
    text: &mut [u8],
    uri: &mut [u8],
) -> u64
    ensures value { result ≡ packed_text (text_answer_of (text_call message.now station.now (length text.old) (length uri.old))) }
    ensures text_after { text.new ≡ sets text.old 0 (text_call message.now station.now (length text.old) (length uri.old)).given.text }
    ensures uri_after { uri.new ≡ sets uri.old 0 (text_call message.now station.now (length text.old) (length uri.old)).given.uri }
{
    pack_text(convert::text(message, station, text, uri))
}

// Gives the text and the uri of a message in the Canadian mode, from the start of each output, or 2, 4 to 9 and 18 and nothing written.
#[unsafe(no_mangle)]
pub extern "C" fn stuiverhaag_canadian(message: &[u8], text: &mut [u8], uri: &mut [u8]) -> u64
    ensures value { result ≡ packed_text (text_answer_of (canadian_of message.now (length text.old) (length uri.old))) }
    ensures text_after { text.new ≡ sets text.old 0 (canadian_of message.now (length text.old) (length uri.old)).given.text }
    ensures uri_after { uri.new ≡ sets uri.old 0 (canadian_of message.now (length text.old) (length uri.old)).given.uri }
{
    pack_text(canadian::convert(message, text, uri))
}

// ---- a header

// The parts of a body that are numbers.
fn pack_body(b: Body) -> u64
    requires { NarrowBody b }
    ensures { result ≡ packed_body b }
{
    u64::from(parts::originator_number(b.originator)) * BIT8
        + b.count as u64 * BIT16
        + u64::from(b.hour) * BIT24
        + u64::from(b.period) * BIT32
        + u64::from(b.minute) * BIT48
        + u64::from(b.day) * BIT55
}

// The parts of a header, or 17.
#[unsafe(no_mangle)]
pub extern "C" fn stuiverhaag_read_header(header: &[u8]) -> u64
    ensures { result ≡ packed_read (read_of header.now) }
{
    let r = header::read_header(header);
    if r.number != 0 {
        return u64::from(r.number);
    }
    pack_body(r.parts.body)
}

// Writes a header from the start of `out`: its length, or 2, 3 or 17 and nothing written.
#[unsafe(no_mangle)]
pub extern "C" fn stuiverhaag_write_header(
    originator: u32,
    event: &[u8],
    locations: &[u8],
    period: u32,
    day: u32,
    hour: u32,
    minute: u32,
    station: &[u8],
    out: &mut [u8],
) -> u64
    ensures value { result ≡ packed_written (write_of out.old (asked_parts originator event.now locations.now period day hour minute station.now)) }
    ensures out_after { out.new ≡ write_bytes out.old (asked_parts originator event.now locations.now period day hour minute station.now) }
{
    let w = header::write_asked(
        originator, event, locations, period, day, hour, minute, station, out,
    );
    u64::from(w.number) + w.len as u64 * BIT16
}

// ---- a board

// Offers a message: how many records were added, or 1 and 4 to 15 and nothing written.
#[unsafe(no_mangle)]
pub extern "C" fn stuiverhaag_offer(s: &mut [u8], message: &[u8]) -> u64
    ensures value { result ≡ packed_offered (message_offer s.old message.now).answer }
    ensures s_after { s.new ≡ (message_offer s.old message.now).bytes }
{
    let o = offers::offer(s, message);
    u64::from(o.number) + u64::from(o.field) * BIT8 + o.added as u64 * BIT16
}

// Hands out the first due header: the index of the smallest notice that makes it due, or 1, 16 or 15 and nothing written.
#[unsafe(no_mangle)]
pub extern "C" fn stuiverhaag_hand_out(s: &mut [u8]) -> u64
    ensures value { result ≡ packed_handed (hand_of s.old).answer }
    ensures s_after { s.new ≡ (hand_of s.old).bytes }
{
    let h = board::hand_out(s);
    u64::from(h.number) + h.index as u64 * BIT16
}
