// The conversion of a message, in two calls: one for its header and must-carry, one for its text and audio choice, written into lent outputs. Both judge the
// station and the message.
#![tactic(auto)]

ghost use Rattle.std.specs.Prelude.{◌≡◌, true, ◌≤◌, length};
ghost use Rattle.std.proofs.lemmas.List.Edits.{sets};
ghost use Rattle.characters.specs.Utf8.{utf8};
ghost use Rattle.parts.specs.Parts.{body_ok, station_ok};
ghost use Rattle.message.specs.WorkingMessage.{info_in};
ghost use Rattle.outputs.specs.Outputs.{alone, text_answer_of};
ghost use Rattle.outputs.specs.WorkingOutputs.{uri_in, UriFits};
ghost use Rattle.convert.specs.Convert.{no_header, header_answer_of};
ghost use Rattle.convert.specs.WorkingConvert.{station_header, text_in, header_by, text_by, judged_for, header_call, text_call};

use judgement::Judged;
use outputs::TextAudio;
use parts::{Body, Parts};

// What the call for header and must-carry answers: the number and the field; how long the header is; must-carry. The numbers are those that C is
// answered, and a refusal has zeros elsewhere: `header_answer_of` promises both.
#[derive(Drop)]
pub struct Headed {
    pub number: u32,
    pub field: u32,
    pub header: usize,
    pub carry: bool,
}

// What both calls ask of the station and of the message: numbers 3 to 14.
fn judge(message: &[u8], station: &[u8]) -> Judged
    ensures { result ≡ judged_for message.now station.now }
{
    if !parts::station_ok(station) {
        return judgement::refused(message.len(), 3);
    }
    judgement::judge(message)
}

// ---- header and must-carry

// An answer with nothing written: a refusal, or a quiet Cancel.
fn no_header(number: u32, field: u32) -> Headed
    ensures { result ≡ header_answer_of (alone no_header number field) }
{
    Headed {
        number,
        field,
        header: 0,
        carry: false,
    }
}

fn put_header(station: &[u8], b: Body, out: &mut [u8]) -> usize
    requires station_value { station_ok station.now ≡ true }
    requires b_value { body_ok b ≡ true }
    requires in_bounds { 252 ≤ length out.old }
    ensures value { result ≡ length (station_header station.now b) }
    ensures out_after { out.new ≡ sets out.old 0 (station_header station.now b) }
{
    let station = parts::bytes_at(station, 0);
    header::put_header(out, Parts { body: b, station });
    35 + 7 * b.count
}

// Writes the header of an alert, and says whether it must be carried.
fn write_header(s: &[u8], station: &[u8], j: Judged, out: &mut [u8]) -> Headed
    requires station_value { station_ok station.now ≡ true }
    requires body_value { body_ok j.body ≡ true }
    requires in_bounds { 252 ≤ length out.old }
    ensures value { result ≡ header_answer_of (record { number = 0; field = j.field; given = header_by s.now station.now j }) }
    ensures out_after { out.new ≡ sets out.old 0 (header_by s.now station.now j).header }
{
    let must_carry = j.message.alert.info.parameters.leaf[reads::MUST_CARRY];
    Headed {
        number: 0,
        field: j.field,
        header: put_header(station, j.body, out),
        carry: values::equal(s, must_carry.at, b"True"),
    }
}

// Gives the header and must-carry of a message: numbers 2 to 14, and the header from the start of `out`, or nothing.
pub fn header(message: &[u8], station: &[u8], out: &mut [u8]) -> Headed
    ensures value { result ≡ header_answer_of (header_call message.now station.now (length out.old)) }
    ensures out_after { out.new ≡ sets out.old 0 (header_call message.now station.now (length out.old)).given.header }
{
    if out.len() < header::MOST {
        return no_header(2, 0);
    }
    let j = judge(message, station);
    if j.number != 0 || j.quiet {
        return no_header(j.number, j.field);
    }
    write_header(message, station, j, out)
}

// ---- text and audio

// What is asked of the body is asked of each writer, and no struct has it: a judgement is a value that callers take apart, refused or not.
fn put_text(s: &[u8], j: Judged, out: &mut [u8]) -> usize
    requires in_bounds { 7200 ≤ length out.old }
    requires body_value { body_ok j.body ≡ true }
    ensures value { result ≡ length (utf8 (text_in s.now j)) }
    ensures out_after { out.new ≡ sets out.old 0 (utf8 (text_in s.now j)) }
{
    let info = j.message.alert.info;
    wording::write_text(
        s,
        j.body,
        info.parameters.leaf[reads::EAS_TEXT].at,
        info.leaf[reads::SENDER_NAME].at,
        info.leaf[reads::DESCRIPTION].at,
        info.leaf[reads::INSTRUCTION].at,
        out,
    )
}

// Writes the text of an alert and the uri of its audio choice.
fn write_text(s: &[u8], j: Judged, text: &mut [u8], uri: &mut [u8]) -> TextAudio
    requires body_value { body_ok j.body ≡ true }
    requires uri_fits { UriFits (uri_in s.now (info_in j.message).audio) }
    requires in_bounds { 7200 ≤ length text.old }
    requires in_bounds_2 { 1024 ≤ length uri.old }
    ensures value { result ≡ text_answer_of (record { number = 0; field = j.field; given = text_by s.now j }) }
    ensures text_after { text.new ≡ sets text.old 0 (text_by s.now j).text }
    ensures uri_after { uri.new ≡ sets uri.old 0 (text_by s.now j).uri }
{
    let audio = j.message.alert.info.audio;
    TextAudio {
        number: 0,
        field: j.field,
        audio: audio.number,
        uri: outputs::put_uri(s, audio, uri),
        text: put_text(s, j, text),
    }
}

// Gives the text and the audio choice of a message: numbers 2 to 14, and the text and the uri from the start of each output, or nothing.
pub fn text(message: &[u8], station: &[u8], text: &mut [u8], uri: &mut [u8]) -> TextAudio
    ensures value { result ≡ text_answer_of (text_call message.now station.now (length text.old) (length uri.old)) }
    ensures text_after { text.new ≡ sets text.old 0 (text_call message.now station.now (length text.old) (length uri.old)).given.text }
    ensures uri_after { uri.new ≡ sets uri.old 0 (text_call message.now station.now (length text.old) (length uri.old)).given.uri }
{
    if !outputs::is_roomy(text.len(), uri.len()) {
        return outputs::answer_alone(2, 0);
    }
    let j = judge(message, station);
    if j.number != 0 || j.quiet {
        return outputs::answer_alone(j.number, j.field);
    }
    write_text(message, j, text, uri)
}
