// The lines that the program prints for a message. They are bytes and have no Display: each is promised (`lines_of`), and nothing is allocated.
#![tactic(auto)]

ghost use Rattle.std.specs.Prelude.{◌≡◌, ◌+◌, ◌≤◌, length};
ghost use Rattle.std.proofs.lemmas.List.Edits.{sets};
ghost use Rattle.sentence.specs.WorkingWriter.{Wrote};
ghost use Rattle.report.specs.Lines.{decimal, or_none, kind_then_uri, audio_words, number_line, value_line, audio_line, carry_line, alert_lines, lines_of};
ghost use Rattle.report.specs.Program.{program_of};

use sentence::Writer;

// The room that all lines fit.
pub const ROOM: usize = 8704;

// ---- words

fn put_decimal(writer: &mut Writer<'_>, v: u32)
    requires { writer.old.at + length (decimal v) ≤ length writer.old.out.now }
    ensures { Wrote writer.old writer.new (decimal v) }
{
    if v < 10 {
        writer.put_number(1, v);
    } else {
        writer.put_number(2, v);
    }
}

fn or_none(v: &[u8]) -> &[u8]
    ensures { result.now ≡ or_none v.now }
{
    if v.is_empty() { b"none" } else { v }
}

fn put_spaced(writer: &mut Writer<'_>, kind: &[u8], uri: &[u8])
    requires { writer.old.at + length (kind_then_uri kind.now uri.now) ≤ length writer.old.out.now }
    ensures { Wrote writer.old writer.new (kind_then_uri kind.now uri.now) }
{
    writer.put(kind);
    writer.put(b" ");
    writer.put(uri);
}

fn put_audio_words(writer: &mut Writer<'_>, audio: u32, uri: &[u8])
    requires { writer.old.at + length (audio_words audio uri.now) ≤ length writer.old.out.now }
    ensures { Wrote writer.old writer.new (audio_words audio uri.now) }
{
    match audio {
        1 => put_spaced(writer, b"mp3", uri),
        2 => put_spaced(writer, b"wav", uri),
        3 => put_spaced(writer, b"stream", uri),
        _ => writer.put(b"none"),
    }
}

// ---- lines

fn put_number(writer: &mut Writer<'_>, number: u32, field: u32)
    requires { writer.old.at + length (number_line number field) ≤ length writer.old.out.now }
    ensures { Wrote writer.old writer.new (number_line number field) }
{
    writer.put(b"number ");
    put_decimal(writer, number);
    writer.put(b" field ");
    put_decimal(writer, field);
    writer.put(b"\n");
}

fn put_value(writer: &mut Writer<'_>, name: &[u8], v: &[u8])
    requires { writer.old.at + length (value_line name.now v.now) ≤ length writer.old.out.now }
    ensures { Wrote writer.old writer.new (value_line name.now v.now) }
{
    writer.put(name);
    writer.put(or_none(v));
    writer.put(b"\n");
}

fn put_audio(writer: &mut Writer<'_>, audio: u32, uri: &[u8])
    requires { writer.old.at + length (audio_line audio uri.now) ≤ length writer.old.out.now }
    ensures { Wrote writer.old writer.new (audio_line audio uri.now) }
{
    writer.put(b"audio ");
    put_audio_words(writer, audio, uri);
    writer.put(b"\n");
}

fn put_carry(writer: &mut Writer<'_>, carry: bool)
    requires { writer.old.at + length (carry_line carry) ≤ length writer.old.out.now }
    ensures { Wrote writer.old writer.new (carry_line carry) }
{
    if carry {
        writer.put(b"carry yes\n");
    } else {
        writer.put(b"carry no\n");
    }
}

fn put_alert(
    writer: &mut Writer<'_>,
    header: &[u8],
    audio: u32,
    uri: &[u8],
    carry: bool,
    text: &[u8],
)
    requires { writer.old.at + length (alert_lines header.now audio uri.now carry text.now) ≤ length writer.old.out.now }
    ensures { Wrote writer.old writer.new (alert_lines header.now audio uri.now carry text.now) }
{
    put_value(writer, b"header ", header);
    put_audio(writer, audio, uri);
    put_carry(writer, carry);
    put_value(writer, b"text ", text);
}

// Puts the lines at the start of `out`, and says how long they are. The answers of both calls come one by one: the clauses name each.
pub fn put_lines(
    out: &mut [u8],
    number: u32,
    field: u32,
    header: &[u8],
    audio: u32,
    uri: &[u8],
    carry: bool,
    text: &[u8],
) -> usize
    requires { length (lines_of number field header.now audio uri.now carry text.now) ≤ length out.old }
    ensures value { result ≡ length (lines_of number field header.now audio uri.now carry text.now) }
    ensures out_after { out.new ≡ sets out.old 0 (lines_of number field header.now audio uri.now carry text.now) }
{
    let mut writer = Writer { out, at: 0 };
    put_number(&mut writer, number, field);
    if number != 0 {
        return writer.at;
    }
    put_alert(&mut writer, header, audio, uri, carry, text);
    writer.at
}

// Converts a message by both calls, and puts the lines that the program prints at the start of `out`, or nothing where it is shorter than ROOM.
pub fn program(message: &[u8], out: &mut [u8]) -> usize
    ensures value { result ≡ length (program_of (length out.old) message.now) }
    ensures out_after { out.new ≡ sets out.old 0 (program_of (length out.old) message.now) }
{
    if out.len() < ROOM {
        return 0;
    }
    let mut header = [0u8; header::MOST];
    let mut text = [0u8; outputs::TEXT];
    let mut uri = [0u8; outputs::URI];
    let headed = convert::header(message, b"BENCH/01", &mut header);
    let worded = convert::text(message, b"BENCH/01", &mut text, &mut uri);
    put_lines(
        out,
        headed.number,
        headed.field,
        &header[..headed.header],
        worded.audio,
        &uri[..worded.uri],
        headed.carry,
        &text[..worded.text],
    )
}
