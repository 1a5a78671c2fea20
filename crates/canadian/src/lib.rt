// The Canadian mode: the text and the audio choice of a message, written into lent outputs. It gives no header, and no Cancel is quiet.
#![tactic(auto)]

ghost use Rattle.std.specs.Prelude.{◌≡◌, ◌≤◌, length};
ghost use Rattle.std.proofs.lemmas.List.Edits.{sets};
ghost use Rattle.characters.specs.Utf8.{utf8};
ghost use Rattle.values.specs.Value.{value_at};
ghost use Rattle.message.specs.WorkingMessage.{info_in};
ghost use Rattle.outputs.specs.Outputs.{text_answer_of};
ghost use Rattle.outputs.specs.WorkingOutputs.{uri_in, UriFits};
ghost use Rattle.canadian.specs.WorkingCanadian.{text_given, words_given, canadian_of};

use message::Message;
use outputs::TextAudio;

// Puts the text at the start of `out`, and says how many bytes it has. No value is tested for being empty: what was put of it tells.
fn put_text(
    s: &[u8],
    broadcast: usize,
    description: usize,
    instruction: usize,
    out: &mut [u8],
) -> usize
    requires { 7200 ≤ length out.old }
    ensures value { result ≡ length (utf8 (text_given (value_at s.now broadcast) (value_at s.now description) (value_at s.now instruction))) }
    ensures out_after { out.new ≡ sets out.old 0 (utf8 (text_given (value_at s.now broadcast) (value_at s.now description) (value_at s.now instruction))) }
{
    let whole = wording::put_first(s, broadcast, out);
    if whole.count != 0 {
        return whole.at;
    }
    let n = wording::put_first(s, description, out);
    if n.count == 0 {
        return 0;
    }
    wording::put_plain(s, instruction, out, n).at
}

// Writes what a message gives that passed 4 to 9. Where it has no text nothing is written, and the number is 18.
fn write(s: &[u8], m: Message, text: &mut [u8], uri: &mut [u8]) -> TextAudio
    requires in_bounds { 7200 ≤ length text.old }
    requires in_bounds_2 { 1024 ≤ length uri.old }
    requires uri_fits { UriFits (uri_in s.now (info_in m).audio) }
    ensures value { result ≡ text_answer_of (words_given s.now m) }
    ensures text_after { text.new ≡ sets text.old 0 (words_given s.now m).given.text }
    ensures uri_after { uri.new ≡ sets uri.old 0 (words_given s.now m).given.uri }
{
    let info = m.alert.info;
    let long = put_text(
        s,
        info.parameters.leaf[reads::BROADCAST_TEXT].at,
        info.leaf[reads::DESCRIPTION].at,
        info.leaf[reads::INSTRUCTION].at,
        text,
    );
    if long == 0 {
        return outputs::answer_alone(18, m.field);
    }
    TextAudio {
        number: 0,
        field: m.field,
        audio: info.audio.number,
        uri: outputs::put_uri(s, info.audio, uri),
        text: long,
    }
}

// Converts a message, as `convert::text` does without a station, a quiet Cancel or a header: numbers 2, 4 to 9 and 18, and the text and the uri
// from the start of each output, or nothing. Not one function with it: what the two share stands in crate outputs.
pub fn convert(message: &[u8], text: &mut [u8], uri: &mut [u8]) -> TextAudio
    ensures value { result ≡ text_answer_of (canadian_of message.now (length text.old) (length uri.old)) }
    ensures text_after { text.new ≡ sets text.old 0 (canadian_of message.now (length text.old) (length uri.old)).given.text }
    ensures uri_after { uri.new ≡ sets uri.old 0 (canadian_of message.now (length text.old) (length uri.old)).given.uri }
{
    if !outputs::is_roomy(text.len(), uri.len()) {
        return outputs::answer_alone(2, 0);
    }
    let m = message::read(message);
    if m.number != 0 {
        return outputs::answer_alone(m.number, m.field);
    }
    write(message, m, text, uri)
}
