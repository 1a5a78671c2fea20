// Text and audio, which a call gives in either mode: their lent outputs, and what it answers.
#![tactic(auto)]

ghost use Rattle.std.specs.Prelude.{◌≡◌, ◌≤◌, length};
ghost use Rattle.std.proofs.lemmas.List.Edits.{sets};
ghost use Rattle.outputs.specs.Outputs.{text_answer_of};
ghost use Rattle.outputs.specs.WorkingOutputs.{roomy_text, uri_in, UriFits, text_refused};

use reads::Audio;

// The room that every text fits, and the room that every uri fits.
pub const TEXT: usize = 7200;

pub const URI: usize = 1024;

// What a call answers that gives text and audio: the number and the field; audio (0 none, 1 mp3, 2 wav, 3 stream); how long uri
// and text are. The numbers are those that C is answered, and a refusal has zeros elsewhere: `text_answer_of` promises both.
#[derive(Drop)]
pub struct TextAudio {
    pub number: u32,
    pub field: u32,
    pub audio: u32,
    pub uri: usize,
    pub text: usize,
}

// Whether the outputs of text and uri have the lengths that are asked for.
pub fn is_roomy(text: usize, uri: usize) -> bool
    ensures { result ≡ roomy_text text uri }
{
    TEXT <= text && URI <= uri
}

// Puts the uri of the audio choice at the start of `out`, and says how long it is.
pub fn put_uri(s: &[u8], a: Audio, out: &mut [u8]) -> usize
    requires uri_fits { UriFits (uri_in s.now a) }
    requires in_bounds { 1024 ≤ length out.old }
    ensures value { result ≡ length (uri_in s.now a) }
    ensures out_after { out.new ≡ sets out.old 0 (uri_in s.now a) }
{
    if a.number == 0 {
        return 0;
    }
    values::copy(s, a.uri, URI, out, 0)
}

// An answer with nothing written.
pub fn answer_alone(number: u32, field: u32) -> TextAudio
    ensures { result ≡ text_answer_of (text_refused number field) }
{
    TextAudio {
        number,
        field,
        audio: 0,
        uri: 0,
        text: 0,
    }
}
