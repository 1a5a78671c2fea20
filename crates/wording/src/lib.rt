// The alert text: the sentence, and behind it EASText, or the sender's phrase, description and instruction. A value is read at the place of
// the message where it begins. Its characters are counted as they are put, and each is put as its bytes in UTF-8.
#![tactic(auto)]

ghost use Rattle.std.specs.Prelude.{◌≡◌, true, ◌∷◌, ◌+◌, ◌-◌, ◌≤◌, ◌<◌, length, take, drop, ltb};
ghost use Rattle.std.proofs.lemmas.List.Edits.{sets};
ghost use Rattle.octets.specs.Bytes.{every};
ghost use Rattle.characters.specs.Utf8.{utf8};
ghost use Rattle.values.specs.Value.{value_at};
ghost use Rattle.values.specs.WorkingSteps.{rest_at};
ghost use Rattle.parts.specs.Parts.{body_ok};
ghost use Rattle.sentence.specs.Words.{sentence_of};
ghost use Rattle.wording.specs.Text.{most, plain, cut, after_space, phrase, last_parts, text_of};
ghost use Rattle.wording.specs.WorkingGiven.{given_to};
ghost use Rattle.wording.specs.WorkingPen.{start_pen, pen_after, Room, last_of};

use parts::Body;

// Where the next character goes: behind so many bytes, and behind so many characters. A pen goes by value beside the output and holds none:
// `put_first` and `put_plain` promise the pen and the output apart, and what `put_first` put is put over where it is nothing.
#[derive(Drop)]
pub struct Pen {
    pub at: usize,
    pub count: usize,
}

// The pen behind characters of a value, and where the value goes on.
#[derive(Drop)]
struct Along {
    pen: Pen,
    next: usize,
}

// The characters that a text may have.
const MOST: usize = 1800;

// The same, less the space before what is put last.
const BEFORE_LAST: usize = MOST - 1;

// Puts characters that are one byte each.
fn put_words(t: &[u8], out: &mut [u8], pen: Pen) -> Pen
    requires t_value { every (λ c. ltb c 128) t.now ≡ true }
    requires room { Room pen (length t.now) out.old }
    ensures value { result ≡ pen_after pen t.now }
    ensures out_after { out.new ≡ sets out.old pen.at (utf8 t.now) }
{
    octets::put_bytes(out, pen.at, t);
    Pen {
        at: pen.at + t.len(),
        count: pen.count + t.len(),
    }
}

// Puts the first 1,800 characters of the value at p at the start of `out`.
pub fn put_first(s: &[u8], p: usize, out: &mut [u8]) -> Pen
    requires { 7200 ≤ length out.old }
    ensures value { result ≡ pen_after start_pen (plain (value_at s.now p)) }
    ensures out_after { out.new ≡ sets out.old 0 (utf8 (plain (value_at s.now p))) }
{
    let spelled = values::spell(s, values::lead(s, p), MOST, out, 0);
    Pen {
        at: spelled.end,
        count: spelled.count,
    }
}

// Puts a space and the first `count` characters of the value at p.
fn put_spaced(s: &[u8], p: usize, count: usize, out: &mut [u8], pen: Pen) -> Along
    requires { Room pen (length (32 ∷ take count (value_at s.now p))) out.old }
    ensures pen_value { result.pen ≡ pen_after pen (32 ∷ take count (value_at s.now p)) }
    ensures next_value { rest_at s.now result.next ≡ drop count (value_at s.now p) }
    ensures out_after { out.new ≡ sets out.old pen.at (utf8 (32 ∷ take count (value_at s.now p))) }
{
    octets::put_byte(out, pen.at, b' ');
    let spelled = values::spell(s, values::lead(s, p), count, out, pen.at + 1);
    Along {
        pen: Pen {
            at: spelled.end,
            count: pen.count + 1 + spelled.count,
        },
        next: spelled.next,
    }
}

// Puts a space and the value at p behind the pen, if there is one, cut at 1,800 characters in all without a mark.
pub fn put_plain(s: &[u8], p: usize, out: &mut [u8], pen: Pen) -> Pen
    requires { Room pen 0 out.old }
    ensures value { result ≡ pen_after pen (take (most - pen.count) (after_space (value_at s.now p))) }
    ensures out_after { out.new ≡ sets out.old pen.at (utf8 (take (most - pen.count) (after_space (value_at s.now p)))) }
{
    if pen.count == MOST || values::is_empty(s, p) {
        return pen;
    }
    let left = BEFORE_LAST - pen.count;
    put_spaced(s, p, left, out, pen).pen
}

// Puts what a value has left from a place in it, or the mark if that is more than three characters.
fn put_last(s: &[u8], i: usize, out: &mut [u8], pen: Pen) -> Pen
    requires { Room pen (length (last_of (rest_at s.now i))) out.old }
    ensures value { result ≡ pen_after pen (last_of (rest_at s.now i)) }
    ensures out_after { out.new ≡ sets out.old pen.at (utf8 (last_of (rest_at s.now i))) }
{
    if values::exceeds(s, i, 3) {
        return put_words(b"***", out, pen);
    }
    let spelled = values::spell(s, i, 3, out, pen.at);
    Pen {
        at: spelled.end,
        count: pen.count + spelled.count,
    }
}

// Puts a space and the value at p, cut to its allotment, if there is one: all but the last three characters of that, and then the other three
// or the mark. Nothing is measured.
fn put_part(s: &[u8], p: usize, allotment: usize, out: &mut [u8], pen: Pen) -> Pen
    requires le_allotment { allotment < length (value_at s.now p) → 3 ≤ allotment }
    requires room { Room pen (length (after_space (cut allotment (value_at s.now p)))) out.old }
    ensures value { result ≡ pen_after pen (after_space (cut allotment (value_at s.now p))) }
    ensures out_after { out.new ≡ sets out.old pen.at (utf8 (after_space (cut allotment (value_at s.now p)))) }
{
    if values::is_empty(s, p) {
        return pen;
    }
    let front = put_spaced(s, p, allotment.saturating_sub(3), out, pen);
    put_last(s, front.next, out, front.pen)
}

// What description gets behind n characters where instruction has i.
fn given(n: usize, i: usize) -> usize
    requires { n ≤ 1798 }
    ensures { result ≡ given_to n i }
{
    let both = BEFORE_LAST - n - i.min(1);
    both.saturating_sub(i).max(both / 2)
}

// Puts description and instruction. Only instruction is measured beforehand: it gets what description leaves.
fn put_parts(s: &[u8], description: usize, instruction: usize, out: &mut [u8], pen: Pen) -> Pen
    requires { Room pen 8 out.old }
    ensures value { result ≡ pen_after pen (last_parts pen.count (value_at s.now description) (value_at s.now instruction)) }
    ensures out_after { out.new ≡ sets out.old pen.at (utf8 (last_parts pen.count (value_at s.now description) (value_at s.now instruction))) }
{
    let size = values::size(s, instruction);
    let allotment = given(pen.count, size);
    let described = put_part(s, description, allotment, out, pen);
    if size == 0 {
        return described;
    }
    let left = BEFORE_LAST - described.count;
    put_part(s, instruction, left, out, described)
}

// Puts a space and the sender's phrase, if there is one.
fn put_phrase(s: &[u8], sender: usize, out: &mut [u8], pen: Pen) -> Pen
    requires { Room pen 215 out.old }
    ensures value { result ≡ pen_after pen (after_space (phrase (value_at s.now sender))) }
    ensures out_after { out.new ≡ sets out.old pen.at (utf8 (after_space (phrase (value_at s.now sender)))) }
{
    if values::is_empty(s, sender) {
        return pen;
    }
    let opened = put_words(b" Message from", out, pen);
    let named = put_spaced(s, sender, 200, out, opened);
    put_words(b".", out, named.pen)
}

// Puts the text at the start of `out`, and says how many bytes it has. The places of four values come one by one: `text_of` takes the values so.
pub fn write_text(
    s: &[u8],
    b: Body,
    eas: usize,
    sender: usize,
    description: usize,
    instruction: usize,
    out: &mut [u8],
) -> usize
    requires in_bounds { 7200 ≤ length out.old }
    requires b_value { body_ok b ≡ true }
    ensures value { result ≡ length (utf8 (text_of (sentence_of b) (value_at s.now eas) (value_at s.now sender) (value_at s.now description) (value_at s.now instruction))) }
    ensures out_after { out.new ≡ sets out.old 0 (utf8 (text_of (sentence_of b) (value_at s.now eas) (value_at s.now sender) (value_at s.now description) (value_at s.now instruction))) }
{
    let n = sentence::put_sentence(out, 0, b);
    let behind_eas = put_plain(s, eas, out, Pen { at: n, count: n });
    if behind_eas.count != n {
        return behind_eas.at;
    }
    let behind_phrase = put_phrase(s, sender, out, behind_eas);
    put_parts(s, description, instruction, out, behind_phrase).at
}
