// The pieces of a message: names, comments, references, runs of text, and what stands next in an element. A message and a place stand side by side in each
// function: the definitions take them so, and a struct of both would be taken apart in each.
#![tactic(auto)]

ghost use Rattle.std.specs.Prelude.{◌≡◌, ℕ, Bool, true, Option, None, ◌+◌, ◌<◌, ◌≤◌, length};
ghost use Rattle.octets.specs.Bytes.{pick, byte_at, part, is_space};
ghost use Rattle.octets.specs.Scan.{past, scan_by};
ghost use Rattle.characters.specs.Utf8.{width_at, through};
ghost use Rattle.pieces.specs.Classes.{is_start, is_named, figure_of, is_figure};
ghost use Rattle.pieces.specs.WorkingClasses.{is_run, is_comment_byte, Runs};
ghost use Rattle.pieces.specs.Walk.{walk_at};
ghost use Rattle.pieces.specs.WorkingSteps.{Forward, Follows, Tests, Inside, Widths};
ghost use Rattle.pieces.specs.Pieces.{plain_at, short, name_at, in_note, note_at, entity, worded_at, numeral_from, number_at, ref_at, char_at, in_text, tag_at, piece_at};

// A step of a walk: on to a place, done at one, or stuck.
#[derive(Drop)]
pub enum Step {
    Go(usize),
    Stop(usize),
    Stuck,
}

// Goes by steps from `at` on: where they are done, or None where one is stuck. By places, and no iterator: each step tells where the next one begins.
pub fn walk<F: Fn(usize) -> Step>(s: &[u8], at: usize, step: F) -> Option<usize>
    requires callable { F.IsAlwaysCallable step }
    requires forward { Forward s.now (F.post step) }
    ensures { (f : ℕ → Step) → Follows (F.post step) f → result ≡ walk_at f s.now at }
{
    let mut i = at;
    loop {
        match step(i) {
            Step::Go(j) => i = j,
            Step::Stop(j) => return Some(j),
            Step::Stuck => return None,
        }
    }
}

// What stands next in an element.
#[derive(Drop)]
pub enum Piece {
    Text(usize),
    Note(usize),
    Child,
    Close,
    Bad,
}

// ---- classes

// A byte of a run of text: small letters first, which most of them are, and then downwards, between the three that are none.
pub fn is_run(b: u8) -> bool
    ensures { result ≡ is_run b }
{
    if b']' < b {
        return b < 128;
    }
    if b'<' < b {
        return b != b']';
    }
    if b'&' < b {
        return b != b'<';
    }
    b != b'&' && (31 < b || octets::is_space(b))
}

fn is_comment_byte(b: u8) -> bool
    ensures { result ≡ is_comment_byte b }
{
    b != b'-' && characters::is_single(b)
}

// Small letters first, which most bytes of a name are, and then downwards.
fn is_named(b: u8) -> bool
    ensures { result ≡ is_named b }
{
    if 96 < b {
        return b <= b'z';
    }
    if 64 < b {
        return b <= b'Z' || b == b'_';
    }
    if 47 < b {
        return b <= b'9';
    }
    b == b'-' || b == b'.'
}

fn is_start(b: u8) -> bool
    ensures { result ≡ is_start b }
{
    octets::is_letter(b) || b == b'_'
}

// ---- how far a test holds

// Where the bytes end that begin at `at` and for which `test` holds. By places, and no iterator: `at` may lie past the end, where a byte reads 0.
fn past<F: Fn(u8) -> bool>(s: &[u8], at: usize, test: F) -> usize
    requires callable { F.IsAlwaysCallable test }
    requires not_past_end { F.post test 0 true → ⊥ }
    ensures { (p : ℕ → Bool) → Tests (F.post test) p → result ≡ past p s.now at }
{
    let mut i = at;
    while test(octets::byte(s, i)) {
        i += 1;
    }
    i
}

// Goes on from `at` by what `width` answers, up to a place where that is 0. By places, and no iterator: how far each step goes is told by the step. A width and no
// Option: `Widths` has 0 where the test fails, and no character is 0 bytes wide.
pub fn through<F: Fn(usize) -> usize>(s: &[u8], at: usize, width: F) -> usize
    requires callable { F.IsAlwaysCallable width }
    requires inside { Inside s.now (F.post width) }
    ensures { (w : ℕ → ℕ) (p : ℕ → Bool) → Widths (F.post width) w p → result ≡ scan_by w p (length s.now) at }
{
    let mut i = at;
    loop {
        let n = width(i);
        if n == 0 {
            return i;
        }
        i += n;
    }
}

// ---- names

// Where the white space ends that begins at `at`.
pub fn spaces(s: &[u8], at: usize) -> usize
    ensures { result ≡ past is_space s.now at }
{
    past(s, at, |b| octets::is_space(b))
}

fn plain_name(s: &[u8], at: usize) -> usize
    ensures { result ≡ plain_at s.now at }
{
    if is_start(octets::byte(s, at)) {
        past(s, at, |b| is_named(b))
    } else {
        at
    }
}

fn at_most_64(at: usize, e: usize) -> Option<usize>
    requires { at ≤ e }
    ensures { result ≡ short at e }
{
    (e - at <= 64).then_some(e)
}

pub fn name(s: &[u8], at: usize) -> Option<usize>
    ensures { result ≡ name_at s.now at }
{
    let a = plain_name(s, at);
    if a == at {
        return None;
    }
    if octets::byte(s, a) != b':' {
        return at_most_64(at, a);
    }
    let b = plain_name(s, a + 1);
    if b == a + 1 { None } else { at_most_64(at, b) }
}

// ---- comments

// How many bytes the character at i has, if the comment goes on there; else 0. `in_text` is alike: one function for both would ask more, in its clauses, of the
// test and the word that it is given than it has lines.
fn in_note(s: &[u8], i: usize) -> usize
    ensures { result ≡ pick (in_note s.now i) (width_at s.now i) 0 }
{
    let b = octets::byte(s, i);
    if is_comment_byte(b) {
        return 1;
    }
    if 128 <= b {
        return characters::width_at(s, i);
    }
    if b != b'-' || octets::stands_at(s, i, b"--") {
        0
    } else {
        1
    }
}

pub fn note(s: &[u8], at: usize) -> Option<usize>
    ensures { result ≡ note_at s.now at }
{
    if !octets::stands_at(s, at, b"<!--") {
        return None;
    }
    let e = through(s, at + 4, |i| in_note(s, i));
    if octets::stands_at(s, e, b"-->") {
        Some(e + 3)
    } else {
        None
    }
}

// ---- references

// The character, if the reference `word` to it stands at `at`, and where that ends. Inlined, so that the word is compared as the literal that it is.
#[inline]
fn entity(s: &[u8], at: usize, word: &[u8], character: u8) -> Option<(u32, usize)>
    requires { 1 ≤ length word.now }
    ensures { result ≡ entity word.now character s.now at None }
{
    if octets::stands_at(s, at, word) {
        Some((u32::from(character), at + word.len()))
    } else {
        None
    }
}

// The byte behind the `&` tells which of the five it can be, so that few words are compared.
fn worded(s: &[u8], at: usize) -> Option<(u32, usize)>
    ensures { result ≡ worded_at s.now at }
{
    if octets::byte(s, at) != b'&' {
        return None;
    }
    match octets::byte(s, at + 1) {
        b'l' => entity(s, at, b"&lt;", b'<'),
        b'g' => entity(s, at, b"&gt;", b'>'),
        b'q' => entity(s, at, b"&quot;", b'"'),
        b'a' => entity(s, at, b"&amp;", b'&').or_else(|| entity(s, at, b"&apos;", b'\'')),
        _ => None,
    }
}

// What a digit counts, in either letter case. 16 and no Option where it is none: the definition figure_of says so, which no base reaches.
fn figure(b: u8) -> u8
    ensures { result ≡ figure_of b }
{
    match b {
        b'0'..=b'9' => b - b'0',
        b'A'..=b'F' => b - b'A' + 10,
        b'a'..=b'f' => b - b'a' + 10,
        _ => 16,
    }
}

fn numeral(digits: &[u8], base: u8) -> u32
    requires length_bound { length digits.now ≤ 7 }
    requires base_bound { base ≤ 16 }
    ensures { result ≡ numeral_from base 0 digits.now }
{
    let mut v: u32 = 0;
    for b in digits {
        v = v * u32::from(base) + u32::from(figure(*b));
    }
    v
}

fn number_reference(s: &[u8], at: usize, base: u8) -> Option<(u32, usize)>
    requires { base ≤ 16 }
    ensures { result ≡ number_at base s.now at }
{
    let e = past(s, at, |b| figure(b) < base);
    if e == at || 7 < e - at || octets::byte(s, e) != b';' {
        return None;
    }
    let v = numeral(&s[at..e], base);
    characters::is_legal(v).then_some((v, e + 1))
}

// Always inlined, for an answer goes through memory.
#[inline(always)]
pub fn reference(s: &[u8], at: usize) -> Option<(u32, usize)>
    ensures { result ≡ ref_at s.now at }
{
    if octets::stands_at(s, at, b"&#x") {
        return number_reference(s, at + 3, 16);
    }
    if octets::stands_at(s, at, b"&#") {
        return number_reference(s, at + 2, 10);
    }
    worded(s, at)
}

// A character of text or of a value, of more than one byte.
fn wide(s: &[u8], at: usize) -> Option<(u32, usize)>
    requires { 128 ≤ byte_at s.now at }
    ensures { result ≡ char_at s.now at }
{
    let c = characters::scalar(s, at);
    if c == 0 {
        None
    } else {
        Some((c, at + characters::bytes_of(c)))
    }
}

// A character of text or of a value. Inlined but for `other`, for an answer goes through memory, and most characters are one byte of a run.
#[inline]
pub fn character(s: &[u8], at: usize) -> Option<(u32, usize)>
    ensures { result ≡ char_at s.now at }
{
    let b = octets::byte(s, at);
    if is_run(b) || b == b']' {
        return Some((u32::from(b), at + 1));
    }
    if b < 128 && b != b'&' {
        return None;
    }
    other(s, at)
}

// A character that is a reference, or of more than one byte.
#[inline(never)]
fn other(s: &[u8], at: usize) -> Option<(u32, usize)>
    requires { byte_at s.now at < 128 → byte_at s.now at ≡ 38 }
    ensures { result ≡ char_at s.now at }
{
    if octets::byte(s, at) == b'&' {
        reference(s, at)
    } else {
        wide(s, at)
    }
}

// ---- what an element holds

// How many bytes the character at i has, if the text goes on there; else 0.
fn in_text(s: &[u8], i: usize) -> usize
    ensures { result ≡ pick (in_text s.now i) (width_at s.now i) 0 }
{
    let b = octets::byte(s, i);
    if is_run(b) {
        return 1;
    }
    if 128 <= b {
        return characters::width_at(s, i);
    }
    if b != b']' || octets::stands_at(s, i, b"]]>") {
        0
    } else {
        1
    }
}

// 0 only for a byte of a run of text.
fn stirs(b: u8) -> u8
    ensures b_value { result ≡ 0 → is_run b ≡ true }
    ensures upper_bound { result ≤ 5 }
{
    let x = octets::under(b, b' ')
        + octets::under(b'~', b)
        + octets::equals(b, b'&')
        + octets::equals(b, b'<')
        + octets::equals(b, b']');
    if octets::equals(b, b'\n') == 0 { x } else { 0 }
}

// How many bytes from `at` on stand in blocks of a run.
fn blocks(s: &[u8], at: usize) -> usize
    ensures { Runs s.now at result }
{
    octets::blocks(s.len().saturating_sub(at), |k| stirs(s[at + k]))
}

// White space before a tag is told by itself: nothing else stands between most elements. The loop goes by places, with no iterator: how far a turn goes is told
// by what stands there.
fn run(s: &[u8], at: usize) -> usize
    ensures { result ≡ through (in_text s.now) s.now at }
{
    let j = spaces(s, at);
    if octets::byte(s, j) == b'<' {
        return j;
    }
    let mut i = j;
    loop {
        i = past(s, i + blocks(s, i), |b| is_run(b));
        let n = in_text(s, i);
        if n == 0 {
            return i;
        }
        i += n;
    }
}

fn next_tag(s: &[u8], at: usize) -> Piece
    requires { at + 1 ≤ length s.now }
    ensures { result ≡ tag_at s.now at }
{
    match octets::byte(s, at + 1) {
        b'/' => Piece::Close,
        b'!' => note(s, at).map_or(Piece::Bad, |j| Piece::Note(j)),
        _ => Piece::Child,
    }
}

pub fn next_piece(s: &[u8], at: usize) -> Piece
    ensures { result ≡ piece_at s.now at }
{
    match octets::byte(s, at) {
        b'<' => next_tag(s, at),
        b'&' => reference(s, at).map_or(Piece::Bad, |(_, j)| Piece::Text(j)),
        _ => {
            let e = run(s, at);
            if e == at { Piece::Bad } else { Piece::Text(e) }
        }
    }
}
