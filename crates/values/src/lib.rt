// The value of a leaf, read forward from the place where what it holds begins.
#![tactic(auto)]

ghost use Rattle.std.specs.Prelude.{◌≡◌, ℕ, Bool, [], map, ◌+◌, ◌≤◌, length, take, ltb};
ghost use Rattle.std.proofs.lemmas.List.Edits.{sets};
ghost use Rattle.octets.specs.Bytes.{same};
ghost use Rattle.characters.specs.Utf8.{utf8};
ghost use Rattle.values.specs.Chars.{met, next_at};
ghost use Rattle.values.specs.Value.{value_at, small};
ghost use Rattle.values.specs.WorkingSteps.{rest_at, lead_at, gap_at, first_at, step_at, Computes, TakesPrintable, size_if, low, is_printable, printable_size, six_digits, spelled_of};

// What stands at a place of a text: a character and where the next stands, a comment and where it ends, or the end.
#[derive(Drop)]
pub enum Next {
    Char(u32, usize),
    Over(usize),
    Last,
}

// What was put of a value: how many characters, where their bytes end, and where the value goes on.
#[derive(Drop)]
pub struct Spelled {
    pub count: usize,
    pub end: usize,
    pub next: usize,
}

// A character, where it stands, and where what follows it does.
#[derive(Drop)]
pub struct Found {
    pub c: u32,
    pub at: usize,
    pub next: usize,
}

// ---- reading forward

// A character as what stands next; where there is none, the end.
#[tactic(auto, unfolding(crate::specs::Chars::met))]
fn next_of(r: Option<(u32, usize)>) -> Next
    ensures { result ≡ met r }
{
    r.map_or(Next::Last, |(c, j)| Next::Char(c, j))
}

// A `<` ends the text unless it begins a comment, which its second byte tells at once. Always inlined, for an answer goes through memory.
#[inline(always)]
fn look(s: &[u8], at: usize) -> Next
    ensures { result ≡ next_at s.now at }
{
    let b = octets::byte(s, at);
    if b == b'&' {
        return next_of(pieces::reference(s, at));
    }
    if b != b'<' {
        return next_of(pieces::character(s, at));
    }
    if octets::byte(s, at + 1) != b'!' {
        return Next::Last;
    }
    pieces::note(s, at).map_or(Next::Last, Next::Over)
}

// The first character from `at` on that stops. Comments are passed over, as is every other character.
// Not an iterator's loop: how many bytes a turn takes, `look` says.
fn first<F: Fn(u32) -> bool>(s: &[u8], at: usize, stops: F) -> Option<Found>
    requires { F.IsAlwaysCallable stops }
    ensures { (p : ℕ → Bool) → Computes (F.post stops) p → result ≡ first_at p s.now at }
{
    let mut i = at;
    loop {
        match look(s, i) {
            Next::Char(c, j) => {
                if stops(c) {
                    return Some(Found { c, at: i, next: j });
                }
                i = j;
            }
            Next::Over(j) => i = j,
            Next::Last => return None,
        }
    }
}

// After white space: a space, if a character follows that is none.
fn gap(s: &[u8], at: usize) -> Option<(u32, usize)>
    ensures { result ≡ gap_at s.now at }
{
    let f = first(s, at, |c| !characters::is_space(c))?;
    Some((32, f.at))
}

// Where the first character of the value stands: here, at a mark; the message's end where there is none, as `lead_at` says, for there too a value is empty.
pub fn lead(s: &[u8], at: usize) -> usize
    ensures { result ≡ lead_at s.now at }
{
    if calm::is_mark(octets::byte(s, at)) {
        return at;
    }
    gap(s, at).map_or(s.len(), |(_, j)| j)
}

fn slow(s: &[u8], at: usize) -> Option<(u32, usize)>
    ensures { result ≡ step_at s.now at }
{
    let f = first(s, at, |_| true)?;
    if characters::is_space(f.c) {
        return gap(s, f.next);
    }
    Some((f.c, f.next))
}

// The next character of the value from a place in it: a mark, and white space before a mark, at once. Inlined, for an answer goes through memory: most characters
// are marks, and are then taken as they stand.
#[inline]
pub fn step(s: &[u8], at: usize) -> Option<(u32, usize)>
    ensures { result ≡ step_at s.now at }
{
    let b = octets::byte(s, at);
    if calm::is_mark(b) {
        return Some((u32::from(b), at + 1));
    }
    if calm::is_calm(s, at) {
        return Some((32, at + 1));
    }
    slow(s, at)
}

// ---- the value

pub fn is_empty(s: &[u8], at: usize) -> bool
    ensures { result ≡ same (value_at s.now at) [] }
{
    !calm::is_mark(octets::byte(s, at)) && gap(s, at).is_none()
}

// How many characters the value has if each fits, as those of 32 to 126 do; 0 if one does not.
// Not an iterator's loop: a turn takes a run of calm bytes, and then the character behind it, as wide as it may be.
fn size_if<F: Fn(u32) -> bool>(s: &[u8], at: usize, fits: F) -> usize
    requires { F.IsAlwaysCallable fits }
    ensures { (p : ℕ → Bool) → Computes (F.post fits) p → TakesPrintable p → result ≡ size_if p (value_at s.now at) }
{
    let mut i = lead(s, at);
    let mut k: usize = 0;
    loop {
        let n = calm::calm(s, i, s.len());
        let Some((c, j)) = slow(s, i + n) else {
            return k + n;
        };
        if !fits(c) {
            return 0;
        }
        i = j;
        k += n + 1;
    }
}

// How many characters the value has.
pub fn size(s: &[u8], at: usize) -> usize
    ensures { result ≡ length (value_at s.now at) }
{
    size_if(s, at, |_| true)
}

fn is_printable(c: u32) -> bool
    ensures { result ≡ is_printable c }
{
    matches!(c, 32..=126)
}

// How many characters the value has if each is of 32 to 126, and 0 if one is not: a number and no Option, as the definition `printable_size` has it.
pub fn printable_size(s: &[u8], at: usize) -> usize
    ensures { result ≡ printable_size (value_at s.now at) }
{
    size_if(s, at, is_printable)
}

// Whether the value, each character in a form of it, is w. A mark, which most characters are, is taken as it stands: what `slow` answers goes through memory.
fn matches<F: Fn(u32) -> u32>(s: &[u8], at: usize, w: &[u8], form: F) -> bool
    requires { F.IsAlwaysCallable form }
    ensures { (f : ℕ → ℕ) → Computes (F.post form) f → result ≡ same (map f (value_at s.now at)) w.now }
{
    let mut i = lead(s, at);
    for b in w {
        let x = octets::byte(s, i);
        if calm::is_mark(x) {
            if form(u32::from(x)) != u32::from(*b) {
                return false;
            }
            i += 1;
            continue;
        }
        let Some((c, j)) = slow(s, i) else {
            return false;
        };
        if form(c) != u32::from(*b) {
            return false;
        }
        i = j;
    }
    step(s, i).is_none()
}

// Whether the value is w.
pub fn equal(s: &[u8], at: usize, w: &[u8]) -> bool
    ensures { result ≡ same (value_at s.now at) w.now }
{
    matches(s, at, w, |c| c)
}

// A letter's small form.
fn small(c: u32) -> u32
    ensures { result ≡ small c }
{
    match c {
        65..=90 => c + 32,
        _ => c,
    }
}

// Whether the value in small letters is w.
pub fn equal_any_case(s: &[u8], at: usize, w: &[u8]) -> bool
    ensures { result ≡ same (map small (value_at s.now at)) w.now }
{
    matches(s, at, w, small)
}

// ---- a value that is asked for bytes

// A character as one byte keeps it: itself below 128, and 0, which nothing that is asked for has, for any other, as `low` says.
pub fn low_of(c: u32) -> u8
    ensures { result ≡ low c }
{
    if c < 128 { c as u8 } else { 0 }
}

// Puts at most g characters of a value, from a place in it, into `out` at `to`, each as one byte, and says how many. A mark is put as it stands.
// By index: what stands at a place tells where the next character begins, and of what is written through an iterator a proof knows nothing.
fn copy_rest(s: &[u8], at: usize, g: usize, out: &mut [u8], to: usize) -> usize
    requires { to + length (take g (rest_at s.now at)) ≤ length out.old }
    ensures value { result ≡ length (take g (rest_at s.now at)) }
    ensures out_after { out.new ≡ sets out.old to (map low (take g (rest_at s.now at))) }
{
    let mut i = at;
    for k in 0..g {
        let b = octets::byte(s, i);
        if calm::is_mark(b) {
            out[to + k] = b;
            i += 1;
            continue;
        }
        let Some((c, j)) = slow(s, i) else {
            return k;
        };
        out[to + k] = low_of(c);
        i = j;
    }
    g
}

// Puts at most g characters of the value into `out` at `to`, each as one byte, and says how many. What is copied is short, so that only the blocks it begins with are
// put at once.
pub fn copy(s: &[u8], at: usize, g: usize, out: &mut [u8], to: usize) -> usize
    requires { to + length (take g (value_at s.now at)) ≤ length out.old }
    ensures value { result ≡ length (take g (value_at s.now at)) }
    ensures out_after { out.new ≡ sets out.old to (map low (take g (value_at s.now at))) }
{
    let i = lead(s, at);
    let n = calm::calm_blocks(s, i, g);
    calm::put_calm(s, i, n, out, to);
    n + copy_rest(s, i + n, g - n, out, to + n)
}

// As many characters of the value as there is room for, put at the front of it, each as one byte.
#[tactic(auto, using(crate::proofs::Copies::fronted))]
pub fn front<'a, const N: usize>(s: &[u8], at: usize, room: &'a mut [u8; N]) -> &'a [u8]
    ensures { result.now ≡ map low (take N (value_at s.now at)) }
{
    let n = copy(s, at, N, room, 0);
    &room[..n]
}

// The number that the value writes in six digits.
pub fn six_digits(s: &[u8], at: usize) -> Option<u32>
    ensures { result ≡ six_digits (value_at s.now at) }
{
    let mut room = [0u8; 7];
    let digits = front(s, at, &mut room);
    if digits.len() != 6 {
        return None;
    }
    octets::number(digits, 0, 6)
}

// ---- a value put into a text

// Puts at most g characters of a value, from a place in it, into `out` from `to` on, in UTF-8.
// Not an iterator's loop: a turn puts a run of calm bytes, and then the character behind it, as wide as it may be.
pub fn spell(s: &[u8], at: usize, g: usize, out: &mut [u8], to: usize) -> Spelled
    requires { to + length (utf8 (take g (rest_at s.now at))) ≤ length out.old }
    ensures value { result ≡ spelled_of s.now at g to }
    ensures out_after { out.new ≡ sets out.old to (utf8 (take g (rest_at s.now at))) }
{
    let mut count: usize = 0;
    let mut end = to;
    let mut next = at;
    loop {
        let n = calm::calm(s, next, g - count);
        calm::put_calm(s, next, n, out, end);
        count += n;
        end += n;
        next += n;
        if count == g {
            return Spelled { count, end, next };
        }
        let Some((c, j)) = slow(s, next) else {
            return Spelled { count, end, next };
        };
        count += 1;
        end = characters::put_scalar(out, end, c);
        next = j;
    }
}

// Whether a value has more than n characters left from a place in it.
pub fn exceeds(s: &[u8], at: usize, n: usize) -> bool
    ensures { result ≡ ltb n (length (rest_at s.now at)) }
{
    let mut i = at;
    for _ in 0..n {
        let Some((_, j)) = step(s, i) else {
            return false;
        };
        i = j;
    }
    step(s, i).is_some()
}
