// Characters, as UTF-8 writes them: read at a place, and put at one.
#![tactic(auto)]

ghost use Rattle.std.specs.Prelude.{◌≡◌, [], ◌∷◌, ◌+◌, ◌*◌, ◌≤◌, ◌<◌, length};
ghost use Rattle.std.proofs.lemmas.List.Edits.{sets};
ghost use Rattle.octets.specs.Bytes.{is_space};
ghost use Rattle.characters.specs.Utf8.{is_legal, tail, encoded, width, scalar_at, width_at, coded_width, is_single};
ghost use Rattle.characters.specs.WorkingUtf8.{legal_from, joined_at};

// ---- which are legal

#[tactic(auto, unfolding(crate::specs::Utf8::is_legal, octets::specs::Bytes::between, octets::specs::Bytes::every, octets::specs::Bytes::one_of))]
pub fn is_legal(c: u32) -> bool
    ensures { result ≡ is_legal c }
{
    matches!(c, 0x20..=0xd7ff | 0xe000..=0xfffd | 0x1_0000..=0x10_ffff | 0x09 | 0x0a | 0x0d)
}

// A number that is a character and not below `least`, and 0 for any other.
fn legal_from(least: u32, c: u32) -> u32
    ensures { result ≡ legal_from least c }
{
    if least <= c && is_legal(c) { c } else { 0 }
}

// Whether a byte is a character by itself.
#[tactic(auto, unfolding(crate::specs::Utf8::is_single, crate::specs::Utf8::is_legal, octets::specs::Bytes::between, octets::specs::Bytes::every, octets::specs::Bytes::one_of))]
pub fn is_single(b: u8) -> bool
    ensures { result ≡ is_single b }
{
    matches!(b, b' '..=0x7f | b'\t' | b'\n' | b'\r')
}

// Whether a character is white space.
pub fn is_space(c: u32) -> bool
    ensures { result ≡ is_space c }
{
    c <= 32 && octets::is_space(c as u8)
}

// ---- reading

// The bits n, and behind them the six of the byte at i; 0, which is below each least number, where no byte stands there that a character goes on with.
fn join(s: &[u8], i: usize, n: u32) -> u32
    requires { n ≤ 65535 }
    ensures value { result ≡ joined_at s.now i n }
    ensures upper_bound { result ≤ 64 * n + 63 }
{
    let b = octets::byte(s, i);
    if !octets::is_between(128, 191, b) {
        return 0;
    }
    n * 64 + u32::from(b - 128)
}

// The character at a place, and 0 where none stands: past the end, where the bytes are no UTF-8, or where the character is not legal. The first byte tells how many
// there are, and the least number that so many may write. One number says both, since `scalar_at` says both, and 0 is no legal character.
pub fn scalar(s: &[u8], at: usize) -> u32
    ensures { result ≡ scalar_at s.now at }
{
    let lead = octets::byte(s, at);
    match lead {
        0..=127 => legal_from(0, u32::from(lead)),
        128..=191 => 0,
        192..=223 => legal_from(128, join(s, at + 1, u32::from(lead - 192))),
        224..=239 => {
            let two = join(s, at + 1, u32::from(lead - 224));
            legal_from(2048, join(s, at + 2, two))
        }
        240..=255 => {
            let two = join(s, at + 1, u32::from(lead - 240));
            let three = join(s, at + 2, two);
            legal_from(65536, join(s, at + 3, three))
        }
    }
}

// How many bytes a character has.
pub fn bytes_of(c: u32) -> usize
    ensures { result ≡ width c }
{
    match c {
        0..=127 => 1,
        128..=2047 => 2,
        2048..=65535 => 3,
        _ => 4,
    }
}

// How many bytes the character at a place has, and 0 where none stands: no width is 0, and one number says both, as `width_at` does.
pub fn width_at(s: &[u8], at: usize) -> usize
    ensures { result ≡ width_at s.now at }
{
    let c = scalar(s, at);
    if c == 0 { 0 } else { bytes_of(c) }
}

// How many bytes the number at a place has that UTF-8 writes there, legal in XML or not, and 0 where none stands, as `coded_width` says both.
pub fn coded_width(s: &[u8], at: usize) -> usize
    ensures { result ≡ coded_width s.now at }
{
    if s.len() <= at {
        return 0;
    }
    if s[at] < 128 {
        return 1;
    }
    let n = width_at(s, at);
    if n != 0 {
        return n;
    }
    // 0xFFFE and 0xFFFF: of the numbers from 128 on, only these are written and not legal
    if octets::stands_at(s, at, b"\xef\xbf\xbe") || octets::stands_at(s, at, b"\xef\xbf\xbf") {
        3
    } else {
        0
    }
}

// ---- writing

// A byte behind the first, of the last six bits of n.
fn tail(n: u32) -> u8
    ensures { result ≡ tail n }
{
    (128 + n % 64) as u8
}

fn put_encoded(out: &mut [u8], at: usize, c: u32)
    requires c_in_bounds { at + width c ≤ length out.old }
    requires c_bound { c ≤ 1114111 }
    ensures { out.new ≡ sets out.old at (encoded c) }
{
    if c < 128 {
        octets::put_byte(out, at, c as u8);
    } else if c < 2048 {
        octets::put_bytes(out, at, &[(192 + c / 64) as u8, tail(c)]);
    } else if c < 65536 {
        let first = (224 + c / 64 / 64) as u8;
        octets::put_bytes(out, at, &[first, tail(c / 64), tail(c)]);
    } else {
        let first = (240 + c / 64 / 64 / 64) as u8;
        octets::put_bytes(out, at, &[first, tail(c / 64 / 64), tail(c / 64), tail(c)]);
    }
}

// Puts the bytes of a character from `at` on, and says where they end.
pub fn put_scalar(out: &mut [u8], at: usize, c: u32) -> usize
    requires c_in_bounds { at + width c ≤ length out.old }
    requires c_bound { c ≤ 1114111 }
    ensures value { result ≡ at + width c }
    ensures out_after { out.new ≡ sets out.old at (encoded c) }
{
    put_encoded(out, at, c);
    at + bytes_of(c)
}
