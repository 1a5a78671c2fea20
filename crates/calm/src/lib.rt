// Bytes of a message that are each one character of a value, by itself or as a space: marks, and white space before a mark. A run of them is found by blocks and
// copied by a block.
#![tactic(auto)]

ghost use Rattle.std.specs.Prelude.{◌≡◌, true, ◌+◌, ◌≤◌, length};
ghost use Rattle.std.proofs.lemmas.List.Edits.{sets};
ghost use Rattle.calm.specs.WorkingCalm.{is_mark, is_calm, calm_at, Calm, soft, soft_at};

// What is above `<` first, which most bytes of a text are.
#[tactic(auto, unfolding(crate::specs::WorkingCalm::is_mark, octets::specs::Bytes::is_visible, octets::specs::Bytes::between, octets::specs::Bytes::every, octets::specs::Bytes::one_of))]
pub fn is_mark(b: u8) -> bool
    ensures { result ≡ is_mark b }
{
    (b'='..=b'~').contains(&b) || matches!(b, b'!'..=b'%' | b'\''..=b';')
}

// ---- blocks, whose tests have no branch, so that a compiler can make them for all bytes of a block at once

// 0 for a mark alone.
fn odd(b: u8) -> u8
    ensures b_value { result ≡ 0 → is_mark b ≡ true }
    ensures upper_bound { result ≤ 4 }
{
    octets::under(b, b'!')
        + octets::under(b'~', b)
        + octets::equals(b, b'&')
        + octets::equals(b, b'<')
}

// 0 only for a byte b that is calm before c.
fn stirs(b: u8, c: u8) -> u8
    ensures c_value { result ≡ 0 → is_calm b c ≡ true }
    ensures upper_bound { result ≤ 4 }
{
    let x = odd(b);
    let y = odd(c);
    if octets::equals(b, b' ') + octets::equals(b, b'\n') == 0 {
        x
    } else {
        y
    }
}

// How many bytes from `at` on stand in calm blocks, of the first g. The last byte of a block is told with the byte behind it.
pub fn calm_blocks(s: &[u8], at: usize, g: usize) -> usize
    ensures { (result ≤ g) × Calm s.now at result }
{
    let room = s.len().saturating_sub(at).saturating_sub(1).min(g);
    octets::blocks(room, |k| stirs(s[at + k], s[at + k + 1]))
}

// ---- runs

pub fn is_calm(s: &[u8], i: usize) -> bool
    ensures { result ≡ calm_at s.now i }
{
    let b = octets::byte(s, i);
    is_mark(b) || octets::is_space(b) && is_mark(octets::byte(s, i + 1))
}

// How many bytes from `at` on are calm, of the first g.
pub fn calm(s: &[u8], at: usize, g: usize) -> usize
    ensures { (result ≤ g) × Calm s.now at result }
{
    for n in calm_blocks(s, at, g)..g {
        if !is_calm(s, at + n) {
            return n;
        }
    }
    g
}

fn softened(b: u8) -> u8
    ensures { result ≡ soft b }
{
    b.max(b' ')
}

// Puts the n calm bytes from i into `out` from `e` on, white space as a space. By index: two slices go side by side, and a proof knows nothing of what is written
// through an iterator.
pub fn put_calm(s: &[u8], i: usize, n: usize, out: &mut [u8], e: usize)
    requires calm { Calm s.now i n }
    requires n_in_bounds { e + n ≤ length out.old }
    ensures { out.new ≡ sets out.old e (soft_at s.now i n) }
{
    for k in 0..n {
        out[e + k] = softened(s[i + k]);
    }
}
