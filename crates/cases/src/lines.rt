// Case lines: the fields of a line that asks, and an answer put together.
ghost use Rattle.std.specs.Prelude.{◌<◌, ◌≤◌, length, IfSome};

use std::fmt;
use std::fmt::Write;

// As many bytes as the longest line can write in hexadecimal. The arrays that an answer lends are made before its first `?`: one that is made behind it is
// filled with zeros twice, as the call begins too.
pub const ROOM: usize = 100000;

// The longest output that a line lends.
pub const LENT: usize = 65280;

// ---- asked

// What parts a field from the next. The last is all that is left, so that a further space is part of it and no field holds one.
pub(crate) fn is_space(b: &u8) -> bool {
    *b == b' '
}

// The first n of s, or all where there are fewer.
pub(crate) fn front<T>(s: &[T], n: usize) -> &[T] {
    s.get(..n).unwrap_or(s)
}

// What a hexadecimal digit counts. Capitals are none.
fn hex_digit(b: u8) -> Option<u8>
    ensures { IfSome result (λ d. d < 16) }
{
    match b {
        b'0'..=b'9' => Some(b - b'0'),
        b'a'..=b'f' => Some(b - b'a' + 10),
        _ => None,
    }
}

// The bytes that t writes in hexadecimal, `-` for none, at the front of `room`; None where it is no hexadecimal, or writes more than fit.
pub(crate) fn unhex<'a>(t: &[u8], room: &'a mut [u8]) -> Option<&'a mut [u8]>
    ensures { IfSome result (λ bytes. length bytes.now ≤ length room.old) }
{
    if matches!(t, [b'-']) {
        return Some(&mut room[..0]);
    }
    if t.is_empty() || t.len() % 2 != 0 {
        return None;
    }
    let bytes = room.get_mut(..t.len() / 2)?;
    for (byte, digits) in bytes.iter_mut().zip(t.chunks_exact(2)) {
        *byte = hex_digit(digits[0])? * 16 + hex_digit(digits[1])?;
    }
    Some(bytes)
}

// A decimal number of 1 to 9 digits.
pub(crate) fn decimal(t: &[u8]) -> Option<u32> {
    if t.is_empty() || 9 < t.len() {
        return None;
    }
    octets::number(t, 0, t.len())
}

// The length of an output that a line lends.
pub(crate) fn cap(t: &[u8]) -> Option<usize> {
    decimal(t).map(|n| n as usize).filter(|n| *n <= LENT)
}

// The output that a line lends: as much of `room` as t says.
pub(crate) fn lent<'a>(t: &[u8], room: &'a mut [u8]) -> Option<&'a mut [u8]> {
    room.get_mut(..cap(t)?)
}

// ---- answered

// The hexadecimal digit that counts d.
fn digit_of(d: u8) -> u8
    requires { d < 16 }
{
    match d {
        0..=9 => b'0' + d,
        _ => b'a' + (d - 10),
    }
}

// Bytes put one behind the other. What does not fit is left out. Of fixed size and no Vec: nothing here allocates.
#[derive(Drop)]
pub struct Buffer<const N: usize> {
    bytes: [u8; N],
    len: usize,
    ghost in_range: { len ≤ N },
}

// A line as it is read. It has room for the longest and one byte more, which tells a longer one.
pub type Line = Buffer<200001>;

// An answer as it is put together, with room for the longest.
pub type Answer = Buffer<400000>;

impl<const N: usize> Buffer<N> {
    pub(crate) fn new() -> Buffer<N> {
        Buffer {
            bytes: [0; N],
            len: 0,
        }
    }

    pub(crate) fn bytes(&self) -> &[u8] {
        &self.bytes[..self.len]
    }

    pub(crate) fn is_full(&self) -> bool {
        self.len == N
    }

    pub(crate) fn clear(&mut self) {
        self.len = 0;
    }

    pub(crate) fn put(&mut self, t: &[u8]) {
        let at = self.len;
        if t.len() <= N - at {
            let room = &mut self.bytes[..];
            room[at..at + t.len()].copy_from_slice(t);
            self.len = at + t.len();
        }
    }

    // Bytes in hexadecimal, `-` for none. No Display: a formatter would take each byte as a text of its own, and a board has up to 100000.
    pub(crate) fn put_hex(&mut self, t: &[u8]) {
        if t.is_empty() {
            return self.put(b"-");
        }
        let at = self.len;
        if t.len() <= (N - at) / 2 {
            let room = &mut self.bytes[..];
            let pairs = room[at..at + 2 * t.len()].as_chunks_mut().0;
            for (digits, b) in pairs.iter_mut().zip(t) {
                *digits = [digit_of(*b / 16), digit_of(*b % 16)];
            }
            self.len = at + 2 * t.len();
        }
    }
}

impl<const N: usize> fmt::Write for Buffer<N> {
    fn write_str(&mut self, s: &str) -> fmt::Result {
        self.put(s.as_bytes());
        Ok(())
    }
}

// The items joined by commas, each written by `item`; `-` for none.
pub(crate) fn put_list<T, F: Fn(&T, &mut Answer) -> fmt::Result>(
    items: &[T],
    item: F,
    out: &mut Answer,
) -> fmt::Result
    requires { F.IsAlwaysCallable item }
{
    if items.is_empty() {
        return write!(out, "-");
    }
    for (k, x) in items.iter().enumerate() {
        if 0 < k {
            write!(out, ",")?;
        }
        item(x, out)?;
    }
    Ok(())
}

// Locations, as codes of six digits.
pub(crate) fn put_locations(list: &[u32], out: &mut Answer) -> fmt::Result {
    put_list(list, |code, out| write!(out, "{code:06}"), out)
}
