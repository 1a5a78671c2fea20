// What stands before and behind the root of a message.
#![tactic(auto)]

ghost use Rattle.std.specs.Prelude.{◌≡◌};
ghost use Rattle.octets.specs.Bytes.{pick};
ghost use Rattle.characters.specs.Utf8.{coded_width};
ghost use Rattle.markup.specs.Document.{in_declaration, declaration_at, misc_step, misc_at};

use pieces::Step;

// How many bytes the character at i has, if the declaration goes on there; else 0: a width and no Option, as `pieces::through` takes it.
fn in_declaration(s: &[u8], i: usize) -> usize
    ensures { result ≡ pick (in_declaration s.now i) (coded_width s.now i) 0 }
{
    if octets::stands_at(s, i, b"?>") {
        0
    } else {
        characters::coded_width(s, i)
    }
}

// Where the declaration ends that begins at `at`, which is there where none begins; or that it does not end.
pub fn declaration(s: &[u8], at: usize) -> Option<usize>
    ensures { result ≡ declaration_at s.now at }
{
    if !octets::stands_at(s, at, b"<?xml") {
        return Some(at);
    }
    if !octets::is_space(octets::byte(s, at + 5)) {
        return None;
    }
    let e = pieces::through(s, at + 6, |i| in_declaration(s, i));
    if octets::stands_at(s, e, b"?>") {
        Some(e + 2)
    } else {
        None
    }
}

fn misc_step(s: &[u8], i: usize) -> Step
    ensures { result ≡ misc_step s.now i }
{
    if octets::is_space(octets::byte(s, i)) {
        return Step::Go(i + 1);
    }
    if !octets::stands_at(s, i, b"<!--") {
        return Step::Stop(i);
    }
    match pieces::note(s, i) {
        Some(j) => Step::Go(j),
        None => Step::Stuck,
    }
}

// Where the white space and comments end that begin at `at`.
pub fn misc(s: &[u8], at: usize) -> Option<usize>
    ensures { result ≡ misc_at s.now at }
{
    pieces::walk(s, at, |i| misc_step(s, i))
}
