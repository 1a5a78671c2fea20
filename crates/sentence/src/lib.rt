// The sentence of the alert text, from the parts of a header.
#![tactic(auto)]

ghost use Rattle.std.specs.Prelude.{◌≡◌, ◌++◌, ◌+◌, ◌≤◌, length, take, drop};
ghost use Rattle.std.proofs.lemmas.List.Edits.{sets};
ghost use Rattle.octets.specs.Digits.{digits};
ghost use Rattle.sentence.specs.Words.{org_words, event_words, location_word, others, location_words, who_words, when_words, sentence_of};
ghost use Rattle.sentence.specs.WorkingWriter.{Wrote};

use parts::{Body, Originator};

// Where in a lent output what comes next is put.
#[derive(Drop)]
pub struct Writer<'a> {
    pub out: &'a mut [u8],
    pub at: usize,
}

// Puts t into `out` at `at`.
pub fn put(out: &mut [u8], at: usize, t: &[u8]) -> usize
    requires { at + length t.now ≤ length out.old }
    ensures value { result ≡ at + length t.now }
    ensures out_after { out.new ≡ sets out.old at t.now }
{
    octets::put_bytes(out, at, t);
    at + t.len()
}

// How the sentence names an originator.
fn org_words(o: Originator) -> &'static [u8]
    ensures { result.now ≡ org_words o }
{
    match o {
        Originator::Pep => b"Primary Entry Point System",
        Originator::Eas => b"Broadcast station or cable system",
        Originator::Wxr => b"National Weather Service",
        Originator::Civ => b"Civil authorities",
    }
}

impl Writer<'_> {
    pub fn put(&mut self, t: &[u8])
        requires { self.old.at + length t.now ≤ length self.old.out.now }
        ensures { Wrote self.old self.new t.now }
    {
        self.at = put(self.out, self.at, t);
    }

    // Puts the last n digits of v.
    pub fn put_number(&mut self, n: usize, v: u32)
        requires { self.old.at + n ≤ length self.old.out.now }
        ensures { Wrote self.old self.new (digits n v) }
    {
        octets::put_number(self.out, self.at, n, v);
        self.at += n;
    }

    // ---- who, and what

    fn put_event(&mut self, e: &[u8])
        requires e_len { length e.now ≡ 3 }
        requires at_in_bounds { self.old.at + 29 ≤ length self.old.out.now }
        ensures { Wrote self.old self.new (event_words e.now) }
    {
        match words::which(e, b"\x03\x03\x03\x03\x03\x03", b"EANRMTRWTCEMFFWTOR") {
            Some(k) => self.put(words::word(
                b"\x1d\x15\x14\x17\x13\x0f",
                b"Emergency Action NotificationRequired Monthly TestRequired Weekly TestCivil Emergency MessageFlash Flood WarningTornado Warning",
                k,
            )),
            None => {
                self.put(b"event ");
                self.put(e);
            }
        }
    }

    fn put_who(&mut self, o: Originator, e: &[u8])
        requires e_len { length e.now ≡ 3 }
        requires at_in_bounds { self.old.at + 85 ≤ length self.old.out.now }
        ensures { Wrote self.old self.new (who_words o e.now) }
    {
        self.put(org_words(o));
        self.put(b" issued ");
        self.put_event(e);
        self.put(b" for locations ");
    }

    // ---- where

    fn put_location(&mut self, v: u32)
        requires { self.old.at + length (location_word v) ≤ length self.old.out.now }
        ensures { Wrote self.old self.new (location_word v) }
    {
        self.put_number(6, v);
    }

    // The locations behind the first, each after `, `.
    fn put_others(&mut self, list: &[u32])
        requires { self.old.at + length (others list.now) ≤ length self.old.out.now }
        ensures { Wrote self.old self.new (others list.now) }
    {
        for v in list {
            self.put(b", ");
            self.put_location(*v);
        }
    }

    fn put_joined(&mut self, list: &[u32])
        requires { self.old.at + length (location_words list.now) ≤ length self.old.out.now }
        ensures { Wrote self.old self.new (location_words list.now) }
    {
        if let [first, others @ ..] = list {
            self.put_location(*first);
            self.put_others(others);
        }
    }

    // ---- when

    // Puts t, and behind it the last n digits of v.
    fn put_numbered(&mut self, t: &[u8], n: usize, v: u32)
        requires { self.old.at + length t.now + n ≤ length self.old.out.now }
        ensures { Wrote self.old self.new (t.now ++ digits n v) }
    {
        self.put(t);
        self.put_number(n, v);
    }

    fn put_when(&mut self, b: &Body)
        requires { self.old.at + 58 ≤ length self.old.out.now }
        ensures { Wrote self.old self.new (when_words b.now.period b.now.day b.now.hour b.now.minute) }
    {
        self.put_numbered(b", valid from ", 2, b.hour);
        self.put_numbered(b":", 2, b.minute);
        self.put_numbered(b" UTC on day ", 3, b.day);
        self.put_numbered(b" for ", 2, b.period / 60);
        self.put_numbered(b" hours ", 2, b.period % 60);
        self.put(b" minutes.");
    }

    // ---- the sentence

    fn put_sentence(&mut self, b: Body)
        requires at_in_bounds { self.old.at + 389 ≤ length self.old.out.now }
        requires le_count { (1 ≤ b.count) × (b.count ≤ 31) }
        ensures { Wrote self.old self.new (sentence_of b) }
    {
        self.put_who(b.originator, &b.event);
        self.put_joined(&b.locations[..b.count]);
        self.put_when(&b);
    }
}

// Puts the sentence of the parts into `out` at `at`, and says where it ends. The count is asked for, as header::put_body asks.
pub fn put_sentence(out: &mut [u8], at: usize, b: Body) -> usize
    requires at_in_bounds { at + 389 ≤ length out.old }
    requires le_count { (1 ≤ b.count) × (b.count ≤ 31) }
    ensures value { result ≡ at + length (sentence_of b) }
    ensures out_after { out.new ≡ sets out.old at (sentence_of b) }
{
    let mut writer = Writer { out, at };
    writer.put_sentence(b);
    writer.at
}
