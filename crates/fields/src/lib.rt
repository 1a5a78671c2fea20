// Values at a place of a message as document 01 reads them: identities, times, the values of CAP 1.2, references.
#![tactic(auto)]

ghost use Rattle.std.specs.Prelude.{◌≡◌, [], ◌∷◌, map, ◌+◌, length, drop};
ghost use Rattle.std.proofs.lemmas.List.Edits.{sets};
ghost use Rattle.clock.specs.Time.{time_of};
ghost use Rattle.values.specs.Value.{value_at};
ghost use Rattle.values.specs.WorkingSteps.{low};
ghost use Rattle.fields.specs.Fields.{is_identity_byte, identity_ok};
ghost use Rattle.fields.specs.WorkingFields.{index_in, statuses, scopes, status_place, scope_place, msg_type_in};
ghost use Rattle.fields.specs.References.{up_to};
ghost use Rattle.fields.specs.WorkingFields.{group_ok, references_ok};
ghost use Rattle.fields.specs.WorkingWords.{word_in, word_at};

// A word of a value: how many characters it has, and where the next one begins, if another follows.
#[derive(Drop)]
pub struct Word {
    pub len: usize,
    pub next: Option<usize>,
}

// The statuses of CAP 1.2.
#[derive(Clone, Copy, PartialEq, Eq)]
pub enum Status {
    Actual,
    Exercise,
    System,
    Test,
    Draft,
}

// The scopes of CAP 1.2.
#[derive(Clone, Copy, PartialEq, Eq)]
pub enum Scope {
    Public,
    Restricted,
    Private,
}

// The msgTypes of CAP 1.2. Unknown and no Option: `msg_type_in` answers it where the value is none of them, `typed` where no leaf says it, and a refused
// message has it (`refused_as`).
#[derive(Clone, Copy, PartialEq, Eq)]
pub enum MsgType {
    Unknown,
    Alert,
    Update,
    Cancel,
    Ack,
    Error,
}

// ---- sender and identifier

fn is_identity_byte(b: u8) -> bool
    ensures { result ≡ is_identity_byte b }
{
    octets::is_visible(b) && !matches!(b, b'<' | b',' | b'&')
}

// Whether t is a sender or an identifier.
pub fn is_identity(t: &[u8]) -> bool
    ensures { result ≡ identity_ok t.now }
{
    matches!(t.len(), 1..=64) && t.iter().all(|b| is_identity_byte(*b))
}

// Whether the value is a sender or an identifier; 65 characters of it tell, for the longest has 64.
pub fn identity_at(s: &[u8], at: usize) -> bool
    ensures { result ≡ identity_ok (value_at s.now at) }
{
    let mut room = [0u8; 65];
    is_identity(values::front(s, at, &mut room))
}

// ---- times

// The time that the value is, if it is one; 26 characters of it tell, for a time has 25.
pub fn time_at(s: &[u8], at: usize) -> Option<u32>
    ensures { result ≡ time_of (value_at s.now at) }
{
    let mut room = [0u8; 26];
    clock::instant(values::front(s, at, &mut room))
}

// ---- status, scope and msgType

// The status that the value is, if it is one of CAP 1.2.
pub fn status_at(s: &[u8], at: usize) -> Option<Status>
    ensures { status_place result ≡ index_in statuses (value_at s.now at) }
{
    match words::which_value(
        s,
        at,
        b"\x06\x08\x06\x04\x05",
        b"ActualExerciseSystemTestDraft",
    )? {
        0 => Some(Status::Actual),
        1 => Some(Status::Exercise),
        2 => Some(Status::System),
        3 => Some(Status::Test),
        _ => Some(Status::Draft),
    }
}

// The scope that the value is, if it is one of CAP 1.2.
pub fn scope_at(s: &[u8], at: usize) -> Option<Scope>
    ensures { scope_place result ≡ index_in scopes (value_at s.now at) }
{
    match words::which_value(s, at, b"\x06\x0a\x07", b"PublicRestrictedPrivate")? {
        0 => Some(Scope::Public),
        1 => Some(Scope::Restricted),
        _ => Some(Scope::Private),
    }
}

pub fn msg_type_at(s: &[u8], at: usize) -> MsgType
    ensures { result ≡ msg_type_in (value_at s.now at) }
{
    match words::which_value(s, at, b"\x05\x06\x06\x03\x05", b"AlertUpdateCancelAckError") {
        Some(0) => MsgType::Alert,
        Some(1) => MsgType::Update,
        Some(2) => MsgType::Cancel,
        Some(3) => MsgType::Ack,
        Some(_) => MsgType::Error,
        None => MsgType::Unknown,
    }
}

// ---- a group: sender, identifier and sent, parted by commas

// Where the first comma stands from `at` on; the end where there is none, for there too the part from `at` on ends.
pub fn comma(t: &[u8], at: usize) -> usize
    ensures { result ≡ at + length (up_to 44 (drop at t.now)) }
{
    at + t.iter().skip(at).take_while(|b| **b != b',').count()
}

// Whether t is a group.
pub fn is_group(t: &[u8]) -> bool
    ensures { result ≡ group_ok t.now }
{
    let first = comma(t, 0);
    if first == t.len() {
        return false;
    }
    let second = comma(t, first + 1);
    if second == t.len() {
        return false;
    }
    is_identity(&t[..first])
        && is_identity(&t[first + 1..second])
        && clock::instant(&t[second + 1..]).is_some()
}

// ---- references: groups parted by space

// Puts a character at k, where there is room for it.
fn keep(out: &mut [u8], k: usize, c: u8)
    ensures { out.new ≡ sets out.old k (c ∷ []) }
{
    if k < out.len() {
        out[k] = c;
    }
}

// The next word of a value from a place in it; as much of it as there is room for is put into `out`, each character as one byte.
// Not an iterator's loop: each step tells where the next character stands. A length and no slice: `word_at` has that of a longer word, too.
pub fn next_word(s: &[u8], at: usize, out: &mut [u8]) -> Word
    ensures value { result ≡ word_at s.now at }
    ensures out_after { out.new ≡ sets out.old 0 (map low (word_in s.now at)) }
{
    let mut i = at;
    let mut k: usize = 0;
    while let Some((c, j)) = values::step(s, i) {
        if c == 32 {
            return Word {
                len: k,
                next: Some(j),
            };
        }
        keep(out, k, values::low_of(c));
        i = j;
        k += 1;
    }
    Word { len: k, next: None }
}

const MOST_GROUPS: usize = 16;

// Whether the value is 1 to 16 groups parted by space; a group has 155 bytes at most, so that a word without room is none.
pub fn references_at(s: &[u8], at: usize) -> bool
    ensures { result ≡ references_ok (value_at s.now at) }
{
    let mut i = values::lead(s, at);
    for _ in 0..MOST_GROUPS {
        let mut room = [0u8; 155];
        let w = next_word(s, i, &mut room);
        if !room.get(..w.len).is_some_and(is_group) {
            return false;
        }
        match w.next {
            Some(j) => i = j,
            None => return true,
        }
    }
    false
}
