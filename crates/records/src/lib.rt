// One record of the board: its makers, and the rules that it keeps.
#![tactic(auto)]

ghost use Rattle.std.specs.Prelude.{◌≡◌, [], ◌∷◌, ◌++◌, ◌+◌, ◌≤◌, ◌<◌, length, replicate, eqb, leb};
ghost use Rattle.std.proofs.lemmas.List.Edits.{sets};
ghost use Rattle.octets.specs.Bytes.{every, holds, same};
ghost use Rattle.clock.specs.Calendar.{year_days};
ghost use Rattle.clock.specs.Time.{span};
ghost use Rattle.clock.specs.Stamp.{stamp_of, stamped};
ghost use Rattle.fields.specs.Fields.{identity_ok};
ghost use Rattle.records.specs.Record.{sent_in, zeros, filled_in, zero_filled, body_in, key_ok, header_ok, stamp_in, notice_tests, withdrawal_tests, aired_tests, record_ok, pad, key_of, notice, withdrawal, aired, year_in, be2, dated, carried, dated_ok};

use parts::Body;

#[derive(Drop)]
pub struct Record {
    pub bytes: [u8; Record::SIZE],
}

impl Record {
    pub const SIZE: usize = 384;

    // Where each field begins.
    pub const KIND: usize = 0;

    pub const SENT: usize = 1;

    pub const SENDER: usize = 5;

    pub const IDENTIFIER: usize = 69;

    pub const HEADER: usize = 133;

    // The year of an aired record; the other kinds have zeros from here on.
    pub const YEAR: usize = 376;

    pub const ZEROS: usize = 378;

    // The bytes of a header, and of a header with its year.
    pub const FRONT: usize = 243;

    pub const CARRIED: usize = 245;

    // Kinds, as they stand in the first byte: numbers, for `record_ok` and the makers' definitions are said of that byte.
    pub const NOTICE: u8 = 1;

    pub const WITHDRAWAL: u8 = 2;

    pub const AIRED: u8 = 3;

    // A notice uses all. Its key comes as three: `key_of` takes them so.
    pub fn notice(sent: u32, sender: &[u8], identifier: &[u8], header: &[u8]) -> Record
        requires { (length sender.now ≤ 64) × (length identifier.now ≤ 64) × (length header.now ≤ 243) }
        ensures { result.bytes ≡ notice (key_of sent sender.now identifier.now) (pad 243 header.now) }
    {
        let mut bytes = keyed(Record::NOTICE, sent, sender, identifier);
        octets::put_bytes(&mut bytes, Record::HEADER, header);
        Record { bytes }
    }

    // A withdrawal names a message and has no header.
    pub fn withdrawal(sent: u32, sender: &[u8], identifier: &[u8]) -> Record
        requires { (length sender.now ≤ 64) × (length identifier.now ≤ 64) }
        ensures { result.bytes ≡ withdrawal (key_of sent sender.now identifier.now) }
    {
        let bytes = keyed(Record::WITHDRAWAL, sent, sender, identifier);
        Record { bytes }
    }

    // An aired record has only a header with its year.
    pub fn aired(header: &[u8]) -> Record
        requires { length header.now ≡ 245 }
        ensures { result.bytes ≡ aired header.now }
    {
        Record {
            bytes: of_kind(Record::AIRED, Record::HEADER, header),
        }
    }
}

// The withdrawal of a key as it stands in a record.
pub fn withdrawal_of(key: &[u8]) -> Record
    requires { length key.now ≡ 132 }
    ensures { result.bytes ≡ withdrawal key.now }
{
    Record {
        bytes: of_kind(Record::WITHDRAWAL, Record::SENT, key),
    }
}

// A record of this kind with a field from `at`, and zeros elsewhere.
fn of_kind(kind: u8, at: usize, field: &[u8]) -> [u8; Record::SIZE]
    requires { (1 ≤ at) × (at + length field.now ≤ 384) }
    ensures { result ≡ sets (kind ∷ replicate 383 0) at field.now }
{
    let mut bytes = [0u8; Record::SIZE];
    bytes[Record::KIND] = kind;
    octets::put_bytes(&mut bytes, at, field);
    bytes
}

// A record of this kind with a key, and zeros behind it.
fn keyed(kind: u8, sent: u32, sender: &[u8], identifier: &[u8]) -> [u8; Record::SIZE]
    requires { (length sender.now ≤ 64) × (length identifier.now ≤ 64) }
    ensures { result ≡ (kind ∷ key_of sent sender.now identifier.now) ++ replicate 251 0 }
{
    let mut bytes = of_kind(kind, Record::SENT, &sent.to_be_bytes());
    octets::put_bytes(&mut bytes, Record::SENDER, sender);
    octets::put_bytes(&mut bytes, Record::IDENTIFIER, identifier);
    bytes
}

// ---- the rules

// The seconds of 2000 to 2099.
const SPAN: u32 = clock::SPAN;

pub fn are_zeros(f: &[u8]) -> bool
    ensures { result ≡ zeros f.now }
{
    f.iter().all(|b| *b == 0)
}

// How many bytes stand before the first zero byte.
fn filled(field: &[u8]) -> usize
    ensures { result ≡ length (filled_in field.now) }
{
    field.iter().take_while(|b| **b != 0).count()
}

// Whether a field is a sender or an identifier, zero-filled.
fn is_name(field: &[u8]) -> bool
    ensures { result ≡ zero_filled identity_ok field.now }
{
    let n = filled(field);
    fields::is_identity(&field[..n]) && are_zeros(&field[n..])
}

fn sent_of(key: &[u8]) -> u32
    requires { 4 ≤ length key.now }
    ensures { result ≡ sent_in key.now }
{
    u32::from_be_bytes(parts::bytes_at(key, 0))
}

// Whether a key is a sent, a sender and an identifier. A slice of 132 bytes, as `withdrawal_of` takes a key.
fn is_key(key: &[u8]) -> bool
    requires { length key.now ≡ 132 }
    ensures { result ≡ key_ok key.now }
{
    sent_of(key) < SPAN
        && is_name(&key[Record::SENDER - Record::SENT..Record::IDENTIFIER - Record::SENT])
        && is_name(&key[Record::IDENTIFIER - Record::SENT..Record::HEADER - Record::SENT])
}

// The header that a field is, zero-filled.
fn header_in(field: &[u8]) -> Option<Body>
    ensures { result ≡ body_in field.now }
{
    let n = filled(field);
    if !are_zeros(&field[n..]) {
        return None;
    }
    let read = header::read_body(&field[..n]);
    (read.number == 0).then_some(read.body)
}

// Whether the day, hour and minute of a header are those of sent.
// sent is a number, with what `stamp_of` asks of it: the definitions take it so.
fn is_on(body: Body, sent: u32) -> bool
    requires { sent < span }
    ensures { result ≡ every holds (eqb body.day (stamp_of sent).day ∷ eqb body.hour (stamp_of sent).hour ∷ eqb body.minute (stamp_of sent).minute ∷ []) }
{
    let on = clock::stamp_of(sent);
    body.day == on.day && body.hour == on.hour && body.minute == on.minute
}

// Whether a field is a header, zero-filled, whose JJJHHMM is that of sent.
fn is_header_of(field: &[u8], sent: u32) -> bool
    requires { sent < span }
    ensures { result ≡ every holds (header_ok field.now ∷ same (stamp_in field.now) (stamped sent) ∷ []) }
{
    header_in(field).is_some_and(|body| is_on(body, sent))
}

fn is_notice(r: &[u8; Record::SIZE]) -> bool
    ensures { result ≡ every holds (notice_tests r.now) }
{
    let key = &r[Record::SENT..Record::HEADER];
    is_key(key)
        && is_header_of(&r[Record::HEADER..Record::YEAR], sent_of(key))
        && are_zeros(&r[Record::YEAR..Record::SIZE])
}

// Alike is_aired in shape alone: other fields, other tests.
fn is_withdrawal(r: &[u8; Record::SIZE]) -> bool
    ensures { result ≡ every holds (withdrawal_tests r.now) }
{
    is_key(&r[Record::SENT..Record::HEADER])
        && are_zeros(&r[Record::HEADER..Record::YEAR])
        && are_zeros(&r[Record::YEAR..Record::SIZE])
}

// ---- a header with its year

// The UTC year of a sent.
fn utc_year(sent: u32) -> u32
    ensures { result ≡ (stamp_of sent).year }
{
    if SPAN <= sent {
        return 2099;
    }
    clock::stamp_of(sent).year
}

// The two bytes of a year, high byte first.
fn two_bytes(year: u32) -> [u8; 2]
    ensures { result ≡ be2 year }
{
    let [_, _, high, low] = year.to_be_bytes();
    [high, low]
}

// The header of a message with this key, with the year of its sent.
fn with_year(key: &[u8], header: &[u8]) -> [u8; Record::CARRIED]
    requires { (length key.now ≡ 132) × (length header.now ≡ 243) }
    ensures { result ≡ dated key.now header.now }
{
    let year = two_bytes(utc_year(sent_of(key)));
    let mut bytes = [0u8; Record::CARRIED];
    octets::put_bytes(&mut bytes, 0, header);
    octets::put_bytes(&mut bytes, Record::FRONT, &year);
    bytes
}

// The header with its year that a notice or an aired record carries.
pub fn carried_by(r: &[u8]) -> [u8; Record::CARRIED]
    requires { length r.now ≡ 384 }
    ensures { result ≡ carried r.now }
{
    if r[Record::KIND] == Record::NOTICE {
        return with_year(
            &r[Record::SENT..Record::HEADER],
            &r[Record::HEADER..Record::YEAR],
        );
    }
    parts::bytes_at(r, Record::HEADER)
}

// The year in a header with its year.
fn year_in(header: &[u8]) -> u32
    requires { length header.now ≡ 245 }
    ensures { result ≡ year_in header.now }
{
    u32::from(u16::from_be_bytes(parts::bytes_at(header, Record::FRONT)))
}

// Whether a year has a day.
fn has_day(year: u32, day: u32) -> bool
    ensures { result ≡ leb day (year_days year) }
{
    day <= if clock::is_leap(year) { 366 } else { 365 }
}

// Whether this is a header, zero-filled, with a year of 2000 to 2099 that has its day.
fn is_dated(header: &[u8]) -> bool
    requires { length header.now ≡ 245 }
    ensures { result ≡ dated_ok header.now }
{
    let year = year_in(header);
    (2000..=2099).contains(&year)
        && header_in(&header[..Record::FRONT]).is_some_and(|body| has_day(year, body.day))
}

fn is_aired(r: &[u8; Record::SIZE]) -> bool
    ensures { result ≡ every holds (aired_tests r.now) }
{
    are_zeros(&r[Record::SENT..Record::HEADER])
        && is_dated(&r[Record::HEADER..Record::ZEROS])
        && are_zeros(&r[Record::ZEROS..Record::SIZE])
}

// Whether r is a record.
pub fn is_record(r: &[u8]) -> bool
    ensures { result ≡ record_ok r.now }
{
    let Ok(r) = <&[u8; Record::SIZE]>::try_from(r) else {
        return false;
    };
    match r[Record::KIND] {
        Record::NOTICE => is_notice(r),
        Record::WITHDRAWAL => is_withdrawal(r),
        Record::AIRED => is_aired(r),
        _ => false,
    }
}
