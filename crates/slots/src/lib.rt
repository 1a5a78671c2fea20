// Records in lent bytes, one after the other: whether one is held, where one goes, records added in their places, and their headers.
#![tactic(auto)]

ghost use Rattle.std.specs.Prelude.{◌≡◌, ◌++◌, ◌+◌, ◌*◌, ◌≤◌, length, take, drop};
ghost use Rattle.std.proofs.Math.Seq.{slice};
ghost use Rattle.std.specs.Ordering.{is_eq};
ghost use Rattle.octets.specs.Bytes.{pick, same};
ghost use Rattle.octets.specs.Order.{cmp};
ghost use Rattle.records.specs.Record.{header, carried, aired};
ghost use Rattle.ledger.specs.Sorted.{has, Sorted, insert, insert_all};
ghost use Rattle.slots.specs.WorkingSlots.{rec, flat, place_of};
ghost use Rattle.slots.specs.Slots.{recs};

use records::Record;
use std::cmp::Ordering;

// A slice and how many of its records count: docs/PROMISES.md names these functions so, and an addition changes both at once,
// so that no view of the records can be held over it.

// The record at index i.
pub fn record_at(s: &[u8], i: usize) -> &[u8]
    requires { (i + 1) * 384 ≤ length s.now }
    ensures { result.now ≡ rec i s.now }
{
    let at = i * Record::SIZE;
    &s[at..at + Record::SIZE]
}

// The first n records.
pub fn first(s: &[u8], n: usize) -> &[[u8; Record::SIZE]]
    requires { n * 384 ≤ length s.now }
    ensures { result.now ≡ recs n s.now }
{
    &s.as_chunks().0[..n]
}

// The place of r among the first n records: the index at which it is held, else that at which a new one goes.
pub fn locate(s: &[u8], n: usize, r: &[u8]) -> Result<usize, usize>
    requires { n * 384 ≤ length s.now }
    ensures { result ≡ place_of r.now (recs n s.now) }
{
    for (i, held) in first(s, n).iter().enumerate() {
        match octets::compare(r, held) {
            Ordering::Less => return Err(i),
            Ordering::Equal => return Ok(i),
            Ordering::Greater => {}
        }
    }
    Err(n)
}

// Whether r is the record that is held. One of another kind is told by its first byte, as most are, without a comparison of the whole.
fn is_held(r: &[u8], held: &[u8; Record::SIZE]) -> bool
    ensures { result ≡ is_eq (cmp r.now held.now) }
{
    octets::byte(r, Record::KIND) == held[Record::KIND] && octets::compare(r, held).is_eq()
}

// Whether r is one of the first n records.
pub fn holds(s: &[u8], n: usize, r: &[u8]) -> bool
    requires { n * 384 ≤ length s.now }
    ensures { result ≡ has r.now (recs n s.now) }
{
    first(s, n).iter().any(|held| is_held(r, held))
}

// Moves the bytes from `from` up to `to` up by one record.
fn shift(s: &mut [u8], from: usize, to: usize)
    requires { (from ≤ to) × (to + 384 ≤ length s.old) }
    ensures { s.new ≡ take (from + 384) s.old ++ (slice from to s.old ++ drop (to + 384) s.old) }
{
    s.copy_within(from..to, from + Record::SIZE);
}

// Adds r to the first n records, in its place, unless it is held. The result is how many there are then.
pub fn add(s: &mut [u8], n: usize, r: &[u8]) -> usize
    requires { (n * 384 ≤ length s.old) × (length (insert r.now (recs n s.old)) * 384 ≤ length s.old) × (length r.now ≡ 384) }
    ensures value { result ≡ length (insert r.now (recs n s.old)) }
    ensures s_after { s.new ≡ flat (insert r.now (recs n s.old)) ++ drop (result * 384) s.old }
{
    match locate(s, n, r) {
        Ok(_) => n,
        Err(k) => {
            let from = k * Record::SIZE;
            shift(s, from, n * Record::SIZE);
            octets::put_bytes(s, from, r);
            n + 1
        }
    }
}

// ---- the first m records of a batch

// Whether record i of the batch is neither among the first n records nor before it in the batch.
fn is_new(s: &[u8], n: usize, batch: &[u8], i: usize) -> bool
    requires { (n * 384 ≤ length s.now) × ((i + 1) * 384 ≤ length batch.now) × Sorted (recs n s.now) }
    ensures { pick result 1 0 + length (insert_all (recs i batch.now) (recs n s.now)) ≡ length (insert_all (recs (i + 1) batch.now) (recs n s.now)) }
{
    let r = record_at(batch, i);
    !holds(s, n, r) && !holds(batch, i, r)
}

// How many of them are new to the first n records.
pub fn tally(s: &[u8], n: usize, batch: &[u8], m: usize) -> usize
    requires { (n * 384 ≤ length s.now) × (m * 384 ≤ length batch.now) × Sorted (recs n s.now) }
    ensures n_value { result + n ≡ length (insert_all (recs m batch.now) (recs n s.now)) }
    ensures upper_bound { result ≤ m }
{
    (0..m).filter(|i| is_new(s, n, batch, *i)).count()
}

// Adds them to the first n records, where there is room. The result is how many there are then.
pub fn add_all(s: &mut [u8], n: usize, batch: &[u8], m: usize) -> usize
    requires { (n * 384 ≤ length s.old) × (m * 384 ≤ length batch.now) × (length (insert_all (recs m batch.now) (recs n s.old)) * 384 ≤ length s.old) }
    ensures value { result ≡ length (insert_all (recs m batch.now) (recs n s.old)) }
    ensures s_after { s.new ≡ flat (insert_all (recs m batch.now) (recs n s.old)) ++ drop (result * 384) s.old }
{
    let mut k = n;
    for r in first(batch, m) {
        k = add(s, k, r);
    }
    k
}

// ---- the headers of records: each with its year, which is worked out only where the headers alone are the same. What is less than the header without its year
// is less than the whole; where it is not, the whole decides.

// The header of record i, without its year.
fn front_at(s: &[u8], i: usize) -> &[u8]
    requires { (i + 1) * 384 ≤ length s.now }
    ensures { result.now ≡ header (rec i s.now) }
{
    let at = i * Record::SIZE;
    &s[at + Record::HEADER..at + Record::YEAR]
}

// The header of record i.
pub fn header_at(s: &[u8], i: usize) -> [u8; Record::CARRIED]
    requires { (i + 1) * 384 ≤ length s.now }
    ensures { result ≡ carried (rec i s.now) }
{
    records::carried_by(record_at(s, i))
}

// How a header stands to that of record i, as both are written out.
fn compare_whole(h: &[u8], s: &[u8], i: usize) -> Ordering
    requires { (i + 1) * 384 ≤ length s.now }
    ensures { result ≡ cmp h.now (carried (rec i s.now)) }
{
    octets::compare(h, &header_at(s, i))
}

// How a header stands to that of record i.
pub fn compare_header(h: &[u8], s: &[u8], i: usize) -> Ordering
    requires { (i + 1) * 384 ≤ length s.now }
    ensures { result ≡ cmp h.now (carried (rec i s.now)) }
{
    match octets::compare(h, front_at(s, i)) {
        Ordering::Less => Ordering::Less,
        _ => compare_whole(h, s, i),
    }
}

// How the header of record i stands to that of record j.
pub fn compare_headers(s: &[u8], i: usize, j: usize) -> Ordering
    requires { ((i + 1) * 384 ≤ length s.now) × ((j + 1) * 384 ≤ length s.now) }
    ensures { result ≡ cmp (carried (rec i s.now)) (carried (rec j s.now)) }
{
    octets::compare(front_at(s, i), front_at(s, j)).then_with(|| compare_whole(
        &header_at(s, i),
        s,
        j,
    ))
}

// Whether the two are the same.
pub fn same_header(s: &[u8], i: usize, j: usize) -> bool
    requires { ((i + 1) * 384 ≤ length s.now) × ((j + 1) * 384 ≤ length s.now) }
    ensures { result ≡ same (carried (rec i s.now)) (carried (rec j s.now)) }
{
    octets::equal(front_at(s, i), front_at(s, j))
        && octets::equal(&header_at(s, i), &header_at(s, j))
}

// The aired record of record i's header.
pub fn aired_at(s: &[u8], i: usize) -> Record
    requires { (i + 1) * 384 ≤ length s.now }
    ensures { result.bytes ≡ aired (carried (rec i s.now)) }
{
    Record::aired(&header_at(s, i))
}
