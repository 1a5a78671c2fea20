// The board in lent bytes: its rules, an offer of records, the hand-out of the first due header, and the list of the due headers.
#![tactic(auto)]

ghost use Rattle.std.specs.Prelude.{◌≡◌, true, false, ◌+◌, ◌*◌, ◌≤◌, ◌<◌, length, take, MatchResult};
ghost use Rattle.std.proofs.lemmas.List.Edits.{sets};
ghost use Rattle.octets.specs.Bytes.{every};
ghost use Rattle.records.specs.Record.{record_ok, carried, aired};
ghost use Rattle.ledger.specs.Sorted.{ascending};
ghost use Rattle.ledger.specs.WorkingBoard.{live, carries, count_of, rows_of};
ghost use Rattle.ledger.specs.WorkingScan.{after};
ghost use Rattle.slots.specs.WorkingSlots.{rec};
ghost use Rattle.slots.specs.Slots.{recs};
ghost use Rattle.board.specs.Rules.{board_of};
ghost use Rattle.board.specs.WorkingRules.{board_ok, added};
ghost use Rattle.board.specs.WorkingCalls.{added_of, offer_of, handed_of, hand_of, list_refused, list_of, blanks};
ghost use Rattle.board.specs.WorkingMarks.{Marks, Scanned};

use ledger::Row;
use records::Record;

// The most records that a board holds, and their bytes.
const MOST: usize = 170;

const BYTES: usize = 65280;

// Rows before anything is written to them.
const NO_ROWS: [Row; MOST] = [Row { index: 0, count: 0 }; MOST];

// Answers with numbers and not Results: offer_of, hand_of and list_of promise the numbers 0, 1, 2, 15 and 16 with zeros beside a refusal; C is answered those of an offer and a hand-out.

// What an offer of records answers: how many were added.
#[derive(Drop)]
pub struct Added {
    pub number: u32,
    pub added: usize,
}

// What a hand-out answers: the index of the smallest notice that makes the header due.
#[derive(Drop)]
pub struct Handed {
    pub number: u32,
    pub index: usize,
}

// What the list answers: how many headers are due.
#[derive(Drop)]
pub struct Listed {
    pub number: u32,
    pub count: usize,
}

// The same, and the row of each from the start. An array and a count, no Vec: nothing allocates, and list_rows promises all 170 rows.
#[derive(Drop)]
pub struct Rows {
    pub answer: Listed,
    pub rows: [Row; MOST],
}

// ---- the rules

// How many records stand before the first empty one.
pub fn filled(s: &[u8]) -> usize
    ensures { result ≡ length (board_of s.now) }
{
    let records: &[[u8; Record::SIZE]] = s.as_chunks().0;
    records.iter().take_while(|r| r[Record::KIND] != 0).count()
}

// Whether the first n records are strictly ascending.
fn is_ascending(s: &[u8], n: usize) -> bool
    requires { n * 384 ≤ length s.now }
    ensures { result ≡ ascending (recs n s.now) }
{
    slots::first(s, n).is_sorted_by(|a, b| octets::compare(a, b).is_lt())
}

// Whether each of the first n records keeps its rules.
fn are_records(s: &[u8], n: usize) -> bool
    requires { n * 384 ≤ length s.now }
    ensures { result ≡ every record_ok (recs n s.now) }
{
    slots::first(s, n).iter().all(|r| records::is_record(r))
}

// Whether a board with n filled records keeps the rules.
fn keeps_rules(s: &[u8], n: usize) -> bool
    requires { n ≡ length (board_of s.now) }
    ensures { result ≡ board_ok s.now }
{
    let len = s.len();
    if len < Record::SIZE || BYTES < len || len % Record::SIZE != 0 {
        return false;
    }
    is_ascending(s, n) && are_records(s, n) && records::are_zeros(&s[n * Record::SIZE..])
}

// Whether a board keeps the rules.
pub fn is_board(s: &[u8]) -> bool
    ensures { result ≡ board_ok s.now }
{
    keeps_rules(s, filled(s))
}

// How many records a board has, or the number of a refusal: 1 where it does not keep the rules.
fn board_count(s: &[u8]) -> Result<usize, u32>
    ensures { MatchResult result (λ n. (n ≡ length (board_of s.now)) × (board_ok s.now ≡ true)) (λ number. (number ≡ 1) × (board_ok s.now ≡ false)) }
{
    let n = filled(s);
    if keeps_rules(s, n) { Ok(n) } else { Err(1) }
}

// ---- offers

// Adds the first m records of the batch: how many were new, or the number of a refusal.
fn add_records(s: &mut [u8], batch: &[u8], m: usize) -> Result<usize, u32>
    requires { m * 384 ≤ length batch.now }
    ensures value { added_of result ≡ (offer_of s.old (recs m batch.now)).answer }
    ensures s_after { s.new ≡ (offer_of s.old (recs m batch.now)).bytes }
    ensures number_bound { ((added_of result).number ≤ 17) × ((added_of result).added ≤ 170) }
{
    let n = board_count(s)?;
    let k = slots::tally(s, n, batch, m);
    if s.len() < (n + k) * Record::SIZE {
        return Err(15);
    }
    slots::add_all(s, n, batch, m);
    Ok(k)
}

// Offers the first m records of the batch: all or none.
pub fn offer_records(s: &mut [u8], batch: &[u8], m: usize) -> Added
    requires { m * 384 ≤ length batch.now }
    ensures value { result ≡ (offer_of s.old (recs m batch.now)).answer }
    ensures s_after { s.new ≡ (offer_of s.old (recs m batch.now)).bytes }
    ensures number_bound { (result.number ≤ 17) × (result.added ≤ 170) }
{
    match add_records(s, batch, m) {
        Ok(added) => Added { number: 0, added },
        Err(number) => Added { number, added: 0 },
    }
}

// ---- the due headers

// Whether record i is a notice that no record withdraws, with a header that no record airs.
fn is_live(s: &[u8], n: usize, i: usize) -> bool
    requires { (n * 384 ≤ length s.now) × (i < n) }
    ensures { result ≡ live (recs n s.now) (rec i s.now) }
{
    let at = i * Record::SIZE;
    if s[at] != Record::NOTICE {
        return false;
    }
    let withdrawal = records::withdrawal_of(&s[at + Record::SENT..at + Record::HEADER]);
    !slots::holds(s, n, &withdrawal.bytes) && !slots::holds(s, n, &slots::aired_at(s, i).bytes)
}

// Whether i is the place of a live record among the first n.
fn is_live_place(s: &[u8], n: usize, i: usize) -> bool
    requires { n * 384 ≤ length s.now }
    ensures { i < n → result ≡ live (recs n s.now) (rec i s.now) }
{
    i < n && is_live(s, n, i)
}

// Which of the first n records are live.
fn live_marks(s: &[u8], n: usize) -> [bool; MOST]
    requires { (n * 384 ≤ length s.now) × (n ≤ 170) }
    ensures { Marks (live (recs n s.now)) (recs n s.now) result }
{
    std::array::from_fn(|i| is_live_place(s, n, i))
}

// The first n records, and for each a mark that says whether it is live.
#[derive(Drop)]
struct Marked<'a> {
    s: &'a [u8],
    n: usize,
    marks: [bool; MOST],
    ghost within: { n * 384 ≤ length s.now },
    ghost few: { n ≤ 170 },
    ghost told: { Marks (live (recs n s.now)) (recs n s.now) marks },
}

impl<'a> Marked<'a> {
    fn new(s: &'a [u8], n: usize) -> Marked<'a>
        requires { (n * 384 ≤ length s.now) × (n ≤ 170) }
        ensures bytes { result.s.now ≡ s.now }
        ensures count { result.n ≡ n }
    {
        Marked {
            s,
            n,
            marks: live_marks(s, n),
        }
    }

    // Whether record i is live, with a header that comes after `last`.
    fn comes_after(&self, last: &[u8], i: usize) -> bool
        requires { i < self.now.n }
        ensures { result ≡ after (recs self.now.n self.now.s.now) last.now (rec i self.now.s.now) }
    {
        self.marks[i] && slots::compare_header(last, self.s, i).is_lt()
    }

    // The better of the best so far and record i.
    fn better(&self, last: &[u8], best: Option<usize>, i: usize) -> Option<usize>
        requires below { i < self.now.n }
        requires best_value { Scanned self.now.n (after (recs self.now.n self.now.s.now) last.now) (recs i self.now.s.now) best }
        ensures { Scanned self.now.n (after (recs self.now.n self.now.s.now) last.now) (recs (i + 1) self.now.s.now) result }
    {
        if !self.comes_after(last, i) {
            return best;
        }
        let Some(j) = best else {
            return Some(i);
        };
        if slots::compare_headers(self.s, i, j).is_lt() {
            return Some(i);
        }
        best
    }

    // The index of the smallest notice that makes the first due header after `last` due.
    fn first_after(&self, last: &[u8]) -> Option<usize>
        ensures { Scanned self.now.n (after (recs self.now.n self.now.s.now) last.now) (recs self.now.n self.now.s.now) result }
    {
        let mut best = None;
        // By index: the record, its mark and its place are all asked, and `Marks` tells a mark by its place.
        for i in 0..self.n {
            best = self.better(last, best, i);
        }
        best
    }

    // The same for the first due header after that of record j.
    fn next_after(&self, j: usize) -> Option<usize>
        requires { j < self.now.n }
        ensures { Scanned self.now.n (after (recs self.now.n self.now.s.now) (carried (rec j self.now.s.now))) (recs self.now.n self.now.s.now) result }
    {
        self.first_after(&slots::header_at(self.s, j))
    }

    // Whether record i is live with the header of record j.
    fn alike(&self, j: usize, i: usize) -> bool
        requires { (j < self.now.n) × (i < self.now.n) }
        ensures { result ≡ carries (live (recs self.now.n self.now.s.now)) (carried (rec j self.now.s.now)) (rec i self.now.s.now) }
    {
        self.marks[i] && slots::same_header(self.s, i, j)
    }

    // How many records are live with the header of record j.
    fn count_alike(&self, j: usize) -> usize
        requires { j < self.now.n }
        ensures value { result ≡ count_of (live (recs self.now.n self.now.s.now)) (carried (rec j self.now.s.now)) (recs self.now.n self.now.s.now) }
        ensures upper_bound { result ≤ self.now.n }
    {
        let mut count = 0;
        // Counted by hand: under `filter` and `count` it was not proved that the number is `count_of`.
        for i in 0..self.n {
            if self.alike(j, i) {
                count += 1;
            }
        }
        count
    }

    // The rows of the due headers.
    fn due_rows(&self) -> Rows
        ensures number_value { result.answer.number ≡ 0 }
        ensures count_value { result.answer.count ≡ length (rows_of (recs self.now.n self.now.s.now)) }
        ensures rows_value { take result.answer.count result.rows ≡ rows_of (recs self.now.n self.now.s.now) }
        ensures count_bound { result.answer.count ≤ 170 }
    {
        let mut rows = NO_ROWS;
        let mut count = 0;
        let mut next = self.first_after(&[]);
        while let Some(j) = next {
            rows[count] = Row {
                index: j,
                count: self.count_alike(j),
            };
            count += 1;
            next = self.next_after(j);
        }
        Rows {
            answer: Listed { number: 0, count },
            rows,
        }
    }
}

// ---- the hand-out

// Adds the aired record of record j's header to the first n records.
fn air(s: &mut [u8], n: usize, j: usize)
    requires { (j < n) × ((n + 1) * 384 ≤ length s.old) }
    ensures { s.new ≡ added s.old n (aired (carried (rec j s.old))) }
{
    let aired = slots::aired_at(s, j);
    slots::add(s, n, &aired.bytes);
}

// Adds the aired record of the first due header: the index of the smallest notice that makes it due, or the number of a refusal.
fn air_first(s: &mut [u8]) -> Result<usize, u32>
    ensures value { handed_of result ≡ (hand_of s.old).answer }
    ensures s_after { s.new ≡ (hand_of s.old).bytes }
    ensures number_bound { ((handed_of result).number ≤ 17) × ((handed_of result).index < 170) }
{
    let n = board_count(s)?;
    let Some(j) = Marked::new(s, n).first_after(&[]) else {
        return Err(16);
    };
    if s.len() < (n + 1) * Record::SIZE {
        return Err(15);
    }
    air(s, n, j);
    Ok(j)
}

// Hands out the first due header: its aired record is added.
pub fn hand_out(s: &mut [u8]) -> Handed
    ensures value { result ≡ (hand_of s.old).answer }
    ensures s_after { s.new ≡ (hand_of s.old).bytes }
    ensures number_bound { (result.number ≤ 17) × (result.index < 170) }
{
    match air_first(s) {
        Ok(index) => Handed { number: 0, index },
        Err(number) => Handed { number, index: 0 },
    }
}

// ---- the list

// The rows of the due headers where so many may be lent, or the number of a refusal.
fn rows_within(s: &[u8], room: usize) -> Result<Rows, u32>
    ensures value { MatchResult result (λ due. (due.answer ≡ (list_of s.now room).answer) × (take due.answer.count due.rows ≡ (list_of s.now room).rows)) (λ number. list_of s.now room ≡ list_refused number) }
    ensures number_bound { MatchResult result (λ due. (due.answer.number ≤ 17) × (due.answer.count ≤ 170)) (λ number. number ≤ 17) }
{
    let n = board_count(s)?;
    let due = Marked::new(s, n).due_rows();
    if room < due.answer.count {
        return Err(2);
    }
    Ok(due)
}

// Lists the due headers in header order: a row of index and count for each.
pub fn list(s: &[u8], rows: &mut [Row]) -> Listed
    ensures value { result ≡ (list_of s.now (length rows.old)).answer }
    ensures rows_after { rows.new ≡ sets rows.old 0 (list_of s.now (length rows.old)).rows }
    ensures number_bound { (result.number ≤ 17) × (result.count ≤ 170) }
{
    match rows_within(s, rows.len()) {
        Ok(due) => {
            let n = due.answer.count;
            rows[..n].copy_from_slice(&due.rows[..n]);
            due.answer
        }
        Err(number) => Listed { number, count: 0 },
    }
}

// The list into so many rows of an array of its own.
pub fn list_rows(s: &[u8], room: usize) -> Rows
    ensures answer_value { result.answer ≡ (list_of s.now room).answer }
    ensures rows_value { result.rows ≡ sets blanks 0 (list_of s.now room).rows }
    ensures number_bound { (result.answer.number ≤ 17) × (result.answer.count ≤ 170) }
{
    let mut rows = NO_ROWS;
    // a board has no more due headers than it has records
    let most = room.min(MOST);
    let answer = list(s, &mut rows[..most]);
    Rows { answer, rows }
}
