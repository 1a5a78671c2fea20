// A message offered to a board: the records that it adds, and the call.
#![tactic(auto)]

ghost use Rattle.std.specs.Prelude.{◌≡◌, true, false, map, ◌+◌, ◌*◌, ◌≤◌, length};
ghost use Rattle.std.proofs.lemmas.List.Edits.{sets};
ghost use Rattle.values.specs.Value.{value_at};
ghost use Rattle.fields.specs.WorkingFields.{group_ok, references_ok};
ghost use Rattle.fields.specs.References.{words};
ghost use Rattle.fields.specs.WorkingWords.{word_in, word_at};
ghost use Rattle.judgement.specs.WorkingJudged.{judged_of};
ghost use Rattle.records.specs.Record.{notice, withdrawal};
ghost use Rattle.ledger.specs.WorkingBoard.{records};
ghost use Rattle.slots.specs.WorkingSlots.{flat};
ghost use Rattle.offers.specs.WorkingRecords.{own_in, zero_filled_header, named_by, alert_by};
ghost use Rattle.offers.specs.WorkingOffer.{message_offer};

use fields::Word;
use judgement::Judged;
use records::Record;

// What an offer answers: the number; the field beside 7; and how many records were added. No Result: message_offer promises all three, and C reads them.
#[derive(Drop)]
pub struct Offered {
    pub number: u32,
    pub field: u32,
    pub added: usize,
}

// ---- withdrawals

// The withdrawal of the message that a group names.
fn withdrawal_by(t: &[u8]) -> Record
    requires { group_ok t.now ≡ true }
    ensures { result.bytes ≡ withdrawal (named_by t.now) }
{
    let a = fields::comma(t, 0);
    let b = fields::comma(t, a + 1);
    let sent = clock::instant(&t[b + 1..]);
    Record::withdrawal(sent.unwrap_or(0), &t[..a], &t[a + 1..b])
}

// Puts the withdrawal of the next reference as record k.
fn put_withdrawal(s: &[u8], at: usize, batch: &mut [u8], k: usize) -> Word
    requires at_value { group_ok (word_in s.now at) ≡ true }
    requires k_in_bounds { (k + 1) * 384 ≤ length batch.old }
    ensures value { result ≡ word_at s.now at }
    ensures batch_after { batch.new ≡ sets batch.old (k * 384) (withdrawal (named_by (word_in s.now at))) }
{
    let mut group = [0u8; 155];
    let w = fields::next_word(s, at, &mut group);
    let r = withdrawal_by(&group[..w.len]);
    octets::put_bytes(batch, k * Record::SIZE, &r.bytes);
    w
}

// Puts a withdrawal for each reference, from record n on, and says how many records there are then.
// Not an iterator's loop: where the next reference begins, and whether there is one, each tells when it is read.
fn put_withdrawals(s: &[u8], at: usize, batch: &mut [u8; 17 * Record::SIZE], n: usize) -> usize
    requires at_value { references_ok (value_at s.now at) ≡ true }
    requires n_bound { n ≤ 1 }
    ensures value { result ≡ n + length (words (value_at s.now at)) }
    ensures batch_after { batch.new ≡ sets batch.old (n * 384) (flat (map withdrawal (map named_by (words (value_at s.now at))))) }
{
    let mut i = values::lead(s, at);
    let mut k = n;
    loop {
        let w = put_withdrawal(s, i, batch, k);
        k += 1;
        match w.next {
            Some(j) => i = j,
            None => return k,
        }
    }
}

// ---- a message that answers 0

// A message and what is judged of it, where that is 0.
#[derive(Drop)]
struct Passed<'a> {
    s: &'a [u8],
    judged: Judged,
    ghost own: { judged ≡ judged_of s.now },
    ghost zero: { judged.number ≡ 0 },
}

impl Passed<'_> {
    // The notice of a message that is not quiet.
    fn notice(&self) -> Record
        requires { self.now.judged.quiet ≡ false }
        ensures { result.bytes ≡ notice (own_in self.now.s.now self.now.judged.message) (zero_filled_header self.now.judged) }
    {
        let message = self.judged.message;
        let leaf = message.alert.leaf;
        let mut sender_room = [0u8; 64];
        let sender = values::front(self.s, leaf[reads::SENDER].at, &mut sender_room);
        let mut identifier_room = [0u8; 64];
        let identifier = values::front(self.s, leaf[reads::IDENTIFIER].at, &mut identifier_room);
        let mut head = [0u8; Record::FRONT];
        header::put_body(&mut head, 0, self.judged.body);
        Record::notice(message.sent, sender, identifier, &head)
    }

    // Puts the notice, unless the message is quiet, and says how many records there are then.
    fn put_notice(&self, batch: &mut [u8; 17 * Record::SIZE]) -> usize
        ensures value { result ≡ length (alert_by self.now.s.now self.now.judged).carries }
        ensures batch_after { batch.new ≡ sets batch.old 0 (flat (map (notice (own_in self.now.s.now self.now.judged.message)) (alert_by self.now.s.now self.now.judged).carries)) }
    {
        if self.judged.quiet {
            return 0;
        }
        octets::put_bytes(batch, 0, &self.notice().bytes);
        1
    }

    // Puts its records, and says how many there are.
    fn put_records(&self, batch: &mut [u8; 17 * Record::SIZE]) -> usize
        ensures value { result ≡ length (records (alert_by self.now.s.now self.now.judged)) }
        ensures batch_after { batch.new ≡ sets batch.old 0 (flat (records (alert_by self.now.s.now self.now.judged))) }
    {
        let n = self.put_notice(batch);
        let message = self.judged.message;
        if !judgement::asks_references(message.msg_type) {
            return n;
        }
        put_withdrawals(self.s, message.alert.leaf[reads::REFERENCES].at, batch, n)
    }
}

// ---- the call

// Offers a message that answers 0.
fn offer_records(s: &mut [u8], passed: &Passed<'_>) -> Offered
    ensures value { result ≡ (message_offer s.old passed.now.s.now).answer }
    ensures s_after { s.new ≡ (message_offer s.old passed.now.s.now).bytes }
    ensures number_bound { (result.number ≤ 17) × (result.field ≤ 7) × (result.added ≤ 170) }
{
    let mut batch = [0u8; 17 * Record::SIZE];
    let n = passed.put_records(&mut batch);
    let offered = board::offer_records(s, &batch, n);
    Offered {
        number: offered.number,
        field: 0,
        added: offered.added,
    }
}

// Adds the records of a message to the board s, all or none; the board's own number comes before the message's.
pub fn offer(s: &mut [u8], message: &[u8]) -> Offered
    ensures value { result ≡ (message_offer s.old message.now).answer }
    ensures s_after { s.new ≡ (message_offer s.old message.now).bytes }
    ensures number_bound { (result.number ≤ 17) × (result.field ≤ 7) × (result.added ≤ 170) }
{
    let judged = judgement::judge(message);
    if judged.number == 0 {
        return offer_records(s, &Passed { s: message, judged });
    }
    if !board::is_board(s) {
        return Offered {
            number: 1,
            field: 0,
            added: 0,
        };
    }
    Offered {
        number: judged.number,
        field: judged.field,
        added: 0,
    }
}
