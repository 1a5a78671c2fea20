// A message read once, forward, and judged up to number 9.
#![tactic(auto)]

ghost use Rattle.std.specs.Prelude.{◌≡◌, [], ◌∷◌, ◌++◌, not, ◌+◌, ◌≤◌, length};
ghost use Rattle.octets.specs.Bytes.{every, holds};
ghost use Rattle.fields.specs.WorkingFields.{statuses, scopes, status_place, scope_place};
ghost use Rattle.faults.specs.WorkingField.{lowest};
ghost use Rattle.markup.specs.Tree.{elem_at};
ghost use Rattle.markup.specs.Document.{rooted, doc_at};
ghost use Rattle.message.specs.Root.{colon_at, root_with};
ghost use Rattle.message.specs.WorkingJudged.{place_in, identified, timed, place_among, typed, info_ok, faults_with, number_with};
ghost use Rattle.message.specs.WorkingMessage.{refused_as, judged, alert_judged, judged_root, root_context, of_root, message_says};

use faults::Faults;
use fields::{MsgType, Scope, Status};
use reader::Reader;
use reads::{Alert, Context, Info, Leaf};

// What a message says: its number and field; its msgType; the instant of sent; and what is read in its alert. After 4, 5 and 6 nothing is read.
// Numbers, zeros and no Result: `message_says` has a message of each number, and the table of numbers in crate demands is in them.
#[derive(Clone, Copy)]
pub struct Message {
    pub number: u32,
    pub field: u32,
    pub msg_type: MsgType,
    pub sent: u32,
    pub alert: Alert,
}

// A refusal, of a message of n bytes.
pub fn refused(n: usize, number: u32) -> Message
    ensures { result ≡ refused_as n number }
{
    Message {
        number,
        field: 0,
        msg_type: MsgType::Unknown,
        sent: 0,
        alert: reads::new_state(n).alert,
    }
}

// ---- leaves

// Where the value of a leaf begins that is the only one of its name.
#[tactic(auto, unfolding(crate::specs::WorkingJudged::place_in))]
fn place_of(l: Leaf) -> Option<usize>
    ensures { result ≡ place_in l }
{
    reads::is_only(l).then_some(l.at)
}

fn is_identified(s: &[u8], l: Leaf) -> bool
    ensures { result ≡ identified s.now l }
{
    place_of(l).is_some_and(|at| fields::identity_at(s, at))
}

fn time_of(s: &[u8], l: Leaf) -> Option<u32>
    ensures { result ≡ timed s.now l }
{
    fields::time_at(s, place_of(l)?)
}

fn status_of(s: &[u8], l: Leaf) -> Option<Status>
    ensures { status_place result ≡ place_among s.now statuses l }
{
    fields::status_at(s, place_of(l)?)
}

fn msg_type_of(s: &[u8], l: Leaf) -> MsgType
    ensures { result ≡ typed s.now l }
{
    place_of(l).map_or(MsgType::Unknown, |at| fields::msg_type_at(s, at))
}

fn scope_of(s: &[u8], l: Leaf) -> Option<Scope>
    ensures { scope_place result ≡ place_among s.now scopes l }
{
    fields::scope_at(s, place_of(l)?)
}

// No eventCode, parameter, geocode or resource at fault.
fn are_sound(i: Info) -> bool
    ensures { result ≡ every holds (not i.events.fault ∷ not i.parameters.fault ∷ not i.locations.fault ∷ not i.audio.fault ∷ []) }
{
    !i.events.fault && !i.parameters.fault && !i.locations.fault && !i.audio.fault
}

fn is_info_sound(i: Info) -> bool
    ensures { result ≡ info_ok i }
{
    reads::is_sound(i.leaf[reads::EXPIRES])
        && reads::is_sound(i.leaf[reads::SENDER_NAME])
        && reads::is_sound(i.leaf[reads::DESCRIPTION])
        && reads::is_sound(i.leaf[reads::INSTRUCTION])
        && are_sound(i)
}

// ---- the judgement

fn field_with(
    s: &[u8],
    a: Alert,
    sent: Option<u32>,
    status: Option<Status>,
    msg_type: MsgType,
    scope: Option<Scope>,
) -> u32
    ensures { result ≡ lowest (faults_with s.now a sent (status_place status) msg_type (scope_place scope)) }
{
    Faults {
        identifier: !is_identified(s, a.leaf[reads::IDENTIFIER]),
        sender: !is_identified(s, a.leaf[reads::SENDER]),
        sent: sent.is_none(),
        status: status.is_none(),
        msg_type: msg_type == MsgType::Unknown,
        scope: scope.is_none(),
        other: a.fault || !is_info_sound(a.info),
    }
    .field()
}

fn number_with(field: u32, status: Option<Status>, scope: Option<Scope>, msg_type: MsgType) -> u32
    ensures { result ≡ number_with field (status_place status) (scope_place scope) msg_type }
{
    if field != 0 {
        return 7;
    }
    if status != Some(Status::Actual) || scope != Some(Scope::Public) {
        return 8;
    }
    match msg_type {
        MsgType::Ack | MsgType::Error => 9,
        _ => 0,
    }
}

fn judge(s: &[u8], a: Alert) -> Message
    ensures { result ≡ judged s.now a }
{
    let sent = time_of(s, a.leaf[reads::SENT]);
    let status = status_of(s, a.leaf[reads::STATUS]);
    let msg_type = msg_type_of(s, a.leaf[reads::MSG_TYPE]);
    let scope = scope_of(s, a.leaf[reads::SCOPE]);
    let field = field_with(s, a, sent, status, msg_type, scope);
    Message {
        number: number_with(field, status, scope, msg_type),
        field,
        msg_type,
        sent: sent.unwrap_or(0),
        alert: a,
    }
}

// ---- the root

// Where the colon of the name from `from` to `to` stands; its end where there is none, as `colon_at` says, for there the name before it ends too.
fn colon(s: &[u8], from: usize, to: usize) -> usize
    requires { (from ≤ to) × (to ≤ length s.now) }
    ensures { result ≡ colon_at s.now from to }
{
    from + s[from..to].iter().take_while(|b| **b != b':').count()
}

// Whether the root whose name stands from `from` to `to` is an alert of the prefix p, with the namespace as its attribute of the name `lead` and `rest`.
fn is_root(s: &[u8], p: &[u8], lead: &[u8], rest: &[u8], from: usize, to: usize) -> bool
    requires { (from ≤ to) × (to ≤ length s.now) }
    ensures { result ≡ root_with s.now p.now (lead.now ++ rest.now) from to }
{
    let at = reads::local(s, p, from, to);
    octets::equal(&s[at..to], b"alert")
        && tags::find(s, lead, rest, to, s.len()).is_some_and(|q| tags::value_is(
            s,
            q,
            b"urn:oasis:names:tc:emergency:cap:1.2",
        ))
}

// What is gathered in the root at i under the prefix p, which is accepted or not; None where the root has no end, or more than misc follows it.
fn alert_at(s: &[u8], p: &[u8], i: usize, ok: bool) -> Option<Alert>
    ensures { alert_judged s.now ok result ≡ judged_root s.now p.now ok (rooted s.now (elem_at s.now 12 i)) }
{
    let g = gather::element(s, p, i, 12, root_context(ok));
    let k = markup::misc(s, g.end?)?;
    (k == s.len()).then_some(g.state.alert)
}

// The message whose root at i has the prefix p, and is accepted or not.
fn pass(s: &[u8], p: &[u8], i: usize, ok: bool) -> Message
    ensures { result ≡ judged_root s.now p.now ok (rooted s.now (elem_at s.now 12 i)) }
{
    let Some(alert) = alert_at(s, p, i, ok) else {
        return refused(s.len(), 5);
    };
    if !ok {
        return refused(s.len(), 6);
    }
    judge(s, alert)
}

// What is in a root that is not accepted is skipped. A flag and no closure: it chooses a value, and no step.
fn root_context(ok: bool) -> Context
    ensures { result ≡ root_context ok }
{
    if ok { Context::Root } else { Context::Skipped }
}

// The message whose root begins at i.
#[tactic(auto, using(crate::proofs::Roots::root_ends, crate::proofs::Roots::colon_from))]
fn read_root(s: &[u8], i: usize) -> Message
    requires { i ≤ length s.now }
    ensures { result ≡ of_root s.now (rooted s.now (elem_at s.now 12 i)) }
{
    let from = i + 1;
    let Some(to) = pieces::name(s, from) else {
        return refused(s.len(), 5);
    };
    let c = colon(s, from, to);
    if c < to {
        let end = c + 1;
        let p = &s[from..end];
        let ok = is_root(s, p, b"xmlns:", &s[from..c], from, to);
        return pass(s, p, i, ok);
    }
    let ok = is_root(s, b"", b"xmlns", b"", from, to);
    pass(s, b"", i, ok)
}

// The same for any i: at the end of the message, or past it, no root begins.
fn read_at(s: &[u8], i: usize) -> Message
    ensures { result ≡ of_root s.now (rooted s.now (elem_at s.now 12 i)) }
{
    let n = s.len();
    if n <= i {
        return refused(n, 5);
    }
    read_root(s, i)
}

// ---- the message

// The message from its root on, where the reader stands.
fn read_rest<'a>(r: Reader<'a>) -> Message
    ensures { result ≡ of_root r.entry.src.now (rooted r.entry.src.now (elem_at r.entry.src.now 12 r.entry.at)) }
{
    read_at(r.src, r.at)
}

// The message, by a reader that goes forward from the first byte.
fn read_forward(s: &[u8]) -> Message
    ensures { result ≡ of_root s.now (doc_at s.now) }
{
    read_rest(Reader::new(s).lead())
}

// The length of the longest message.
pub const LONGEST: usize = 32768;

// Reads and judges a message.
pub fn read(s: &[u8]) -> Message
    ensures { result ≡ message_says s.now }
{
    match s.len() {
        1..=LONGEST => read_forward(s),
        n => refused(n, 4),
    }
}
