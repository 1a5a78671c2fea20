// What a header asks of a message, numbers 10 to 14: references, quiet Cancels, and the parts of the header that the message gives.
#![tactic(auto)]

ghost use Rattle.std.specs.Prelude.{◌≡◌, ◌<◌, ◌-◌};
ghost use Rattle.octets.specs.Bytes.{every, holds};
ghost use Rattle.clock.specs.Time.{span};
ghost use Rattle.judgement.specs.WorkingRules.{asks_references, referenced, lacks_references, event_of, origin_of, located, seconds_to, unplaced, complete, quiet_of};
ghost use Rattle.judgement.specs.WorkingJudged.{without, refused_before, body_with, answered, alerted, judged_of};

use fields::MsgType;
use message::Message;
use parts::{Body, Originator};
use reads::{Leaf, Locations};

// A message with its number and field of 4 to 14; whether it is a quiet Cancel; and, after 0 where it is not, the header through the dash after
// JJJHHMM. The numbers are the ones that a caller is answered, and each refusal has a message and the body `no_body`: `judged_of` promises both
// for every message, and the theorems judged-number and judge-determined speak of them.
#[derive(Clone, Copy)]
pub struct Judged {
    pub number: u32,
    pub field: u32,
    pub quiet: bool,
    pub body: Body,
    pub message: Message,
}

// ---- references

// Whether a message of this msgType is asked for references.
pub fn asks_references(t: MsgType) -> bool
    ensures { result ≡ asks_references t }
{
    matches!(t, MsgType::Update | MsgType::Cancel)
}

fn has_references(s: &[u8], l: Leaf) -> bool
    ensures { result ≡ referenced s.now l }
{
    reads::is_only(l) && fields::references_at(s, l.at)
}

fn lacks_references(s: &[u8], m: Message) -> bool
    ensures { result ≡ lacks_references s.now m }
{
    asks_references(m.msg_type) && !has_references(s, m.alert.leaf[reads::REFERENCES])
}

// ---- what an info says for a header

// The event of the SAME eventCode.
fn event_of(s: &[u8], l: Leaf) -> Option<[u8; 3]>
    ensures { result ≡ event_of s.now l }
{
    if l.count != 1 {
        return None;
    }
    let mut room = [0u8; 4];
    let code = values::front(s, l.at, &mut room);
    if !parts::event_ok(code) {
        return None;
    }
    Some(parts::bytes_at(code, 0))
}

// The originator of the EAS-ORG parameter.
fn origin_of(s: &[u8], l: Leaf) -> Option<Originator>
    ensures { result ≡ origin_of s.now l }
{
    if l.count == 0 {
        return Some(Originator::Civ);
    }
    let mut room = [0u8; 4];
    let code = values::front(s, l.at, &mut room);
    if code.len() != 3 {
        return None;
    }
    parts::originator_of(code, 0)
}

fn is_located(l: Locations) -> bool
    ensures { result ≡ located l }
{
    !l.bad && l.count != 0
}

fn is_unplaced(l: Locations) -> bool
    ensures { result ≡ unplaced l }
{
    !l.bad && l.count == 0
}

// The seconds from sent to the expires leaf; 0 and no Option where it is absent, malformed or not after sent, as `seconds_to` says, for each of them is
// number 14.
fn seconds_to(s: &[u8], l: Leaf, sent: u32) -> u32
    ensures { result ≡ seconds_to s.now l sent }
{
    if l.count == 0 {
        return 0;
    }
    fields::time_at(s, l.at).unwrap_or(0).saturating_sub(sent)
}

// Whether there is an info, a SAME eventCode, a SAME geocode and an expires.
fn is_complete(m: Message) -> bool
    ensures { result ≡ every holds (complete m) }
{
    let info = m.alert.info;
    !reads::is_nothing(m.alert.kept)
        && info.events.same.count != 0
        && !is_unplaced(info.locations)
        && info.leaf[reads::EXPIRES].count != 0
}

fn is_quiet(m: Message) -> bool
    ensures { result ≡ quiet_of m }
{
    m.msg_type == MsgType::Cancel && !is_complete(m)
}

// ---- the judgement

fn no_header(m: Message, number: u32, quiet: bool) -> Judged
    ensures { result ≡ without m number quiet }
{
    Judged {
        number,
        field: m.field,
        quiet,
        body: parts::no_body(),
        message: m,
    }
}

// A refusal before anything is read of a message of n bytes.
pub fn refused(n: usize, number: u32) -> Judged
    ensures { result ≡ refused_before n number }
{
    no_header(message::refused(n, number), number, false)
}

// sent is a number, with what `stamp_of` asks of it: the definitions take it so.
fn body_with(o: Originator, event: [u8; 3], l: Locations, seconds: u32, sent: u32) -> Body
    requires { sent < span }
    ensures { result ≡ body_with o event l seconds sent }
{
    let on = clock::stamp_of(sent);
    // a variable, for the borrow checker covers no array that goes from a field straight into another
    let locations = l.list;
    Body {
        originator: o,
        event,
        count: l.count,
        locations,
        period: clock::period(seconds),
        day: on.day,
        hour: on.hour,
        minute: on.minute,
    }
}

// The body of a message that passed 4 to 10 and is not quiet, or the first of the numbers 11 to 14 that is against it.
fn body_of(s: &[u8], m: Message) -> Result<Body, u32>
    requires { m.sent < span }
    ensures { answered m result ≡ alerted s.now m }
{
    let info = m.alert.info;
    let event = event_of(s, info.events.same).ok_or(11u32)?;
    let originator = origin_of(s, info.parameters.leaf[reads::EAS_ORG]).ok_or(12u32)?;
    if !is_located(info.locations) {
        return Err(13);
    }
    let seconds = seconds_to(s, info.leaf[reads::EXPIRES], m.sent);
    if seconds == 0 {
        return Err(14);
    }
    Ok(body_with(originator, event, info.locations, seconds, m.sent))
}

// The judgement of such a message.
fn alert_of(s: &[u8], m: Message) -> Judged
    requires { m.sent < span }
    ensures { result ≡ alerted s.now m }
{
    match body_of(s, m) {
        Ok(body) => Judged {
            number: 0,
            field: m.field,
            quiet: false,
            body,
            message: m,
        },
        Err(number) => no_header(m, number, false),
    }
}

// Judges a message.
pub fn judge(s: &[u8]) -> Judged
    ensures { result ≡ judged_of s.now }
{
    let m = message::read(s);
    if m.number != 0 {
        return no_header(m, m.number, false);
    }
    if lacks_references(s, m) {
        return no_header(m, 10, false);
    }
    if is_quiet(m) {
        return no_header(m, 0, true);
    }
    alert_of(s, m)
}
