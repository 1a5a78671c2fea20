// The case line `message`: what is found in a message.
use crate::lines::{self, Answer};
use fields::MsgType;
use reads::{Alert, Info, Kept, Leaf, Locations};
use std::fmt;
use std::fmt::Write;

// The longest message that is read, which is longer than a legal one.
const LONGEST: usize = message::LONGEST + 2;

// A number, a colon and the first 40 characters of the value at `place`, in UTF-8, in hexadecimal.
fn put_value(s: &[u8], number: u32, place: usize, out: &mut Answer) -> fmt::Result {
    let mut value = [0u8; 160];
    let first = values::lead(s, place);
    let spelled = values::spell(s, first, 40, &mut value, 0);
    write!(out, " {number}:")?;
    out.put_hex(lines::front(&value, spelled.end));
    Ok(())
}

fn put_leaves(s: &[u8], leaves: &[Leaf], out: &mut Answer) -> fmt::Result {
    for l in leaves {
        put_value(s, l.count, l.at, out)?;
    }
    Ok(())
}

fn put_locations(e: &Locations, out: &mut Answer) -> fmt::Result {
    write!(out, " {}:", e.count)?;
    lines::put_locations(lines::front(&e.list, e.count), out)?;
    if e.bad {
        write!(out, ":bad")?;
    }
    Ok(())
}

// expires, senderName, description, instruction, the SAME events, EAS-ORG, EASText and EAS-Must-Carry; then locations and audio.
fn put_info(s: &[u8], i: &Info, out: &mut Answer) -> fmt::Result {
    let leaves = [
        i.leaf[reads::EXPIRES],
        i.leaf[reads::SENDER_NAME],
        i.leaf[reads::DESCRIPTION],
        i.leaf[reads::INSTRUCTION],
        i.events.same,
        i.parameters.leaf[reads::EAS_ORG],
        i.parameters.leaf[reads::EAS_TEXT],
        i.parameters.leaf[reads::MUST_CARRY],
    ];
    put_leaves(s, &leaves, out)?;
    put_locations(&i.locations, out)?;
    put_value(s, i.audio.number, i.audio.uri, out)
}

// identifier, sender and references; then the info that is kept.
fn put_alert(s: &[u8], a: &Alert, out: &mut Answer) -> fmt::Result {
    let leaves = [
        a.leaf[reads::IDENTIFIER],
        a.leaf[reads::SENDER],
        a.leaf[reads::REFERENCES],
    ];
    put_leaves(s, &leaves, out)?;
    put_info(s, &a.info, out)
}

// What a case line calls the info that is kept: 0 for none, 1 for the first, 2 for the one that is selected.
fn kept_number(k: Kept) -> u32 {
    match k {
        Kept::Nothing => 0,
        Kept::First => 1,
        Kept::Selected => 2,
    }
}

// What a case line calls a msgType: 1 to 5 in the order of CAP 1.2, and 0 for one unknown to it.
fn msg_type_number(t: MsgType) -> u32 {
    match t {
        MsgType::Unknown => 0,
        MsgType::Alert => 1,
        MsgType::Update => 2,
        MsgType::Cancel => 3,
        MsgType::Ack => 4,
        MsgType::Error => 5,
    }
}

// Number of 4 to 10, whatever else a header asks, and field; and, of a message that is read, its msgType's number, the instant of sent, and what is in its alert.
fn put_found(s: &[u8], out: &mut Answer) -> fmt::Result {
    let j = judgement::judge(s);
    let m = j.message;
    let number = if 10 < j.number { 0 } else { j.number };
    write!(out, "{number} {}", m.field)?;
    // Nothing is read under 4, 5 and 6.
    if (4..=6).contains(&m.number) {
        return Ok(());
    }
    let msg_type = msg_type_number(m.msg_type);
    let kept = kept_number(m.alert.kept);
    write!(out, " {msg_type} {} {kept}", m.sent)?;
    put_alert(s, &m.alert, out)
}

pub(crate) fn found(asked: &[u8], out: &mut Answer) -> Option<()> {
    let mut message = [0u8; LONGEST];
    put_found(lines::unhex(asked, &mut message)?, out).ok()
}
