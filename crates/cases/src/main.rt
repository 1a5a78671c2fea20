// Answers case lines: one line on standard output for each line on standard input.
#![tactic(auto)]

mod board_lines;
mod convert_lines;
mod header_lines;
mod lines;
mod message_lines;

use crate::lines::{Answer, Buffer, Line};
use std::io;
use std::io::Read;

// As many bytes as are read at a time.
const PIECE: usize = 65536;

// The answer to a line, if it is one of the known ones.
fn answer(line: &[u8], out: &mut Answer) -> Option<()> {
    let mut fields = line.splitn(2, lines::is_space);
    let call = fields.next()?;
    let asked = fields.next()?;
    match str::from_utf8(call).ok()? {
        "read" => header_lines::read(asked, out),
        "write" => header_lines::write(asked, out),
        "header" => convert_lines::header(asked, out),
        "text" => convert_lines::text(asked, out),
        "canadian" => convert_lines::canadian(asked, out),
        "offer" => board_lines::offer(asked, out),
        "handout" => board_lines::hand_out(asked, out),
        "list" => board_lines::list(asked, out),
        "program" => convert_lines::program(asked, out),
        "message" => message_lines::found(asked, out),
        _ => None,
    }
}

// A line that fills all the room is too long, and none of the known ones.
fn answer_line(rt: &impl Print, line: &Line, out: &mut Answer) -> io::Result<()> {
    out.clear();
    if line.is_full() || answer(line.bytes(), out).is_none() {
        out.put(b"?");
    }
    out.put(b"\n");
    rt.write_all(out.bytes())
}

// Takes what was read behind the bytes of a line begun, and answers each line that it ends.
fn take_all(rt: &impl Print, read: &[u8], line: &mut Line, out: &mut Answer) -> io::Result<()> {
    for b in read {
        if *b == b'\n' {
            answer_line(rt, line, out)?;
            line.clear();
        } else {
            line.put(&[*b]);
        }
    }
    Ok(())
}

// A proved loop has to end, and nothing says that the input does: it has more turns than any run uses up.
fn take_input(rt: &(impl Input + Print), line: &mut Line, out: &mut Answer) -> io::Result<()> {
    let mut input = rt.reader();
    let mut piece = [0u8; PIECE];
    for _ in 0..u64::MAX {
        let got = input.read(&mut piece)?;
        if got == 0 {
            return Ok(());
        }
        take_all(rt, &piece[..got], line, out)?;
    }
    Ok(())
}

fn main(rt: HostRuntime) -> io::Result<()> {
    let mut line = Buffer::new();
    let mut out = Buffer::new();
    take_input(&rt, &mut line, &mut out)?;
    if !line.bytes().is_empty() {
        answer_line(&rt, &line, &mut out)?;
    }
    Ok(())
}
