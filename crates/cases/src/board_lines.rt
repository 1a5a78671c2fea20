// The case lines `offer`, `handout` and `list`.
use crate::lines::{self, Answer, ROOM};
use std::fmt::Write;

// ---- offer BOARD MESSAGE

pub(crate) fn offer(asked: &[u8], out: &mut Answer) -> Option<()> {
    let mut board = [0u8; ROOM];
    let mut message = [0u8; ROOM];
    let mut fields = asked.splitn(2, lines::is_space);
    let board = lines::unhex(fields.next()?, &mut board)?;
    let message = lines::unhex(fields.next()?, &mut message)?;
    let o = offers::offer(board, message);
    write!(out, "{} {} {} ", o.number, o.field, o.added).ok()?;
    out.put_hex(board);
    Some(())
}

// ---- handout BOARD

pub(crate) fn hand_out(asked: &[u8], out: &mut Answer) -> Option<()> {
    let mut board = [0u8; ROOM];
    let board = lines::unhex(asked, &mut board)?;
    let h = board::hand_out(board);
    write!(out, "{} {} ", h.number, h.index).ok()?;
    out.put_hex(board);
    Some(())
}

// ---- list BOARD CAP

pub(crate) fn list(asked: &[u8], out: &mut Answer) -> Option<()> {
    let mut fields = asked.splitn(2, lines::is_space);
    let mut board = [0u8; ROOM];
    let board = lines::unhex(fields.next()?, &mut board)?;
    let cap = lines::cap(fields.next()?)?;
    let l = board::list_rows(board, cap);
    write!(out, "{} {} ", l.answer.number, l.answer.count).ok()?;
    let rows = lines::front(&l.rows, l.answer.count);
    lines::put_list(
        rows,
        |row, out| write!(out, "{}:{}", row.index, row.count),
        out,
    )
    .ok()
}
