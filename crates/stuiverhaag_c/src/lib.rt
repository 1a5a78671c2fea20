// The archive for a host in C: each function calls that of the same name of crate stuiverhaag, and has its clauses. include/stuiverhaag.h declares the same.
// A crate is a library or makes an archive, so the seven stand twice: the theorems speak of those of the library.
#![tactic(auto)]

ghost use Rattle.std.specs.Prelude.{◌≡◌, length};
ghost use Rattle.std.proofs.lemmas.List.Edits.{sets};
ghost use Rattle.parts.specs.WorkingAsked.{asked_parts};
ghost use Rattle.header.specs.Header.{read_of, write_of, write_bytes};
ghost use Rattle.outputs.specs.Outputs.{text_answer_of};
ghost use Rattle.canadian.specs.WorkingCanadian.{canadian_of};
ghost use Rattle.convert.specs.WorkingConvert.{header_call, text_call};
ghost use Rattle.convert.specs.Convert.{header_answer_of};
ghost use Rattle.board.specs.WorkingCalls.{hand_of};
ghost use Rattle.offers.specs.WorkingOffer.{message_offer};
ghost use Rattle.stuiverhaag.specs.Packed.{packed_headed, packed_text, packed_read, packed_written, packed_offered, packed_handed};

// Gives the header of a message from the start of `header`, and must-carry, or 2 to 14 and nothing written.
#[unsafe(no_mangle)]
pub extern "C" fn stuiverhaag_header(message: &[u8], station: &[u8], header: &mut [u8]) -> u64
    ensures value { result ≡ packed_headed (header_answer_of (header_call message.now station.now (length header.old))) }
    ensures header_after { header.new ≡ sets header.old 0 (header_call message.now station.now (length header.old)).given.header }
{
    stuiverhaag::stuiverhaag_header(message, station, header)
}

// Gives the text and the uri of a message, from the start of each output, or 2 to 14 and nothing written.
#[unsafe(no_mangle)]
pub extern "C" fn stuiverhaag_text(
    message: &[u8],
    station: &[u8],
    text: &mut [u8],
    uri: &mut [u8],
) -> u64
    ensures value { result ≡ packed_text (text_answer_of (text_call message.now station.now (length text.old) (length uri.old))) }
    ensures text_after { text.new ≡ sets text.old 0 (text_call message.now station.now (length text.old) (length uri.old)).given.text }
    ensures uri_after { uri.new ≡ sets uri.old 0 (text_call message.now station.now (length text.old) (length uri.old)).given.uri }
{
    stuiverhaag::stuiverhaag_text(message, station, text, uri)
}

// Gives the text and the uri of a message in the Canadian mode, from the start of each output, or 2, 4 to 9 and 18 and nothing written.
#[unsafe(no_mangle)]
pub extern "C" fn stuiverhaag_canadian(message: &[u8], text: &mut [u8], uri: &mut [u8]) -> u64
    ensures value { result ≡ packed_text (text_answer_of (canadian_of message.now (length text.old) (length uri.old))) }
    ensures text_after { text.new ≡ sets text.old 0 (canadian_of message.now (length text.old) (length uri.old)).given.text }
    ensures uri_after { uri.new ≡ sets uri.old 0 (canadian_of message.now (length text.old) (length uri.old)).given.uri }
{
    stuiverhaag::stuiverhaag_canadian(message, text, uri)
}

// The parts of a header, or 17.
#[unsafe(no_mangle)]
pub extern "C" fn stuiverhaag_read_header(header: &[u8]) -> u64
    ensures { result ≡ packed_read (read_of header.now) }
{
    stuiverhaag::stuiverhaag_read_header(header)
}

// Writes a header from the start of `out`: its length, or 2, 3 or 17 and nothing written.
#[unsafe(no_mangle)]
pub extern "C" fn stuiverhaag_write_header(
    originator: u32,
    event: &[u8],
    locations: &[u8],
    period: u32,
    day: u32,
    hour: u32,
    minute: u32,
    station: &[u8],
    out: &mut [u8],
) -> u64
    ensures value { result ≡ packed_written (write_of out.old (asked_parts originator event.now locations.now period day hour minute station.now)) }
    ensures out_after { out.new ≡ write_bytes out.old (asked_parts originator event.now locations.now period day hour minute station.now) }
{
    stuiverhaag::stuiverhaag_write_header(
        originator, event, locations, period, day, hour, minute, station, out,
    )
}

// Offers a message: how many records were added, or 1 and 4 to 15 and nothing written.
#[unsafe(no_mangle)]
pub extern "C" fn stuiverhaag_offer(s: &mut [u8], message: &[u8]) -> u64
    ensures value { result ≡ packed_offered (message_offer s.old message.now).answer }
    ensures s_after { s.new ≡ (message_offer s.old message.now).bytes }
{
    stuiverhaag::stuiverhaag_offer(s, message)
}

// Hands out the first due header: the index of the smallest notice that makes it due, or 1, 16 or 15 and nothing written.
#[unsafe(no_mangle)]
pub extern "C" fn stuiverhaag_hand_out(s: &mut [u8]) -> u64
    ensures value { result ≡ packed_handed (hand_of s.old).answer }
    ensures s_after { s.new ≡ (hand_of s.old).bytes }
{
    stuiverhaag::stuiverhaag_hand_out(s)
}
