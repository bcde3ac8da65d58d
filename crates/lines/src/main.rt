// The line program: texts from standard input, one a line, and for each a line with number, position, sign, seconds and nanoseconds
// of its total under card A, without a table of the line's and without numerals. What a line is and what is printed for it is proved in `sheets`; here bytes are moved.
#![tactic(auto)]

ghost use Rattle.std.specs.Prelude.{◌≤◌, length};

use answers::refusal;
use card::table::card_check;
use lists::lines::first_bytes;
use lists::printed::print_answer;
use lists::streams::STDOUT;
use printing::NEWLINE;
use reading::ready::AcceptedCard;
use settings::fields::words_of;
use sheets::answering::answer_lines;
use sheets::keeping::keep;
use std::io::{Read, Stdin};

// Why no more is read: standard input has ended, or standard output is closed.
#[derive(Clone, Copy)]
enum End {
    Input,
    Output,
}

// The lines of a chunk that have their newline, answered and written, and how many bytes they are.
fn answer_chunk(card: &AcceptedCard, chunk: &[u8], out: &mut [u8]) -> Result<usize, End> {
    let mut answered = 0;
    while answered < chunk.len() {
        let more = answer_lines(card, &chunk[answered..], out);
        if !io::write_all(STDOUT, first_bytes(out, more.printed)) {
            return Err(End::Output);
        }
        if more.read == 0 {
            return Ok(answered);
        }
        answered += more.read;
    }
    Ok(answered)
}

// What one read gives, and nothing where standard input ends or cannot be read.
fn read_more(input: &mut Stdin, room: &mut [u8]) -> usize
    ensures { result ≤ length room.new }
{
    input.read(room).unwrap_or(0)
}

// What is read behind the bytes that were kept, answered; the bytes that are kept of it are put at the chunk's start, and how many they are is
// handed back.
fn take_turn(
    input: &mut Stdin,
    card: &AcceptedCard,
    chunk: &mut [u8],
    kept: usize,
    out: &mut [u8],
) -> Result<usize, End> {
    if chunk.len() <= kept {
        return Err(End::Input);
    }
    let read = read_more(input, &mut chunk[kept..]);
    if read == 0 {
        return Err(End::Input);
    }
    let end = kept + read;
    let answered = answer_chunk(card, first_bytes(chunk, end), out)?;
    Ok(keep(chunk, answered, end))
}

// A last line without newline counts unless it is empty: it is answered as if it had one.
fn answer_last(card: &AcceptedCard, chunk: &mut [u8], kept: usize, out: &mut [u8]) {
    if 0 < kept && kept < chunk.len() {
        chunk[kept] = NEWLINE;
        let _ = answer_chunk(card, first_bytes(chunk, kept + 1), out);
    }
}

// Every line of standard input. A turn writes what it has answered before the next one reads. No input takes so many turns, but a proved loop has
// to end.
fn answer_sheet(input: &mut Stdin, card: &AcceptedCard) {
    let mut chunk = io::large_buffer();
    let mut out = io::large_buffer();
    let mut kept = 0;
    for _ in 0..u64::MAX {
        match take_turn(input, card, &mut chunk, kept, &mut out) {
            Ok(count) => kept = count,
            Err(End::Input) => return answer_last(card, &mut chunk, kept, &mut out),
            Err(End::Output) => return,
        }
    }
}

fn main(rt: HostRuntime) {
    let mut input = rt.stdin();
    let settings = words_of(card_a::settings());
    let table = card_a::table();
    match card_check(&settings, &table, b"", b"") {
        Ok(()) => answer_sheet(
            &mut input,
            &AcceptedCard::without_indexes(&settings, &table, b"", b""),
        ),
        Err(cause) => print_answer(refusal(cause)),
    }
}
