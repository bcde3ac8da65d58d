// The two entries for ISO timings.
#![tactic(auto)]

ghost use Rattle.std.specs.Prelude.{◌≡◌};
ghost use Rattle.iso.specs.IsoTimings.{iso_answer, iso_write_answer, iso_written_buffer};
ghost use Rattle.c_words.specs.Words.{length_of, answer_words};

use c_words::{length_of, put_answer};
use iso_entries::{read_iso, write_iso};

#[unsafe(no_mangle)]
pub extern "C" fn herovinga_read_iso(text: &[u8], answer: &mut [u64; 4]) -> u8
    ensures value { result ≡ (iso_answer text.now).number }
    ensures answer_after { answer.new ≡ answer_words (iso_answer text.now) }
{
    put_answer(read_iso(text), answer)
}

#[unsafe(no_mangle)]
pub extern "C" fn herovinga_write_iso(
    length: &[u64; 3],
    buffer: &mut [u8],
    place: usize,
    answer: &mut [u64; 4],
) -> u8
    ensures value { result ≡ (iso_write_answer (length_of length.now) buffer.old place).number }
    ensures answer_after { answer.new ≡ answer_words (iso_write_answer (length_of length.now) buffer.old place) }
    ensures buffer_after { buffer.new ≡ iso_written_buffer (length_of length.now) buffer.old place }
{
    let written = write_iso(length_of(length), buffer, place);
    put_answer(written, answer)
}
