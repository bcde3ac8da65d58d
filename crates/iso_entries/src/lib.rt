// The entries for ISO timings, which take no card. Each promises its answer for all arguments, with what every lent byte then holds, and asks nothing.
#![tactic(auto)]

ghost use Rattle.std.specs.Prelude.{◌≡◌};
ghost use Rattle.iso.specs.IsoTimings.{iso_answer, iso_write_answer, iso_written_buffer};

use rules::{Answer, Length};

// An ISO timing.
pub fn read_iso(text: &[u8]) -> Answer
    ensures { result ≡ iso_answer text.now }
{
    iso_reader::reader::read_iso(text)
}

// A length, written as an ISO timing at a place of a buffer.
pub fn write_iso(length: Length, buffer: &mut [u8], place: usize) -> Answer
    ensures value { result ≡ iso_write_answer length buffer.old place }
    ensures buffer_after { buffer.new ≡ iso_written_buffer length buffer.old place }
{
    iso_writer::writer::write_iso(length, buffer, place)
}
