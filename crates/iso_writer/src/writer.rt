// The entry that writes an ISO timing: hours, minutes and seconds, those of zero left out. Nothing is written before it is known that
// all fits.
ghost use Rattle.std.specs.Prelude.{◌≡◌, ◌+◌, ◌≤◌, ◌<◌, ◌^◌, length};
ghost use Rattle.iso.specs.IsoTimings.{iso_written, iso_write_answer, iso_written_buffer};
ghost use Rattle.writing.specs.Laid.{laid};
ghost use Rattle.iso_writer.specs.Components.{shown};
ghost use Rattle.iso_writer.specs.Forms.{part_size, part_bytes, written_part, form_size, form_bytes};

use crate::part::Part;
use answers::{done, refusal};
use lengths::duration::well_formed;
use rules::{Answer, Length, Refusal};
use writing::digits::{fraction, put, whole};
use writing::writer::{fraction_size, put_fraction};

// A component of zero is left out, unless it is needed.
#[tactic(auto, unfolding(crate::specs::Components::shown))]
fn shows(needed: bool, number: u64, nanoseconds: u32) -> bool
    ensures { result ≡ shown needed number nanoseconds }
{
    needed || number != 0 || nanoseconds != 0
}

fn counted_part(letter: u8, needed: bool, number: u64, nanoseconds: u32) -> Option<Part>
    requires { nanoseconds < 10 ^ 9 }
    ensures { part_bytes result ≡ written_part letter needed number nanoseconds }
{
    if !shows(needed, number, nanoseconds) {
        return None;
    }
    Some(Part {
        whole: whole(number),
        decimals: fraction(nanoseconds),
        letter,
    })
}

// Hours, and minutes and seconds below 60. Seconds are needed where there is nothing else to write, which is where the length has none.
// Their digits are counted once, for the room that they take and to be put.
fn counted(length: Length) -> [Option<Part>; 3]
    requires { length.nanoseconds < 10 ^ 9 }
    ensures { form_bytes result ≡ iso_written length }
{
    let seconds = length.seconds;
    [
        counted_part(b'H', false, seconds / 3_600, 0),
        counted_part(b'M', false, seconds / 60 % 60, 0),
        counted_part(b'S', seconds == 0, seconds % 60, length.nanoseconds),
    ]
}

// How many bytes a component takes.
#[tactic(auto, using(writing::specs::Forms::fraction_size_most))]
fn part_size(part: &Option<Part>) -> usize
    ensures { result ≡ part_size part.now }
{
    match part {
        None => 0,
        Some(part) => part.whole.count + fraction_size(part.decimals.count) + 1,
    }
}

fn size(form: &[Option<Part>; 3]) -> usize
    ensures { result ≡ form_size form.now }
{
    let mut size = 2;
    for part in form {
        size += part_size(part);
    }
    size
}

// The digits, the decimals behind a point, and the letter; and the place after it.
fn put_part(part: &Option<Part>, buffer: &mut [u8], place: usize) -> usize
    requires { place + part_size part.now ≤ length buffer.old }
    ensures value { result ≡ place + part_size part.now }
    ensures buffer_after { buffer.new ≡ laid buffer.old place (part_bytes part.now) }
{
    let Some(part) = part else {
        return place;
    };
    put(part.whole, buffer, place);
    let point = place + part.whole.count;
    put_fraction(part.decimals, buffer, point);
    let last = point + fraction_size(part.decimals.count);
    buffer[last] = part.letter;
    last + 1
}

// `PT`, and the components behind it.
fn put_form(form: &[Option<Part>; 3], buffer: &mut [u8], place: usize)
    requires { place + form_size form.now ≤ length buffer.old }
    ensures { buffer.new ≡ laid buffer.old place (form_bytes form.now) }
{
    buffer[place] = b'P';
    let clock = place + 1;
    buffer[clock] = b'T';
    let mut next = clock + 1;
    for part in form {
        next = put_part(part, buffer, next);
    }
}

pub fn write_iso(length: Length, buffer: &mut [u8], place: usize) -> Answer
    ensures value { result ≡ iso_write_answer length buffer.old place }
    ensures buffer_after { buffer.new ≡ iso_written_buffer length buffer.old place }
{
    if !well_formed(length) {
        return refusal(Refusal::Malformed);
    }
    if length.negative {
        return refusal(Refusal::NegativeForbidden(0));
    }
    if place > buffer.len() {
        return refusal(Refusal::Beyond(place));
    }
    let form = counted(length);
    let size = size(&form);
    if size > buffer.len() - place {
        return refusal(Refusal::NoRoom(place));
    }
    put_form(&form, buffer, place);
    done(place + size, length)
}
