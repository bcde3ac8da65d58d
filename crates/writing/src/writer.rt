// The writer's entry: nothing is written before it is known that all fits.
ghost use Rattle.std.specs.Prelude.{◌≡◌, ◌+◌, ◌≤◌, length};
ghost use Rattle.rules.specs.WriterAndShiftTotal.{sign_byte};
ghost use Rattle.rules.specs.WhatEveryEntryOwes.{write_answer, written_buffer};
ghost use Rattle.writing.specs.Laid.{laid};
ghost use Rattle.writing.specs.Forms.{fraction_size, form_size, behind_point, form_bytes};

use crate::digits::{Decimal, fraction, put, whole};
use answers::{done, refusal};
use lengths::duration::well_formed;
use rules::{Answer, Length, Refusal};

pub fn sign_byte(negative: bool) -> u8
    ensures { result ≡ sign_byte negative }
{
    if negative { b'-' } else { b'+' }
}

// How many bytes the decimals take: none, or a point and they.
pub fn fraction_size(count: usize) -> usize
    requires { count ≤ 9 }
    ensures { result ≡ fraction_size count }
{
    if count == 0 { 0 } else { 1 + count }
}

// The point and the decimals, if there are any.
pub fn put_fraction(decimals: Decimal, buffer: &mut [u8], point: usize)
    requires { point + fraction_size decimals.count ≤ length buffer.old }
    ensures { buffer.new ≡ laid buffer.old point (behind_point decimals) }
{
    if decimals.count == 0 {
        return;
    }
    buffer[point] = b'.';
    put(decimals, buffer, point + 1);
}

// The sign, the seconds and the decimals.
fn put_form(sign: u8, seconds: Decimal, decimals: Decimal, buffer: &mut [u8], place: usize)
    requires { place + form_size seconds.count decimals.count ≤ length buffer.old }
    ensures { buffer.new ≡ laid buffer.old place (form_bytes sign seconds decimals) }
{
    buffer[place] = sign;
    let first = place + 1;
    put(seconds, buffer, first);
    put_fraction(decimals, buffer, first + seconds.count);
}

pub fn write_length(length: Length, buffer: &mut [u8], place: usize) -> Answer
    ensures value { result ≡ write_answer length buffer.old place }
    ensures buffer_after { buffer.new ≡ written_buffer length buffer.old place }
{
    if !well_formed(length) {
        return refusal(Refusal::Malformed);
    }
    if place > buffer.len() {
        return refusal(Refusal::Beyond(place));
    }
    let seconds = whole(length.seconds);
    let decimals = fraction(length.nanoseconds);
    let size = 1 + seconds.count + fraction_size(decimals.count);
    if size > buffer.len() - place {
        return refusal(Refusal::NoRoom(place));
    }
    put_form(sign_byte(length.negative), seconds, decimals, buffer, place);
    done(place + size, length)
}
