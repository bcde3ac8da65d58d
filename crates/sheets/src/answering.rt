// Lines of a sheet, answered one by one into a buffer.
ghost use Rattle.std.specs.Prelude.{◌≡◌, ◌≤◌, length, take};
ghost use Rattle.reading.specs.Meant.{meant};
ghost use Rattle.writing.specs.Laid.{laid};
ghost use Rattle.printing.specs.Printed.{sheet_printed};
ghost use Rattle.sheets.specs.Answering.{answered_to};

use crate::lines::line_end;
use printing::put_answer;
use reading::checked::read_total_checked;
use reading::ready::AcceptedCard;

// How many bytes of a sheet have been answered, and how many have been printed for them.
#[derive(Clone, Copy)]
pub struct Progress {
    pub read: usize,
    pub printed: usize,
}

// The lines that have their newline, as far as the buffer has room for what is printed for them, which is put at its start.
pub fn answer_lines(card: &AcceptedCard, sheet: &[u8], out: &mut [u8]) -> Progress
    ensures value { result ≡ answered_to (meant card.now.ready) sheet.now (length out.old) }
    ensures out_after { out.new ≡ laid out.old 0 (sheet_printed (meant card.now.ready) (take result.read sheet.now)) }
    ensures read_in_bounds { (result.read ≤ length sheet.now) × (result.printed ≤ length out.new) }
{
    let mut read = 0;
    let mut printed = 0;
    loop {
        let end = line_end(sheet, read);
        if sheet.len() <= end {
            return Progress { read, printed };
        }
        let answer = read_total_checked(card, &sheet[read..end]);
        let next = put_answer(answer, out, printed);
        if next == printed {
            return Progress { read, printed };
        }
        read = end + 1;
        printed = next;
    }
}
