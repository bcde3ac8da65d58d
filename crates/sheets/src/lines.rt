// Where a line of a sheet ends.
ghost use Rattle.std.specs.Prelude.{◌≡◌, ◌==◌, position};
ghost use Rattle.printing.specs.Lines.{line_end, newline};

use printing::NEWLINE;

// How many bytes stand before the first newline.
fn line_size(bytes: &[u8]) -> Option<usize>
    ensures { result ≡ position (λ b. b == newline) bytes.now }
{
    bytes.iter().position(|byte| *byte == NEWLINE)
}

// The place of the next newline from here on, or the sheet's end; a place beyond the end stays where it is.
pub fn line_end(sheet: &[u8], from: usize) -> usize
    ensures { result ≡ line_end sheet.now from }
{
    if sheet.len() <= from {
        return from;
    }
    match line_size(&sheet[from..]) {
        Some(size) => from + size,
        None => sheet.len(),
    }
}
