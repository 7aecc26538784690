// Bytes, numbers and an entry line written to a text from a place on.
ghost use Rattle.std.specs.Prelude.{◌≡◌, [], ◌∷◌, ◌+◌, ◌≤◌, ◌<◌, length};
ghost use Rattle.refusal.specs.Bounds.{max_dimension};
ghost use Rattle.matrix_market.specs.Decimal.{decimal};
ghost use Rattle.requests_writer.specs.Lines.{Wrote, entry_bytes};

fn digit_byte(d: usize) -> u8
    requires { d < 10 }
    ensures { result ≡ 48 + d }
{
    (48 + d) as u8
}

// How many digits x has.
pub fn number_length(x: usize) -> usize
    ensures { result ≡ length (decimal x) }
{
    let mut m = 1;
    let mut y = x;
    while y >= 10 {
        y = y / 10;
        m += 1;
    }
    m
}

// Writes a byte at `place`; returns the place behind it.
pub fn write_byte(b: u8, place: usize, text: &mut [u8]) -> usize
    requires { place < length text.old }
    ensures { Wrote (b ∷ []) place text.old text.new result }
{
    text[place] = b;
    place + 1
}

// Writes bytes from `place` on; returns the place behind them.
pub fn write_bytes(bytes: &[u8], place: usize, text: &mut [u8]) -> usize
    requires { place + length bytes.now ≤ length text.old }
    ensures { Wrote bytes.now place text.old text.new result }
{
    let next = place + bytes.len();
    text[place..next].copy_from_slice(bytes);
    next
}

// Writes x in decimal from `place` on, its last digit first; returns the place behind it.
pub fn write_number(x: usize, place: usize, text: &mut [u8]) -> usize
    requires { place + length (decimal x) ≤ length text.old }
    ensures { Wrote (decimal x) place text.old text.new result }
{
    let next = place + number_length(x);
    let mut i = next - 1;
    let mut y = x;
    while y >= 10 {
        text[i] = digit_byte(y % 10);
        y = y / 10;
        i -= 1;
    }
    text[i] = digit_byte(y);
    next
}

// Writes the line of row r of column c; returns the place behind it.
pub fn write_entry(c: usize, r: usize, place: usize, text: &mut [u8]) -> usize
    requires { (c < max_dimension) × (r < max_dimension) × (place + length (entry_bytes c r) ≤ length text.old) }
    ensures { Wrote (entry_bytes c r) place text.old text.new result }
{
    let row_end = write_number(r + 1, place, text);
    let column_start = write_byte(32, row_end, text);
    let column_end = write_number(c + 1, column_start, text);
    write_byte(10, column_end, text)
}
