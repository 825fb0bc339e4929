// What the two programs print for what a compile answered, as bytes in a lent slice: a program is one read, one compile, one text and one write.
#![tactic(auto)]

ghost use Rattle.std.specs.Prelude.{◌≡◌, [], ◌∷◌, ◌+◌, ◌*◌, ◌≤◌, ◌<◌, length, take};
ghost use Rattle.paper.specs.Programs.{decimal, hex_digit, hex, ok_text, refused_text};
ghost use Rattle.printing.specs.Lines.{Put, answer, fits, Printed};

// Puts one byte. All that put do so from place `at` on, and answer where the next byte goes.
fn put_byte(line: &mut [u8], at: usize, b: u8) -> usize
    requires { at < length line.old }
    ensures { Put line.old line.new at (b ∷ []) result }
{
    line[at] = b;
    at + 1
}

// Puts a byte string.
fn put_text(line: &mut [u8], at: usize, part: &[u8]) -> usize
    requires { at + length part.now ≤ length line.old }
    ensures { Put line.old line.new at part.now result }
{
    let mut end = at;
    let mut i: usize = 0;
    while i < part.len() {
        end = put_byte(line, end, part[i]);
        i += 1;
    }
    end
}

// 0 to 9.
fn digit(n: usize) -> u8
    requires { n < 10 }
    ensures { result ≡ 48 + n }
{
    48 + n as u8
}

// Puts the digits of a number: those before the last are the tenth part's.
fn put_decimal(line: &mut [u8], at: usize, n: usize) -> usize
    requires { at + length (decimal n) ≤ length line.old }
    ensures { Put line.old line.new at (decimal n) result }
{
    if n < 10 {
        return put_byte(line, at, digit(n));
    }
    let end = put_decimal(line, at, n / 10);
    put_byte(line, end, digit(n % 10))
}

// 0 to 9, a to f.
fn hex_digit(n: u8) -> u8
    requires { n < 16 }
    ensures { result ≡ hex_digit n }
{
    if n < 10 { 48 + n } else { 87 + n }
}

// Puts two digits for each of the first `size` bytes of a table.
fn put_hex(line: &mut [u8], at: usize, table: &[u8], size: usize) -> usize
    requires { (size ≤ length table.now) × (at + 2 * size ≤ length line.old) }
    ensures { Put line.old line.new at (hex (take size table.now)) result }
{
    let mut end = at;
    let mut i: usize = 0;
    while i < size {
        let b = table[i];
        end = put_byte(line, end, hex_digit(b / 16));
        end = put_byte(line, end, hex_digit(b % 16));
        i += 1;
    }
    end
}

// Whether the table has its bytes, and a line of that length holds any text for it.
fn has_room(size: usize, held: usize, room: usize) -> bool
    ensures { result ≡ fits size held room }
{
    if held < size {
        return false;
    }
    if room < 60 {
        return false;
    }
    size <= (room - 60) / 2
}

// Two lines: `ok STATES BYTES`, and the table in hex.
fn put_ok(line: &mut [u8], states: usize, size: usize, table: &[u8]) -> usize
    requires { (size ≤ length table.now) × (60 + 2 * size ≤ length line.old) }
    ensures { Put line.old line.new 0 (ok_text (answer 0 0 states size table.now)) result }
{
    let mut end = put_text(line, 0, b"ok ");
    end = put_decimal(line, end, states);
    end = put_text(line, end, b" ");
    end = put_decimal(line, end, size);
    end = put_text(line, end, b"\n");
    end = put_hex(line, end, table, size);
    put_text(line, end, b"\n")
}

// One line: `refused NUMBER at PLACE`.
fn put_refused(line: &mut [u8], number: usize, place: usize) -> usize
    requires { 60 ≤ length line.old }
    ensures { Put line.old line.new 0 (refused_text (answer number place 0 0 [])) result }
{
    let mut end = put_text(line, 0, b"refused ");
    end = put_decimal(line, end, number);
    end = put_text(line, end, b" at ");
    end = put_decimal(line, end, place);
    put_text(line, end, b"\n")
}

// Writes the text for what a compile answered at the front of `line`, and answers how long it is: at most 60 bytes and two for each byte of the table.
// Nothing where the line is shorter than that, or the table than its size. Ruled out (must-fail/): capital hex digits, states and
// size exchanged.
pub fn text(
    number: usize,
    place: usize,
    states: usize,
    size: usize,
    table: &[u8],
    line: &mut [u8],
) -> usize
    ensures { Printed (answer number place states size table.now) line.old line.new result }
{
    if !has_room(size, table.len(), line.len()) {
        return 0;
    }
    if number == 0 {
        return put_ok(line, states, size, table);
    }
    put_refused(line, number, place)
}
