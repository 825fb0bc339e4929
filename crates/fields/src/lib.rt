// Packed fields, most significant bit first: bit 0 is the high bit of byte 0. Read through a window of eight bytes, written bit by bit.
#![tactic(auto)]

ghost use Rattle.std.specs.Prelude.{◌≡◌, ℕ, ◌+◌, ◌*◌, ◌^◌, ◌≤◌, ◌<◌, length, get_or, set};
ghost use Rattle.std.proofs.Math.Seq.{paste};
ghost use Rattle.paper.specs.Table.{bits};
ghost use Rattle.paper.specs.IsTable.{bits_of, field};
ghost use Rattle.fields.specs.Window.{put_bit};
ghost use Rattle.fields.specs.Runs.{Puts};

// The eight bytes from a place on, zeros past the end. Where all eight are there, they are one load.
fn eight_at(s: &[u8], at: usize) -> [u8; 8]
    requires { at ≤ length s.now }
    ensures { (k : ℕ) → k < 8 → get_or result k 0 ≡ get_or s.now (at + k) 0 }
{
    let rest = &s[at..];
    match rest.first_chunk::<8>() {
        Some(bytes) => *bytes,
        None => {
            let mut bytes = [0; 8];
            bytes[..rest.len()].copy_from_slice(rest);
            bytes
        }
    }
}

// The field of `width` bits from a place on: of the window that begins with its byte, what stands above the bits behind it.
pub fn get(s: &[u8], bit: usize, width: usize) -> usize
    requires { (width ≤ 32) × (bit + width ≤ 8 * length s.now) }
    ensures { result ≡ field s.now bit width }
{
    let window = usize::from_be_bytes(eight_at(s, bit >> 3));
    // one bit fewer, and that one by itself: a shift by 64 is none
    let behind = 63 - (bit & 7) - width;
    ((window >> behind) >> 1) & ((1 << width) - 1)
}

// A packed-field reader: a table and a place in it.
#[derive(Clone, Copy)]
pub struct FieldReader<'a> {
    pub table: &'a [u8],
    pub bit: usize,
}

impl<'a> FieldReader<'a> {
    // A reader at a place.
    pub fn new(table: &'a [u8], bit: usize) -> FieldReader<'a>
        ensures { (result.table ≡ table.entry) × (result.bit ≡ bit) }
    {
        FieldReader { table, bit }
    }

    // The field of `width` bits at the reader's place.
    pub fn next(&self, width: usize) -> usize
        requires { (width ≤ 32) × (self.now.bit + width ≤ 8 * length self.now.table.now) }
        ensures { result ≡ field self.now.table.now self.now.bit width }
    {
        get(self.table, self.bit, width)
    }
}

// A byte with the bit at a place from the low end put to `on`: what stands above it, the bit, what stands below.
fn with_bit(x: usize, place: usize, on: usize) -> usize
    requires { (x < 256) × ((place < 8) × (on < 2)) }
    ensures { result ≡ put_bit x place on }
{
    let up = place + 1;
    ((x >> up) << up) | (on << place) | (x & ((1 << place) - 1))
}

// Puts one bit.
fn put_bit(out: &mut [u8], bit: usize, on: usize)
    requires { (bit < 8 * length out.old) × (on < 2) }
    ensures { bits_of out.new ≡ set (bits_of out.old) bit on }
{
    let at = bit >> 3;
    let place = 7 - (bit & 7);
    out[at] = with_bit(usize::from(out[at]), place, on) as u8;
}

// Puts the `width` low bits of a number: exactly these bits change.
pub fn put(out: &mut [u8], bit: usize, width: usize, v: usize)
    requires { (width ≤ 12) × ((bit + width ≤ 8 * length out.old) × (bit < 2 ^ 32)) }
    ensures { bits_of out.new ≡ paste (bits_of out.old) bit (bits width v) width }
{
    for k in 0..width {
        put_bit(out, bit + k, (v >> (width - 1 - k)) & 1);
    }
}

// A packed-field writer: bytes to write to, and the place behind what is written.
#[derive(Drop)]
pub struct FieldWriter<'a> {
    pub out: &'a mut [u8],
    pub bit: usize,
}

impl<'a> FieldWriter<'a> {
    // Puts a field behind what is written.
    pub fn append(&mut self, width: usize, v: usize)
        requires { (width ≤ 12) × ((self.old.bit + width ≤ 8 * length self.old.out.now) × (self.old.bit < 2 ^ 32)) }
        ensures { Puts self.old self.new (bits width v) width }
    {
        put(self.out, self.bit, width, v);
        self.bit += width;
    }
}
