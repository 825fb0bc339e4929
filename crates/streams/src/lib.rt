// How the programs read: as many bytes as a buffer holds, or as the input has, and an input of frames. A reader over memory knows its bytes, and then the
// clauses say which were read; standard input does not, and they give counts alone. Nothing is allocated. An error is the reader's own, and leaves what was
// read before it at the buffer's front; which errors a reader gives no clause of std says. Ruled out (must-fail/): a read that gives few bytes taken for the
// end, bytes put over those before them, a buffer filled in part taken for full, a front that an error clears, a length read low byte first, a frame that
// is left out, and a step taken for a start.
#![tactic(auto)]

ghost use Rattle.std.specs.Prelude.{◌≡◌, ◌↔◌, true, false, ◌<◌, length, take, IfOk, OnErr, IfSome, IsNone};
ghost use Rattle.std.specs.Io.{ReadsAtMost};
ghost use Rattle.std.specs.Io.KnownBytes.{Consumes, IsAtEnd};
ghost use Rattle.streams.specs.Blocks.{ReadsBlock};
ghost use Rattle.streams.specs.Front.{StandsAtFront};
ghost use Rattle.streams.specs.Turns.{InTurn};
ghost use Rattle.streams.specs.declared.Call.TheVariants.{Start};

use std::io;
use std::io::Read;

// Reads until the buffer is full or the input ends, and answers how many bytes stand at its front. Fewer than it holds only where the input has no more.
pub fn read_full<R: Read>(reader: &mut R, buffer: &mut [u8]) -> io::Result<usize>
    ensures within { ReadsAtMost result buffer.new }
    ensures bytes { IfOk result (λ n. Consumes (R.remaining reader.old) (R.remaining reader.new) (take n buffer.new)) }
    ensures end { IfOk result (λ n. n < length buffer.new → IsAtEnd (R.remaining reader.new)) }
    ensures err { OnErr result (StandsAtFront (R.remaining reader.old) (R.remaining reader.new) buffer.new) }
{
    let mut done = 0;
    while done < buffer.len() {
        let n = reader.read(&mut buffer[done..])?;
        if n == 0 {
            break;
        }
        done += n;
    }
    Ok(done)
}

// Fills the whole buffer, or answers false where the input ends before.
pub fn fill<R: Read>(reader: &mut R, buffer: &mut [u8]) -> io::Result<bool>
    ensures bytes { IfOk result (λ full. full ≡ true → Consumes (R.remaining reader.old) (R.remaining reader.new) buffer.new) }
    ensures end { IfOk result (λ full. full ≡ false → IsAtEnd (R.remaining reader.new)) }
    ensures err { OnErr result (StandsAtFront (R.remaining reader.old) (R.remaining reader.new) buffer.new) }
{
    let n = read_full(reader, buffer)?;
    Ok(n == buffer.len())
}

// A length in two bytes, high first, and that many bytes, which are put at the front of the space; none where the input ends before.
pub fn block<'a, R: Read>(
    reader: &mut R,
    space: &'a mut [u8; 65536],
) -> io::Result<Option<&'a [u8]>>
    ensures bytes { IfOk result (λ block. IfSome block (λ bytes. ReadsBlock (R.remaining reader.old) (R.remaining reader.new) bytes.now)) }
    ensures end { IfOk result (λ block. IsNone block → IsAtEnd (R.remaining reader.new)) }
{
    let mut length = [0u8; 2];
    if !fill(reader, &mut length)? {
        return Ok(None);
    }
    let bytes = &mut space[..usize::from(u16::from_be_bytes(length))];
    if !fill(reader, bytes)? {
        return Ok(None);
    }
    Ok(Some(bytes))
}

// How many frames a program takes from an input at most.
pub const MOST_FRAMES: usize = 1_000_000;

// Calls `frame` on the reader for one frame after another, until it answers false.
pub fn frames<R: Read, F: FnMut(&mut R) -> io::Result<bool>>(
    reader: &mut R,
    mut frame: F,
) -> io::Result<()>
    requires { F.IsAlwaysCallable frame }
    ensures { InTurn F.FnMut MOST_FRAMES frame reader.old result reader.new }
{
    for _ in 0..MOST_FRAMES {
        if !frame(reader)? {
            break;
        }
    }
    Ok(())
}

// Which call a frame asks for.
#[derive(Clone, Copy)]
pub enum Call {
    Start,
    Step,
}

// 0 asks for a start, any other byte for a step.
impl From<u8> for Call {
    ghost from_gives = { λ byte call. (call ≡ Start) ↔ (byte ≡ 0) };

    fn from(byte: u8) -> Self {
        match byte {
            0 => Call::Start,
            _ => Call::Step,
        }
    }
}
