// Answers live calls from standard input, many through one process. A frame is a byte for the call (0 start, else step), the letter, a byte for the live
// state's length, the file's length in two bytes, high first, the file, and the live state. Each frame gets one line: eight orders, or `refused NUMBER at
// PLACE`, then a space and the bytes of the live state after the call, in hex. A frame that is cut short ends the run.
#![tactic(auto)]

ghost use Rattle.std.specs.Prelude.{◌≤◌, length};

use arrayvec::ArrayVec;
use engine::Answer;
use hex::encode_to_slice;
use std::io;
use std::io::{Read, Write};
use streams::Call;

// The digits are put all at once: byte by byte they took half of the program's time.
fn print_live<W: Write>(output: &mut W, answer: Answer, live: &[u8]) -> io::Result<()>
    requires { length live.now ≤ 255 }
{
    let mut line = ArrayVec::<u8, 576>::new();
    if answer.number != 0 {
        write!(line, "refused {} at {}", answer.number, answer.place)?;
    } else {
        for order in answer.orders {
            write!(line, "{order}")?;
        }
    }
    line.write_all(b" ")?;
    let mut digits = [0u8; 510];
    let digits = &mut digits[..2 * live.len()];
    let Ok(()) = encode_to_slice(live, digits) else {
        unreachable!()
    };
    line.write_all(digits)?;
    line.write_all(b"\n")?;
    output.write_all(line.as_slice())
}

// One frame; false at the end of the input.
fn live_call<R: Read, W: Write>(
    input: &mut R,
    output: &mut W,
    space: &mut [u8; 65536],
) -> io::Result<bool> {
    let mut head = [0u8; 3];
    if !streams::fill(input, &mut head)? {
        return Ok(false);
    }
    let [call, letter, size] = head;
    let Some(file) = streams::block(input, space)? else {
        return Ok(false);
    };
    let mut live = [0u8; 255];
    let live = &mut live[..usize::from(size)];
    if !streams::fill(input, live)? {
        return Ok(false);
    }
    let answer = match Call::from(call) {
        Call::Start => engine::start(file, live),
        Call::Step => engine::step(file, live, letter),
    };
    print_live(output, answer, live)?;
    Ok(true)
}

fn main(rt: HostRuntime) -> io::Result<()> {
    let mut output = rt.stdout();
    let mut space = [0u8; 65536];
    streams::frames(&mut rt.stdin(), |input| {
        live_call(input, &mut output, &mut space)
    })
}
