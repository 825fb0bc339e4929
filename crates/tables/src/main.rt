// Answers tables from standard input, many through one process. A frame is a byte for the call (0 start, else step), the state in two bytes, high
// first, the letter, the table's length in two bytes, high first, and the table. Each frame gets one line: `refused NUMBER`, or `state` with its
// number and eight orders. A frame that is cut short ends the run.
#![tactic(auto)]

use arrayvec::ArrayVec;
use refusals::Refusal;
use std::io;
use std::io::{Read, Write};
use streams::Call;
use table::Answer;

fn print_state<W: Write>(output: &mut W, answer: Result<Answer, Refusal>) -> io::Result<()> {
    let mut line = ArrayVec::<u8, 64>::new();
    match answer {
        Ok(answer) => {
            write!(line, "state {}", answer.state)?;
            for order in answer.orders {
                write!(line, " {order}")?;
            }
        }
        Err(refusal) => write!(line, "refused {}", refusal.reason.number())?,
    }
    line.write_all(b"\n")?;
    output.write_all(line.as_slice())
}

// One frame; false at the end of the input.
fn table_call<R: Read, W: Write>(
    input: &mut R,
    output: &mut W,
    space: &mut [u8; 65536],
) -> io::Result<bool> {
    let mut head = [0u8; 4];
    if !streams::fill(input, &mut head)? {
        return Ok(false);
    }
    let [call, high, low, letter] = head;
    let Some(table) = streams::block(input, space)? else {
        return Ok(false);
    };
    let answer = match Call::from(call) {
        Call::Start => table::start(table),
        Call::Step => table::step(table, usize::from(u16::from_be_bytes([high, low])), letter),
    };
    print_state(output, answer)?;
    Ok(true)
}

fn main(rt: HostRuntime) -> io::Result<()> {
    let mut output = rt.stdout();
    let mut space = [0u8; 65536];
    streams::frames(&mut rt.stdin(), |input| {
        table_call(input, &mut output, &mut space)
    })
}
