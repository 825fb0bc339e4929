// The two programs, one for each edition: a file is read and compiled, and the answer is printed, `ok STATES BYTES` and a line with the table in hex, or
// `refused NUMBER at PLACE`. Nothing is allocated. Of an error, the reader's or the writer's own, no clause says what was printed before it. Ruled out
// (must-fail/): Basic's answer for either edition, and a file over 1,024 bytes taken for its first 1,024.
#![tactic(auto)]

ghost use Rattle.std.specs.Prelude.{◌≡◌, ◌≤◌, length, IfSome, OnOk};
ghost use Rattle.std.specs.Io.KnownBytes.{Appends};
ghost use Rattle.paper.specs.Parse.{parse};
ghost use Rattle.paper.specs.Calls.{compiled};
ghost use Rattle.paper.specs.Programs.{answer_text};
ghost use Rattle.printing.specs.Lines.{answer as made_of};
ghost use Rattle.refusals.specs.Refusals.{edition_of};
ghost use Rattle.compiler.specs.Compiling.{outcome};
ghost use Rattle.editions.specs.Texts.{text_of, Prints};

use compiler::{Compiled, compile_adaptive, compile_basic};
use refusals::Edition;
use std::io;
use std::io::{Read, Write};

fn compile(file: &[u8], edition: Edition, output: &mut [u8], work: &mut [u8]) -> Compiled
    ensures { outcome result output.new work.new ≡ compiled parse (edition_of edition) file.now output.old work.old }
{
    match edition {
        Edition::Basic => compile_basic(file, output, work),
        Edition::Adaptive => compile_adaptive(file, output, work),
    }
}

// Prints what a compile answered, with its table. A function of its own, so that the line takes no stack while a file is compiled.
#[inline(never)]
fn print<W: Write>(output: &mut W, made: Compiled, table: &[u8]) -> io::Result<()>
    requires { (made.size ≤ length table.now) × (length table.now ≤ 26640) }
    ensures { OnOk result (Appends (W.contents output.old) (W.contents output.new) (answer_text (made_of made.number made.place made.states made.size table.now))) }
{
    let mut line = [0u8; 53400];
    let end = printing::text(
        made.number,
        made.place,
        made.states,
        made.size,
        table,
        &mut line,
    );
    output.write_all(&line[..end])
}

// Prints the answer to a file.
pub fn answer<W: Write>(output: &mut W, file: &[u8], edition: Edition) -> io::Result<()>
    ensures { OnOk result (Appends (W.contents output.old) (W.contents output.new) (text_of (edition_of edition) file.now)) }
{
    let mut table = [0u8; 26640];
    let mut work = [0u8; 65536];
    let made = compile(file, edition, &mut table, &mut work);
    print(output, made, &table)
}

// Reads a file and prints its answer. One byte more than a file may have is read, so that a longer one is refused, whatever else it holds: where the
// reader's bytes are known, the answer is that to all of them.
pub fn run<R: Read, W: Write>(input: &mut R, output: &mut W, edition: Edition) -> io::Result<()>
    ensures prints { OnOk result (Prints (edition_of edition) (R.remaining input.old) (R.remaining input.new) (W.contents output.old) (W.contents output.new)) }
    ensures whole { OnOk result (IfSome (R.remaining input.old) (λ file. Appends (W.contents output.old) (W.contents output.new) (text_of (edition_of edition) file))) }
{
    let mut file = [0u8; 1025];
    let count = streams::read_full(input, &mut file)?;
    answer(output, &file[..count], edition)
}
