// The reader of configuration files: file bytes in; a program as nodes out, or a number and a place. Refusals 2 to 14 of document 01, and for Basic 15 and 16.
// Lines and lists are read by `text`, the program's text by `syntax`; `limits` has the checks 9 to 16, and `nodes` makes the table.
#![tactic(auto)]

ghost use Rattle.std.specs.Prelude.{◌≡◌, List, ℕ, ◌≤◌, length, replicate};
ghost use Rattle.paper.specs.Parse.{parse};
ghost use Rattle.paper.specs.Refusals.{reading, program_of};
ghost use Rattle.paper.specs.Parse.{program};
ghost use Rattle.paper.specs.File.{refused, accepted};
ghost use Rattle.paper.specs.Grammar.{Sequence};
ghost use Rattle.text.specs.Spans.{read_of};
ghost use Rattle.reader.specs.Reads.{edition_of, given, ReadsAs};
ghost use Rattle.reader.specs.Stages.{Taken, text_of, HasTree, Fit};

pub mod checks;
pub mod lists;

use checks::check;
use letters::{Names, ascending};
use limits::Checked;
use lists::letters_of;
use nodes::{clear, make_nodes, weigh};
use syntax::{Got, read_program};
use text::{Lines, Reading, read_lines};

// Number and place of a refusal, or none.
#[derive(Clone, Copy)]
pub enum Verdict {
    Refused { number: usize, place: usize },
    Accepted,
}

// What is read of a file beside the nodes: the root's number, the names ascending, and which events are fugitive, by letter. All zero in a refusal.
#[derive(Clone, Copy)]
pub struct Program {
    pub verdict: Verdict,
    pub root: usize,
    pub modules: Names,
    pub events: Names,
    pub fugitive: [bool; 26],
}

fn refuse(number: usize, place: usize) -> Program
    ensures { result ≡ given (refused number place) }
{
    Program {
        verdict: Verdict::Refused { number, place },
        root: 0,
        modules: Names {
            letters: [0; 8],
            count: 0,
        },
        events: Names {
            letters: [0; 8],
            count: 0,
        },
        fugitive: [false; 26],
    }
}

// A program that nothing refuses: its nodes and their weights, its names, its fugitive events.
fn accept(
    file: &[u8],
    lines: Lines,
    code: &[u8],
    left: &[u8],
    n: usize,
    nodes: &mut [u8; 768],
    weights: &mut [u8; 192],
) -> Program
    requires fit { Fit file.now lines code.now left.now n }
    requires weights_value { weights.old ≡ replicate 192 0 }
    ensures { (q : Sequence) → parse (text_of file.now lines) ≡ program q
        → ReadsAs (accepted (program_of (read_of file.now lines) (text_of file.now lines) q)) result nodes.new weights.new }
{
    let program = lines.program;
    let at = program.at;
    let end = program.end;
    let root = make_nodes(code, left, n, nodes);
    weigh(nodes, weights);
    let modules = ascending(&file[..end], at, 97);
    let events = ascending(&file[..end], at, 65);
    let fugitive = letters_of(file, lines.fugitive);
    Program {
        verdict: Verdict::Accepted,
        root: root,
        modules: modules,
        events: events,
        fugitive: fugitive,
    }
}

// A program that was read: No. 9 to 16, or its nodes.
fn read_tree(
    file: &[u8],
    lines: Lines,
    basic: bool,
    code: &[u8],
    left: &[u8],
    place: &[u16],
    n: usize,
    nodes: &mut [u8; 768],
    weights: &mut [u8; 192],
) -> Program
    requires taken { Taken file.now lines }
    requires has_tree { HasTree file.now lines code.now left.now place.now n }
    requires nodes_value { (nodes.old ≡ replicate 768 0) × (weights.old ≡ replicate 192 0) }
    ensures { ReadsAs (reading parse (edition_of basic) file.now) result nodes.new weights.new }
{
    let checked = check(file, lines, basic, code, left, place, n);
    match checked {
        Checked::Refused { number, place: p } => refuse(number as usize, p),
        Checked::Fine => accept(file, lines, code, left, n, nodes, weights),
    }
}

// The program's text: No. 8, then what its tree is checked for.
fn read_text(
    file: &[u8],
    lines: Lines,
    basic: bool,
    nodes: &mut [u8; 768],
    weights: &mut [u8; 192],
) -> Program
    requires taken { Taken file.now lines }
    requires nodes_value { (nodes.old ≡ replicate 768 0) × (weights.old ≡ replicate 192 0) }
    ensures { ReadsAs (reading parse (edition_of basic) file.now) result nodes.new weights.new }
{
    let program = lines.program;
    let at = program.at;
    let end = program.end;
    let mut code = [0u8; 192];
    let mut left = [0u8; 192];
    let mut place = [0u16; 192];
    let got = read_program(&file[..end], at, &mut code, &mut left, &mut place);
    match got {
        Got::Bad(p) => refuse(8, p),
        Got::At { next: _, free: n } => read_tree(
            file, lines, basic, &code, &left, &place, n, nodes, weights,
        ),
    }
}

// A file's program, or number and place. Takes any bytes.
pub fn read(file: &[u8], basic: bool, nodes: &mut [u8; 768], weights: &mut [u8; 192]) -> Program
    ensures { ReadsAs (reading parse (edition_of basic) file.now) result nodes.new weights.new }
{
    clear(nodes);
    clear(weights);
    let lines = read_lines(file);
    match lines {
        Reading::Refused { number, place } => refuse(number, place),
        Reading::Read(lines) => read_text(file, lines, basic, nodes, weights),
    }
}
