// The checks of a program that has been read, in the order of their numbers.
ghost use Rattle.std.specs.Prelude.{◌≡◌, Bool, List, ℕ, ◌≤◌, length};
ghost use Rattle.paper.specs.Grammar.{Sequence};
ghost use Rattle.paper.specs.File.{Answer, Read};
ghost use Rattle.paper.specs.Refusals as refusals;
ghost use Rattle.paper.specs.Reaction.{Program};
ghost use Rattle.limits.specs.Checks.{checked};
ghost use Rattle.letters.specs.Found.{found};
ghost use Rattle.stars.specs.Nodes.{Written};
ghost use Rattle.paper.specs.Parse.{parse, program};
ghost use Rattle.text.specs.Spans.{value_in};
ghost use Rattle.reader.specs.Reads.{edition_of};
ghost use Rattle.reader.specs.Stages.{Taken, text_of, HasTree, limited};

use super::lists::lists_of;
use letters::Found;
use limits::{Checked, for_basic, with_letters, within_limits};
use text::{Lines, Span};
use tokens::over_96;

// Where a line stands, if it is there.
fn line_found(span: Span) -> Found
    ensures { (bs : List ℕ) → found result ≡ refusals.line_of (value_in bs span) }
{
    if span.there {
        Found::At(span.line)
    } else {
        Found::Nothing
    }
}

// No. 15 and 16 for Basic, after what r refuses.
fn for_edition(
    r: Checked,
    basic: bool,
    line: Found,
    code: &[u8],
    place: &[u16],
    n: usize,
) -> Checked
    requires { (n ≤ length code.now) × (n ≤ length place.now) }
    ensures { (rd : Read) (at : ℕ) (q : Sequence) (left : List ℕ) (a : Answer Program)
        → Written at q code.now left place.now n → found line ≡ refusals.line_of rd.fugitive
        → checked result a ≡ checked r (refusals.for_edition (edition_of basic) rd at q a) }
{
    match r {
        Checked::Refused {
            number: m,
            place: p,
        } => Checked::Refused {
            number: m,
            place: p,
        },
        Checked::Fine => {
            if basic {
                for_basic(line, code, place, n)
            } else {
                Checked::Fine
            }
        }
    }
}

// No. 9 to 14, and for Basic 15 and 16, of a program of at most 96 tokens.
fn check_all(
    file: &[u8],
    lines: Lines,
    basic: bool,
    code: &[u8],
    left: &[u8],
    place: &[u16],
    n: usize,
) -> Checked
    requires taken { Taken file.now lines }
    requires n_bound { (n ≤ 192) × (n ≤ length code.now) × (n ≤ length left.now) × (n ≤ length place.now) }
    ensures { (q : Sequence) (a : Answer Program) → Written lines.program.at q code.now left.now place.now n
        → checked result a ≡ limited (edition_of basic) file.now lines q a }
{
    let program = lines.program;
    let at = program.at;
    let end = program.end;
    let lists = lists_of(file, lines);
    let r = within_limits(&file[..end], at, code, left, place, n);
    let r = with_letters(r, &file[..end], at, file, lists, code, left, place, n);
    for_edition(r, basic, line_found(lines.fugitive), code, place, n)
}

// The same of any program: one of more tokens is refused before its nodes are looked at, which the lists may not hold.
pub fn check(
    file: &[u8],
    lines: Lines,
    basic: bool,
    code: &[u8],
    left: &[u8],
    place: &[u16],
    n: usize,
) -> Checked
    requires taken { Taken file.now lines }
    requires has_tree { HasTree file.now lines code.now left.now place.now n }
    ensures { (q : Sequence) (a : Answer Program) → parse (text_of file.now lines) ≡ program q
        → checked result a ≡ limited (edition_of basic) file.now lines q a }
{
    let program = lines.program;
    let at = program.at;
    let end = program.end;
    let over = over_96(&file[..end], at);
    match over {
        Found::At(p) => Checked::Refused {
            number: 9,
            place: p,
        },
        Found::Nothing => check_all(file, lines, basic, code, left, place, n),
    }
}
