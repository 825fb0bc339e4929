// The checks No. 9 to 16 of document 01 on a program that was read, in the order of their numbers: the first that finds a place refuses. All of them
// run, which costs little and keeps the code straight. The checks themselves stand in `tokens`, `stars` and `joins`.
#![tactic(auto)]

ghost use Rattle.std.specs.Prelude.{◌≡◌, Bool, List, ℕ, ◌≤◌, length, drop};
ghost use Rattle.std.proofs.Math.Seq.{slice};
ghost use Rattle.paper.specs.Grammar.{Sequence};
ghost use Rattle.paper.specs.File as file-spec;
ghost use Rattle.paper.specs.Reaction.{Program};
ghost use Rattle.paper.specs.Refusals.{line_of, basic, for_edition, within_limits, with_letters};
ghost use Rattle.letters.specs.Found.{found};
ghost use Rattle.letters.specs.Letters.{Events};
ghost use Rattle.stars.specs.Nodes.{Written};
ghost use Rattle.limits.specs.Checks.{checked, text_checks, ListsAre};

use joins::{braces_joined, shared_event, shared_module};
use letters::{Found, used};
use stars::too_starred;
use tokens::{ninth_event, ninth_module, over_96, too_deep, unlisted, unused};

// Number and place of a refusal, or none.
#[derive(Clone, Copy)]
pub enum Checked {
    Refused { number: u8, place: usize },
    Fine,
}

// The next check, where those before it refuse nothing.
fn then(r: Checked, number: u8, f: Found) -> Checked
    ensures { (a : file-spec.Answer Program) → checked result a ≡ checked r (file-spec.unless (found f) number a) }
{
    match r {
        Checked::Refused {
            number: n,
            place: p,
        } => Checked::Refused {
            number: n,
            place: p,
        },
        Checked::Fine => match f {
            Found::At(p) => Checked::Refused { number, place: p },
            Found::Nothing => Checked::Fine,
        },
    }
}

// No. 9: tokens, brackets and braces, stars.
pub fn within_limits(
    s: &[u8],
    at: usize,
    code: &[u8],
    left: &[u8],
    place: &[u16],
    n: usize,
) -> Checked
    requires { (n ≤ 192) × (n ≤ length code.now) × (n ≤ length left.now) × (n ≤ length place.now) }
    ensures { (q : Sequence) (a : file-spec.Answer Program) → Written at q code.now left.now place.now n
        → checked result a ≡ within_limits at (drop at s.now) q a }
{
    let r = then(Checked::Fine, 9, over_96(s, at));
    let r = then(r, 9, too_deep(s, at));
    then(r, 9, too_starred(code, left, place, n))
}

// The two event lists of a file, as parts of it, the earlier first (an empty part where there is none), and which letters are listed and fugitive.
#[derive(Clone, Copy)]
pub struct Lists {
    pub from: usize,
    pub to: usize,
    pub from2: usize,
    pub to2: usize,
    pub listed: [bool; 26],
    pub fugitive: [bool; 26],
}

// No. 10 to 12, after what r refuses.
fn with_text(r: Checked, s: &[u8], at: usize, file: &[u8], lists: Lists) -> Checked
    requires to_in_bounds { (lists.to ≤ length file.now) × Events (slice lists.from lists.to file.now) }
    requires to2_in_bounds { (lists.to2 ≤ length file.now) × Events (slice lists.from2 lists.to2 file.now) }
    ensures { (rd : file-spec.Read) (a : file-spec.Answer Program) → ListsAre rd file.now lists
        → checked result a ≡ checked r (text_checks rd at (drop at s.now) a) }
{
    let from = lists.from;
    let to = lists.to;
    let from2 = lists.from2;
    let to2 = lists.to2;
    let listed = lists.listed;
    let uses = used(s, at, 65);
    let r = then(r, 10, unlisted(s, at, listed));
    let r = then(r, 11, unused(file, from, to, from2, to2, uses));
    let r = then(r, 12, ninth_module(s, at));
    then(r, 12, ninth_event(s, at))
}

// No. 10 to 14, after what r refuses: what the letters must meet.
pub fn with_letters(
    r: Checked,
    s: &[u8],
    at: usize,
    file: &[u8],
    lists: Lists,
    code: &[u8],
    left: &[u8],
    place: &[u16],
    n: usize,
) -> Checked
    requires to_in_bounds { (lists.to ≤ length file.now) × Events (slice lists.from lists.to file.now) }
    requires to2_in_bounds { (lists.to2 ≤ length file.now) × Events (slice lists.from2 lists.to2 file.now) }
    requires n_bound { (n ≤ 192) × (n ≤ length code.now) × (n ≤ length left.now) × (n ≤ length place.now) }
    ensures { (rd : file-spec.Read) (q : Sequence) (a : file-spec.Answer Program)
        → Written at q code.now left.now place.now n
        → ListsAre rd file.now lists
        → checked result a ≡ checked r (with_letters rd at (drop at s.now) q a) }
{
    let fugitive = lists.fugitive;
    let r = with_text(r, s, at, file, lists);
    let r = then(r, 13, shared_module(code, left, place, n));
    then(r, 14, shared_event(code, left, place, n, fugitive))
}

// No. 15 and 16, for Basic; `line` is where the file has a `fugitive` line.
pub fn for_basic(line: Found, code: &[u8], place: &[u16], n: usize) -> Checked
    requires { (n ≤ length code.now) × (n ≤ length place.now) }
    ensures { (rd : file-spec.Read) (at : ℕ) (q : Sequence) (left : List ℕ) (a : file-spec.Answer Program)
        → Written at q code.now left place.now n → found line ≡ line_of rd.fugitive
        → checked result a ≡ for_edition basic rd at q a }
{
    let r = then(Checked::Fine, 15, line);
    then(r, 16, braces_joined(code, place, n))
}
