// From the bytes of a file to its lines, keys and event lists: refusals 2 to 7 of document 01.
#![tactic(auto)]

pub mod kinds;

ghost use Rattle.std.specs.Prelude.{◌≡◌, ◌≤◌, ◌<◌, length};
ghost use Rattle.std.proofs.Math.Option.{some};
ghost use Rattle.paper.specs.Lists.{eq_l};
ghost use Rattle.paper.specs.File.{key_of, standard_key, fugitive_key, program_key};
ghost use Rattle.text.specs.Spans.{no_lines, Answers};
ghost use Rattle.text.specs.Steps.{Finds, Cuts, key_meant, Lists, Kept, Fresh, Enters, Steps};

// A line that was read: where it begins, where its value begins, and the place of its line end. All zeros where there is none.
#[derive(Clone, Copy)]
pub struct Span {
    pub there: bool,
    pub line: usize,
    pub at: usize,
    pub end: usize,
}

// The lines of a file, each at most once.
#[derive(Clone, Copy)]
pub struct Lines {
    pub standard: Span,
    pub fugitive: Span,
    pub program: Span,
}

// The lines that were read, or number and place.
#[derive(Clone, Copy)]
pub enum Reading {
    Refused { number: usize, place: usize },
    Read(Lines),
}

// A line, cut at its first space and at its end; broken where one of them is missing or nothing stands between them.
#[derive(Clone, Copy)]
enum Cut {
    Broken,
    Parts { space: usize, end: usize },
}

#[derive(Clone, Copy)]
enum Key {
    Standard,
    Fugitive,
    Program,
    Unknown,
}

// An event list: the place of a wrong letter, or all are fine.
#[derive(Clone, Copy)]
enum Listing {
    Wrong(usize),
    Fine,
}

// One line more: what was read with it and where the next line begins, or number and place.
#[derive(Clone, Copy)]
enum Step {
    Stop { number: usize, place: usize },
    Next { lines: Lines, next: usize },
}

// The first place of `file` from `from` on that holds `b`, or `to`.
fn find(file: &[u8], from: usize, to: usize, b: u8) -> usize
    requires { (from ≤ to) × (to ≤ length file.now) }
    ensures { Finds file.now from to b result }
{
    let mut i = from;
    while i < to {
        if file[i] == b {
            return i;
        }
        i += 1;
    }
    i
}

// No. 3: the line that begins at `at` has its end, a space before it, and something between the two.
fn cut_line(file: &[u8], at: usize) -> Cut
    requires { at < length file.now }
    ensures { Cuts file.now at result }
{
    let end = find(file, at, file.len(), b'\n');
    if end == file.len() {
        return Cut::Broken;
    }
    let space = find(file, at, end, b' ');
    if end <= space + 1 {
        return Cut::Broken;
    }
    Cut::Parts { space, end }
}

// The two texts are the same.
fn same(a: &[u8], b: &[u8]) -> bool
    ensures { result ≡ eq_l a.now b.now }
{
    if a.len() != b.len() {
        return false;
    }
    let mut i = 0;
    while i < a.len() {
        if a[i] != b[i] {
            return false;
        }
        i += 1;
    }
    true
}

// No. 4: which key the key part of a line is.
fn key_of(part: &[u8]) -> Key
    ensures { key_meant result ≡ key_of part.now }
{
    if same(part, b"standard") {
        return Key::Standard;
    }
    if same(part, b"fugitive") {
        return Key::Fugitive;
    }
    if same(part, b"program") {
        return Key::Program;
    }
    Key::Unknown
}

// No. 6: the event list from `from` to `to`. `seen` marks the letters listed before, and then those of this list too.
fn list(file: &[u8], from: usize, to: usize, seen: &mut [bool; 26]) -> Listing
    requires { (from ≤ to) × (to ≤ length file.now) }
    ensures { Lists file.now from to seen.old seen.new result }
{
    let mut i = from;
    while i < to {
        let b = file[i];
        if !kinds::is_event(b) {
            return Listing::Wrong(i);
        }
        let letter = (b - b'A') as usize;
        if seen[letter] {
            return Listing::Wrong(i);
        }
        seen[letter] = true;
        i += 1;
    }
    Listing::Fine
}

// No. 5 and 6 for a `standard` line.
fn enter_standard(file: &[u8], v: Span, lines: Lines, seen: &mut [bool; 26]) -> Step
    requires { Fresh file.now v × Kept file.now v.line lines seen.old }
    ensures { Enters file.now (some standard_key) v lines seen.new result }
{
    let old = lines.standard;
    let fugitive = lines.fugitive;
    let program = lines.program;
    if old.there {
        return Step::Stop {
            number: 5,
            place: v.line,
        };
    }
    let r = list(file, v.at, v.end, seen);
    match r {
        Listing::Wrong(place) => Step::Stop { number: 6, place },
        Listing::Fine => Step::Next {
            lines: Lines {
                standard: v,
                fugitive,
                program,
            },
            next: v.end + 1,
        },
    }
}

// No. 5 and 6 for a `fugitive` line.
fn enter_fugitive(file: &[u8], v: Span, lines: Lines, seen: &mut [bool; 26]) -> Step
    requires { Fresh file.now v × Kept file.now v.line lines seen.old }
    ensures { Enters file.now (some fugitive_key) v lines seen.new result }
{
    let old = lines.fugitive;
    let standard = lines.standard;
    let program = lines.program;
    if old.there {
        return Step::Stop {
            number: 5,
            place: v.line,
        };
    }
    let r = list(file, v.at, v.end, seen);
    match r {
        Listing::Wrong(place) => Step::Stop { number: 6, place },
        Listing::Fine => Step::Next {
            lines: Lines {
                standard,
                fugitive: v,
                program,
            },
            next: v.end + 1,
        },
    }
}

// No. 5 for a `program` line; its value is looked at later.
fn enter_program(file: &[u8], v: Span, lines: Lines, seen: &mut [bool; 26]) -> Step
    requires { Fresh file.now v × Kept file.now v.line lines seen.old }
    ensures { Enters file.now (some program_key) v lines seen.new result }
{
    let old = lines.program;
    let standard = lines.standard;
    let fugitive = lines.fugitive;
    if old.there {
        return Step::Stop {
            number: 5,
            place: v.line,
        };
    }
    Step::Next {
        lines: Lines {
            standard,
            fugitive,
            program: v,
        },
        next: v.end + 1,
    }
}

// No. 4, and 5 and 6 by the key.
fn enter(file: &[u8], key: Key, v: Span, lines: Lines, seen: &mut [bool; 26]) -> Step
    requires { Fresh file.now v × Kept file.now v.line lines seen.old }
    ensures { Enters file.now (key_meant key) v lines seen.new result }
{
    match key {
        Key::Standard => enter_standard(file, v, lines, seen),
        Key::Fugitive => enter_fugitive(file, v, lines, seen),
        Key::Program => enter_program(file, v, lines, seen),
        Key::Unknown => Step::Stop {
            number: 4,
            place: v.line,
        },
    }
}

// The line that begins at `at`: No. 3, 4, 5, 6 in this order.
fn read_line(file: &[u8], at: usize, lines: Lines, seen: &mut [bool; 26]) -> Step
    requires { (at < length file.now) × Kept file.now at lines seen.old }
    ensures { Steps file.now at lines seen.new result }
{
    let c = cut_line(file, at);
    match c {
        Cut::Broken => Step::Stop {
            number: 3,
            place: at,
        },
        Cut::Parts { space, end } => {
            let key = key_of(&file[at..space]);
            let v = Span {
                there: true,
                line: at,
                at: space + 1,
                end,
            };
            enter(file, key, v, lines, seen)
        }
    }
}

// Before the first line.
fn no_lines() -> Lines
    ensures { result ≡ no_lines }
{
    let none = Span {
        there: false,
        line: 0,
        at: 0,
        end: 0,
    };
    Lines {
        standard: none,
        fugitive: none,
        program: none,
    }
}

// The lines of a file, or number and place by No. 2 to 7. Ruled out (must-fail/), among others: 1,025 bytes read, a last line without its end
// read, a letter of the other list let through, No. 7 at the file's start.
pub fn read_lines(file: &[u8]) -> Reading
    ensures { Answers file.now result }
{
    if file.len() > 1024 {
        return Reading::Refused {
            number: 2,
            place: 0,
        };
    }
    let mut lines = no_lines();
    let mut seen = [false; 26];
    let mut at = 0;
    while at < file.len() {
        let r = read_line(file, at, lines, &mut seen);
        match r {
            Step::Stop { number, place } => return Reading::Refused { number, place },
            Step::Next { lines: more, next } => {
                lines = more;
                at = next;
            }
        }
    }
    let program = lines.program;
    if program.there {
        return Reading::Read(lines);
    }
    Reading::Refused {
        number: 7,
        place: file.len(),
    }
}
