// The event lists of a file as the checks of letters take them.
ghost use Rattle.std.specs.Prelude.{◌≡◌, Bool, false, ◌||◌, List, ℕ, ◌≤◌, ◌<◌, length, get_or};
ghost use Rattle.letters.specs.Letters.{TellsFrom};
ghost use Rattle.std.proofs.Math.Seq.{slice};
ghost use Rattle.reader.specs.Stages.{Taken, Listing};

use letters::used;
use limits::Lists;
use text::{Lines, Span};

// Which letters a list has; none where there is no such line.
pub fn letters_of(file: &[u8], list: Span) -> [bool; 26]
    requires { list.end ≤ length file.now }
    ensures { (length result ≡ 26) × TellsFrom 65 result (slice list.at list.end file.now) }
{
    let end = list.end;
    used(&file[..end], list.at, 65)
}

// The letters of either list.
fn either(a: [bool; 26], b: [bool; 26]) -> [bool; 26]
    ensures { (l : ℕ) → l < 26 → get_or result l false ≡ (get_or a l false || get_or b l false) }
{
    let mut flags = a;
    let mut l: usize = 0;
    while l < 26 {
        if b[l] {
            flags[l] = true;
        }
        l += 1;
    }
    flags
}

// The two lists, the earlier first, and the letters in them.
pub fn lists_of(file: &[u8], lines: Lines) -> Lists
    requires { Taken file.now lines }
    ensures { Listing file.now lines result }
{
    let standard = lines.standard;
    let fugitive = lines.fugitive;
    let stored = letters_of(file, standard);
    let passing = letters_of(file, fugitive);
    let listed = either(stored, passing);
    if standard.line < fugitive.line {
        Lists {
            from: standard.at,
            to: standard.end,
            from2: fugitive.at,
            to2: fugitive.end,
            listed: listed,
            fugitive: passing,
        }
    } else {
        Lists {
            from: fugitive.at,
            to: fugitive.end,
            from2: standard.at,
            to2: standard.end,
            listed: listed,
            fugitive: passing,
        }
    }
}
