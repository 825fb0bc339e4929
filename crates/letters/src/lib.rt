// The letters of a program: flags for the 26 of a kind, from a base on, 97 for modules and 65 for events; and the names in use, ascending.
#![tactic(auto)]

ghost use Rattle.std.specs.Prelude.{◌≡◌, Bool, true, false, ◌&&◌, ℕ, ◌+◌, ◌-◌, ◌≤◌, ◌<◌, length, drop, get_or};
ghost use Rattle.std.proofs.Math.Option.{none};
ghost use Rattle.paper.specs.Lists.{keep, below};
ghost use Rattle.paper.specs.Refusals as refusals;
ghost use Rattle.paper.specs.Limits as limits;
ghost use Rattle.letters.specs.Letters.{is_letter, flag_of, marked, TellsFrom, names_of};

// Where a check refuses, or that it does not.
#[derive(Clone, Copy)]
pub enum Found {
    At(usize),
    Nothing,
}

// The byte is one of the letters.
pub fn is_letter(base: u8, b: u8) -> bool
    requires { base ≤ 97 }
    ensures { result ≡ is_letter base b }
{
    (base <= b) & (b <= base + 25)
}

// The byte is a letter whose flag is set.
pub fn flag(flags: &[bool; 26], base: u8, b: u8) -> bool
    requires { base ≤ 97 }
    ensures { result ≡ flag_of flags.now base b }
{
    if is_letter(base, b) {
        return flags[(b - base) as usize];
    }
    false
}

// Sets the flag of the byte, if it is a letter.
pub fn mark(flags: &mut [bool; 26], base: u8, b: u8)
    requires { base ≤ 97 }
    ensures { flags.new ≡ marked flags.old base b }
{
    if is_letter(base, b) {
        flags[(b - base) as usize] = true;
    }
}

// Which letters the text of s from `at` on uses.
pub fn used(s: &[u8], at: usize, base: u8) -> [bool; 26]
    requires { base ≤ 97 }
    ensures { TellsFrom base result (drop at s.now) }
{
    let mut flags = [false; 26];
    let mut i = at;
    while i < s.len() {
        let b = s[i];
        mark(&mut flags, base, b);
        i += 1;
    }
    flags
}

// The names of a program: letters are numbers from 0, so a and A are 0. At most eight; zeros beyond the count.
#[derive(Clone, Copy)]
pub struct Names {
    pub letters: [u8; 8],
    pub count: usize,
}

// The letters whose flag is set.
fn collect(flags: [bool; 26]) -> Names
    requires { length (keep (λ (l : ℕ). get_or flags l false) (below 26)) ≤ 8 }
    ensures { result ≡ names_of (keep (λ (l : ℕ). get_or flags l false) (below 26)) }
{
    let mut letters = [0u8; 8];
    let mut count: usize = 0;
    let mut l: usize = 0;
    while l < 26 {
        if flags[l] {
            letters[count] = l as u8;
            count += 1;
        }
        l += 1;
    }
    Names { letters, count }
}

// The names of the text of s from `at` on, which uses no ninth.
pub fn ascending(s: &[u8], at: usize, base: u8) -> Names
    requires { (base ≤ 97) × (limits.ninth (is_letter base) at (drop at s.now) ≡ none) }
    ensures { result ≡ names_of (refusals.ascending (λ (l : ℕ). base + l) (drop at s.now)) }
{
    collect(used(s, at, base))
}
