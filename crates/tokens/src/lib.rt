// Checks on the text of a program, byte by byte: tokens and brackets (No. 9), letters (No. 10 to 12). `s` is the file up to the end of the program line,
// and the program's value begins at the place `at`.
#![tactic(auto)]

ghost use Rattle.std.specs.Prelude.{◌≡◌, Bool, true, false, not, ◌&&◌, List, ◌++◌, ℕ, ◌+◌, ◌≤◌, ◌<◌, eqb, leb, length, drop, get_or};
ghost use Rattle.std.proofs.Math.Seq.{slice};
ghost use Rattle.paper.specs.Bytes.{bar_mark, is_module, is_event};
ghost use Rattle.paper.specs.File.{listed_from};
ghost use Rattle.paper.specs.Limits.{over96, too_deep, is_opening, is_closing, open_after};
ghost use Rattle.paper.specs.Limits as limits;
ghost use Rattle.letters.specs.Found.{found};
ghost use Rattle.letters.specs.Letters.{is_letter, Tells, TellsFrom, Events};

use letters::{Found, flag, is_letter, mark};

// The byte begins a token: it is no second half of a `||`.
fn begins_token(half: bool, b: u8) -> bool
    ensures { result ≡ not (half && eqb b bar_mark) }
{
    !(half & (b == 124))
}

// The byte may be the first half of a `||`.
fn is_half(half: bool, b: u8) -> bool
    ensures { result ≡ (not half && eqb b bar_mark) }
{
    !half & (b == 124)
}

// No. 9: where the 97th token begins.
pub fn over_96(s: &[u8], at: usize) -> Found
    ensures { found result ≡ over96 at (drop at s.now) }
{
    let mut half = false;
    let mut count: usize = 0;
    let mut i = at;
    while i < s.len() {
        let b = s[i];
        if begins_token(half, b) {
            if count == 96 {
                return Found::At(i);
            }
            count += 1;
        }
        half = is_half(half, b);
        i += 1;
    }
    Found::Nothing
}

fn is_opening(b: u8) -> bool
    ensures { result ≡ is_opening b }
{
    (b == 91) | (b == 123)
}

fn is_closing(b: u8) -> bool
    ensures { result ≡ is_closing b }
{
    (b == 93) | (b == 125)
}

// How many brackets and braces are open after the byte.
fn open_after(deep: usize, b: u8) -> usize
    requires { deep < 65536 }
    ensures { (result ≡ open_after deep b) × (result ≤ deep + 1) }
{
    if is_opening(b) {
        return deep + 1;
    }
    if is_closing(b) {
        if deep == 0 {
            return 0;
        }
        return deep - 1;
    }
    deep
}

// No. 9: the bracket or brace that opens a 17th inside each other.
pub fn too_deep(s: &[u8], at: usize) -> Found
    ensures { found result ≡ too_deep at (drop at s.now) }
{
    let mut deep: usize = 0;
    let mut i = at;
    while i < s.len() {
        let b = s[i];
        if is_opening(b) & (16 <= deep) {
            return Found::At(i);
        }
        deep = open_after(deep, b);
        i += 1;
    }
    Found::Nothing
}

// No. 10: the first event that the file does not list; `listed` says which it does.
pub fn unlisted(s: &[u8], at: usize, listed: [bool; 26]) -> Found
    ensures { (ls : List ℕ) → Tells listed ls → found result ≡ limits.unlisted ls at (drop at s.now) }
{
    let mut i = at;
    while i < s.len() {
        let b = s[i];
        if is_letter(65, b) & !flag(&listed, 65, b) {
            return Found::At(i);
        }
        i += 1;
    }
    Found::Nothing
}

// No. 11 on one list, which the file has from `from` to `to`: its first letter that the program does not use; `used` says which it does.
pub fn unused_in(file: &[u8], from: usize, to: usize, used: [bool; 26]) -> Found
    requires { (to ≤ length file.now) × Events (slice from to file.now) }
    ensures { (v : List ℕ) → TellsFrom 65 used v → found result ≡ limits.unused v (listed_from from (slice from to file.now)) }
{
    let mut i = from;
    while i < to {
        let b = file[i];
        if !flag(&used, 65, b) {
            return Found::At(i);
        }
        i += 1;
    }
    Found::Nothing
}

// No. 11: over both lists, the earlier first; a list that the file does not have is an empty part of it.
pub fn unused(
    file: &[u8],
    from: usize,
    to: usize,
    from2: usize,
    to2: usize,
    used: [bool; 26],
) -> Found
    requires to_in_bounds { (to ≤ length file.now) × Events (slice from to file.now) }
    requires to2_in_bounds { (to2 ≤ length file.now) × Events (slice from2 to2 file.now) }
    ensures { (v : List ℕ) → TellsFrom 65 used v → found result ≡ limits.unused v (listed_from from (slice from to file.now) ++ listed_from from2 (slice from2 to2 file.now)) }
{
    let r = unused_in(file, from, to, used);
    match r {
        Found::At(p) => Found::At(p),
        Found::Nothing => unused_in(file, from2, to2, used),
    }
}

// No. 12: the ninth different letter, at its first use.
fn ninth(s: &[u8], at: usize, base: u8) -> Found
    requires { base ≤ 97 }
    ensures { found result ≡ limits.ninth (is_letter base) at (drop at s.now) }
{
    let mut seen = [false; 26];
    let mut count: usize = 0;
    let mut i = at;
    while i < s.len() {
        let b = s[i];
        if is_letter(base, b) & !flag(&seen, base, b) {
            if count == 8 {
                return Found::At(i);
            }
            count += 1;
            mark(&mut seen, base, b);
        }
        i += 1;
    }
    Found::Nothing
}

pub fn ninth_module(s: &[u8], at: usize) -> Found
    ensures { found result ≡ limits.ninth is_module at (drop at s.now) }
{
    ninth(s, at, 97)
}

pub fn ninth_event(s: &[u8], at: usize) -> Found
    ensures { found result ≡ limits.ninth is_event at (drop at s.now) }
{
    ninth(s, at, 65)
}
