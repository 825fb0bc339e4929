// The reader of a program's text: a reader for each production of the grammar, which call each other in a cycle. They write the program's tree
// into three lent slices, node by node in postorder: `code`, beside it in `left` the place of each join's left part, in `place` its place in the file.
#![tactic(auto)]

ghost use Rattle.std.specs.Prelude.{true, false, ◌&&◌, not, ◌≡◌, ◌+◌, ◌≤◌, ◌<◌, get_or, length, replicate, eqb};
ghost use Rattle.paper.specs.Bytes.{is_event, open_mark, brace_mark, bar_mark};
ghost use Rattle.paper.specs.Grammar.{join_text};
ghost use Rattle.laws.specs.Placed.{join_code};
ghost use Rattle.syntax.specs.Store.{Room, store, node};
ghost use Rattle.syntax.specs.Readers.{is_leaf, starts, join_of, sequence_s, item_s, starred_s, atom_s, body_s, interruption_s, chain_s, Ready, Says};
ghost use Rattle.syntax.specs.Outcome.{TextSays, Outcome};

// The place behind what was read and the next free place for a node; or the first place at which nothing fits.
#[derive(Clone, Copy)]
pub enum Got {
    At { next: usize, free: usize },
    Bad(usize),
}

// The byte at a place, 0 past the end: no byte of a program.
fn byte_at(s: &[u8], at: usize) -> u8
    ensures { result ≡ get_or s.now at 0 }
{
    if at < s.len() { s[at] } else { 0 }
}

fn is(s: &[u8], at: usize, b: u8) -> bool
    ensures { result ≡ eqb (get_or s.now at 0) b }
{
    byte_at(s, at) == b
}

fn is_event(b: u8) -> bool
    ensures { result ≡ is_event b }
{
    if b < 65 { false } else { b <= 90 }
}

// Whether the byte alone is an atom: a module or `1`.
fn is_leaf(b: u8) -> bool
    ensures { result ≡ is_leaf b }
{
    if b == 49 {
        return true;
    }
    if b < 97 { false } else { b <= 122 }
}

// Whether an atom begins at a place.
fn atom_at(s: &[u8], at: usize) -> bool
    ensures { result ≡ starts (get_or s.now at 0) }
{
    let b = byte_at(s, at);
    if b == 91 { true } else { is_leaf(b) }
}

// Writes a node, where there is room for one: what is past the end is counted, and not written.
fn put(code: &mut [u8], left: &mut [u8], place: &mut [u16], free: usize, c: u8, l: usize, p: usize)
    requires room { Room (store code.old left.old place.old free) }
    requires l_le_free { (l ≤ free) × (p < 65536) }
    ensures { store code.new left.new place.new (free + 1) ≡ node (store code.old left.old place.old free) c l p }
{
    if free < 192 {
        code[free] = c;
        left[free] = l as u8;
        place[free] = p as u16;
    }
}

// An atom of one byte.
fn leaf(
    s: &[u8],
    at: usize,
    code: &mut [u8],
    left: &mut [u8],
    place: &mut [u16],
    free: usize,
) -> Got
    requires ready { Ready s.now at (store code.old left.old place.old free) }
    requires open_mark_value { eqb (get_or s.now at 0) open_mark ≡ false }
    ensures { Says atom_s s.now at (store code.old left.old place.old free) code.new left.new place.new result }
{
    let b = byte_at(s, at);
    if !is_leaf(b) {
        return Got::Bad(at);
    }
    put(code, left, place, free, b, 0, at);
    Got::At {
        next: at + 1,
        free: free + 1,
    }
}

#[cycle(readers)]
fn atom(
    s: &[u8],
    at: usize,
    code: &mut [u8],
    left: &mut [u8],
    place: &mut [u16],
    free: usize,
) -> Got
    requires { Ready s.now at (store code.old left.old place.old free) }
    ensures { Says atom_s s.now at (store code.old left.old place.old free) code.new left.new place.new result }
{
    if !is(s, at, 91) {
        return leaf(s, at, code, left, place, free);
    }
    let r = body(s, at + 1, code, left, place, free);
    let Got::At { next, free: f } = r else {
        return r;
    };
    if !is(s, next, 93) {
        return Got::Bad(next);
    }
    Got::At {
        next: next + 1,
        free: f,
    }
}

#[cycle(readers)]
fn starred(
    s: &[u8],
    at: usize,
    code: &mut [u8],
    left: &mut [u8],
    place: &mut [u16],
    free: usize,
) -> Got
    requires { Ready s.now at (store code.old left.old place.old free) }
    ensures { Says starred_s s.now at (store code.old left.old place.old free) code.new left.new place.new result }
{
    let r = atom(s, at, code, left, place, free);
    let Got::At { next, free: f } = r else {
        return r;
    };
    if !is(s, next, 42) {
        return r;
    }
    put(code, left, place, f, 42, 0, next);
    Got::At {
        next: next + 1,
        free: f + 1,
    }
}

#[cycle(readers)]
fn item(
    s: &[u8],
    at: usize,
    code: &mut [u8],
    left: &mut [u8],
    place: &mut [u16],
    free: usize,
) -> Got
    requires { Ready s.now at (store code.old left.old place.old free) }
    ensures { Says item_s s.now at (store code.old left.old place.old free) code.new left.new place.new result }
{
    let r = starred(s, at, code, left, place, free);
    let Got::At { next, free: f } = r else {
        return r;
    };
    if !is(s, next, 47) {
        return r;
    }
    let q = interruption(s, next + 1, code, left, place, f);
    let Got::At { next: n, free: g } = q else {
        return q;
    };
    put(code, left, place, g, 47, f - 1, next);
    Got::At {
        next: n,
        free: g + 1,
    }
}

#[cycle(readers)]
fn sequence(
    s: &[u8],
    at: usize,
    code: &mut [u8],
    left: &mut [u8],
    place: &mut [u16],
    free: usize,
) -> Got
    requires { Ready s.now at (store code.old left.old place.old free) }
    ensures { Says sequence_s s.now at (store code.old left.old place.old free) code.new left.new place.new result }
{
    let r = item(s, at, code, left, place, free);
    let Got::At { next, free: f } = r else {
        return r;
    };
    if !atom_at(s, next) {
        return r;
    }
    let q = sequence(s, next, code, left, place, f);
    let Got::At { next: n, free: g } = q else {
        return q;
    };
    put(code, left, place, g, 59, f - 1, 0);
    Got::At {
        next: n,
        free: g + 1,
    }
}

#[cycle(readers)]
fn body(
    s: &[u8],
    at: usize,
    code: &mut [u8],
    left: &mut [u8],
    place: &mut [u16],
    free: usize,
) -> Got
    requires { Ready s.now at (store code.old left.old place.old free) }
    ensures { Says body_s s.now at (store code.old left.old place.old free) code.new left.new place.new result }
{
    let r = sequence(s, at, code, left, place, free);
    let Got::At { next, free: f } = r else {
        return r;
    };
    if !is(s, next, 124) {
        return r;
    }
    let m = next + 1;
    if !is(s, m, 124) {
        return Got::Bad(m);
    }
    let q = body(s, m + 1, code, left, place, f);
    let Got::At { next: n, free: g } = q else {
        return q;
    };
    put(code, left, place, g, 124, f - 1, next);
    Got::At {
        next: n,
        free: g + 1,
    }
}

#[cycle(readers)]
fn interruption(
    s: &[u8],
    at: usize,
    code: &mut [u8],
    left: &mut [u8],
    place: &mut [u16],
    free: usize,
) -> Got
    requires { Ready s.now at (store code.old left.old place.old free) }
    ensures { Says interruption_s s.now at (store code.old left.old place.old free) code.new left.new place.new result }
{
    if is(s, at, 123) {
        braces(s, at, code, left, place, free)
    } else {
        event(s, at, code, left, place, free)
    }
}

// An event, with its treatment if it has one.
#[cycle(readers)]
fn event(
    s: &[u8],
    at: usize,
    code: &mut [u8],
    left: &mut [u8],
    place: &mut [u16],
    free: usize,
) -> Got
    requires ready { Ready s.now at (store code.old left.old place.old free) }
    requires brace_mark_value { eqb (get_or s.now at 0) brace_mark ≡ false }
    ensures { Says interruption_s s.now at (store code.old left.old place.old free) code.new left.new place.new result }
{
    let b = byte_at(s, at);
    if !is_event(b) {
        return Got::Bad(at);
    }
    put(code, left, place, free, b, 0, at);
    let n = at + 1;
    let f = free + 1;
    if !is(s, n, 58) {
        return Got::At { next: n, free: f };
    }
    let q = item(s, n + 1, code, left, place, f);
    let Got::At { next: m, free: g } = q else {
        return q;
    };
    put(code, left, place, g, 58, free, n);
    Got::At {
        next: m,
        free: g + 1,
    }
}

// Whether a chain joined by `||` has a single bar, with this behind it.
fn halved(s: &[u8], at: usize, both: bool) -> bool
    ensures { result ≡ both && not (eqb (get_or s.now at 0) bar_mark) }
{
    if both { !is(s, at, 124) } else { false }
}

// The place behind a join.
fn past(at: usize, both: bool) -> usize
    requires { at < 65536 }
    ensures { result ≡ at + length (join_text (join_of both)) }
{
    if both { at + 2 } else { at + 1 }
}

// `||` between interruptions is 38, `|` is 33.
fn join_code(both: bool) -> u8
    ensures { result ≡ join_code (join_of both) }
{
    if both { 38 } else { 33 }
}

// `{` two or more interruptions `}`: the first join tells whether they are joined by `||`.
#[cycle(readers)]
fn braces(
    s: &[u8],
    at: usize,
    code: &mut [u8],
    left: &mut [u8],
    place: &mut [u16],
    free: usize,
) -> Got
    requires ready { Ready s.now at (store code.old left.old place.old free) }
    requires brace_mark_value { eqb (get_or s.now at 0) brace_mark ≡ true }
    ensures { Says interruption_s s.now at (store code.old left.old place.old free) code.new left.new place.new result }
{
    let r = interruption(s, at + 1, code, left, place, free);
    let Got::At { next, free: f } = r else {
        return r;
    };
    if !is(s, next, 124) {
        return Got::Bad(next);
    }
    let both = is(s, next + 1, 124);
    let q = chain(s, past(next, both), both, code, left, place, f);
    let Got::At { next: n, free: g } = q else {
        return q;
    };
    if !is(s, n, 125) {
        return Got::Bad(n);
    }
    put(code, left, place, g, join_code(both), f - 1, next);
    Got::At {
        next: n + 1,
        free: g + 1,
    }
}

// The interruptions behind a join, all joined alike.
#[cycle(readers)]
fn chain(
    s: &[u8],
    at: usize,
    both: bool,
    code: &mut [u8],
    left: &mut [u8],
    place: &mut [u16],
    free: usize,
) -> Got
    requires { Ready s.now at (store code.old left.old place.old free) }
    ensures { Says (chain_s (join_of both)) s.now at (store code.old left.old place.old free) code.new left.new place.new result }
{
    let r = interruption(s, at, code, left, place, free);
    let Got::At { next, free: f } = r else {
        return r;
    };
    if !is(s, next, 124) {
        return r;
    }
    if halved(s, next + 1, both) {
        return Got::Bad(next + 1);
    }
    let q = chain(s, past(next, both), both, code, left, place, f);
    let Got::At { next: n, free: g } = q else {
        return q;
    };
    put(code, left, place, g, join_code(both), f - 1, next);
    Got::At {
        next: n,
        free: g + 1,
    }
}

// A sequence and `.`, up to the end.
fn text(s: &[u8], at: usize, code: &mut [u8], left: &mut [u8], place: &mut [u16]) -> Got
    requires s_len_bound { length s.now ≤ 65536 }
    requires room { Room (store code.old left.old place.old 0) }
    ensures { TextSays s.now at code.old left.old place.old code.new left.new place.new result }
{
    let r = sequence(s, at, code, left, place, 0);
    let Got::At { next, free } = r else {
        return r;
    };
    if !is(s, next, 46) {
        return Got::Bad(next);
    }
    let end = next + 1;
    if end < s.len() {
        return Got::Bad(end);
    }
    Got::At { next: end, free }
}

fn clear(code: &mut [u8], left: &mut [u8], place: &mut [u16])
    requires { Room (store code.old left.old place.old 0) }
    ensures { (code.new ≡ replicate 192 0) × (left.new ≡ replicate 192 0) × (place.new ≡ replicate 192 0) }
{
    let mut i = 0;
    while i < 192 {
        code[i] = 0;
        left[i] = 0;
        place[i] = 0;
        i += 1;
    }
}

// Reads the program that is written in s from `at` to the end, and writes its tree. Where s has no program the slices are cleared.
// Ruled out (must-fail/): bytes behind `.` let pass.
pub fn read_program(s: &[u8], at: usize, code: &mut [u8], left: &mut [u8], place: &mut [u16]) -> Got
    requires s_len_bound { length s.now ≤ 65536 }
    requires room { Room (store code.old left.old place.old 0) }
    ensures { Outcome s.now at code.old left.old place.old code.new left.new place.new result }
{
    let r = text(s, at, code, left, place);
    let Got::Bad(p) = r else {
        return r;
    };
    clear(code, left, place);
    Got::Bad(p)
}
