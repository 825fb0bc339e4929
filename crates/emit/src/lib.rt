// The bytes of a table from its parts: names, flags, and the entries that discovery left, each kept as one number. Nothing is refused here: callers
// see to the room, the counts and the letters.
#![tactic(auto)]

ghost use Rattle.std.specs.Prelude.{◌≡◌, ℕ, ◌+◌, ◌-◌, ◌*◌, ◌≤◌, ◌<◌, ◌++◌, length, get_or, drop, replicate};
ghost use Rattle.paper.specs.Lists.{gather};
ghost use Rattle.paper.specs.Table.{Table, bits, written};
ghost use Rattle.fields.specs.Runs.{Puts};
ghost use Rattle.emit.specs.Entries.{Tells};
ghost use Rattle.emit.specs.Fills.{Emits, Room, kind_bits, head_of, entry_word, filled};

use fields::FieldWriter;

// Layout, counts of modules and events, states less one.
fn put_head(w: &mut FieldWriter, modules: usize, events: usize, states: usize)
    requires { Room w.old 24 × (1 ≤ states) }
    ensures { Puts w.old w.new (head_of modules events states) 24 }
{
    w.append(4, 1);
    w.append(4, modules);
    w.append(4, events);
    w.append(12, states - 1);
}

// Names, five bits each.
fn put_names(w: &mut FieldWriter, names: &[u8])
    requires { Room w.old (5 * length names.now) }
    ensures { Puts w.old w.new (gather (bits 5) names.now) (5 * length names.now) }
{
    for &name in names {
        w.append(5, usize::from(name));
    }
}

// A bit for each event, 1 for fugitive.
fn put_kinds(w: &mut FieldWriter, events: &[u8], fugitive: &[bool; 26])
    requires { Room w.old (length events.now) × ((i : ℕ) → i < length events.now → get_or events.now i 0 < 26) }
    ensures { Puts w.old w.new (gather (kind_bits fugitive.now) events.now) (length events.now) }
{
    for &event in events {
        w.append(1, usize::from(fugitive[usize::from(event)]));
    }
}

// A bit for each module, 1 if it runs at the start.
fn put_running(w: &mut FieldWriter, running: &[u8])
    requires { Room w.old (length running.now) }
    ensures { Puts w.old w.new (gather (bits 1) running.now) (length running.now) }
{
    for &runs in running {
        w.append(1, usize::from(runs));
    }
}

// An entry: possible and next state, then the orders of the first n modules, whose 2 n bits are written in two halves.
fn put_entry(w: &mut FieldWriter, entry: usize, n: usize)
    requires { Room w.old (10 + 2 * n) × (n ≤ 8) }
    ensures { Puts w.old w.new (entry_word n entry) (10 + 2 * n) }
{
    w.append(10, entry >> 16);
    w.append(n, entry >> (16 - n));
    w.append(n, entry >> (16 - 2 * n));
}

// The entries, state by state, letter by letter.
fn put_entries(w: &mut FieldWriter, entries: &[u32], n: usize)
    requires { Room w.old (length entries.now * (10 + 2 * n)) × (n ≤ 8) }
    ensures { Puts w.old w.new (gather (entry_word n) entries.now) (length entries.now * (10 + 2 * n)) }
{
    for &entry in entries {
        put_entry(w, entry as usize, n);
    }
}

// Zero bits to a whole byte.
fn pad(w: &mut FieldWriter)
    requires { Room w.old 8 }
    ensures { Puts w.old w.new (replicate (8 * filled w.old.bit - w.old.bit) 0) (8 * filled w.old.bit - w.old.bit) }
{
    let zeros = (8 - w.bit % 8) % 8;
    w.append(zeros, 0);
}

// Writes a table at the front of `out` and answers how many bytes it has; the bytes behind it keep theirs. Ruled out
// (must-fail/): orders that begin one module early.
pub fn emit(
    modules: &[u8],
    events: &[u8],
    fugitive: &[bool; 26],
    running: [u8; 8],
    states: usize,
    entries: &[u32],
    out: &mut [u8],
) -> usize
    requires { Emits modules.now events.now states (length entries.now) (length out.old) }
    ensures { (t : Table) → Tells t modules.now events.now fugitive.now running states entries.now → (result ≡ length (written t)) × (out.new ≡ written t ++ drop (length (written t)) out.old) }
{
    let m = modules.len();
    let n = events.len();
    let mut w = FieldWriter { out, bit: 0 };
    put_head(&mut w, m, n, states);
    put_names(&mut w, modules);
    put_names(&mut w, events);
    put_kinds(&mut w, events, fugitive);
    put_running(&mut w, &running[..m]);
    put_entries(&mut w, &entries[..states * (m + n)], m);
    pad(&mut w);
    w.bit / 8
}
