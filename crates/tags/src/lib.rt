// Start tags with their attributes, and end tags.
#![tactic(auto)]

ghost use Rattle.std.specs.Prelude.{◌≡◌, ℕ, Bool, List, ◌++◌, ◌+◌, ◌*◌, ◌-◌, ◌≤◌, ◌<◌, length, get_or, set};
ghost use Rattle.octets.specs.Bytes.{same};
ghost use Rattle.pieces.specs.Walk.{walk_at};
ghost use Rattle.tags.specs.Attributes.{bit_at, quoted_at, decoded_at, equalled, attr_at, seek_at, attr_named};
ghost use Rattle.tags.specs.Tags.{take_at, tail_at, open_at, close_at};
ghost use Rattle.tags.specs.WorkingTree.{nodes, cells, bit_of, way, NameTree, NameAdded, passed, look_at};

use pieces::Step;

// An attribute: where its name begins and ends, where its value begins, and where that ends. Or where the attributes end.
#[derive(Drop)]
pub enum Attr {
    Of {
        name: usize,
        name_end: usize,
        value: usize,
        end: usize,
    },
    Last(usize),
    Bad,
}

// A start tag: where its name ends, and where it does.
#[derive(Drop)]
pub enum Open {
    Full { name_end: usize, end: usize },
    Empty { name_end: usize, end: usize },
    Shut,
}

// ---- values

fn bit(s: &[u8], q: u8, i: usize) -> Step
    requires { 0 < q }
    ensures { result ≡ bit_at s.now q i }
{
    let b = octets::byte(s, i);
    if b == q {
        return Step::Stop(i + 1);
    }
    if pieces::is_run(b) {
        return Step::Go(i + 1);
    }
    match pieces::character(s, i) {
        Some((_, j)) => Step::Go(j),
        None => Step::Stuck,
    }
}

// Where the value ends whose quote q stands before `at`.
fn quoted(s: &[u8], q: u8, at: usize) -> Option<usize>
    requires { 0 < q }
    ensures { result ≡ walk_at (bit_at s.now q) s.now at }
{
    pieces::walk(s, at, |i| bit(s, q, i))
}

fn value(s: &[u8], at: usize) -> Option<usize>
    ensures { result ≡ quoted_at s.now at }
{
    match octets::byte(s, at) {
        b'"' => quoted(s, b'"', at + 1),
        b'\'' => quoted(s, b'\'', at + 1),
        _ => None,
    }
}

// Whether the value whose quote stands at `at` is w, decoded and otherwise as it stands.
pub fn value_is(s: &[u8], at: usize, w: &[u8]) -> bool
    requires { at ≤ length s.now }
    ensures { result ≡ same (decoded_at s.now at) w.now }
{
    let q = octets::byte(s, at);
    let mut i = at + 1;
    for x in w {
        if octets::byte(s, i) == q {
            return false;
        }
        let Some((c, j)) = pieces::character(s, i) else {
            return false;
        };
        if c != u32::from(*x) {
            return false;
        }
        i = j;
    }
    octets::byte(s, i) == q || pieces::character(s, i).is_none()
}

// ---- the next attribute

fn equals(s: &[u8], name: usize, name_end: usize) -> Attr
    ensures { result ≡ equalled s.now name (Some name_end) }
{
    let q = pieces::spaces(s, name_end);
    if octets::byte(s, q) != b'=' {
        return Attr::Bad;
    }
    let v = pieces::spaces(s, q + 1);
    match value(s, v) {
        Some(end) => Attr::Of {
            name,
            name_end,
            value: v,
            end,
        },
        None => Attr::Bad,
    }
}

fn attribute(s: &[u8], at: usize) -> Attr
    ensures { result ≡ attr_at s.now at }
{
    let j = pieces::spaces(s, at);
    let b = octets::byte(s, j);
    if b == b'>' || b == b'/' {
        return Attr::Last(j);
    }
    if j == at {
        return Attr::Bad;
    }
    match pieces::name(s, j) {
        Some(e) => equals(s, j, e),
        None => Attr::Bad,
    }
}

// ---- an attribute by its name

// Whether t is `lead` and then `rest`.
fn is_joined(t: &[u8], lead: &[u8], rest: &[u8]) -> bool
    ensures { result ≡ same t.now (lead.now ++ rest.now) }
{
    octets::stands_at(t, 0, lead) && octets::equal(&t[lead.len()..], rest)
}

fn seek(s: &[u8], lead: &[u8], rest: &[u8], stop: usize, i: usize) -> Step
    ensures { result ≡ seek_at s.now (lead.now ++ rest.now) stop i }
{
    match attribute(s, i) {
        Attr::Of {
            name,
            name_end,
            value,
            end,
        } => {
            if stop <= name {
                return Step::Stuck;
            }
            if is_joined(&s[name..name_end], lead, rest) {
                Step::Stop(value)
            } else {
                Step::Go(end)
            }
        }
        Attr::Last(_) | Attr::Bad => Step::Stuck,
    }
}

// Where the value stands of the attribute whose name is `lead` and then `rest`, of those that follow `at` and begin before `stop`. `at ≤ length s` is asked of a
// caller, who has read what ends there; docs/PROMISES.md names it.
pub fn find(s: &[u8], lead: &[u8], rest: &[u8], at: usize, stop: usize) -> Option<usize>
    requires { at ≤ length s.now }
    ensures { result ≡ attr_named s.now (lead.now ++ rest.now) at stop }
{
    pieces::walk(s, at, |i| seek(s, lead, rest, stop, i))
}

// ---- the attributes of a tag

// A step over the attribute at i: on to its end, if `takes` takes its name and where that begins.
fn pass<F: Fn(&[u8], usize) -> bool>(s: &[u8], i: usize, takes: F) -> Step
    requires { F.IsAlwaysCallable takes }
    ensures { (p : List ℕ → ℕ → Bool) → ((w : _) (j : ℕ) (r : _) → F.post takes w j r → r ≡ p w.now j) → result ≡ passed s.now p (attr_at s.now i) }
{
    match attribute(s, i) {
        Attr::Of {
            name,
            name_end,
            end,
            ..
        } => {
            if takes(&s[name..name_end], name) {
                Step::Go(end)
            } else {
                Step::Stuck
            }
        }
        Attr::Last(j) => Step::Stop(j),
        Attr::Bad => Step::Stuck,
    }
}

// One attribute of those that begin at a: none before it has its name.
fn take(s: &[u8], a: usize, i: usize) -> Step
    requires { a ≤ length s.now }
    ensures { result ≡ take_at s.now a i }
{
    pass(s, i, |name, j| find(s, b"", name, a, j).is_none())
}

// ---- many attributes

// The names of many attributes are put into a tree as they are read. The way of a name goes from node 0 by its bits, and ends at a node of that name or at a
// free cell, so that it passes few others, whatever the names are. A node is four cells: where its name begins, where it ends, and the nodes at which the
// ways go on that turn by 0 and by 1, or 0. Node 0 has no name. The cells are an array of fixed size and no map: `open_tag` cannot fail, so nothing is allocated.
// Four cells of one array, and no struct: `node_name`, `cell_of` and `NameTree` say which cell has what.
const NODES: usize = 2048;

const CELLS: usize = 8192;

fn cell(t: &[u16; CELLS], x: usize) -> usize
    requires { x < cells }
    ensures { result ≡ get_or t.now x 0 }
{
    usize::from(t[x])
}

fn put_cell(t: &mut [u16; CELLS], x: usize, v: usize)
    requires x_lt_cells { x < cells }
    requires v_bound { v < 65536 }
    ensures { t.new ≡ set t.old x v }
{
    t[x] = v as u16;
}

// Bit d of the name w.
fn turn(w: &[u8], d: usize) -> usize
    ensures { result ≡ bit_of w.now d }
{
    usize::from((octets::byte(w, d / 8) >> (d % 8)) % 2)
}

// The free cell at which the way of w ends, if no node has that name. The way goes from node to node, with no iterator: a cell tells the next one. The tree and the
// message go side by side: `NameTree` is said of both, and of how many nodes there are so far.
fn place(s: &[u8], w: &[u8], t: &[u16; CELLS]) -> Option<usize>
    requires { NameTree s.now t.now nodes }
    ensures { result ≡ way s.now t.now w.now }
{
    let mut k = 0;
    let mut d = 0;
    loop {
        let from = cell(t, 4 * k);
        let to = cell(t, 4 * k + 1);
        if octets::equal(&s[from..to], w) {
            return None;
        }
        let x = 4 * k + 2 + turn(w, d);
        let next = cell(t, x);
        if next == 0 {
            return Some(x);
        }
        k = next;
        d += 1;
    }
}

// Makes node n of the name from j to e, unless there is a node of that name.
fn add(s: &[u8], j: usize, e: usize, t: &mut [u16; CELLS], n: usize) -> bool
    requires j_le_e { j ≤ e }
    requires e_in_bounds { e ≤ length s.now }
    requires s_len_bound { length s.now < 65536 }
    requires n_lt_nodes { n < nodes }
    requires name_tree { NameTree s.now t.old n }
    ensures { NameAdded s.now t.old t.new j e n result }
{
    let Some(x) = place(s, &s[j..e], t) else {
        return false;
    };
    put_cell(t, x, n);
    put_cell(t, 4 * n, j);
    put_cell(t, 4 * n + 1, e);
    true
}

// One attribute whose name no node has.
fn look(s: &[u8], t: &[u16; CELLS], i: usize) -> Step
    requires { NameTree s.now t.now nodes }
    ensures { result ≡ look_at s.now t.now i }
{
    pass(s, i, |name, _| place(s, name, t).is_some())
}

// Where the attributes end that follow `at`, if no node has the name of one.
fn apart(s: &[u8], t: &[u16; CELLS], at: usize) -> Option<usize>
    requires { NameTree s.now t.now nodes }
    ensures { result ≡ walk_at (look_at s.now t.now) s.now at }
{
    pieces::walk(s, at, |i| look(s, t, i))
}

// As `attributes`, for any number of them. Those for which the tree has no room are read by themselves, and then looked up in it. (A function that calls itself
// is not compiled into its callers: the room for the tree is taken where it is needed, and not at each tag.)
fn many(s: &[u8], at: usize) -> Option<usize>
    requires at_in_bounds { at ≤ length s.now }
    requires s_len_bound { length s.now < 65536 }
    ensures { result ≡ walk_at (take_at s.now at) s.now at }
{
    let mut names = [0u16; CELLS];
    let mut i = at;
    for n in 1..NODES {
        match attribute(s, i) {
            Attr::Of {
                name,
                name_end,
                end,
                ..
            } => {
                if !add(s, name, name_end, &mut names, n) {
                    return None;
                }
                i = end;
            }
            Attr::Last(k) => return Some(k),
            Attr::Bad => return None,
        }
    }
    many(s, i)?;
    apart(s, &names, i)
}

// A tag with fewer attributes is read without a tree.
const FEW: usize = 16;

// Where the attributes end that begin at `at`.
fn attributes(s: &[u8], at: usize) -> Option<usize>
    requires { at ≤ length s.now }
    ensures { result ≡ walk_at (take_at s.now at) s.now at }
{
    let mut i = at;
    for _ in 0..FEW {
        match take(s, at, i) {
            Step::Go(k) => i = k,
            Step::Stop(k) => return Some(k),
            Step::Stuck => return None,
        }
    }
    // so that each position fits a cell
    if s.len() < 65536 {
        many(s, at)
    } else {
        pieces::walk(s, i, |i| take(s, at, i))
    }
}

// ---- tags

// The rest of a start tag: one that ends right behind its name is told at once.
fn tail(s: &[u8], name_end: usize) -> Open
    requires { name_end ≤ length s.now }
    ensures { result ≡ tail_at s.now name_end }
{
    if octets::byte(s, name_end) == b'>' {
        return Open::Full {
            name_end,
            end: name_end + 1,
        };
    }
    whole_tail(s, name_end)
}

fn whole_tail(s: &[u8], name_end: usize) -> Open
    requires { name_end ≤ length s.now }
    ensures { result ≡ tail_at s.now name_end }
{
    let Some(j) = attributes(s, name_end) else {
        return Open::Shut;
    };
    if octets::byte(s, j) == b'>' {
        return Open::Full {
            name_end,
            end: j + 1,
        };
    }
    if octets::stands_at(s, j, b"/>") {
        Open::Empty {
            name_end,
            end: j + 2,
        }
    } else {
        Open::Shut
    }
}

pub fn open_tag(s: &[u8], at: usize) -> Open
    ensures { result ≡ open_at s.now at }
{
    if octets::byte(s, at) != b'<' {
        return Open::Shut;
    }
    match pieces::name(s, at + 1) {
        Some(name_end) => tail(s, name_end),
        None => Open::Shut,
    }
}

// The end tag at j of the element at `at`, whose name ends at a.
pub fn close_tag(s: &[u8], at: usize, a: usize, j: usize) -> Option<usize>
    requires at_bound { at + 1 < a }
    requires a_in_bounds { a ≤ length s.now }
    ensures { result ≡ close_at s.now at a j }
{
    if !octets::stands_at(s, j, b"</") {
        return None;
    }
    let start = at + 1;
    if !octets::stands_at(s, j + 2, &s[start..a]) {
        return None;
    }
    let e = pieces::spaces(s, j + 2 + (a - start));
    if octets::byte(s, e) == b'>' {
        Some(e + 1)
    } else {
        None
    }
}
