// One forward pass over a message, which gathers what stands in it of all that document 01 reads. The state is lent, and changed in place.
#![tactic(auto)]

ghost use Rattle.std.specs.Prelude.{◌≡◌, length};
ghost use Rattle.markup.specs.Tree.{elem_at, content_at};
ghost use Rattle.reads.specs.WorkingLeaves.{nothing_read};
ghost use Rattle.reads.specs.WorkingSteps.{parameter_step, location_step, later_step};
ghost use Rattle.gather.specs.WorkingVisit.{touched, touched_at, touch_in, pair_left, info_left, later_left, left, leaf_place, settled, got_one, got_held, got_in};

use pieces::Piece;
use reads::{Context, Kept, Leaf, Locations, Parameters, State};
use tags::Open;

// What is learnt of a leaf: that it holds an element, or that one more stands, whose value begins at a place.
// No Option: that a leaf holds an element is learnt as much as that it stands, and `touched` tells the two.
#[derive(Clone, Copy)]
pub enum Touch {
    Holds,
    Stands(usize),
}

// Where what is read ends, and what is gathered with it. A state also where there is no end: `got_one` answers one there, in which nothing is read.
#[derive(Drop)]
pub struct Gathered {
    pub end: Option<usize>,
    pub state: State,
}

// ---- entering an element, and leaving a leaf

#[tactic(auto, unfolding(crate::specs::WorkingVisit::touched))]
fn touched_leaf(l: Leaf, t: Touch) -> Leaf
    ensures { result ≡ touched t l }
{
    match t {
        Touch::Holds => reads::mark(l),
        Touch::Stands(at) => reads::find(l, at),
    }
}

// Touches the leaf at k; where none stands there, nothing.
fn touch_at(leaves: &mut [Leaf], k: usize, t: Touch)
    ensures { leaves.new ≡ touched_at (length leaves.old) t k leaves.old }
{
    if k < leaves.len() {
        leaves[k] = touched_leaf(leaves[k], t);
    }
}

// Touches the leaf of the context c; where c is no leaf, nothing. Inlined, for each of its uses knows what is learnt.
#[inline]
#[tactic(auto, unfolding(crate::specs::WorkingVisit::touch_in))]
fn touch_leaf(c: Context, t: Touch, st: &mut State)
    ensures { st.new ≡ touch_in t c st.old }
{
    match c {
        Context::AlertLeaf(k) => touch_at(&mut st.alert.leaf, k, t),
        Context::InfoLeaf(k) => touch_at(&mut st.info.leaf, k, t),
        Context::PairLeaf(k) => touch_at(&mut st.pair, k, t),
        _ => {}
    }
}

// ---- the end of an element that is no leaf

// An eventCode, a parameter, a geocode or a resource: its two leaves add what they say, and a pair is read anew. By the kind of element, and no closure: each arm
// has its own field of the info.
#[tactic(auto, unfolding(crate::specs::WorkingVisit::pair_added))]
fn leave_pair(s: &[u8], k: Context, st: &mut State)
    ensures { st.new ≡ pair_left s.now k st.old }
{
    let [name, value] = st.pair;
    match k {
        Context::EventCode => st.info.events = reads::event_step(s, st.info.events, name, value),
        Context::Parameter => add_parameter(s, &mut st.info.parameters, name, value),
        Context::Geocode => add_location(s, &mut st.info.locations, name, value),
        Context::Resource => st.info.audio = reads::audio_step(s, st.info.audio, name, value),
        _ => {}
    }
    st.pair = [reads::no_leaf(s.len()); 2];
}

// What a parameter adds to the leaf of its row, by its valueName and its value.
fn add_parameter(s: &[u8], e: &mut Parameters, name: Leaf, value: Leaf)
    ensures { e.new ≡ parameter_step s.now e.old name value }
{
    if !reads::is_pair(name, value) {
        e.fault = true;
        return;
    }
    // Lent before the row is known: a proof then has how many there are, also where there is no row.
    let leaves: &mut [Leaf] = &mut e.leaf;
    if let Some(row) = reads::parameter_row(s, name.at, value.at) {
        touch_at(leaves, row, Touch::Stands(value.at));
    }
}

// What a geocode adds to the locations, by its valueName and its value.
#[tactic(auto, unfolding(reads::specs::WorkingSteps::location_step, octets::specs::Text::bytes))]
fn add_location(s: &[u8], e: &mut Locations, name: Leaf, value: Leaf)
    ensures { e.new ≡ location_step s.now e.old name value }
{
    if !reads::is_pair(name, value) {
        e.fault = true;
        return;
    }
    if !values::equal(s, name.at, b"SAME") {
        return;
    }
    match values::six_digits(s, value.at) {
        Some(code) => e.place(code),
        None => e.bad = true,
    }
}

// The language of the info that has been read: the alert is at fault where it is.
#[tactic(auto, unfolding(reads::specs::WorkingSteps::later_step))]
fn fault_language(st: &mut State)
    ensures { st.new ≡ record st.old { alert = later_step st.old.alert st.old.info } }
{
    if !reads::is_sound(st.info.leaf[reads::LANGUAGE]) {
        st.alert.fault = true;
    }
}

// An info that has been read whole, before one is selected: it is kept, if its language selects it or it is the first.
#[tactic(auto, unfolding(reads::specs::WorkingSteps::info_step, reads::specs::WorkingSteps::later_step))]
fn leave_info(s: &[u8], st: &mut State)
    ensures { st.new ≡ info_left s.now st.old }
{
    fault_language(st);
    if reads::is_english(s, st.info.leaf[reads::LANGUAGE]) {
        st.alert.info = st.info;
        st.alert.kept = Kept::Selected;
    } else if reads::is_nothing(st.alert.kept) {
        st.alert.info = st.info;
        st.alert.kept = Kept::First;
    }
    st.info = reads::no_info(s.len());
}

// An info behind the one that is selected: of it only the language is read.
fn leave_later(n: usize, st: &mut State)
    ensures { st.new ≡ later_left n st.old }
{
    fault_language(st);
    st.info = reads::no_info(n);
}

// An element of the context k ends, whose value, if it is a leaf, begins at `at`.
#[tactic(auto, unfolding(crate::specs::WorkingVisit::left))]
fn leave(s: &[u8], k: Context, at: usize, st: &mut State)
    ensures { st.new ≡ left s.now k at st.old }
{
    match k {
        Context::EventCode | Context::Parameter | Context::Geocode | Context::Resource =>
            leave_pair(s, k, st),
        Context::Info => leave_info(s, st),
        Context::Later => leave_later(s.len(), st),
        Context::AlertLeaf(_) | Context::InfoLeaf(_) | Context::PairLeaf(_) => {
            touch_leaf(k, Touch::Stands(at), st)
        }
        Context::Root | Context::Alert | Context::Area | Context::Skipped => {}
    }
}

// ---- the pass. Where an element has no end, the state is whatever it is. A struct of s and p would be taken apart again in each call below.

// Where the value of a leaf begins that holds what stands from b to e: nothing has the value of the message's end.
#[tactic(auto, unfolding(crate::specs::WorkingVisit::leaf_place))]
fn place(s: &[u8], b: usize, e: usize) -> usize
    ensures { result ≡ leaf_place s.now b e }
{
    if b == e { s.len() } else { b }
}

// The element at `at`, in the context c, under the root's prefix p: where it ends. What is gathered with it is in the state.
#[cycle(read_content_read_element)]
fn read_element(
    s: &[u8],
    p: &[u8],
    at: usize,
    depth: usize,
    c: Context,
    st: &mut State,
) -> Option<usize>
    ensures { settled (length s.now) (got_in result st.new) ≡ got_one s.now p.now c st.old (elem_at s.now depth at) }
{
    if depth == 0 {
        return None;
    }
    match tags::open_tag(s, at) {
        Open::Shut => None,
        Open::Empty { name_end, end } => {
            let k = reads::context_of(s, p, at + 1, name_end, c, st.alert.kept);
            touch_leaf(c, Touch::Holds, st);
            leave(s, k, s.len(), st);
            Some(end)
        }
        Open::Full {
            name_end,
            end: start,
        } => {
            let k = reads::context_of(s, p, at + 1, name_end, c, st.alert.kept);
            touch_leaf(c, Touch::Holds, st);
            let e = read_content(s, p, start, depth - 1, k, st)?;
            let end = tags::close_tag(s, at, name_end, e)?;
            leave(s, k, place(s, start, e), st);
            Some(end)
        }
    }
}

// What an element holds that begins at `at`, in its context c. A piece tells where the next begins, and a child changes the state: no iterator has both.
#[cycle(read_content_read_element)]
fn read_content(
    s: &[u8],
    p: &[u8],
    at: usize,
    depth: usize,
    c: Context,
    st: &mut State,
) -> Option<usize>
    ensures { settled (length s.now) (got_in result st.new) ≡ got_held s.now p.now c st.old (content_at s.now depth at) }
{
    let mut i = at;
    loop {
        i = match pieces::next_piece(s, i) {
            Piece::Bad => return None,
            Piece::Close => return Some(i),
            Piece::Text(j) | Piece::Note(j) => j,
            Piece::Child => read_element(s, p, i, depth, c, st)?,
        };
    }
}

// The element at `at` in the context c: where it ends, and what is gathered with it; where it has no end, nothing.
pub fn element(s: &[u8], p: &[u8], at: usize, depth: usize, c: Context) -> Gathered
    ensures { result ≡ got_one s.now p.now c (nothing_read (length s.now)) (elem_at s.now depth at) }
{
    let mut state = reads::new_state(s.len());
    let end = read_element(s, p, at, depth, c, &mut state);
    if end.is_none() {
        state = reads::new_state(s.len());
    }
    Gathered { end, state }
}
