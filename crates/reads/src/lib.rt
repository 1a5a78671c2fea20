// What document 01 reads in a message: the leaves and where they stand, what each element adds, and which elements are read where.
#![tactic(auto)]

ghost use Rattle.std.specs.Prelude.{◌≡◌, ◌≤◌, length};
ghost use Rattle.reads.specs.WorkingLeaves.{no_leaf, marked, found, sound_of, only_of, pair_ok, no_info, nothing_read};
ghost use Rattle.std.specs.Option.{option_map_or};
ghost use Rattle.values.specs.Value.{value_at};
ghost use Rattle.words.specs.WorkingWords.{words_of, which_of};
ghost use Rattle.reads.specs.declared.Context.TheVariants.{PairLeaf, Skipped};
ghost use Rattle.reads.specs.WorkingParameters.{broadcast_text, read_parameters, is_of};
ghost use Rattle.reads.specs.Names.{local_at, alert_context, info_context, later_context, pair_context, resource_context, area_context, context_of};
ghost use Rattle.reads.specs.WorkingSteps.{event_step, parameter_row, with_location, audio_of, uri_ok, audio_step, english, is_nothing};

// A leaf: where the value of the first begins, how often it stands (0, 1, and 2 for more), and whether one of them holds an element.
// A count and no enum: `found`, `sound_of` and `only_of` count.
#[derive(Clone, Copy)]
pub struct Leaf {
    pub at: usize,
    pub count: u32,
    pub holds: bool,
}

// The eventCodes: those named SAME; and whether one is at fault.
#[derive(Clone, Copy)]
pub struct Events {
    pub same: Leaf,
    pub fault: bool,
}

// The parameters that are read, by their places in the table of them; PARAMETERS is how many there are.
pub const EAS_ORG: usize = 0;

pub const EAS_TEXT: usize = 1;

pub const MUST_CARRY: usize = 2;

pub const BROADCAST_TEXT: usize = 3;

pub const PARAMETERS: usize = 4;

// The parameters that are read; and whether one is at fault.
#[derive(Clone, Copy)]
pub struct Parameters {
    pub leaf: [Leaf; PARAMETERS],
    pub fault: bool,
}

// The geocodes named SAME: the first 31 that are six digits, zeros behind them; whether one is not; and whether a geocode is at fault.
// A count beside an array: nothing here allocates, and `with_location` and `location_step` are said of the two.
#[derive(Clone, Copy)]
pub struct Locations {
    pub count: usize,
    pub list: [u32; 31],
    pub bad: bool,
    pub fault: bool,
}

// The audio choice of the resources: where its uri begins, and its number; and whether a resource is at fault.
// A number, and 0 for none: `audio_of` and `audio_step` say it, and `text_answer_of` hands it on as the call's answer.
#[derive(Clone, Copy)]
pub struct Audio {
    pub uri: usize,
    pub number: u32,
    pub fault: bool,
}

// The leaves of an info, by their places. No enum: `in_info` gives a name its place, and `touched_at` touches the leaf there.
pub const LANGUAGE: usize = 0;

pub const EXPIRES: usize = 1;

pub const SENDER_NAME: usize = 2;

pub const DESCRIPTION: usize = 3;

pub const INSTRUCTION: usize = 4;

// What is read in an info.
#[derive(Clone, Copy)]
pub struct Info {
    pub leaf: [Leaf; 5],
    pub events: Events,
    pub parameters: Parameters,
    pub locations: Locations,
    pub audio: Audio,
}

// The leaves of an alert, by their places, as `in_alert` has them.
pub const IDENTIFIER: usize = 0;

pub const SENDER: usize = 1;

pub const SENT: usize = 2;

pub const STATUS: usize = 3;

pub const MSG_TYPE: usize = 4;

pub const SCOPE: usize = 5;

pub const REFERENCES: usize = 6;

// Of the infos one is kept: none yet, the first, or the one that is selected.
#[derive(Clone, Copy)]
pub enum Kept {
    Nothing,
    First,
    Selected,
}

// What is read in an alert; the info that is kept; and whether the language of one is at fault.
// Where none is kept, `info` has nothing in it: what is absent reads as empty there too, and `alert_of` has one info always.
#[derive(Clone, Copy)]
pub struct Alert {
    pub leaf: [Leaf; 7],
    pub info: Info,
    pub kept: Kept,
    pub fault: bool,
}

// The alert so far, the info that is being read, and the two leaves of the eventCode, parameter, geocode or resource that is.
#[derive(Clone, Copy)]
pub struct State {
    pub alert: Alert,
    pub info: Info,
    pub pair: [Leaf; 2],
}

// The element whose content is being read.
#[derive(Clone, Copy)]
pub enum Context {
    Root,
    Alert,
    Info,
    Later,
    EventCode,
    Parameter,
    Resource,
    Area,
    Geocode,
    AlertLeaf(usize),
    InfoLeaf(usize),
    PairLeaf(usize),
    Skipped,
}

// ---- nothing found yet, in a message of n bytes: what is absent stands at its end

pub fn no_leaf(n: usize) -> Leaf
    ensures { result ≡ no_leaf n }
{
    Leaf {
        at: n,
        count: 0,
        holds: false,
    }
}

pub fn no_info(n: usize) -> Info
    ensures { result ≡ no_info n }
{
    let leaf = no_leaf(n);
    Info {
        leaf: [leaf; 5],
        events: Events {
            same: leaf,
            fault: false,
        },
        parameters: Parameters {
            leaf: [leaf; PARAMETERS],
            fault: false,
        },
        locations: Locations {
            count: 0,
            list: [0; 31],
            bad: false,
            fault: false,
        },
        audio: Audio {
            uri: n,
            number: 0,
            fault: false,
        },
    }
}

pub fn new_state(n: usize) -> State
    ensures { result ≡ nothing_read n }
{
    let leaf = no_leaf(n);
    let info = no_info(n);
    State {
        alert: Alert {
            leaf: [leaf; 7],
            info,
            kept: Kept::Nothing,
            fault: false,
        },
        info,
        pair: [leaf; 2],
    }
}

// ---- leaves

// One more, whose value begins at `at`.
pub fn find(l: Leaf, at: usize) -> Leaf
    ensures { result ≡ found l at }
{
    if l.count == 0 {
        Leaf { at, count: 1, ..l }
    } else {
        Leaf { count: 2, ..l }
    }
}

pub fn mark(l: Leaf) -> Leaf
    ensures { result ≡ marked l }
{
    Leaf { holds: true, ..l }
}

// Neither repeated nor holding an element.
#[tactic(auto, unfolding(crate::specs::WorkingLeaves::sound_of, octets::specs::Bytes::every))]
pub fn is_sound(l: Leaf) -> bool
    ensures { result ≡ sound_of l }
{
    l.count <= 1 && !l.holds
}

// Exactly once, and holding no element.
#[tactic(auto, unfolding(crate::specs::WorkingLeaves::only_of, octets::specs::Bytes::every))]
pub fn is_only(l: Leaf) -> bool
    ensures { result ≡ only_of l }
{
    l.count == 1 && !l.holds
}

// valueName and value: each there, and sound, which is exactly once and holding no element.
pub fn is_pair(name: Leaf, value: Leaf) -> bool
    ensures { result ≡ pair_ok name value }
{
    is_only(name) && is_only(value)
}

// ---- names

// Where the name from `from` to `to` goes on behind the root's prefix p; its end where it does not carry it, so that the local name is empty (`local_at`).
// Two places and no struct of them: `local_at` and `context_of` take both, and docs/PROMISES.md names what is asked of them.
pub fn local(s: &[u8], p: &[u8], from: usize, to: usize) -> usize
    requires { (from ≤ to) × (to ≤ length s.now) }
    ensures { result ≡ local_at s.now p.now from to }
{
    if s[from..to].starts_with(p) {
        from + p.len()
    } else {
        to
    }
}

pub fn alert_context(name: &[u8], kept: Kept) -> Context
    ensures { result ≡ alert_context kept name.now }
{
    match words::which(
        name,
        b"\x0a\x06\x04\x06\x07\x05\x0a\x04",
        b"identifiersendersentstatusmsgTypescopereferencesinfo",
    ) {
        Some(7) => match kept {
            Kept::Nothing | Kept::First => Context::Info,
            Kept::Selected => Context::Later,
        },
        Some(k) => Context::AlertLeaf(k),
        None => Context::Skipped,
    }
}

pub fn info_context(name: &[u8]) -> Context
    ensures { result ≡ info_context name.now }
{
    match words::which(
        name,
        b"\x08\x09\x07\x0a\x0b\x0b\x09\x08\x04",
        b"languageeventCodeexpiressenderNamedescriptioninstructionparameterresourcearea",
    ) {
        Some(0) => Context::InfoLeaf(0),
        Some(1) => Context::EventCode,
        Some(k @ 2..=5) => Context::InfoLeaf(k - 1),
        Some(6) => Context::Parameter,
        Some(7) => Context::Resource,
        Some(8) => Context::Area,
        _ => Context::Skipped,
    }
}

#[tactic(auto, unfolding(crate::specs::Names::among, octets::specs::Text::bytes))]
pub fn later_context(name: &[u8]) -> Context
    ensures { result ≡ later_context name.now }
{
    if octets::equal(name, b"language") {
        Context::InfoLeaf(0)
    } else {
        Context::Skipped
    }
}

// The leaf of a pair whose name stands in a table of words; always inlined, so that the table is unrolled at both its uses.
#[inline(always)]
fn pair_leaf(name: &[u8], lens: &[u8], text: &[u8]) -> Context
    ensures { result ≡ option_map_or PairLeaf (which_of (words_of lens.now text.now) name.now) Skipped }
{
    words::which(name, lens, text).map_or(Context::Skipped, Context::PairLeaf)
}

pub fn pair_context(name: &[u8]) -> Context
    ensures { result ≡ pair_context name.now }
{
    pair_leaf(name, b"\x09\x05", b"valueNamevalue")
}

pub fn resource_context(name: &[u8]) -> Context
    ensures { result ≡ resource_context name.now }
{
    pair_leaf(name, b"\x08\x03", b"mimeTypeuri")
}

#[tactic(auto, unfolding(crate::specs::Names::among, octets::specs::Text::bytes))]
pub fn area_context(name: &[u8]) -> Context
    ensures { result ≡ area_context name.now }
{
    if octets::equal(name, b"geocode") {
        Context::Geocode
    } else {
        Context::Skipped
    }
}

// The context inside the element in the context c whose name stands from `from` to `to`.
pub fn context_of(s: &[u8], p: &[u8], from: usize, to: usize, c: Context, kept: Kept) -> Context
    requires { (from ≤ to) × (to ≤ length s.now) }
    ensures { result ≡ context_of s.now p.now from to c kept }
{
    let name = &s[local(s, p, from, to)..to];
    match c {
        Context::Root => Context::Alert,
        Context::Alert => alert_context(name, kept),
        Context::Info => info_context(name),
        Context::Later => later_context(name),
        Context::EventCode | Context::Parameter | Context::Geocode => pair_context(name),
        Context::Resource => resource_context(name),
        Context::Area => area_context(name),
        Context::AlertLeaf(_) | Context::InfoLeaf(_) | Context::PairLeaf(_) | Context::Skipped => {
            Context::Skipped
        }
    }
}

// ---- what an eventCode, a geocode and a resource add, by their two leaves; which parameter one is

#[tactic(auto, unfolding(crate::specs::WorkingSteps::event_step, octets::specs::Text::bytes))]
pub fn event_step(s: &[u8], e: Events, name: Leaf, value: Leaf) -> Events
    ensures { result ≡ event_step s.now e name value }
{
    if !is_pair(name, value) {
        return Events { fault: true, ..e };
    }
    if values::equal(s, name.at, b"SAME") {
        return Events {
            same: find(e.same, value.at),
            ..e
        };
    }
    e
}

// The place of the parameter in the table of those that are read, by its name and its value.
pub fn parameter_row(s: &[u8], name: usize, value: usize) -> Option<usize>
    ensures { result ≡ parameter_row read_parameters (value_at s.now name) (value_at s.now value) }
{
    let exact = words::which_value(s, name, b"\x07\x07\x0e", b"EAS-ORGEASTextEAS-Must-Carry");
    exact.or_else(|| is_broadcast_text(s, name, value).then_some(BROADCAST_TEXT))
}

// The parameter whose name may have any letter case, and whose value may not be empty.
fn is_broadcast_text(s: &[u8], name: usize, value: usize) -> bool
    ensures { result ≡ is_of broadcast_text (value_at s.now name) (value_at s.now value) }
{
    values::equal_any_case(s, name, b"layer:aea:2.0:broadcasttext") && !values::is_empty(s, value)
}

impl Locations {
    // One more behind those that are placed; with 31 of them, none.
    #[tactic(auto, unfolding(crate::specs::WorkingSteps::with_location))]
    pub fn place(&mut self, code: u32)
        ensures { self.new ≡ with_location self.old code }
    {
        if self.count < self.list.len() {
            self.list[self.count] = code;
            self.count += 1;
        }
    }
}

// The audio number of a mimeType: 1 mp3, 2 wav, 3 streaming mp3; 0 of any other.
pub fn audio_of(s: &[u8], at: usize) -> u32
    ensures { result ≡ audio_of s.now at }
{
    words::which_value(
        s,
        at,
        b"\x17\x17\x21",
        b"audio/x-ipaws-audio-mp3audio/x-ipaws-audio-wavaudio/x-ipaws-streaming-audio-mp3",
    )
    .map_or(0, |k| k as u32 + 1)
}

#[tactic(auto, unfolding(crate::specs::WorkingSteps::audio_step))]
pub fn audio_step(s: &[u8], e: Audio, mime: Leaf, uri: Leaf) -> Audio
    ensures { result ≡ audio_step s.now e mime uri }
{
    if !is_sound(mime) || !is_sound(uri) {
        return Audio { fault: true, ..e };
    }
    if e.number != 0 {
        return e;
    }
    let number = audio_of(s, mime.at);
    if number == 0 || !is_uri(s, uri.at) {
        return e;
    }
    Audio {
        uri: uri.at,
        number,
        ..e
    }
}

// A uri: 1 to 1,024 characters, each printable.
fn is_uri(s: &[u8], at: usize) -> bool
    ensures { result ≡ uri_ok (value_at s.now at) }
{
    (1..=1024).contains(&values::printable_size(s, at))
}

// ---- infos

// A language that is absent, empty or en-US in any letter case.
#[tactic(auto, unfolding(crate::specs::WorkingSteps::english, octets::specs::Text::bytes))]
pub fn is_english(s: &[u8], language: Leaf) -> bool
    ensures { result ≡ english s.now language }
{
    values::is_empty(s, language.at) || values::equal_any_case(s, language.at, b"en-us")
}

// No info is kept yet.
pub fn is_nothing(k: Kept) -> bool
    ensures { result ≡ is_nothing k }
{
    matches!(k, Kept::Nothing)
}
