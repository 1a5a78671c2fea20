// A reader holds the lent message and the position in it, and goes forward.
#![tactic(auto)]

ghost use Rattle.std.specs.Prelude.{◌≡◌};
ghost use Rattle.markup.specs.Document.{before_root};
ghost use Rattle.reader.specs.WorkingPosition.{reached};

#[derive(Drop)]
pub struct Reader<'a> {
    pub src: &'a [u8],
    pub at: usize,
}

// Where the root begins: from `at` on, behind a declaration, white space and comments. Where one of these does not end, it is the end, at which no root begins.
fn lead_at(s: &[u8], at: usize) -> usize
    ensures { result ≡ reached s.now (before_root s.now at) }
{
    markup::declaration(s, at)
        .and_then(|a| markup::misc(s, a))
        .unwrap_or(s.len())
}

impl<'a> Reader<'a> {
    // A reader at the first byte.
    pub fn new(src: &'a [u8]) -> Reader<'a>
        ensures { (result.src ≡ src.entry) × (result.at ≡ 0) }
    {
        Reader { src, at: 0 }
    }

    // The reader, moved on to the root.
    pub fn lead(self) -> Reader<'a>
        ensures { (result.src ≡ self.entry.src) × (result.at ≡ reached self.entry.src.now (before_root self.entry.src.now self.entry.at)) }
    {
        Reader {
            src: self.src,
            at: lead_at(self.src, self.at),
        }
    }
}
