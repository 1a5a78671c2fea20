// Tables of words: how long each is, and all of them one behind another. The place of a name in a table, and the word at a place.
// Lengths stand apart from words, and each call is to be inlined, so that a table that is written out is unrolled, and costs what a chain of tests does.
// No slice of slices: `words_of`, by which each function promises, takes the lengths and the words.
#![tactic(auto)]

ghost use Rattle.std.specs.Prelude.{◌≡◌, ℕ, List, Bool, [], option_map, get_or};
ghost use Rattle.values.specs.Value.{value_at};
ghost use Rattle.words.specs.WorkingWords.{words_of, which_of, first_of};

// The first word that is taken, by its place and its bytes, with that place.
#[inline]
fn first<'a, F: Fn(usize, &[u8]) -> bool>(
    lens: &[u8],
    text: &'a [u8],
    takes: F,
) -> Option<(usize, &'a [u8])>
    requires { F.IsAlwaysCallable takes }
    ensures { (p : ℕ → List ℕ → Bool) → ((k : _) (w : _) (r : _) → F.post takes k w r → r ≡ p k w.now) → option_map (λ f. (f.0, f.1.now)) result ≡ first_of p 0 (words_of lens.now text.now) }
{
    let mut rest = text;
    for (k, n) in lens.iter().enumerate() {
        let (word, behind) = rest.split_at_checked(usize::from(*n))?;
        if takes(k, word) {
            return Some((k, word));
        }
        rest = behind;
    }
    None
}

// The place of the first word that is the name.
#[inline]
pub fn which(name: &[u8], lens: &[u8], text: &[u8]) -> Option<usize>
    ensures { result ≡ which_of (words_of lens.now text.now) name.now }
{
    first(lens, text, |_, word| octets::equal(name, word)).map(|(k, _)| k)
}

// The same for the value at a place of a message.
#[inline]
pub fn which_value(s: &[u8], i: usize, lens: &[u8], text: &[u8]) -> Option<usize>
    ensures { result ≡ which_of (words_of lens.now text.now) (value_at s.now i) }
{
    first(lens, text, |_, word| values::equal(s, i, word)).map(|(k, _)| k)
}

// The word at place i, and nothing behind the last.
#[inline]
pub fn word<'a>(lens: &'a [u8], text: &'a [u8], i: usize) -> &'a [u8]
    ensures { result.now ≡ get_or (words_of lens.now text.now) i [] }
{
    match first(lens, text, |k, _| k == i) {
        Some((_, word)) => word,
        None => &[],
    }
}
