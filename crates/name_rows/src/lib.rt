// The names in a row of the text: the next one, how many there are, and whether one occurs twice, as a class's
// permissions must not.
#![tactic(auto)]

ghost use Rattle.std.specs.Prelude.{◌≡◌, [], not, ◌≤◌, length, set, MatchOption};
ghost use Rattle.lexer.specs.Forms.{frames_at};
ghost use Rattle.policy.specs.Basics.{differ};
ghost use Rattle.name_rows.specs.WordRows.{words_in, is_among_first, may_be_among, WordHere, Inside};

use byte_slices::Span;
use lexer::Token;

// Where the word that is next in the row at a place stands, if there is one.
pub fn word_at(text: &[u8], at: usize) -> Option<Span>
    ensures { MatchOption result (words_in (frames_at text.now at).here ≡ []) (λ word. WordHere text.now at word.start word.length) }
{
    let Token::Word { start, len: length } = lexer::next(text, at) else {
        return None;
    };
    Some(Span { start, length })
}

// The place after the open parenthesis that is next, or the same place where none is.
pub fn inside(text: &[u8], at: usize) -> usize
    ensures { Inside text.now at result }
{
    let Token::Open(place) = lexer::next(text, at) else {
        return at;
    };
    place + 1
}

// Whether a name is one of the first names of the row at a place, of so many of them.
fn is_among_first(text: &[u8], at: usize, count: usize, name: &[u8]) -> bool
    ensures { result ≡ is_among_first text.now at count name.now }
{
    let mut i = at;
    for _ in 0..count {
        let Some(word) = word_at(text, i) else {
            return false;
        };
        if name == byte_slices::part(text, word.start, word.length) {
            return true;
        }
        i = word.start + word.length;
    }
    false
}

// Whether a name may be one of the first names of a row, so many of them, by their first eight bytes. It is none of
// them where those of all are lent and none is its own; where fewer are lent than there are names, it may be.
fn may_be_among(fronts: &[usize], count: usize, front: usize) -> bool
    ensures { result ≡ may_be_among fronts.now count front }
{
    fronts.len() < count || fronts[..count].contains(&front)
}

// Keeps the first eight bytes of a name by the name's number in the row, if there is room for so many. By `get_mut`
// that was tried and did not prove: std does not say what the slice then ends as.
fn keep_front(fronts: &mut [usize], k: usize, front: usize)
    ensures { fronts.new ≡ set fronts.old k front }
{
    if k < fronts.len() {
        fronts[k] = front;
    }
}

// Whether a name occurs twice in the row at a place: each is looked for among those before it. The first eight bytes
// are kept of as many names as a class may have, and asked first: only a name that may be among those before it is
// compared with them.
pub fn repeats(text: &[u8], at: usize) -> bool
    ensures { result ≡ not (differ (words_in (frames_at text.now at).here)) }
{
    let mut fronts = [0usize; policy::Permission::MAX];
    let mut i = at;
    let mut count: usize = 0;
    while let Some(word) = word_at(text, i) {
        let name = byte_slices::part(text, word.start, word.length);
        let front = name_index::front_of(name);
        if may_be_among(&fronts, count, front) && is_among_first(text, at, count, name) {
            return true;
        }
        keep_front(&mut fronts, count, front);
        count += 1;
        i = word.start + word.length;
    }
    false
}

// How many names are in the row at a place.
pub fn count_names(text: &[u8], at: usize) -> usize
    ensures { result ≡ length (words_in (frames_at text.now at).here) }
{
    let mut i = at;
    let mut count: usize = 0;
    while let Some(word) = word_at(text, i) {
        count += 1;
        i = word.start + word.length;
    }
    count
}
