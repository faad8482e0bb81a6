// The items of a text, one after the other, and the rows that are of names alone.
#![tactic(auto)]

ghost use Rattle.std.specs.Prelude.{◌≡◌};
ghost use Rattle.std.specs.Bool.{then_some};
ghost use Rattle.lexer.specs.Forms.{frames_at};
ghost use Rattle.policy.specs.Grammar.{row_of, parts_alone};
ghost use Rattle.words.specs.Numbers.{taken_as};
ghost use Rattle.items.specs.Looks.{item_at, row_end};
ghost use Rattle.items.specs.Reads.{Reads, is_closed, counted};
ghost use Rattle.items.specs.Reads as spec;

use lexer::Token;
use words::NameKind;

// What is at a place: a word with its number, a parenthesis, or the end of the text; and the place after it.
#[derive(Clone, Copy)]
pub enum Item {
    Word {
        start: usize,
        len: usize,
        number: usize,
        next: usize,
    },
    Open {
        place: usize,
        next: usize,
    },
    Close {
        next: usize,
    },
    End,
}

// How many operands or names there must be.
#[derive(Clone, Copy)]
pub enum Wanted {
    OneOrMore,
    Exactly(usize),
}

// The first item at or after a place.
#[tactic(auto, unfolding(crate::specs::Looks::item_at))]
pub fn next_item(text: &[u8], at: usize) -> Item
    ensures { result ≡ item_at text.now at }
{
    match lexer::next(text, at) {
        Token::Open(place) => Item::Open {
            place,
            next: place + 1,
        },
        Token::Close(place) => Item::Close { next: place + 1 },
        Token::Word { start, len } => Item::Word {
            start,
            len,
            number: words::number_at(text, start, len),
            next: start + len,
        },
        Token::End => Item::End,
    }
}

// Whether so many are as many as there must be.
fn enough(wanted: Wanted, count: usize) -> bool
    ensures { result ≡ spec.enough wanted count }
{
    match wanted {
        Wanted::OneOrMore => 0 < count,
        Wanted::Exactly(n) => count == n,
    }
}

// The close of a row, after so many operands or names. This reading of a row and those below answer the place after
// its close, or None where its form is wrong.
pub fn ended(wanted: Wanted, count: usize, next: usize) -> Option<usize>
    ensures { result ≡ then_some (spec.enough wanted count) next }
{
    enough(wanted, count).then_some(next)
}

// A close.
pub fn close_form(text: &[u8], at: usize) -> Option<usize>
    ensures { Reads text.now at (is_closed (frames_at text.now at).here) result }
{
    let Item::Close { next } = next_item(text, at) else {
        return None;
    };
    Some(next)
}

// Names of a kind, and the close.
pub fn names_form(text: &[u8], at: usize, kind: NameKind, wanted: Wanted) -> Option<usize>
    ensures { Reads text.now at (counted wanted 0 (row_of (taken_as kind) (frames_at text.now at).here)) result }
{
    let mut i = at;
    let mut count: usize = 0;
    loop {
        match lexer::next(text, i) {
            Token::Word { start, len } => {
                if !words::is_name(kind, text, start, len) {
                    return None;
                }
                i = start + len;
                count += 1;
            }
            Token::Close(place) => return ended(wanted, count, place + 1),
            Token::Open(_) | Token::End => return None,
        }
    }
}

// The place after the close of the row that a place of the text lies in, whatever the row holds; the end of the text
// where nothing closes it.
pub fn row_end(text: &[u8], at: usize) -> usize
    ensures { result ≡ row_end text.now at }
{
    let mut i = at;
    let mut inside: usize = 0;
    loop {
        match lexer::next(text, i) {
            Token::Open(place) => {
                i = place + 1;
                inside += 1;
            }
            Token::Close(place) => {
                i = place + 1;
                if inside == 0 {
                    return i;
                }
                inside -= 1;
            }
            Token::Word { start, len } => i = start + len,
            Token::End => return text.len(),
        }
    }
}

// Parts, whatever they hold, or nothing, and the close.
pub fn parts_form(text: &[u8], at: usize) -> Option<usize>
    ensures { Reads text.now at (parts_alone (frames_at text.now at).here) result }
{
    let mut i = at;
    loop {
        match next_item(text, i) {
            Item::Open { next, .. } => i = row_end(text, next),
            Item::Close { next } => return Some(next),
            Item::Word { .. } | Item::End => return None,
        }
    }
}
