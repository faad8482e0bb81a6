// The form of a set expression.
#![tactic(auto)]

ghost use Rattle.std.specs.Prelude.{◌≡◌};
ghost use Rattle.lexer.specs.Forms.{frames_at, trim};
ghost use Rattle.policy.specs.Words.{set_word};
ghost use Rattle.policy.specs.Grammar.{set_in};
ghost use Rattle.words.specs.Numbers.{word_of};
ghost use Rattle.items.specs.Looks.{item_at};
ghost use Rattle.items.specs.Reads.{is_some, Reads};
ghost use Rattle.set_grammar.specs.Starts.{operands_of, start_of};

use items::{Item, Wanted};
use lexer::Token;
use words::{NameKind, Word};

// How many operands a set expression must have, and where they begin.
#[derive(Clone, Copy)]
struct SetStart {
    wanted: Wanted,
    next: usize,
}

// How many operands a set expression has that starts with the word of the number.
fn operands_of(number: usize) -> Wanted
    ensures { result ≡ operands_of (set_word (word_of number)) }
{
    match number {
        Word::ALL => Wanted::Exactly(0),
        Word::NOT => Wanted::Exactly(1),
        Word::AND | Word::OR | Word::XOR => Wanted::Exactly(2),
        _ => Wanted::OneOrMore,
    }
}

// How a set expression begins.
fn set_start(text: &[u8], at: usize) -> SetStart
    ensures { result ≡ start_of at (item_at text.now at) }
{
    if let Item::Word { number, next, .. } = items::next_item(text, at) {
        let wanted = operands_of(number);
        if let Wanted::Exactly(_) = wanted {
            return SetStart { wanted, next };
        }
    }
    SetStart {
        wanted: Wanted::OneOrMore,
        next: at,
    }
}

// What the parentheses of a set expression hold. It calls itself on each operand in parentheses; the number that
// falls is the levels left.
pub fn set_form(text: &[u8], at: usize, levels: usize) -> Option<usize>
    ensures { Reads text.now at (is_some (set_in (trim (frames_at text.now at).here levels))) result }
{
    let begun = set_start(text, at);
    let mut i = begun.next;
    let mut count: usize = 0;
    loop {
        match lexer::next(text, i) {
            Token::Word { start, len } => {
                if !words::is_name(NameKind::Name, text, start, len) {
                    return None;
                }
                i = start + len;
                count += 1;
            }
            Token::Open(place) => {
                if levels == 0 {
                    return None;
                }
                i = set_form(text, place + 1, levels - 1)?;
                count += 1;
            }
            Token::Close(place) => return items::ended(begun.wanted, count, place + 1),
            Token::End => return None,
        }
    }
}
