// The form of a constraint expression.
#![tactic(auto)]

ghost use Rattle.std.specs.Prelude.{◌≡◌, not};
ghost use Rattle.lexer.specs.Forms.{frames_at, trim};
ghost use Rattle.policy.specs.Basics.{Name};
ghost use Rattle.policy.specs.Words as words;
ghost use Rattle.policy.specs.Words.{is_reserved, expression_word, op_of, two_sides, three_sides, component_of};
ghost use Rattle.policy.specs.Answers.{sides_of};
ghost use Rattle.policy.specs.Grammar.{expression_in};
ghost use Rattle.words.specs.Numbers.{number_of, word_of};
ghost use Rattle.items.specs.Reads.{is_some, Reads};
ghost use Rattle.constraint_grammar.specs.Comparisons.{plain_op, pair_of, comparing, second_side, both_sides};
ghost use Rattle.constraint_grammar.specs.Operators.{joins_of};

use items::{Item, Wanted};
use policy::Sides;
use words::{NameKind, Word};

// How many constraint expressions an operator joins, or None for a word that is no operator.
fn joins(number: usize) -> Option<usize>
    ensures { result ≡ joins_of (expression_word (word_of number)) }
{
    match number {
        Word::NOT => Some(1),
        Word::AND | Word::OR => Some(2),
        _ => None,
    }
}

// Whether a word compares things of every family.
fn is_plain(op: usize) -> bool
    ensures { result ≡ plain_op (op_of (word_of op)) }
{
    matches!(op, Word::EQ | Word::NEQ)
}

// Whether a word compares roles.
fn is_operator(op: usize) -> bool
    ensures { result ≡ is_some (op_of (word_of op)) }
{
    matches!(op, Word::EQ..=Word::INCOMP)
}

// Whether a word is a component of one of the sides.
fn is_component(x: usize, sides: Sides) -> bool
    ensures { result ≡ is_some (component_of (sides_of sides) (word_of x)) }
{
    match sides {
        Sides::Two => matches!(
            x,
            Word::U1 | Word::U2 | Word::R1 | Word::R2 | Word::T1 | Word::T2
        ),
        Sides::Three => matches!(x, Word::U1..=Word::T3),
    }
}

// Whether the words are sides 1 and 2 of one family. Side 3 is in no pair, so it does not matter how many there are.
fn are_sides(x: usize, y: usize) -> bool
    ensures { (n : words.Sides) → result ≡ pair_of (component_of n (word_of x)) (component_of n (word_of y)) }
{
    match x {
        Word::U1 => y == Word::U2,
        Word::R1 => y == Word::R2,
        Word::T1 => y == Word::T2,
        _ => false,
    }
}

// Whether a comparison may have these three words: (op x name), (op u1 u2), (op t1 t2), (rop r1 r2). Of the last one,
// `named` says whether it is a name.
fn compares(op: usize, x: usize, y: usize, named: bool, sides: Sides) -> bool
    ensures { (w : Name) → number_of w ≡ y → named ≡ not (is_reserved w) → result ≡ comparing (sides_of sides) op x w }
{
    if named {
        is_component(x, sides) && is_plain(op)
    } else if x == Word::R1 {
        y == Word::R2 && is_operator(op)
    } else {
        are_sides(x, y) && is_plain(op)
    }
}

// The second word of a comparison, and the close.
fn second_side(text: &[u8], at: usize, op: usize, x: usize, sides: Sides) -> Option<usize>
    ensures { Reads text.now at (second_side (sides_of sides) op x (frames_at text.now at).here) result }
{
    let Item::Word {
        start,
        len,
        number,
        next,
    } = items::next_item(text, at)
    else {
        return None;
    };
    let named = words::is_name(NameKind::Name, text, start, len);
    if !compares(op, x, number, named, sides) {
        return None;
    }
    items::close_form(text, next)
}

// Both words that a comparison is of, and the close.
fn both_sides(text: &[u8], at: usize, op: usize, sides: Sides) -> Option<usize>
    ensures { Reads text.now at (both_sides (sides_of sides) op (frames_at text.now at).here) result }
{
    let Item::Word { number, next, .. } = items::next_item(text, at) else {
        return None;
    };
    second_side(text, next, op, number, sides)
}

// What the parentheses of a constraint expression hold, which may name the sides: a comparison, or an operator and its
// operands. It calls itself on each operand; the number that falls is the levels left.
pub fn constraint_form(text: &[u8], at: usize, levels: usize, sides: Sides) -> Option<usize>
    ensures { Reads text.now at (is_some (expression_in (sides_of sides) (trim (frames_at text.now at).here levels))) result }
{
    let Item::Word { number, next, .. } = items::next_item(text, at) else {
        return None;
    };
    let Some(wanted) = joins(number) else {
        return both_sides(text, next, number, sides);
    };
    let mut i = next;
    let mut count: usize = 0;
    loop {
        match items::next_item(text, i) {
            Item::Open { next, .. } => {
                if levels == 0 {
                    return None;
                }
                i = constraint_form(text, next, levels - 1, sides)?;
                count += 1;
            }
            Item::Close { next } => return items::ended(Wanted::Exactly(wanted), count, next),
            Item::Word { .. } | Item::End => return None,
        }
    }
}
