// Set expressions with their names resolved: the part of the statement code that stands for one set expression. Its
// form is known to be good where this is called; what is found out here is whether its names are declared, and its
// units are written on the way.
#![tactic(auto)]

ghost use Rattle.std.specs.Prelude.{◌≡◌};
ghost use Rattle.policy.specs.Words.{set_word};
ghost use Rattle.words.specs.Numbers.{word_of};
ghost use Rattle.set_writer.specs.NameLookup.{Refers};
ghost use Rattle.set_writer.specs.Sets.{operator_unit, Begins, WritesSet};

use items::Item;
use policy::Sort;
use statement_code::Unit;
use symbols::Symbol;
use words::Word;

// The operator of a set expression, and where its operands begin.
#[derive(Clone, Copy)]
struct SetStart {
    operator: u16,
    next: usize,
}

// The place past what was read of the text, and the place past the units that were written for it.
#[derive(Clone, Copy)]
pub struct Written {
    pub at: usize,
    pub to: usize,
}

// The unit of what a name names in a family, if it is declared.
pub fn reference(symbols: &[u8], family: usize, name: &[u8]) -> Option<u16>
    ensures { Refers symbols.now family name.now result }
{
    let found = scopes::lookup(symbols, family, name);
    match found {
        Some(Symbol { sort, number }) => {
            if Unit::ATTRIBUTE as usize <= number {
                return None;
            }
            if sort < Sort::FIRST_ATTRIBUTE {
                return Some(number as u16);
            }
            Some(Unit::ATTRIBUTE + number as u16)
        }
        None => None,
    }
}

// The operator of a set expression that starts with the word of the number.
#[tactic(auto, unfolding(policy::specs::Basics::same, policy::specs::Basics::lookup, policy::specs::Words::reserved, words::specs::Numbers::keywords, words::specs::Numbers::words, words::specs::Numbers::word_of, policy::specs::Words::set_word))]
fn operator_of(number: usize) -> u16
    ensures { result ≡ operator_unit (set_word (word_of number)) }
{
    match number {
        Word::ALL => Unit::ALL,
        Word::AND => Unit::AND,
        Word::OR => Unit::OR,
        Word::XOR => Unit::XOR,
        Word::NOT => Unit::NOT,
        _ => Unit::UNION,
    }
}

// How a set expression begins. What a union begins with is its first operand.
fn set_start(text: &[u8], at: usize) -> SetStart
    ensures { Begins text.now at result }
{
    let item = items::next_item(text, at);
    match item {
        Item::Word { number, next, .. } => {
            let operator = operator_of(number);
            if operator == Unit::UNION {
                return SetStart { operator, next: at };
            }
            SetStart { operator, next }
        }
        Item::Open { .. } | Item::Close { .. } | Item::End => SetStart {
            operator: Unit::UNION,
            next: at,
        },
    }
}

// Writes the units of what the parentheses of a set expression hold, if its names are declared: the operator, the
// operands, the end mark. It calls itself on each operand in parentheses; the number that falls is the levels left.
pub fn write_set(
    text: &[u8],
    at: usize,
    levels: usize,
    symbols: &[u8],
    family: usize,
    code: &mut [u16],
    to: usize,
) -> Option<Written>
    ensures { WritesSet text.now at levels symbols.now family code.old to code.new result }
{
    let begun = set_start(text, at);
    let mut i = begun.next;
    let mut u = statement_code::put_unit(code, to, begun.operator);
    loop {
        let item = items::next_item(text, i);
        match item {
            Item::Word {
                start,
                len,
                next,
                ..
            } => {
                let end = start + len;
                let name = &text[start..end];
                let unit = reference(symbols, family, name)?;
                u = statement_code::put_unit(code, u, unit);
                i = next;
            }
            Item::Open { next, .. } => {
                if levels == 0 {
                    return None;
                }
                let operand = write_set(text, next, levels - 1, symbols, family, code, u)?;
                i = operand.at;
                u = operand.to;
            }
            Item::Close { next } => {
                let to = statement_code::put_unit(code, u, Unit::END);
                return Some(Written { at: next, to });
            }
            Item::End => return None,
        }
    }
}
