// Writes the rows of a constraint expression, with its names resolved, and tells its stack need.
#![tactic(auto)]

ghost use Rattle.std.specs.Prelude.{◌≡◌, [], ◌∷◌};
ghost use Rattle.lexer.specs.Forms.{frames_at, trim};
ghost use Rattle.policy.specs.Words.{expression_word, op_of, Sides, three_sides, component_of};
ghost use Rattle.policy.specs.Statements.{Family, Side};
ghost use Rattle.policy.specs.Grammar as grammar;
ghost use Rattle.policy.specs.Rows as policy;
ghost use Rattle.words.specs.Numbers.{word_of};
ghost use Rattle.symbols.specs.SearchAnswers.{family_code};
ghost use Rattle.constraint_writer.specs.ExpressionWrites.{Countable, Wrote, Writes};
ghost use Rattle.constraint_writer.specs.RowFields.{kind_of, code_of, operator_of, Compares};

use items::Item;
use policy::{Component, Operator, Row, Sort};
use symbols::Symbol;
use words::Word;

// The place past the close of an expression, the number of the row after its rows, and its stack need.
#[derive(Clone, Copy)]
pub struct RowsWritten {
    pub at: usize,
    pub row: usize,
    pub need: usize,
}

// What a side is compared with: the kind of the row, and the number of a thing or an attribute.
#[derive(Clone, Copy)]
struct Operand {
    kind: u8,
    number: usize,
}

// Writes a row, if there is room for it.
fn put_row(rows: &mut [u8], row: usize, kind: u8, component: u8, operator: u8, number: usize)
    ensures { Wrote rows.old rows.new row (policy.row kind component operator number ∷ []) }
{
    if rows.len() / Row::BYTES <= row {
        return;
    }
    let at = Row::BYTES * row;
    rows[at] = kind;
    rows[at + Row::COMPONENT_AT] = component;
    rows[at + Row::OPERATOR_AT] = operator;
    rows[at + Row::UNUSED_AT] = 0;
    little_endian::put2(rows, at + Row::NUMBER_AT, number);
}

// The kind of an operator's row, by the number of its word, if that is an operator.
#[tactic(auto, unfolding(policy::specs::Basics::same, policy::specs::Basics::lookup, policy::specs::Words::reserved, words::specs::Numbers::keywords, words::specs::Numbers::words, words::specs::Numbers::word_of, policy::specs::Words::expression_word))]
fn kind_of(number: usize) -> Option<u8>
    ensures { result ≡ kind_of (expression_word (word_of number)) }
{
    match number {
        Word::NOT => Some(Row::NOT),
        Word::AND => Some(Row::AND),
        Word::OR => Some(Row::OR),
        _ => None,
    }
}

// The operator of a comparison, by the number of its word, if that is one.
#[tactic(auto, unfolding(policy::specs::Basics::same, policy::specs::Basics::lookup, policy::specs::Words::reserved, words::specs::Numbers::keywords, words::specs::Numbers::words, words::specs::Numbers::word_of, policy::specs::Words::op_of))]
fn operator_of(number: usize) -> Option<u8>
    ensures { result ≡ operator_of (op_of (word_of number)) }
{
    match number {
        Word::EQ => Some(Operator::EQ),
        Word::NEQ => Some(Operator::NEQ),
        Word::DOM => Some(Operator::DOM),
        Word::DOMBY => Some(Operator::DOMBY),
        Word::INCOMP => Some(Operator::INCOMP),
        _ => None,
    }
}

// A component, by the number of its word, if that is one. Where an expression may not name side 3, its form has none
// of that side.
#[tactic(auto, unfolding(policy::specs::Basics::same, policy::specs::Basics::lookup, policy::specs::Words::reserved, words::specs::Numbers::keywords, words::specs::Numbers::words, words::specs::Numbers::word_of, policy::specs::Words::component_of))]
fn component_of(number: usize) -> Option<u8>
    ensures { result ≡ code_of (component_of three_sides (word_of number)) }
{
    match number {
        Word::U1 => Some(Component::U1),
        Word::U2 => Some(Component::U2),
        Word::R1 => Some(Component::R1),
        Word::R2 => Some(Component::R2),
        Word::T1 => Some(Component::T1),
        Word::T2 => Some(Component::T2),
        Word::U3 => Some(Component::U3),
        Word::R3 => Some(Component::R3),
        Word::T3 => Some(Component::T3),
        _ => None,
    }
}

// The family that a component is of: it has the number of the sort of its things.
fn family_of(component: u8) -> usize
    ensures { (f : Family) (s : Side) → component ≡ policy.comp_code f s → result ≡ family_code f }
{
    match component {
        Component::U1 | Component::U2 | Component::U3 => Sort::USER,
        Component::R1 | Component::R2 | Component::R3 => Sort::ROLE,
        _ => Sort::TYPE,
    }
}

// What a side is compared with, by the second word: the other side, or a name of the side's family, if it is declared.
fn operand_of(name: &[u8], number: usize, side: u8, symbols: &[u8]) -> Option<Operand>
    ensures { Compares name.now number side symbols.now result }
{
    if component_of(number).is_some() {
        return Some(Operand {
            kind: Row::TWO_SIDES,
            number: 0,
        });
    }
    let found = scopes::lookup(symbols, family_of(side), name);
    match found {
        Some(Symbol { sort, number }) => {
            if sort < Sort::FIRST_ATTRIBUTE {
                return Some(Operand {
                    kind: Row::SIDE_AND_THING,
                    number,
                });
            }
            Some(Operand {
                kind: Row::SIDE_AND_ATTRIBUTE,
                number,
            })
        }
        None => None,
    }
}

// A comparison after its operator's word, of which it has the number: two words and the close, and one row, if its
// name is declared.
fn comparison(
    text: &[u8],
    at: usize,
    operator: usize,
    symbols: &[u8],
    rows: &mut [u8],
    row: usize,
) -> Option<RowsWritten>
    requires { Countable text.now at row }
    ensures { Writes text.now at (grammar.comparison three_sides (word_of operator) (frames_at text.now at).here)
        symbols.now rows.old rows.new row result }
{
    let first = items::next_item(text, at);
    let Item::Word {
        number: side,
        next,
        ..
    } = first
    else {
        return None;
    };
    let second = items::next_item(text, next);
    let Item::Word {
        start,
        len,
        number,
        next,
    } = second
    else {
        return None;
    };
    let last = items::next_item(text, next);
    let Item::Close { next } = last else {
        return None;
    };
    let operator = operator_of(operator)?;
    let side = component_of(side)?;
    let end = start + len;
    let name = &text[start..end];
    let operand = operand_of(name, number, side, symbols)?;
    put_row(rows, row, operand.kind, side, operator, operand.number);
    Some(RowsWritten {
        at: next,
        row: row + 1,
        need: 1,
    })
}

// Writes the rows of a constraint expression, after its open parenthesis, from a row on, if its names are declared. It
// calls itself on each operand; the number that falls is the levels left. Rows for which there is no room are counted
// and not written. An operand is worked out with the values of those before it on the stack, so it needs as many more.
pub fn write_constraint(
    text: &[u8],
    at: usize,
    levels: usize,
    symbols: &[u8],
    rows: &mut [u8],
    row: usize,
) -> Option<RowsWritten>
    requires { Countable text.now at row }
    ensures { (n : Sides) → Writes text.now at (grammar.expression_in n (trim (frames_at text.now at).here levels))
        symbols.now rows.old rows.new row result }
{
    let first = items::next_item(text, at);
    let Item::Word { number, next, .. } = first else {
        return None;
    };
    let Some(kind) = kind_of(number) else {
        return comparison(text, next, number, symbols, rows, row);
    };
    let mut i = next;
    let mut n = row;
    let mut count: usize = 0;
    let mut need: usize = 0;
    loop {
        let item = items::next_item(text, i);
        match item {
            Item::Open { next: inside, .. } => {
                if levels == 0 {
                    return None;
                }
                let operand = write_constraint(text, inside, levels - 1, symbols, rows, n)?;
                need = need.max(count + operand.need);
                count += 1;
                i = operand.at;
                n = operand.row;
            }
            Item::Close { next: at } => {
                put_row(rows, n, kind, 0, 0, 0);
                let row = n + 1;
                return Some(RowsWritten { at, row, need });
            }
            Item::Word { .. } | Item::End => return None,
        }
    }
}
