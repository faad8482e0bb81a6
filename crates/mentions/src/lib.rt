// Fault 8: the attributes that each attribute mentions, directly or through others, and the first that mentions itself.
#![tactic(auto)]

ghost use Rattle.std.specs.Prelude.{◌≡◌, true, not, ◌&&◌, ℕ, ◌+◌, ◌<◌, ltb, drop};
ghost use Rattle.bitset.specs.Sets.{set_of, all_below};
ghost use Rattle.bitset.specs.Relations.{relation};
ghost use Rattle.policy.specs.Answers.{family_of};
ghost use Rattle.policy.specs.Basics.{is_among};
ghost use Rattle.policy.specs.Statements.{Policy};
ghost use Rattle.policy.specs.Faults as faults;
ghost use Rattle.policy.specs.Accepted.{Accepted};
ghost use Rattle.statement_code.specs.Code.{code_of};
ghost use Rattle.set_code.specs.Evaluation.{sets_in};
ghost use Rattle.code_reader.specs.Reading.{operands_of, found_of};
ghost use Rattle.code_reader.specs.AttributeSets.{added};
ghost use Rattle.mentions.specs.Closure.{column_of, through_of, closed_of};

use code_reader::FAMILY_BYTES;
use policy::{Attribute, Family, Type};
use statement_code::Unit;

// The set becomes the attributes that the operands from a place on name. An operator's number is past every
// attribute's.
fn mentioned(code: &[u16], from: usize, out: &mut [u8; Type::SET_BYTES])
    ensures { out.new ≡ set_of 64 (λ b. is_among (1024 + b) (operands_of (drop from code.now))) }
{
    bitset::clear(out);
    let ahead = code_reader::rest(code, from);
    for operand in ahead {
        if Unit::DECLARE_ATTRIBUTE <= *operand {
            return;
        }
        if Unit::ATTRIBUTE <= *operand {
            bitset::insert(out, (*operand - Unit::ATTRIBUTE) as usize);
        }
    }
}

// What attribute a mentions gains the attributes that the operands from a place on name.
fn add_mentions(code: &[u16], from: usize, a: u16, rows: &mut [u8; FAMILY_BYTES])
    ensures { rows.new ≡ added rows.old a (set_of 64 (λ b. is_among (1024 + b) (operands_of (drop from code.now)))) }
{
    let mut set = [0u8; Type::SET_BYTES];
    mentioned(code, from, &mut set);
    code_reader::add_row(rows, a, &set);
}

// For each attribute of a family, the attributes that its sets mention.
pub fn mentions(code: &[u16], family: Family, rows: &mut [u8; FAMILY_BYTES])
    ensures { (p : Policy) → Accepted p → code.now ≡ code_of p
        → rows.new ≡ relation 64 64 (λ a b. is_among b (faults.mentions p (family_of family) a)) }
{
    bitset::clear(rows);
    let tag = Unit::ATTRIBUTE_SET + statement_code::family_number(family);
    let mut at = 0;
    while at < code.len() {
        let next = code_reader::next_statement(code, at);
        if code[at] == tag {
            add_mentions(code, at + 3, code_reader::unit(code, at, 2), rows);
        }
        at = next;
    }
}

// The rows that have the number k.
fn attributes_mentioning(rows: &[u8; FAMILY_BYTES], k: usize, out: &mut [u8; Type::SET_BYTES])
    ensures { out.new ≡ column_of rows.now k }
{
    bitset::clear(out);
    for a in 0..Attribute::MAX {
        if set_rows::contains_at(rows, Type::SET_BYTES * a, Type::SET_BYTES, k) {
            bitset::insert(out, a);
        }
    }
}

// Whether row k is empty: every number in it is below 0. Then to go through k changes nothing.
fn is_empty(rows: &[u8], k: usize) -> bool
    requires { k < 64 }
    ensures { result ≡ true → through_of rows.now k ≡ rows.now }
{
    set_rows::is_within_at(rows, Type::SET_BYTES * k, Type::SET_BYTES, 0)
}

// What mentions k also mentions what k mentions.
fn close_through(rows: &mut [u8; FAMILY_BYTES], k: usize)
    requires { k < 64 }
    ensures { rows.new ≡ through_of rows.old k }
{
    if is_empty(rows, k) {
        return;
    }
    let mut holders = [0u8; Type::SET_BYTES];
    attributes_mentioning(rows, k, &mut holders);
    let mut row = [0u8; Type::SET_BYTES];
    set_rows::read_at(&mut row, rows, Type::SET_BYTES * k, Type::SET_BYTES);
    set_rows::grant(rows, &holders, &row, Type::SET_BYTES);
}

// Mentions through others are added to direct ones.
fn close(rows: &mut [u8; FAMILY_BYTES])
    ensures { rows.new ≡ closed_of 64 rows.old }
{
    for k in 0..Attribute::MAX {
        close_through(rows, k);
    }
}

// Whether an attribute is in its own row.
fn mentions_itself(rows: &[u8; FAMILY_BYTES], a: usize) -> bool
    ensures { result ≡ (ltb a 64 && sets_in rows.now a a) }
{
    a < Attribute::MAX && set_rows::contains_at(rows, Type::SET_BYTES * a, Type::SET_BYTES, a)
}

// Whether no attribute is in its own row.
fn is_acyclic(rows: &[u8; FAMILY_BYTES]) -> bool
    ensures { result ≡ all_below 64 (λ a. not (sets_in rows.now a a)) }
{
    for a in 0..Attribute::MAX {
        if mentions_itself(rows, a) {
            return false;
        }
    }
    true
}

// The declaration of the first attribute of a family that is in its own row.
fn first_cycle(code: &[u16], family: Family, rows: &[u8; FAMILY_BYTES]) -> Option<usize>
    ensures { (p : Policy) → Accepted p → code.now ≡ code_of p
        → ((a : ℕ) → (ltb a 64 && sets_in rows.now a a) ≡ faults.on_cycle p (family_of family) a)
        → found_of result ≡ faults.family_cycle p (family_of family) }
{
    let tag = Unit::DECLARE_ATTRIBUTE + statement_code::family_number(family);
    let mut a = 0;
    let mut at = 0;
    while at < code.len() {
        let next = code_reader::next_statement(code, at);
        if code[at] == tag {
            if mentions_itself(rows, a) {
                return Some(code_reader::unit(code, at, 1) as usize);
            }
            a += 1;
        }
        at = next;
    }
    None
}

// The declaration of the first attribute of a family whose sets mention it, directly or through others. Each row has
// what an attribute mentions directly, and gains what it mentions through others.
pub fn family_cycle(code: &[u16], family: Family, rows: &mut [u8; FAMILY_BYTES]) -> Option<usize>
    ensures { (rows.new ≡ closed_of 64 rows.old)
        × ((p : Policy) → Accepted p → code.now ≡ code_of p → rows.old ≡ relation 64 64 (λ a b. is_among b (faults.mentions p (family_of family) a))
        → found_of result ≡ faults.family_cycle p (family_of family)) }
{
    close(rows);
    if is_acyclic(rows) {
        return None;
    }
    first_cycle(code, family, rows)
}
