// The set that the code of one S stands for, and what one reference of the code stands for.
//
// Every set is as wide as a set of types, 64 bytes, whatever its family. The sets of a family's attributes are one
// after the other.
#![tactic(auto)]

ghost use Rattle.std.specs.Prelude.{◌≡◌, Bool, true, ◌||◌, ◌<◌, ltb, length};
ghost use Rattle.bitset.specs.Sets.{set_of, union_of};
ghost use Rattle.statement_code.specs.Code.{all_unit};
ghost use Rattle.set_code.specs.Evaluation.{Evaluates, start_of, join_of, joined_by, value_of};

use policy::Type;
use statement_code::Unit;

// An operator's set starts as all numbers below this bound.
fn start(operator: u16, total: usize) -> usize
    ensures { result ≡ start_of operator total }
{
    match operator {
        Unit::ALL => total,
        Unit::NOT => total,
        Unit::AND => Type::MAX,
        _ => 0,
    }
}

// The set becomes all numbers below a bound: none for a union, which most operators are.
fn fill(out: &mut [u8; Type::SET_BYTES], bound: usize)
    ensures { out.new ≡ set_of 64 (λ n. ltb n bound) }
{
    bitset::clear(out);
    if bound == 0 {
        return;
    }
    bitset::complement(out, bound);
}

// What an operator makes of its set and one operand more.
fn join(operator: u16, out: &mut [u8; Type::SET_BYTES], operand: &[u8; Type::SET_BYTES])
    ensures { out.new ≡ joined_by operator out.old operand.now }
{
    match operator {
        Unit::NOT => set_operators::difference(out, operand),
        Unit::AND => set_operators::intersection(out, operand),
        Unit::XOR => set_operators::exclusive_or(out, operand),
        _ => set_operators::union(out, operand),
    }
}

// The set becomes what the unit of a reference stands for: a thing for itself alone, an attribute for its set.
pub fn reference(unit: u16, sets: &[u8], out: &mut [u8; Type::SET_BYTES])
    ensures { out.new ≡ set_of 64 (value_of sets.now unit) }
{
    if unit < Unit::ATTRIBUTE {
        bitset::clear(out);
        bitset::insert(out, unit as usize);
    } else {
        let attribute = (unit - Unit::ATTRIBUTE) as usize;
        set_rows::read_at(out, sets, Type::SET_BYTES * attribute, Type::SET_BYTES);
    }
}

// Whether an operand is a reference and its operator only adds. Then the operand is added with no set made of it first.
fn adds_reference(operator: u16, unit: u16) -> bool
    ensures { result ≡ true → (unit < all_unit) × ((a b : Bool) → join_of operator a b ≡ (a || b)) }
{
    if Unit::ALL <= unit {
        return false;
    }
    match operator {
        Unit::NOT => false,
        Unit::AND => false,
        Unit::XOR => false,
        _ => true,
    }
}

// The set gains what the unit of a reference stands for.
fn add_reference(unit: u16, sets: &[u8], out: &mut [u8; Type::SET_BYTES])
    ensures { out.new ≡ union_of out.old (set_of 64 (value_of sets.now unit)) }
{
    if unit < Unit::ATTRIBUTE {
        bitset::insert(out, unit as usize);
    } else {
        let attribute = (unit - Unit::ATTRIBUTE) as usize;
        set_operators::union(
            out,
            byte_slices::part(sets, Type::SET_BYTES * attribute, Type::SET_BYTES),
        );
    }
}

// The set becomes that of the S whose code is at a place. Answers where the code ends. It calls itself on each
// operand that is not added as it stands, and goes on where that ends, so no `for` counts the places; the number that
// falls is the length of the code that is left.
pub fn evaluate(
    code: &[u16],
    at: usize,
    total: usize,
    sets: &[u8],
    out: &mut [u8; Type::SET_BYTES],
) -> usize
    ensures { Evaluates code.now at total sets.now out.new result }
{
    if code.len() <= at {
        return at;
    }
    let operator = code[at];
    if operator < Unit::ALL {
        reference(operator, sets, out);
        return at + 1;
    }
    fill(out, start(operator, total));
    let mut place = at + 1;
    while place < code.len() {
        let unit = code[place];
        if unit == Unit::END {
            return place + 1;
        }
        if adds_reference(operator, unit) {
            add_reference(unit, sets, out);
            place += 1;
            continue;
        }
        let mut operand = [0u8; Type::SET_BYTES];
        place = evaluate(code, place, total, sets, &mut operand);
        join(operator, out, &operand);
    }
    place
}
