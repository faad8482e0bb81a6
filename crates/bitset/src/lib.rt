// One set of numbers as bytes in lent memory: number n is bit n mod 8 (lowest is 0) of byte n div 8.
//
// A set is a slice of any length, and every function answers for every slice and every number. A number past the last
// byte is in no set, and to insert it changes nothing. Of what other crates call, only to count asks for something:
// that eight times the bytes are a usize. Two sets are combined and compared by `set_operators`; sets that are in a
// larger slice are the matter of `set_rows`, but for `clear_at`, which is here because `complement` needs it.
#![tactic(auto)]

ghost use Rattle.std.specs.Prelude.{◌≡◌, ◌+◌, ◌*◌, ◌≤◌, ◌<◌, length};
ghost use Rattle.std.specs.Int.Count.{ones};
ghost use Rattle.bitset.specs.Sets as sets;
ghost use Rattle.bitset.specs.Sets.{member, inserted, removed, emptied, complement_of, within, bit_byte, mask_of};
ghost use Rattle.bitset.specs.Complements.{flipped, kept_below};
ghost use Rattle.byte_slices.specs.Parts as parts;
ghost use Rattle.byte_slices.specs.Parts.{put};

// ---- bytes

// The byte with the bit of n alone.
fn bit_of(n: usize) -> u8
    ensures { result ≡ bit_byte n }
{
    1u8 << (n % 8)
}

// Byte i of the set of all numbers below total.
fn mask(total: usize, i: usize) -> u8
    ensures { result ≡ mask_of total i }
{
    let whole = total / 8;
    if i < whole {
        return 255;
    }
    if i == whole {
        return bit_of(total) - 1;
    }
    0
}

// How many bits of a byte are 1.
fn ones_of(b: u8) -> usize
    ensures { (result ≡ ones b) × (result ≤ 8) }
{
    b.count_ones() as usize
}

// ---- one number

// Whether the set has the number n.
pub fn contains(set: &[u8], n: usize) -> bool
    ensures { result ≡ member set.now n }
{
    (byte_slices::byte(set, n / 8) >> (n % 8)) % 2 == 1
}

// Puts n into the set.
pub fn insert(set: &mut [u8], n: usize)
    ensures { set.new ≡ inserted set.old n }
{
    let at = n / 8;
    let bit = bit_of(n);
    if set.len() <= at {
        return;
    }
    set[at] |= bit;
}

// Takes n out of the set.
pub fn remove(set: &mut [u8], n: usize)
    ensures { set.new ≡ removed set.old n }
{
    let at = n / 8;
    let bit = bit_of(n);
    if set.len() <= at {
        return;
    }
    set[at] &= !bit;
}

// ---- one set

// The set becomes empty.
pub fn clear(set: &mut [u8])
    ensures { set.new ≡ emptied set.old }
{
    set.fill(0);
}

// The set becomes all numbers that its bytes can hold and that were not in it.
fn flip(set: &mut [u8])
    ensures { set.new ≡ flipped set.old }
{
    for b in set.iter_mut() {
        *b = !*b;
    }
}

// The set keeps the numbers below total. One byte is cut, and those after it become 0.
fn keep_below(set: &mut [u8], total: usize)
    ensures { set.new ≡ kept_below total set.old }
{
    let whole = total / 8;
    if set.len() <= whole {
        return;
    }
    clear_at(set, whole + 1, set.len() - (whole + 1));
    set[whole] &= mask(total, whole);
}

// The set becomes all numbers below total that were not in it.
pub fn complement(set: &mut [u8], total: usize)
    ensures { set.new ≡ complement_of total set.old }
{
    flip(set);
    keep_below(set, total);
}

// Whether every number in the set is below total: the bits of those that are not are gathered. To stop at the first
// byte that has one would cost more, since few sets have any and the loop goes over several bytes at once.
pub fn is_within(set: &[u8], total: usize) -> bool
    ensures { result ≡ within total set.now }
{
    let mut beyond: u8 = 0;
    for (i, b) in set.iter().enumerate() {
        beyond |= *b & !mask(total, i);
    }
    beyond == 0
}

// How many numbers the set has. The bytes are few enough that the greatest count is a usize.
pub fn count(set: &[u8]) -> usize
    requires { 8 * length set.now < 18446744073709551616 }
    ensures { result ≡ sets.count set.now }
{
    let mut sum: usize = 0;
    for b in set {
        sum += ones_of(*b);
    }
    sum
}

// ---- the set in the w bytes at offset o of a larger slice

// The set at o becomes empty.
pub fn clear_at(table: &mut [u8], o: usize, w: usize)
    ensures { table.new ≡ put table.old o (emptied (parts.part table.old o w)) }
{
    let place = byte_slices::range_of(o, w, table.len());
    clear(&mut table[place]);
}
