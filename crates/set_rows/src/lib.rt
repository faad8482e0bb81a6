// Sets that are in a larger slice, and rows of them, one after the other.
//
// The functions whose names end in `_at` do what `bitset` and `set_operators` do, for the set that is in the w bytes
// at offset o of a larger slice, cut where the slice ends. Of what other crates call, only to count asks for
// something: that eight times the width is a usize.
#![tactic(auto)]

ghost use Rattle.std.specs.Prelude.{◌≡◌, ◌+◌, ◌*◌, ◌<◌};
ghost use Rattle.bitset.specs.Sets as sets;
ghost use Rattle.bitset.specs.Sets.{member, inserted, removed, union_of, copy_of, within, Gap};
ghost use Rattle.set_operators.specs.Operators.{combined};
ghost use Rattle.byte_slices.specs.Parts as parts;
ghost use Rattle.byte_slices.specs.Parts.{put};
ghost use Rattle.bitset.specs.Relations.{granted, Rows};

use set_operators::SetOp;

// ---- the set in the w bytes at offset o of a larger slice

// Whether the set at o has the number n.
pub fn contains_at(table: &[u8], o: usize, w: usize, n: usize) -> bool
    ensures { result ≡ member (parts.part table.now o w) n }
{
    bitset::contains(byte_slices::part(table, o, w), n)
}

// Whether every number in the set at o is below total.
pub fn is_within_at(table: &[u8], o: usize, w: usize, total: usize) -> bool
    ensures { result ≡ within total (parts.part table.now o w) }
{
    bitset::is_within(byte_slices::part(table, o, w), total)
}

// Whether a number is in the set at o and in b.
pub fn meets_at(table: &[u8], o: usize, w: usize, b: &[u8]) -> bool
    ensures { result ≡ sets.meets (parts.part table.now o w) b.now }
{
    set_operators::meets(byte_slices::part(table, o, w), b)
}

// Whether the same numbers are in the set at o and in b.
pub fn equal_at(table: &[u8], o: usize, w: usize, b: &[u8]) -> bool
    ensures { result ≡ sets.equal (parts.part table.now o w) b.now }
{
    set_operators::equal(byte_slices::part(table, o, w), b)
}

// How many numbers the set at o has.
pub fn count_at(table: &[u8], o: usize, w: usize) -> usize
    requires { 8 * w < 18446744073709551616 }
    ensures { result ≡ sets.count (parts.part table.now o w) }
{
    bitset::count(byte_slices::part(table, o, w))
}

// dst becomes what the set at o has, as far as dst reaches.
pub fn read_at(dst: &mut [u8], table: &[u8], o: usize, w: usize)
    ensures { dst.new ≡ copy_of dst.old (parts.part table.now o w) }
{
    set_operators::copy(dst, byte_slices::part(table, o, w));
}

// Puts n into the set at o.
pub fn insert_at(table: &mut [u8], o: usize, w: usize, n: usize)
    ensures { table.new ≡ put table.old o (inserted (parts.part table.old o w) n) }
{
    let place = byte_slices::range_of(o, w, table.len());
    bitset::insert(&mut table[place], n);
}

// Takes n out of the set at o.
pub fn remove_at(table: &mut [u8], o: usize, w: usize, n: usize)
    ensures { table.new ≡ put table.old o (removed (parts.part table.old o w) n) }
{
    let place = byte_slices::range_of(o, w, table.len());
    bitset::remove(&mut table[place], n);
}

// The set at o becomes what op makes of it and src.
fn combine_at(op: SetOp, table: &mut [u8], o: usize, w: usize, src: &[u8])
    ensures { table.new ≡ put table.old o (combined op (parts.part table.old o w) src.now) }
{
    let place = byte_slices::range_of(o, w, table.len());
    set_operators::combine(op, &mut table[place], src);
}

// The set at o gains what src has.
pub fn union_at(table: &mut [u8], o: usize, w: usize, src: &[u8])
    ensures { table.new ≡ put table.old o (union_of (parts.part table.old o w) src.now) }
{
    combine_at(SetOp::Union, table, o, w, src);
}

// The set at o becomes what src has, as far as w bytes reach.
pub fn copy_at(table: &mut [u8], o: usize, w: usize, src: &[u8])
    ensures { table.new ≡ put table.old o (copy_of (parts.part table.old o w) src.now) }
{
    combine_at(SetOp::Second, table, o, w, src);
}

// ---- rows of sets, one after the other

// How many numbers from n on are not in the set, up to the end of n's byte. The bit above the byte ends the count.
fn gap_from(set: &[u8], n: usize) -> usize
    ensures { Gap set.now n result }
{
    let rest = (256 + byte_slices::byte(set, n / 8) as usize) >> (n % 8);
    usize::trailing_zeros(rest) as usize
}

// How many rows of w bytes start in a body of size bytes.
fn row_count(size: usize, w: usize) -> usize
    requires { 0 < w }
    ensures { Rows w size result }
{
    if size == 0 {
        return 0;
    }
    (size - 1) / w + 1
}

// In a body of rows of w bytes each row whose number is in us gains what rs has, as far as a row reaches.
// Rows that gain nothing are passed over up to eight at a time, so no `for` counts them.
pub fn grant(body: &mut [u8], us: &[u8], rs: &[u8], w: usize)
    ensures { body.new ≡ granted w body.old us.now rs.now }
{
    if w == 0 {
        return;
    }
    let rows = row_count(body.len(), w);
    let mut u = 0;
    while u < rows {
        let gap = gap_from(us, u);
        if 0 < gap {
            u += gap.min(rows - u);
            continue;
        }
        let start = w * u;
        union_at(body, start, w, rs);
        u += 1;
    }
}

// The same for the body of rows that is in the size bytes at offset o of a table.
pub fn grant_at(table: &mut [u8], o: usize, size: usize, us: &[u8], rs: &[u8], w: usize)
    ensures { table.new ≡ put table.old o (granted w (parts.part table.old o size) us.now rs.now) }
{
    let place = byte_slices::range_of(o, size, table.len());
    grant(&mut table[place], us, rs, w);
}
