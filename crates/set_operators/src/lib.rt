// Two sets combined or compared, byte by byte. A second set that is shorter than the first has no further members.
#![tactic(auto)]

ghost use Rattle.std.specs.Prelude.{◌≡◌, ◌+◌, ◌≤◌, ◌<◌, length};
ghost use Rattle.bitset.specs.Sets as sets;
ghost use Rattle.bitset.specs.Sets.{union_of, intersection_of, symmetric_difference_of, difference_of, copy_of};
ghost use Rattle.set_operators.specs.Operators.{combined, combined_byte};

// What two sets are combined by. `Second` takes the second set alone.
#[derive(Clone, Copy)]
pub enum SetOp {
    Union,
    Intersection,
    ExclusiveOr,
    Difference,
    Second,
}

// ---- bytes

// What op makes of two bytes.
fn apply(op: SetOp, a: u8, b: u8) -> u8
    ensures { result ≡ combined_byte op a b }
{
    match op {
        SetOp::Union => a | b,
        SetOp::Intersection => a & b,
        SetOp::ExclusiveOr => a ^ b,
        SetOp::Difference => a & !b,
        SetOp::Second => b,
    }
}

// ---- two sets

// dst becomes what op makes of it and src, which is as long or longer.
fn combine_whole(op: SetOp, dst: &mut [u8], src: &[u8])
    requires { length dst.old ≤ length src.now }
    ensures { dst.new ≡ combined op dst.old src.now }
{
    for at in 0..dst.len() {
        dst[at] = apply(op, dst[at], src[at]);
    }
}

// dst becomes what op makes of it and src. Sets of one width, as nearly all are, are combined without asking at each
// byte where src ends.
pub fn combine(op: SetOp, dst: &mut [u8], src: &[u8])
    ensures { dst.new ≡ combined op dst.old src.now }
{
    if dst.len() <= src.len() {
        combine_whole(op, dst, src);
        return;
    }
    for (i, b) in dst.iter_mut().enumerate() {
        *b = apply(op, *b, byte_slices::byte(src, i));
    }
}

// dst gains what src has.
pub fn union(dst: &mut [u8], src: &[u8])
    ensures { dst.new ≡ union_of dst.old src.now }
{
    combine(SetOp::Union, dst, src);
}

// dst keeps what src has too.
pub fn intersection(dst: &mut [u8], src: &[u8])
    ensures { dst.new ≡ intersection_of dst.old src.now }
{
    combine(SetOp::Intersection, dst, src);
}

// dst becomes what is in one of the two and not in both.
pub fn exclusive_or(dst: &mut [u8], src: &[u8])
    ensures { dst.new ≡ symmetric_difference_of dst.old src.now }
{
    combine(SetOp::ExclusiveOr, dst, src);
}

// dst loses what src has.
pub fn difference(dst: &mut [u8], src: &[u8])
    ensures { dst.new ≡ difference_of dst.old src.now }
{
    combine(SetOp::Difference, dst, src);
}

// dst becomes what src has, as far as dst reaches.
pub fn copy(dst: &mut [u8], src: &[u8])
    ensures { dst.new ≡ copy_of dst.old src.now }
{
    combine(SetOp::Second, dst, src);
}

// Whether a number is in both: the bits that both have are gathered.
pub fn meets(a: &[u8], b: &[u8]) -> bool
    ensures { result ≡ sets.meets a.now b.now }
{
    a.iter().zip(b).any(|(x, y)| *x & *y != 0)
}

// Whether the same numbers are in both, whatever their widths.
fn equal_members(a: &[u8], b: &[u8]) -> bool
    ensures { result ≡ sets.equal a.now b.now }
{
    let longer = a.len().max(b.len());
    (0..longer).all(|i| byte_slices::byte(a, i) == byte_slices::byte(b, i))
}

// Whether the same numbers are in both. Sets of one width, as nearly all are, are compared as slices.
pub fn equal(a: &[u8], b: &[u8]) -> bool
    ensures { result ≡ sets.equal a.now b.now }
{
    if a.len() == b.len() {
        a == b
    } else {
        equal_members(a, b)
    }
}
