// Numbers in bytes, lowest byte first. Each width is read and put as two of half its width. There is no loop over the
// width: bytes that are read or put one after the other, with no test between them, become one load or store. The
// `from_le_bytes` and `to_le_bytes` of std would be no plainer: they are for arrays, which would have to be made of the
// bytes first.
#![tactic(auto)]

ghost use Rattle.std.specs.Prelude.{◌≡◌, ◌+◌, ◌^◌, ◌≤◌, ◌<◌, length, take, drop};
ghost use Rattle.byte_slices.specs.Parts.{put};
ghost use Rattle.policy.specs.Basics.{le, unle};

// What a number is multiplied by if its bytes come after one other byte, after two, after four.
const ONE_ON: usize = 256;

const TWO_ON: usize = 65_536;

pub const FOUR_ON: usize = 4_294_967_296;

// A byte as a number that others can be added to.
pub fn wide(byte: u8) -> usize
    ensures { (result ≡ byte) × (result < 256) }
{
    byte as usize
}

// ---- numbers that are read

// The number in the two bytes from a place on; below the same for four and eight.
pub fn get2(bytes: &[u8], at: usize) -> usize
    requires { at + 2 ≤ length bytes.now }
    ensures { (result ≡ unle (take 2 (drop at bytes.now))) × (result < 65536) }
{
    usize::from(bytes[at]) + ONE_ON * usize::from(bytes[at + 1])
}

pub fn get4(bytes: &[u8], at: usize) -> usize
    requires { at + 4 ≤ length bytes.now }
    ensures { (result ≡ unle (take 4 (drop at bytes.now))) × (result < 4294967296) }
{
    get2(bytes, at) + TWO_ON * get2(bytes, at + 2)
}

pub fn get8(bytes: &[u8], at: usize) -> usize
    requires { at + 8 ≤ length bytes.now }
    ensures { result ≡ unle (take 8 (drop at bytes.now)) }
{
    get4(bytes, at) + FOUR_ON * get4(bytes, at + 4)
}

// The number in all the bytes, which are at most eight.
pub fn number(bytes: &[u8]) -> usize
    requires { length bytes.now ≤ 8 }
    ensures { (result ≡ unle bytes.now) × (result < 256 ^ length bytes.now) }
{
    let mut n: usize = 0;
    for byte in bytes.iter().rev() {
        n = ONE_ON * n + usize::from(*byte);
    }
    n
}

// ---- numbers that are put

// Puts the lowest two bytes of a number to a place; below the same for four and eight.
pub fn put2(bytes: &mut [u8], at: usize, n: usize)
    requires { at + 2 ≤ length bytes.old }
    ensures { bytes.new ≡ put bytes.old at (le 2 n) }
{
    bytes[at] = (n % ONE_ON) as u8;
    bytes[at + 1] = (n / ONE_ON % ONE_ON) as u8;
}

pub fn put4(bytes: &mut [u8], at: usize, n: usize)
    requires { at + 4 ≤ length bytes.old }
    ensures { bytes.new ≡ put bytes.old at (le 4 n) }
{
    put2(bytes, at, n);
    put2(bytes, at + 2, n / TWO_ON);
}

pub fn put8(bytes: &mut [u8], at: usize, n: usize)
    requires { at + 8 ≤ length bytes.old }
    ensures { bytes.new ≡ put bytes.old at (le 8 n) }
{
    put4(bytes, at, n);
    put4(bytes, at + 4, n / FOUR_ON);
}
