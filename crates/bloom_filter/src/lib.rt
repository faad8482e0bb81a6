// A Bloom filter of names: three bits, its marks, for each name that was put into it, all in one word, by the name's
// hash. A name without its marks was not put in; one with its marks may share them with others, so that it still has
// to be compared.
#![tactic(auto)]

ghost use Rattle.std.specs.Prelude.{◌≡◌, ◌<◌, length};
ghost use Rattle.bloom_filter.specs.Filter.{stepped, bit_of, mask_of, is_marked, marked};

// How many hashes there are, and what each step multiplies by: an odd number whose multiples are spread over all
// hashes.
const HASHES: usize = 4_294_967_296;

const FACTOR: usize = 1_640_531_527;

// The highest bits of a hash are the number of its word, and groups of six bits below them are its marks there.
const WORD_SHARE: usize = 2_097_152;

const FIRST_SHARE: usize = 32_768;

const SECOND_SHARE: usize = 512;

const THIRD_SHARE: usize = 8;

const WORD_BITS: usize = 64;

// The hash of what has a hash so far and goes on with a number: the next byte of a name, or after the last its
// family, or the block around it.
pub fn hash_step(hash: usize, number: usize) -> usize
    requires { hash < 4294967296 }
    ensures { (result ≡ stepped hash number) × (result < 4294967296) }
{
    (hash + number % HASHES) * FACTOR % HASHES
}

// The word with the mark of a group of bits alone.
fn bit_of(group: usize) -> u64
    ensures { result ≡ bit_of group }
{
    1u64 << (group % WORD_BITS)
}

// The word with the marks of a hash alone.
fn mask_of(hash: usize) -> u64
    ensures { result ≡ mask_of hash }
{
    bit_of(hash / FIRST_SHARE) | bit_of(hash / SECOND_SHARE) | bit_of(hash / THIRD_SHARE)
}

// Puts the marks of a hash into the filter, and says whether all of them were there before.
pub fn insert(filter: &mut [u64], hash: usize) -> bool
    requires { (0 < length filter.old) × (hash < 4294967296) }
    ensures { (result ≡ is_marked filter.old hash) × (filter.new ≡ marked filter.old hash) }
{
    let place = hash / WORD_SHARE % filter.len();
    let before = filter[place];
    let after = before | mask_of(hash);
    filter[place] = after;
    before == after
}
