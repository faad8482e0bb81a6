// The keywords and the reserved words, by their numbers; and which words may be names.
#![tactic(auto)]

ghost use Rattle.std.specs.Prelude.{◌≡◌, ◌≤◌, ◌<◌, ◌+◌, length, take, drop};
ghost use Rattle.policy.specs.Basics.{is_in, unle};
ghost use Rattle.policy.specs.Words.{reserved, is_reserved, dotless};
ghost use Rattle.words.specs.Numbers.{number_of, may_be};
ghost use Rattle.words.specs.Parts.{part_end};
ghost use Rattle.words.specs.Keys.{number_by};

use little_endian::{FOUR_ON, get2, get4, get8, wide};

// The number of a word: its place in the table of words, from 1.
#[derive(Clone, Copy)]
pub struct Word;

impl Word {
    // The number of a word that is not in the table.
    pub const OTHER: usize = 0;

    pub const ALL: usize = 1;

    pub const AND: usize = 2;

    pub const OR: usize = 3;

    pub const XOR: usize = 4;

    pub const NOT: usize = 5;

    pub const EQ: usize = 6;

    pub const NEQ: usize = 7;

    pub const DOM: usize = 8;

    pub const DOMBY: usize = 9;

    pub const INCOMP: usize = 10;

    pub const U1: usize = 11;

    pub const U2: usize = 12;

    pub const U3: usize = 13;

    pub const R1: usize = 14;

    pub const R2: usize = 15;

    pub const R3: usize = 16;

    pub const T1: usize = 17;

    pub const T2: usize = 18;

    pub const T3: usize = 19;

    pub const L1: usize = 20;

    pub const L2: usize = 21;

    pub const H1: usize = 22;

    pub const H2: usize = 23;

    pub const USER: usize = 24;

    pub const ROLE: usize = 25;

    pub const TYPE: usize = 26;

    pub const USERATTRIBUTE: usize = 27;

    pub const ROLEATTRIBUTE: usize = 28;

    pub const TYPEATTRIBUTE: usize = 29;

    pub const CLASS: usize = 30;

    pub const USERATTRIBUTESET: usize = 31;

    pub const ROLEATTRIBUTESET: usize = 32;

    pub const TYPEATTRIBUTESET: usize = 33;

    pub const USERROLE: usize = 34;

    pub const ROLETYPE: usize = 35;

    pub const ROLEALLOW: usize = 36;

    pub const ROLETRANSITION: usize = 37;

    pub const CONSTRAIN: usize = 38;

    pub const VALIDATETRANS: usize = 39;

    pub const BLOCK: usize = 40;

    // The last of the reserved words, which come first.
    pub const LAST_RESERVED: usize = 23;
}

// What a name may be: any name, or one part, which has no dot, as names that are declared, names of blocks and
// permissions are.
#[derive(Clone, Copy)]
pub enum NameKind {
    Name,
    Part,
}

// Letters of the words as numbers, little endian, so that up to eight are compared at once.
#[derive(Clone, Copy)]
struct Letters;

impl Letters {
    // Up to four letters.
    const OR: usize = b'o' as usize + 256 * (b'r' as usize);

    const EQ: usize = b'e' as usize + 256 * (b'q' as usize);

    const U1: usize = b'u' as usize + 256 * (b'1' as usize);

    const U2: usize = b'u' as usize + 256 * (b'2' as usize);

    const U3: usize = b'u' as usize + 256 * (b'3' as usize);

    const R1: usize = b'r' as usize + 256 * (b'1' as usize);

    const R2: usize = b'r' as usize + 256 * (b'2' as usize);

    const R3: usize = b'r' as usize + 256 * (b'3' as usize);

    const T1: usize = b't' as usize + 256 * (b'1' as usize);

    const T2: usize = b't' as usize + 256 * (b'2' as usize);

    const T3: usize = b't' as usize + 256 * (b'3' as usize);

    const L1: usize = b'l' as usize + 256 * (b'1' as usize);

    const L2: usize = b'l' as usize + 256 * (b'2' as usize);

    const H1: usize = b'h' as usize + 256 * (b'1' as usize);

    const H2: usize = b'h' as usize + 256 * (b'2' as usize);

    const ALL: usize = b'a' as usize + 256 * (b'l' as usize + 256 * (b'l' as usize));

    const AND: usize = b'a' as usize + 256 * (b'n' as usize + 256 * (b'd' as usize));

    const XOR: usize = b'x' as usize + 256 * (b'o' as usize + 256 * (b'r' as usize));

    const NOT: usize = b'n' as usize + 256 * (b'o' as usize + 256 * (b't' as usize));

    const NEQ: usize = b'n' as usize + 256 * (b'e' as usize + 256 * (b'q' as usize));

    const DOM: usize = b'd' as usize + 256 * (b'o' as usize + 256 * (b'm' as usize));

    const USER: usize = b'u' as usize
        + 256 * (b's' as usize + 256 * (b'e' as usize + 256 * (b'r' as usize)));

    const ROLE: usize = b'r' as usize
        + 256 * (b'o' as usize + 256 * (b'l' as usize + 256 * (b'e' as usize)));

    const TYPE: usize = b't' as usize
        + 256 * (b'y' as usize + 256 * (b'p' as usize + 256 * (b'e' as usize)));

    const DOMB: usize = b'd' as usize
        + 256 * (b'o' as usize + 256 * (b'm' as usize + 256 * (b'b' as usize)));

    const CLAS: usize = b'c' as usize
        + 256 * (b'l' as usize + 256 * (b'a' as usize + 256 * (b's' as usize)));

    const BLOC: usize = b'b' as usize
        + 256 * (b'l' as usize + 256 * (b'o' as usize + 256 * (b'c' as usize)));

    const INCO: usize = b'i' as usize
        + 256 * (b'n' as usize + 256 * (b'c' as usize + 256 * (b'o' as usize)));

    const ATTR: usize = b'a' as usize
        + 256 * (b't' as usize + 256 * (b't' as usize + 256 * (b'r' as usize)));

    const IBUT: usize = b'i' as usize
        + 256 * (b'b' as usize + 256 * (b'u' as usize + 256 * (b't' as usize)));

    const ALLO: usize = b'a' as usize
        + 256 * (b'l' as usize + 256 * (b'l' as usize + 256 * (b'o' as usize)));

    const CONS: usize = b'c' as usize
        + 256 * (b'o' as usize + 256 * (b'n' as usize + 256 * (b's' as usize)));

    const TRAI: usize = b't' as usize
        + 256 * (b'r' as usize + 256 * (b'a' as usize + 256 * (b'i' as usize)));

    const TRAN: usize = b't' as usize
        + 256 * (b'r' as usize + 256 * (b'a' as usize + 256 * (b'n' as usize)));

    const SITI: usize = b's' as usize
        + 256 * (b'i' as usize + 256 * (b't' as usize + 256 * (b'i' as usize)));

    const ESET: usize = b'e' as usize
        + 256 * (b's' as usize + 256 * (b'e' as usize + 256 * (b't' as usize)));

    const VALI: usize = b'v' as usize
        + 256 * (b'a' as usize + 256 * (b'l' as usize + 256 * (b'i' as usize)));

    const DATE: usize = b'd' as usize
        + 256 * (b'a' as usize + 256 * (b't' as usize + 256 * (b'e' as usize)));

    // More letters: four, and those after them.
    const DOMBY: usize = Letters::DOMB + FOUR_ON * (b'y' as usize);

    const CLASS: usize = Letters::CLAS + FOUR_ON * (b's' as usize);

    const BLOCK: usize = Letters::BLOC + FOUR_ON * (b'k' as usize);

    const INCOMP: usize = Letters::INCO + FOUR_ON * (b'm' as usize + 256 * (b'p' as usize));

    const USERROLE: usize = Letters::USER + FOUR_ON * Letters::ROLE;

    const ROLETYPE: usize = Letters::ROLE + FOUR_ON * Letters::TYPE;

    const ROLEALLO: usize = Letters::ROLE + FOUR_ON * Letters::ALLO;

    const CONSTRAI: usize = Letters::CONS + FOUR_ON * Letters::TRAI;

    const USERATTR: usize = Letters::USER + FOUR_ON * Letters::ATTR;

    const ROLEATTR: usize = Letters::ROLE + FOUR_ON * Letters::ATTR;

    const TYPEATTR: usize = Letters::TYPE + FOUR_ON * Letters::ATTR;

    const ROLETRAN: usize = Letters::ROLE + FOUR_ON * Letters::TRAN;

    const VALIDATE: usize = Letters::VALI + FOUR_ON * Letters::DATE;

    const TRANS: usize = Letters::TRAN + FOUR_ON * (b's' as usize);

    const IBUTE: usize = Letters::IBUT + FOUR_ON * (b'e' as usize);

    const IBUTESET: usize = Letters::IBUT + FOUR_ON * Letters::ESET;

    const SITION: usize = Letters::SITI + FOUR_ON * (b'o' as usize + 256 * (b'n' as usize));
}

// The number of three letters of w from a place on; below the same for five and six.
fn three(w: &[u8], at: usize) -> usize
    requires { at + 3 ≤ length w.now }
    ensures { result ≡ unle (take 3 (drop at w.now)) }
{
    get2(w, at) + 65_536 * wide(w[at + 2])
}

fn five(w: &[u8], at: usize) -> usize
    requires { at + 5 ≤ length w.now }
    ensures { result ≡ unle (take 5 (drop at w.now)) }
{
    get4(w, at) + FOUR_ON * wide(w[at + 4])
}

fn six(w: &[u8], at: usize) -> usize
    requires { at + 6 ≤ length w.now }
    ensures { result ≡ unle (take 6 (drop at w.now)) }
{
    get4(w, at) + FOUR_ON * get2(w, at + 4)
}

// The number of a word of two letters; below those of the other lengths. `low` is the number of the first eight
// letters, `high` that of the letters after them.
fn of_two(low: usize) -> usize
    ensures { result ≡ number_by 2 low 0 }
{
    match low {
        Letters::OR => Word::OR,
        Letters::EQ => Word::EQ,
        Letters::U1 => Word::U1,
        Letters::U2 => Word::U2,
        Letters::U3 => Word::U3,
        Letters::R1 => Word::R1,
        Letters::R2 => Word::R2,
        Letters::R3 => Word::R3,
        Letters::T1 => Word::T1,
        Letters::T2 => Word::T2,
        Letters::T3 => Word::T3,
        Letters::L1 => Word::L1,
        Letters::L2 => Word::L2,
        Letters::H1 => Word::H1,
        Letters::H2 => Word::H2,
        _ => Word::OTHER,
    }
}

fn of_three(low: usize) -> usize
    ensures { result ≡ number_by 3 low 0 }
{
    match low {
        Letters::ALL => Word::ALL,
        Letters::AND => Word::AND,
        Letters::XOR => Word::XOR,
        Letters::NOT => Word::NOT,
        Letters::NEQ => Word::NEQ,
        Letters::DOM => Word::DOM,
        _ => Word::OTHER,
    }
}

fn of_four(low: usize) -> usize
    ensures { result ≡ number_by 4 low 0 }
{
    match low {
        Letters::USER => Word::USER,
        Letters::ROLE => Word::ROLE,
        Letters::TYPE => Word::TYPE,
        _ => Word::OTHER,
    }
}

fn of_five(low: usize) -> usize
    ensures { result ≡ number_by 5 low 0 }
{
    match low {
        Letters::DOMBY => Word::DOMBY,
        Letters::CLASS => Word::CLASS,
        Letters::BLOCK => Word::BLOCK,
        _ => Word::OTHER,
    }
}

fn of_six(low: usize) -> usize
    ensures { result ≡ number_by 6 low 0 }
{
    if low == Letters::INCOMP {
        Word::INCOMP
    } else {
        Word::OTHER
    }
}

fn of_eight(low: usize) -> usize
    ensures { result ≡ number_by 8 low 0 }
{
    match low {
        Letters::USERROLE => Word::USERROLE,
        Letters::ROLETYPE => Word::ROLETYPE,
        _ => Word::OTHER,
    }
}

fn of_nine(low: usize, last: u8) -> usize
    ensures { result ≡ number_by 9 low last }
{
    match last {
        b'w' => if low == Letters::ROLEALLO {
            Word::ROLEALLOW
        } else {
            Word::OTHER
        },
        b'n' => if low == Letters::CONSTRAI {
            Word::CONSTRAIN
        } else {
            Word::OTHER
        },
        _ => Word::OTHER,
    }
}

fn of_thirteen(low: usize, high: usize) -> usize
    ensures { result ≡ number_by 13 low high }
{
    if high == Letters::TRANS {
        if low == Letters::VALIDATE {
            return Word::VALIDATETRANS;
        }
        return Word::OTHER;
    }
    if high != Letters::IBUTE {
        return Word::OTHER;
    }
    match low {
        Letters::USERATTR => Word::USERATTRIBUTE,
        Letters::ROLEATTR => Word::ROLEATTRIBUTE,
        Letters::TYPEATTR => Word::TYPEATTRIBUTE,
        _ => Word::OTHER,
    }
}

fn of_fourteen(low: usize, high: usize) -> usize
    ensures { result ≡ number_by 14 low high }
{
    if high != Letters::SITION {
        return Word::OTHER;
    }
    if low == Letters::ROLETRAN {
        Word::ROLETRANSITION
    } else {
        Word::OTHER
    }
}

fn of_sixteen(low: usize, high: usize) -> usize
    ensures { result ≡ number_by 16 low high }
{
    if high != Letters::IBUTESET {
        return Word::OTHER;
    }
    match low {
        Letters::USERATTR => Word::USERATTRIBUTESET,
        Letters::ROLEATTR => Word::ROLEATTRIBUTESET,
        Letters::TYPEATTR => Word::TYPEATTRIBUTESET,
        _ => Word::OTHER,
    }
}

// The number of the word w, which is compared only with the words of its own length.
pub fn number_of(w: &[u8]) -> usize
    ensures { result ≡ number_of w.now }
{
    match w.len() {
        2 => of_two(get2(w, 0)),
        3 => of_three(three(w, 0)),
        4 => of_four(get4(w, 0)),
        5 => of_five(five(w, 0)),
        6 => of_six(six(w, 0)),
        8 => of_eight(get8(w, 0)),
        9 => of_nine(get8(w, 0), w[8]),
        13 => of_thirteen(get8(w, 0), five(w, 8)),
        14 => of_fourteen(get8(w, 0), six(w, 8)),
        16 => of_sixteen(get8(w, 0), get8(w, 8)),
        _ => Word::OTHER,
    }
}

// The number of the word that is in a text, by the place of its first byte and its length.
pub fn number_at(text: &[u8], start: usize, len: usize) -> usize
    requires { start + len ≤ length text.now }
    ensures { result ≡ number_of (take len (drop start text.now)) }
{
    let end = start + len;
    number_of(&text[start..end])
}

// Whether a word is reserved: the reserved words have the first numbers.
fn is_reserved_word(w: &[u8]) -> bool
    ensures { result ≡ is_in w.now reserved }
{
    let number = number_of(w);
    if number == Word::OTHER {
        return false;
    }
    number <= Word::LAST_RESERVED
}

// Where the part ends that starts at a place of a word: at the next dot, or with the word.
fn part_end(w: &[u8], at: usize) -> usize
    ensures { result ≡ part_end w.now at }
{
    let mut i = at;
    while i < w.len() {
        if w[i] == lexer::Name::DOT {
            return i;
        }
        i += 1;
    }
    i
}

// Whether a word has no dot.
fn is_dotless(w: &[u8]) -> bool
    ensures { result ≡ dotless w.now }
{
    part_end(w, 0) == w.len()
}

// Whether a part of the word is a reserved word: "A name with a reserved part counts as reserved".
pub fn has_reserved_part(w: &[u8]) -> bool
    ensures { result ≡ is_reserved w.now }
{
    let mut at: usize = 0;
    loop {
        let end = part_end(w, at);
        if is_reserved_word(&w[at..end]) {
            return true;
        }
        if w.len() <= end {
            return false;
        }
        at = end + 1;
    }
}

// Whether the word that is in a text may be a name of the kind: the reserved words are none, nor are words with a
// reserved part.
pub fn is_name(kind: NameKind, text: &[u8], start: usize, len: usize) -> bool
    requires { start + len ≤ length text.now }
    ensures { result ≡ may_be kind (take len (drop start text.now)) }
{
    let end = start + len;
    let w = &text[start..end];
    if is_dotless(w) {
        return !is_reserved_word(w);
    }
    match kind {
        NameKind::Name => !has_reserved_part(w),
        NameKind::Part => false,
    }
}
