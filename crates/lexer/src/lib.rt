// The lexer: what each byte of a text is, the scan for faults 1 and 2, and the tokens.
#![tactic(auto)]

ghost use Rattle.std.specs.Prelude.{◌≡◌, ℕ, ◌≤◌, length, drop};
ghost use Rattle.lexer.specs.Class.{class_of, starts, goes_on, is_dot};
ghost use Rattle.lexer.specs.Scan as spec;
ghost use Rattle.lexer.specs.Scan.{max_text, step_between, closed_at};
ghost use Rattle.lexer.specs.Token.{token_at};
ghost use Rattle.lexer.specs.Answers.{mark_of, word_goes_on, part_starts, bare_dot, name_goes_on, counted_from, comment_end, word_end, state_of};

// A text: how many bytes it may have.
#[derive(Clone, Copy)]
pub struct Text;

impl Text {
    pub const MAX: usize = 65_535;
}

// A name: how many bytes it may have, a dot in front not counted, and the byte between its parts.
#[derive(Clone, Copy)]
pub struct Name;

impl Name {
    pub const MAX: usize = 64;

    pub const DOT: u8 = b'.';
}

// A level of parentheses: how deep it may lie.
#[derive(Clone, Copy)]
pub struct Level;

impl Level {
    pub const MAX: usize = 32;
}

// What a byte is. A line feed is a blank that also ends a comment. A dot is between the parts of a name or in front
// of it.
#[derive(Clone, Copy, PartialEq, Eq)]
pub enum ByteClass {
    Blank,
    LineFeed,
    Comment,
    Open,
    Close,
    Letter,
    Digit,
    Dot,
    Wrong,
}

// What the scan finds in a text: that it is too long, fault 1, or fault 2 at a place.
#[derive(Clone, Copy, PartialEq, Eq)]
pub enum ScanFault {
    TooLong,
    Wrong(usize),
}

// A parenthesis by its place, a word by the place of its first byte and its length, or the end of the text.
#[derive(Clone, Copy)]
pub enum Token {
    Open(usize),
    Close(usize),
    Word { start: usize, len: usize },
    End,
}

// What a byte between names does: it leads to a level, starts a comment or a name, or is a fault. (As a Result it would
// be no plainer: three of the four go on, each in its own way.)
#[derive(Clone, Copy)]
enum Step {
    Level(usize),
    Comment,
    Name,
    Fault,
}

// The class of each byte, 32 bytes to a line: b blank, n line feed, s start of a comment, o open, c close, w wrong,
// and as capitals those that names are made of: L letter, D digit, P dot.
const CLASSES: [u8; 256] = *b"\
    wwwwwwwwwbnwwbwwwwwwwwwwwwwwwwww\
    bwwwwwwwocwwwDPwDDDDDDDDDDwswwww\
    wLLLLLLLLLLLLLLLLLLLLLLLLLLwwwwL\
    wLLLLLLLLLLLLLLLLLLLLLLLLLLwwwww\
    wwwwwwwwwwwwwwwwwwwwwwwwwwwwwwww\
    wwwwwwwwwwwwwwwwwwwwwwwwwwwwwwww\
    wwwwwwwwwwwwwwwwwwwwwwwwwwwwwwww\
    wwwwwwwwwwwwwwwwwwwwwwwwwwwwwwww";

// The constant in memory, where it stands once for all that read it.
static TABLE: [u8; 256] = CLASSES;

// The mark of a byte's class.
pub fn mark(b: u8) -> u8
    ensures { result ≡ mark_of (class_of b) }
{
    TABLE[b as usize]
}

// What a byte is.
fn class_of(b: u8) -> ByteClass
    ensures { result ≡ class_of b }
{
    match mark(b) {
        b'b' => ByteClass::Blank,
        b'n' => ByteClass::LineFeed,
        b's' => ByteClass::Comment,
        b'o' => ByteClass::Open,
        b'c' => ByteClass::Close,
        b'L' => ByteClass::Letter,
        b'D' => ByteClass::Digit,
        b'P' => ByteClass::Dot,
        _ => ByteClass::Wrong,
    }
}

// Where the comment ends that is under way at a place: at its line feed, or with the text.
fn comment_end(text: &[u8], at: usize) -> usize
    ensures { result ≡ comment_end text.now at }
{
    let mut i = at;
    while i < text.len() {
        if class_of(text[i]) == ByteClass::LineFeed {
            return i;
        }
        i += 1;
    }
    i
}

// Whether a part of a name starts with the byte.
pub fn starts_part(b: u8) -> bool
    ensures { result ≡ starts (class_of b) }
{
    mark(b) == b'L'
}

// Whether a part of a name goes on with the byte: its mark is a capital before that of the
// dot.
pub fn is_in_part(b: u8) -> bool
    ensures { result ≡ goes_on (class_of b) }
{
    mark(b) < b'P'
}

// Whether the byte is a dot.
pub fn is_dot(b: u8) -> bool
    ensures { result ≡ is_dot (class_of b) }
{
    mark(b) == b'P'
}

// Whether there is a byte at a place with which a word goes on, a dot too: its mark is a capital.
fn word_goes_on(text: &[u8], at: usize) -> bool
    ensures { result ≡ word_goes_on (drop at text.now) }
{
    if text.len() <= at {
        return false;
    }
    mark(text[at]) < b'a'
}

// Where the word ends that is under way at a place: at the first byte that does not go on a word, or with the text.
fn word_end(text: &[u8], at: usize) -> usize
    ensures { result ≡ word_end text.now at }
{
    let mut i = at;
    while word_goes_on(text, i) {
        i += 1;
    }
    i
}

// Whether a part of a name starts at a place.
fn part_starts(text: &[u8], at: usize) -> bool
    ensures { result ≡ part_starts (drop at text.now) }
{
    if text.len() <= at {
        return false;
    }
    starts_part(text[at])
}

// Whether there is a dot at a place with no part after it.
fn bare_dot(text: &[u8], at: usize) -> bool
    ensures { result ≡ bare_dot (drop at text.now) }
{
    if text.len() <= at {
        return false;
    }
    if is_dot(text[at]) {
        return !part_starts(text, at + 1);
    }
    false
}

// Whether a name goes on at a place: with a byte of the part that is under way, or with a dot and a part after it.
fn name_goes_on(text: &[u8], at: usize) -> bool
    ensures { result ≡ name_goes_on (drop at text.now) }
{
    if text.len() <= at {
        return false;
    }
    if is_in_part(text[at]) {
        return true;
    }
    if is_dot(text[at]) {
        return part_starts(text, at + 1);
    }
    false
}

// The place from which the bytes of the name at a place are counted: after a dot in front.
fn counted_from(text: &[u8], at: usize) -> usize
    ensures { result ≡ counted_from (drop at text.now) at }
{
    if text.len() <= at {
        return at;
    }
    if is_dot(text[at]) {
        return at + 1;
    }
    at
}

// What a byte between names does where so many parentheses are open.
fn step_between(level: usize, class: ByteClass) -> Step
    ensures { (at : ℕ) → state_of level at result ≡ step_between level at class }
{
    match class {
        ByteClass::Blank => Step::Level(level),
        ByteClass::LineFeed => Step::Level(level),
        ByteClass::Comment => Step::Comment,
        ByteClass::Open => {
            if level < Level::MAX {
                return Step::Level(level + 1);
            }
            Step::Fault
        }
        ByteClass::Close => {
            if level == 0 {
                return Step::Fault;
            }
            Step::Level(level - 1)
        }
        ByteClass::Letter => {
            if level == 0 {
                return Step::Fault;
            }
            Step::Name
        }
        ByteClass::Dot => {
            if level == 0 {
                return Step::Fault;
            }
            Step::Name
        }
        ByteClass::Digit => Step::Fault,
        ByteClass::Wrong => Step::Fault,
    }
}

// What the scan says where the text ends with so many parentheses open.
fn closed_at(level: usize, at: usize) -> Result<(), ScanFault>
    ensures { result ≡ closed_at level at }
{
    if level == 0 {
        return Ok(());
    }
    Err(ScanFault::Wrong(at))
}

// Fault 2 of a text that is not too long.
fn scan_bytes(text: &[u8]) -> Result<(), ScanFault>
    requires { length text.now ≤ max_text }
    ensures { result ≡ spec.scan text.now }
{
    let mut at: usize = 0;
    let mut level: usize = 0;
    let place = 'text: loop {
        if text.len() <= at {
            return closed_at(level, at);
        }
        let step = step_between(level, class_of(text[at]));
        match step {
            Step::Level(next) => {
                level = next;
                at += 1;
            }
            Step::Comment => at = comment_end(text, at + 1),
            Step::Name => {
                let start = at;
                let limit = counted_from(text, start) + Name::MAX;
                if bare_dot(text, start) {
                    break 'text start; // a dot in front that no part follows
                }
                at += 1;
                while name_goes_on(text, at) {
                    if limit <= at {
                        break 'text start; // the 65th byte
                    }
                    at += 1;
                }
                if bare_dot(text, at) {
                    break 'text start; // any other dot that no part follows
                }
            }
            Step::Fault => break 'text at,
        }
    };
    Err(ScanFault::Wrong(place))
}

// Faults 1 and 2 of a text: none, or the first.
pub fn scan(text: &[u8]) -> Result<(), ScanFault>
    ensures { result ≡ spec.scan text.now }
{
    if Text::MAX < text.len() {
        return Err(ScanFault::TooLong);
    }
    scan_bytes(text)
}

// The first token at or after a place.
pub fn next(text: &[u8], at: usize) -> Token
    ensures { result ≡ token_at text.now at }
{
    let mut i = at;
    while i < text.len() {
        let class = class_of(text[i]);
        match class {
            ByteClass::Blank | ByteClass::LineFeed | ByteClass::Wrong => i += 1,
            ByteClass::Comment => i = comment_end(text, i + 1),
            ByteClass::Open => return Token::Open(i),
            ByteClass::Close => return Token::Close(i),
            ByteClass::Letter | ByteClass::Digit | ByteClass::Dot => {
                let end = word_end(text, i + 1);
                return Token::Word {
                    start: i,
                    len: end - i,
                };
            }
        }
    }
    Token::End
}
