// What the names of a table say, whatever the bytes are: how many there are of each sort, whether a thing has a word
// for its name, and which numbers have the names that are treated apart.
#![tactic(auto)]

ghost use Rattle.std.specs.Prelude.{◌≡◌, replicate};
ghost use Rattle.policy.specs.Words.{transition_words};
ghost use Rattle.symbols.specs.Lookup.{reply_of};
ghost use Rattle.table_names.specs.TableNames.{names_start, names_end, counts_in, Tallied, name_at, permission_in, has_name, has_one_name, asks_role_in};
ghost use Rattle.table_names.specs.TableNames.{is_object_by, asks_role_by_number, asks_role_by};

use byte_slices::Span;
use policy::{Class, NameCounts, Permission, Section, Sort};
use symbols::Entry;

// Where the names start, as the header says.
pub fn names_start(table: &[u8]) -> usize
    ensures { result ≡ names_start table.now }
{
    table_reader::body_start(table, Section::NAMES) as usize
}

// Where the names end.
pub fn names_end(table: &[u8]) -> usize
    ensures { result ≡ names_end table.now }
{
    let start = table_reader::body_start(table, Section::NAMES) as usize;
    start + table_reader::body_length(table, Section::NAMES) as usize
}

// Counts the names of each sort in one walk, with counts that are 0 at first.
fn tally(table: &[u8], counts: &mut [usize])
    requires { counts.old ≡ replicate 8 0 }
    ensures { Tallied table.now counts.new }
{
    let end = names_end(table);
    let mut at = names_start(table);
    loop {
        let k = symbols::next_entry(table, at, end);
        match k {
            Entry::Named {
                sort,
                number: _n,
                past,
            } => {
                at = past;
                if Sort::COUNT <= sort {
                    continue;
                }
                counts[sort] += 1;
            }
            Entry::Done => return,
            Entry::Broken => return,
        }
    }
}

// How many names of each sort there are.
pub fn count_names(table: &[u8]) -> NameCounts
    ensures { result ≡ counts_in table.now }
{
    let mut counts = [0usize; Sort::COUNT];
    tally(table, &mut counts);
    NameCounts {
        users: counts[Sort::USER],
        roles: counts[Sort::ROLE],
        types: counts[Sort::TYPE],
        user_attributes: counts[Sort::USER_ATTRIBUTE],
        role_attributes: counts[Sort::ROLE_ATTRIBUTE],
        type_attributes: counts[Sort::TYPE_ATTRIBUTE],
        classes: counts[Sort::CLASS],
    }
}

// ---- names

// Where the name of a sort and number is.
pub fn name_place(table: &[u8], sort: usize, number: usize) -> Option<Span>
    ensures { reply_of result ≡ name_at table.now sort number }
{
    symbols::name_of(table, names_start(table), names_end(table), sort, number)
}

// Whether a name is a word. Where a table ends within a part, the part is cut there, so that a longer part is
// compared too.
fn is_word(table: &[u8], place: Option<Span>, word: &[u8]) -> bool
    ensures { result ≡ has_name table.now (reply_of place) word.now }
{
    match place {
        Some(Span { start, length }) => {
            if length < word.len() {
                return false;
            }
            symbols::same(table, start, word, 0, length)
        }
        None => false,
    }
}

// Whether the name of a sort and number is a word.
fn is_named(table: &[u8], sort: usize, number: usize, word: &[u8]) -> bool
    ensures { result ≡ has_name table.now (name_at table.now sort number) word.now }
{
    let place = name_place(table, sort, number);
    is_word(table, place, word)
}

// ---- permissions

// Where the name of a permission is, by its place in its class.
fn permission_name(table: &[u8], class: usize, permission: usize) -> Option<Span>
    ensures { reply_of result ≡ permission_in table.now class permission }
{
    if Class::MAX <= class {
        return None;
    }
    if Permission::MAX <= permission {
        return None;
    }
    let number = class * Permission::MAX + permission;
    name_place(table, Sort::PERMISSION, number)
}

// ---- the names that are treated apart

// The name of the role whose contexts are valid with every user and type.
pub const OBJECT: [u8; 8] = *b"object_r";

// The class and its permissions at which a change of role must be allowed.
pub const PROCESS: [u8; 7] = *b"process";

pub const TRANSITION: [u8; 10] = *b"transition";

pub const DYNTRANSITION: [u8; 13] = *b"dyntransition";

// Whether a permission is `transition` or `dyntransition`.
fn is_transition(table: &[u8], class: usize, permission: usize) -> bool
    ensures { result ≡ has_one_name table.now (permission_in table.now class permission) transition_words }
{
    let place = permission_name(table, class, permission);
    is_word(table, place, &TRANSITION) || is_word(table, place, &DYNTRANSITION)
}

// Whether the class and the permission have the names at which a change of role must be allowed.
#[tactic(auto, unfolding(crate::specs::TableNames::asks_role_in))]
fn asks_role_by_name(table: &[u8], class: usize, permission: usize) -> bool
    ensures { result ≡ asks_role_in table.now class permission }
{
    is_named(table, Sort::CLASS, class, &PROCESS) && is_transition(table, class, permission)
}

// ---- the same by numbers that are known

// The numbers of the names that are treated apart: of the role `object_r`, of the class `process`, and of its
// permissions `transition` and `dyntransition`. Where there is no such name, a number that nothing has.
#[derive(Clone, Copy)]
pub struct SpecialNumbers {
    pub object: usize,
    pub process: usize,
    pub transition: usize,
    pub dyntransition: usize,
}

// Whether a role is the one whose contexts are valid with every user and type. Where the numbers are not known, the names
// are looked at, each by a walk.
#[tactic(auto, unfolding(crate::specs::TableNames::is_object_in))]
pub fn is_object(table: &[u8], special: Option<SpecialNumbers>, role: usize) -> bool
    ensures { result ≡ is_object_by table.now special role }
{
    match special {
        Some(numbers) => role == numbers.object,
        None => is_named(table, Sort::ROLE, role, &OBJECT),
    }
}

// Whether the numbers are those of the class and of one of its two permissions.
fn asks_role_by_number(numbers: SpecialNumbers, class: usize, permission: usize) -> bool
    ensures { result ≡ asks_role_by_number numbers class permission }
{
    class == numbers.process
        && (permission == numbers.transition || permission == numbers.dyntransition)
}

// Whether the class and the permission are those at which a change of role must be allowed.
pub fn asks_role(
    table: &[u8],
    special: Option<SpecialNumbers>,
    class: usize,
    permission: usize,
) -> bool
    ensures { result ≡ asks_role_by table.now special class permission }
{
    match special {
        Some(numbers) => asks_role_by_number(numbers, class, permission),
        None => asks_role_by_name(table, class, permission),
    }
}
