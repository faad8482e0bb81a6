// The summary of a table: what the names of a sound table say, in so many numbers, made once when the table is tested.
// Whoever keeps it beside the table asks without the test and without a walk over the names (`sound_questions`).
#![tactic(auto)]

ghost use Rattle.std.specs.Prelude.{◌≡◌, ◌&&◌, ◌++◌, ◌+◌, ◌<◌, ltb, length, get_or};
ghost use Rattle.policy.specs.Sound.{image_in};
ghost use Rattle.policy.specs.Statements.{permissions};
ghost use Rattle.symbols.specs.Lookup.{first_named};
ghost use Rattle.soundness.specs.IsSound.{is_sound};
ghost use Rattle.table_laws.specs.SoundTable.{Sound};
ghost use Rattle.table_names.specs.TableNames.{names_in};
ghost use Rattle.table_summary.specs.Summary.{place_or, special_of, summary_after, counts_from, special_from};
ghost use Rattle.table_summary.specs.Numbers.{number_of, numbers_of, Fit};

use policy::{Class, NameCounts, Permission, Role, Sort};
use symbols::{NameFamily, Symbol};
use table_names::SpecialNumbers;

// Where the numbers are. At the number of each sort but permissions: how many there are. Then the numbers of the names
// that are treated apart, and after them, for each class, how many permissions it has.
const OBJECT_AT: usize = Sort::PERMISSION;

const PROCESS_AT: usize = OBJECT_AT + 1;

const TRANSITION_AT: usize = OBJECT_AT + 2;

const DYNTRANSITION_AT: usize = OBJECT_AT + 3;

const PERMISSIONS_AT: usize = OBJECT_AT + 4;

// How many numbers a summary has.
pub const NUMBERS: usize = PERMISSIONS_AT + Class::MAX;

// ---- the names that are treated apart

// The number of the first with a name in a family, if it is of the sort; else the number given.
fn number_of(table: &[u8], family: usize, sort: usize, word: &[u8], missing: usize) -> usize
    ensures { result ≡ number_of sort missing (first_named family word.now (names_in table.now)) }
{
    let start = table_names::names_start(table);
    let end = table_names::names_end(table);
    let tried = name_chains::find_in_section(table, start, end, family, word);
    let found = tried.found;
    match found {
        Some(
            Symbol {
                sort: found_sort,
                number,
            },
        ) => {
            if found_sort == sort {
                return number;
            }
            missing
        }
        None => missing,
    }
}

// The place of a permission in its class, by its name; Permission::MAX where the class has none of that name, and where
// there is no such class.
fn permission_place(table: &[u8], class: usize, word: &[u8]) -> usize
    ensures { (s : Sound table.now) → result ≡ place_or 32 word.now (permissions s.image.names class) }
{
    if Class::MAX <= class {
        return Permission::MAX;
    }
    let first = class * Permission::MAX;
    let number = number_of(
        table,
        NameFamily::FIRST_PERMISSIONS + class,
        Sort::PERMISSION,
        word,
        first + Permission::MAX,
    );
    if number < first {
        return Permission::MAX;
    }
    number - first
}

// The numbers of the names that are treated apart.
fn special_numbers(table: &[u8]) -> SpecialNumbers
    ensures { (s : Sound table.now) → result ≡ special_of s.image.names }
{
    let object = table_names::OBJECT;
    let process = table_names::PROCESS;
    let transition = table_names::TRANSITION;
    let dyntransition = table_names::DYNTRANSITION;
    let class = number_of(
        table,
        NameFamily::CLASSES,
        Sort::CLASS,
        &process,
        Class::MAX,
    );
    SpecialNumbers {
        // The family of roles has the number of their sort.
        object: number_of(table, Sort::ROLE, Sort::ROLE, &object, Role::MAX),
        process: class,
        transition: permission_place(table, class, &transition),
        dyntransition: permission_place(table, class, &dyntransition),
    }
}

// ---- the numbers put into lent memory

// One of the numbers: of the first, or of those that say how many permissions each class has.
fn number_at(first: &[usize; PERMISSIONS_AT], permissions: &[usize; Class::MAX], at: usize) -> usize
    requires { at < 43 }
    ensures { length first.now ≡ 11 → result ≡ get_or (first.now ++ permissions.now) at 0 }
{
    if at < PERMISSIONS_AT {
        first[at]
    } else {
        permissions[at - PERMISSIONS_AT]
    }
}

// The numbers in their order. None of a sound table is greater than the types that there may be, so that each fits into
// four bytes.
fn numbers_of(
    counts: NameCounts,
    special: SpecialNumbers,
    permissions: &[usize; Class::MAX],
) -> [u32; NUMBERS]
    ensures { Fit (numbers_of counts special permissions.now) → result ≡ numbers_of counts special permissions.now }
{
    let first = [
        counts.users,
        counts.roles,
        counts.types,
        counts.user_attributes,
        counts.role_attributes,
        counts.type_attributes,
        counts.classes,
        special.object,
        special.process,
        special.transition,
        special.dyntransition,
    ];
    let mut numbers = [0u32; NUMBERS];
    for at in 0..NUMBERS {
        numbers[at] = answer_numbers::four_bytes(number_at(&first, permissions, at));
    }
    numbers
}

// Whether the bytes are a sound table; the lent numbers are then its summary, and else unchanged.
pub fn summarize(table: &[u8], summary: &mut [u32; NUMBERS]) -> bool
    ensures { (result ≡ is_sound table.now) × (summary.new ≡ summary_after (image_in table.now) summary.old) }
{
    let mut permissions = [0usize; Class::MAX];
    let counted = soundness::count(table, &mut permissions);
    let Some(counts) = counted else {
        return false;
    };
    let special = special_numbers(table);
    let numbers = numbers_of(counts, special, &permissions);
    *summary = numbers;
    true
}

// ---- the numbers read back

// How many there are of each sort.
pub fn counts_of(summary: &[u32; NUMBERS]) -> NameCounts
    ensures { result ≡ counts_from summary.now }
{
    NameCounts {
        users: summary[Sort::USER] as usize,
        roles: summary[Sort::ROLE] as usize,
        types: summary[Sort::TYPE] as usize,
        user_attributes: summary[Sort::USER_ATTRIBUTE] as usize,
        role_attributes: summary[Sort::ROLE_ATTRIBUTE] as usize,
        type_attributes: summary[Sort::TYPE_ATTRIBUTE] as usize,
        classes: summary[Sort::CLASS] as usize,
    }
}

// The numbers of the names that are treated apart.
pub fn special_of(summary: &[u32; NUMBERS]) -> Option<SpecialNumbers>
    ensures { result ≡ special_from summary.now }
{
    Some(SpecialNumbers {
        object: summary[OBJECT_AT] as usize,
        process: summary[PROCESS_AT] as usize,
        transition: summary[TRANSITION_AT] as usize,
        dyntransition: summary[DYNTRANSITION_AT] as usize,
    })
}

// Whether a class has a permission, by its place; no class past the greatest number of classes has one.
pub fn has_permission(summary: &[u32; NUMBERS], class: usize, permission: usize) -> bool
    ensures { result ≡ (ltb class 32 && ltb permission (get_or summary.now (11 + class) 0)) }
{
    class < Class::MAX && permission < summary[PERMISSIONS_AT + class] as usize
}
