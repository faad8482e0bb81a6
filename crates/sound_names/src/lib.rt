// Whether body 1 of a table, its names, is sound, and how many things of each sort it names. The walk keeps counts of
// what is declared so far, and a filter of the names so far: a name without its marks is new, and only of the few
// others are the entries before it asked.
#![tactic(auto)]

ghost use Rattle.std.specs.Prelude.{◌≡◌, false, not, ◌+◌, ◌≤◌, length, is_some};
ghost use Rattle.symbols.specs.Section.{between, entries_at};
ghost use Rattle.symbols.specs.Lookup.{first_named};
ghost use Rattle.sound_names.specs.SoundNames.{sound_names, counted_of, permissions_after};
ghost use Rattle.sound_names.specs.Tally.{most_parts, allows, counted, permitted, Room, Zeros, judged_of, judged};

use policy::{FullName, NameCounts, NameEntry, Sort};
use symbols::Entry;

// After the counts of the sorts: 0, or right after a class and its permissions 1 more than these are.
const OPEN: usize = Sort::PERMISSION;

// ---- one entry

// Whether no entry before the one at a place has its family and its name.
fn is_first(table: &[u8], start: usize, at: usize, past: usize, family: usize) -> bool
    requires { at + 4 ≤ past }
    ensures { result ≡ not (is_some (first_named family (between table.now (at + 4) past) (entries_at table.now start at))) }
{
    let name = byte_slices::part(
        table,
        at + NameEntry::HEAD_BYTES,
        past - (at + NameEntry::HEAD_BYTES),
    );
    name_chains::find_in_section(table, start, at, family, name)
        .found
        .is_none()
}

// The same, where a filter of the entries was asked first: only a name that shares its marks with theirs is looked for.
fn is_new(table: &[u8], start: usize, at: usize, past: usize, family: usize, shares: bool) -> bool
    requires { (at + 4 ≤ past) × (shares ≡ false → is_some (first_named family (between table.now (at + 4) past) (entries_at table.now start at)) ≡ false) }
    ensures { result ≡ not (is_some (first_named family (between table.now (at + 4) past) (entries_at table.now start at))) }
{
    !shares || is_first(table, start, at, past, family)
}

// How many parts the name of an entry of a sort may have: a permission takes no block's name.
fn most_parts(sort: usize) -> usize
    ensures { result ≡ most_parts sort }
{
    if sort == Sort::PERMISSION {
        return 1;
    }
    FullName::MAX_PARTS
}

// Whether the counts so far allow an entry of this sort and number.
#[tactic(auto, unfolding(crate::specs::Tally::allows))]
fn is_allowed(counts: &[usize], sort: usize, number: usize) -> bool
    requires { length counts.now ≡ 8 }
    ensures { result ≡ allows counts.now sort number }
{
    if sort < Sort::PERMISSION {
        return counts[OPEN] != 1 && number == counts[sort] && number < symbols::most(sort);
    }
    sort == Sort::PERMISSION
        && number / policy::Permission::MAX + 1 == counts[Sort::CLASS]
        && number % policy::Permission::MAX + 1 == counts[OPEN]
}

// The counts after an entry, and how many permissions its class then has.
#[tactic(auto, unfolding(crate::specs::Tally::counted, crate::specs::Tally::permitted))]
fn advance(counts: &mut [usize], permissions: &mut [usize], sort: usize, number: usize)
    requires { Room (length counts.old) (length permissions.old) sort number }
    ensures { (counts.new ≡ counted counts.old sort number) × (permissions.new ≡ permitted permissions.old sort number) }
{
    if sort == Sort::PERMISSION {
        counts[OPEN] = number % policy::Permission::MAX + 2;
        permissions[number / policy::Permission::MAX] = number % policy::Permission::MAX + 1;
        return;
    }
    counts[sort] = number + 1;
    counts[OPEN] = usize::from(sort == Sort::CLASS);
}

// The words of the filter of the names. It is so large that in the greatest tables few names share all their marks
// with others.
const FILTER_WORDS: usize = 2048;

// Walks the entries from start to end, with counts that are 0 at first. Where the body is unsound, the counts are
// left as they are then.
fn walk(
    table: &[u8],
    start: usize,
    end: usize,
    counts: &mut [usize],
    permissions: &mut [usize],
) -> bool
    requires { Zeros counts.old permissions.old }
    ensures { judged_of result counts.new permissions.new ≡ judged (sound_names (between table.now start end)) }
{
    let mut filter = [0u64; FILTER_WORDS];
    let mut at = start;
    loop {
        let k = symbols::next_entry(table, at, end);
        match k {
            Entry::Named { sort, number, past } => {
                let Some(name) = name_spelling::spell(
                    table,
                    at + NameEntry::HEAD_BYTES,
                    past,
                    most_parts(sort),
                ) else {
                    return false;
                };
                if !is_allowed(counts, sort, number) {
                    return false;
                }
                advance(counts, permissions, sort, number);
                let family = symbols::family_of(sort, number);
                let shares = bloom_filter::insert(
                    &mut filter,
                    bloom_filter::hash_step(name, family),
                );
                if !is_new(table, start, at, past, family, shares) {
                    return false;
                }
                at = past;
            }
            Entry::Done => return counts[OPEN] != 1,
            Entry::Broken => return false,
        }
    }
}

// How many things of each sort the bytes from start to before end name, if they are a sound body 1; the lent numbers
// are then how many permissions each class has, and else unchanged.
pub fn check_names(
    table: &[u8],
    start: usize,
    end: usize,
    permissions: &mut [usize; policy::Class::MAX],
) -> Option<NameCounts>
    ensures { (result ≡ counted_of (sound_names (between table.now start end)))
        × (permissions.new ≡ permissions_after (sound_names (between table.now start end)) permissions.old) }
{
    let mut counts = [0usize; Sort::COUNT];
    let mut found = [0usize; policy::Class::MAX];
    if !walk(table, start, end, &mut counts, &mut found) {
        return None;
    }
    *permissions = found;
    Some(NameCounts {
        users: counts[Sort::USER],
        roles: counts[Sort::ROLE],
        types: counts[Sort::TYPE],
        user_attributes: counts[Sort::USER_ATTRIBUTE],
        role_attributes: counts[Sort::ROLE_ATTRIBUTE],
        type_attributes: counts[Sort::TYPE_ATTRIBUTE],
        classes: counts[Sort::CLASS],
    })
}
