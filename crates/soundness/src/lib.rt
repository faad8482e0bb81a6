// Whether bytes are a sound table. The answer is given for every sequence of bytes.
#![tactic(auto)]

ghost use Rattle.std.specs.Prelude.{◌≡◌};
ghost use Rattle.soundness.specs.IsSound.{is_sound};
ghost use Rattle.soundness.specs.TableCounts.{Tells};

use policy::NameCounts;

// How many things of each sort a table names, if it is sound; the lent numbers are then how many permissions each class
// has.
pub fn count(table: &[u8], permissions: &mut [usize; policy::Class::MAX]) -> Option<NameCounts>
    ensures { Tells table.now result permissions.new }
{
    if !sound_bodies::is_laid_out(table) {
        return None;
    }
    let mut found = [0usize; policy::Class::MAX];
    let start = table_names::names_start(table);
    let end = table_names::names_end(table);
    let counts = sound_names::check_names(table, start, end, &mut found)?;
    if !sound_bodies::bodies_sound(table, counts, &found) {
        return None;
    }
    *permissions = found;
    Some(counts)
}

// Whether the bytes are a sound table: fault 11 where they are not.
pub fn sound(table: &[u8]) -> bool
    ensures { result ≡ is_sound table.now }
{
    let mut permissions = [0usize; policy::Class::MAX];
    count(table, &mut permissions).is_some()
}
