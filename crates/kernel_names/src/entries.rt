//! The entries of a table of names: `{ KEY, "NAME" }` each, with commas between them.
ghost use Rattle.std.specs.Prelude.{◌≡◌, ◌++◌, ◌∷◌, [], map, IfOk};
ghost use Rattle.std.specs.Option.{option_map};
ghost use Rattle.event_fields.specs.Texts.{parts_of};
ghost use Rattle.kernel_names.specs.Entries.{entry_seen, lent_entry_seen, entries_seen, ends_table, entry_of, entry_in};
ghost use Rattle.kernel_names.specs.Entries.{further_in, entries_after};

use crate::constants::key_of;
use crate::pieces::{are_blank, cut_closing, unseparated};
use event_fields::texts::{after, before, cut_at, part_cut};
use std::alloc::{AllocError, Global};

/// How many entries a table may have.
const MOST_ENTRIES: usize = 4096;

/// An entry of a table.
#[derive(Debug, Drop)]
pub struct TableEntry {
    /// The number, or the bits, that have the name.
    pub key: u64,
    /// The name.
    pub name: Vec<u8>,
}

/// An entry whose name is lent.
#[derive(Clone, Copy)]
struct LentEntry<'a> {
    key: u64,
    name: &'a [u8],
}

/// Whether a table ends where this part of it begins.
fn ends_table(part: &[u8]) -> bool
    ensures { result ≡ ends_table part.now }
{
    unseparated(part).starts_with(b")")
}

/// The entry of this key and name, if the name is written as it is, and only blanks are behind it.
fn entry_of<'a>(key: u64, name: &'a [u8], behind: &[u8]) -> Option<LentEntry<'a>>
    ensures { option_map lent_entry_seen result ≡ entry_of key name.now behind.now }
{
    if name.contains(&b'\\') || !are_blank(behind) {
        return None;
    }
    Some(LentEntry { key, name })
}

/// The entry that a part of a table has, up to its closing brace.
#[tactic(auto, unfolding(crate::specs::Entries::entry_in))]
fn entry_in(part: &[u8]) -> Option<LentEntry<'_>>
    ensures { option_map lent_entry_seen result ≡ entry_in part.now }
{
    let inner = after(unseparated(part), b"{")?;
    let (front, quoted) = cut_at(inner, b'"')?;
    let (name, behind) = cut_at(quoted, b'"')?;
    let (front, _) = cut_closing(front);
    let key = key_of(before(front, b",")?)?;
    entry_of(key, name, behind)
}

/// The entry that a part of a table has after others.
fn further<'a>(entries: &[TableEntry], part: &'a [u8]) -> Option<LentEntry<'a>>
    ensures { option_map lent_entry_seen result ≡ further_in (map entry_seen entries.now) part.now }
{
    if entries.len() >= MOST_ENTRIES {
        return None;
    }
    entry_in(part)
}

/// Puts an entry after others.
fn put_entry(
    entries: &mut Vec<TableEntry>,
    entry: LentEntry<'_>,
    alloc: Global,
) -> Result<(), AllocError>
    ensures { IfOk result (λ _. map entry_seen entries.new.items
        ≡ map entry_seen entries.old.items ++ lent_entry_seen entry.entry ∷ []) }
{
    let name = entry.name.to_vec(alloc)?;
    entries.push(TableEntry {
        key: entry.key,
        name,
    })?;
    Ok(())
}

/// The entries of the table whose text begins here, up to the closing bracket of its call; None if they aren't such, or
/// are too many.
pub(crate) fn read_entries(
    alloc: Global,
    text: &[u8],
) -> Result<Option<Vec<TableEntry>>, AllocError>
    ensures { IfOk result (λ found. option_map entries_seen found ≡ entries_after [] (parts_of 125 text.now)) }
{
    let mut entries = Vec::new(alloc);
    let mut left = text;
    loop {
        let (part, rest) = part_cut(left, b'}');
        if ends_table(part) {
            return Ok(Some(entries));
        }
        let Some(entry) = further(entries.as_slice(), part) else {
            return Ok(None);
        };
        put_entry(&mut entries, entry, alloc)?;
        let Some(rest) = rest else {
            return Ok(None);
        };
        left = rest;
    }
}
