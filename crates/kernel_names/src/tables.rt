//! The table of names of a field, and which names a number has by it.
ghost use Rattle.std.specs.Prelude.{◌≡◌, ◌<◌, ⊤, [], ◌∷◌, length, map, IfOk, MatchOption};
ghost use Rattle.std.specs.Option.{option_map};
ghost use Rattle.kernel_names.specs.Calls.{call_seen};
ghost use Rattle.kernel_names.specs.Entries.{entries_seen, entry_seen};
ghost use Rattle.kernel_names.specs.FieldTables.{flag_names, flag_rest, symbol_names, table_in_text, table_seen};
ghost use Rattle.kernel_names.specs.FieldTables.{table_with, without};

use crate::calls::{Call, TableKind, sole_call};
use crate::entries::{TableEntry, read_entries};
use std::alloc::{AllocError, Global};
use trace_model::NoMemory;

/// The table of names of a field's numbers.
#[derive(Debug, Drop)]
pub struct FieldTable {
    /// How the names stand for a number.
    pub kind: TableKind,
    /// What is between two names of one number.
    pub delimiter: Vec<u8>,
    /// The names, in their order.
    pub entries: Vec<TableEntry>,
}

/// The table of a call, if its entries are known.
fn table_with(
    alloc: Global,
    call: Call<'_>,
    entries: Option<Vec<TableEntry>>,
) -> Result<Option<FieldTable>, AllocError>
    ensures { IfOk result (λ table. option_map table_seen table
        ≡ option_map (λ es. table_with (call_seen call.entry) (entries_seen es)) entries) }
{
    let Some(entries) = entries else {
        return Ok(None);
    };
    Ok(Some(FieldTable {
        kind: call.kind,
        delimiter: call.delimiter.to_vec(alloc)?,
        entries,
    }))
}

/// The table of the field of this name, by a print format, or by the calls in it.
pub(crate) fn named_table(
    alloc: Global,
    text: &[u8],
    name: &[u8],
) -> Result<Option<FieldTable>, NoMemory>
    ensures { IfOk result (λ table. option_map table_seen table ≡ table_in_text name.now text.now) }
{
    let Some(call) = sole_call(text, name) else {
        return Ok(None);
    };
    let entries = read_entries(alloc, call.entries)?;
    Ok(table_with(alloc, call, entries)?)
}

/// The names that a number has by a table, from one of them on.
#[derive(Clone, Copy, Debug)]
pub struct NumberNames<'a> {
    /// How the names stand for the number.
    kind: TableKind,
    /// The entries that are left.
    entries: &'a [TableEntry],
    /// The number, or the bits of it that are left.
    number: u64,
}

impl FieldTable {
    ghost use Rattle.std.specs.Prelude.{◌≡◌};
    ghost use Rattle.kernel_names.specs.FieldTables.{names_by, names_seen, rest_by, rest_seen, table_seen};

    /// The names of a number, which is given as 64 bits, in two's complement if it is signed.
    pub fn names_of(&self, number: u64) -> NumberNames<'_>
        ensures names { names_seen result
            ≡ names_by (table_seen self.now).kind (table_seen self.now).entries number }
        ensures rest { rest_seen result ≡ rest_by (table_seen self.now).kind (table_seen self.now).entries number }
    {
        NumberNames {
            kind: self.kind,
            entries: self.entries.as_slice(),
            number,
        }
    }
}

/// The first entry all of whose bits a number has, and those behind it; none once no bit is left.
fn first_flag(entries: &[TableEntry], number: u64) -> Option<(&TableEntry, &[TableEntry])>
    ensures names { MatchOption result (flag_names (map entry_seen entries.now) number ≡ [])
        (λ found. flag_names (map entry_seen entries.now) number ≡ found.0.now.name.items
        ∷ flag_names (map entry_seen found.1.now) (without found.0.now.key number)) }
    ensures rest { MatchOption result (flag_rest (map entry_seen entries.now) number ≡ number)
        (λ found. flag_rest (map entry_seen entries.now) number
        ≡ flag_rest (map entry_seen found.1.now) (without found.0.now.key number)) }
    ensures fewer { MatchOption result ⊤ (λ found. length found.1.now < length entries.now) }
{
    if number == 0 {
        return None;
    }
    let mut left = entries;
    while let [entry, others @ ..] = left {
        if number & entry.key == entry.key {
            return Some((entry, others));
        }
        left = others;
    }
    None
}

/// The bits of a number that have no name.
fn unnamed_flags(entries: &[TableEntry], number: u64) -> u64
    ensures { result ≡ flag_rest (map entry_seen entries.now) number }
{
    let mut left = entries;
    let mut bits = number;
    while let Some((entry, others)) = first_flag(left, bits) {
        bits = bits & !entry.key;
        left = others;
    }
    bits
}

/// The first entry of this number.
fn first_symbol(entries: &[TableEntry], number: u64) -> Option<&TableEntry>
    ensures { MatchOption result (symbol_names (map entry_seen entries.now) number ≡ [])
        (λ found. symbol_names (map entry_seen entries.now) number ≡ found.now.name.items ∷ []) }
{
    let mut left = entries;
    while let [entry, others @ ..] = left {
        if entry.key == number {
            return Some(entry);
        }
        left = others;
    }
    None
}

impl<'a> NumberNames<'a> {
    ghost use Rattle.std.specs.Prelude.{◌≡◌, ◌<◌, ⊤, [], ◌∷◌, length, MatchOption};
    ghost use Rattle.kernel_names.specs.FieldTables.{names_seen, rest_seen};

    /// The first name, and the others.
    pub fn split_first(self) -> Option<(&'a [u8], NumberNames<'a>)>
        ensures names { MatchOption result (names_seen self.entry ≡ [])
            (λ parts. names_seen self.entry ≡ parts.0.now ∷ names_seen parts.1) }
        ensures fewer { MatchOption result ⊤
            (λ parts. length (names_seen parts.1) < length (names_seen self.entry)) }
        ensures rest { MatchOption result ⊤ (λ parts. rest_seen self.entry ≡ rest_seen parts.1) }
    {
        match self.kind {
            TableKind::Flags => {
                let (entry, others) = first_flag(self.entries, self.number)?;
                Some((
                    entry.name.as_slice(),
                    NumberNames {
                        kind: TableKind::Flags,
                        entries: others,
                        number: self.number & !entry.key,
                    },
                ))
            }
            TableKind::Symbols => {
                let entry = first_symbol(self.entries, self.number)?;
                Some((
                    entry.name.as_slice(),
                    NumberNames {
                        kind: TableKind::Symbols,
                        entries: &[],
                        number: self.number,
                    },
                ))
            }
        }
    }

    /// The bits that have no name by a table of flags, which the kernel prints behind the names, in hexadecimal, if
    /// there are any; 0 by a table of symbols.
    pub fn rest(self) -> u64
        ensures { result ≡ rest_seen self.entry }
    {
        match self.kind {
            TableKind::Flags => unnamed_flags(self.entries, self.number),
            TableKind::Symbols => 0,
        }
    }
}
