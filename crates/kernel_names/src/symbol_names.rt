//! Which function an address in the kernel is in.
ghost use Rattle.std.specs.Prelude.{◌≡◌, ℕ, ◌<◌, ◌≤◌, ◌++◌, [], ◌∷◌, length, drop, Some, None, IfSome, IfNone, OnOk};
ghost use Rattle.std.specs.BTreeMap.{get};
ghost use Rattle.std.specs.Ordering.{nat_cmp};
ghost use Rattle.kernel_names.specs.Symbols.{HasGrown, IsEnded, name_at};

use crate::symbols::{LentSymbol, name_at, symbol_in};
use event_fields::texts::part_cut;
use std::alloc::{AllocError, Global};
use std::collections::BTreeMap;
use trace_model::NoMemory;

/// A function that an address is in, or behind.
#[derive(Clone, Copy, Debug, PartialEq, Eq)]
pub struct KnownSymbol<'a> {
    /// The name of the function.
    pub name: &'a [u8],
    /// How many bytes the address is above that of the function.
    pub offset: u64,
}

/// The last key up to a number, and its value.
fn last_up_to(places: &BTreeMap<u64, usize>, number: u64) -> Option<(u64, usize)>
    ensures there { IfSome result (λ p. get nat_cmp places.now p.0 ≡ Some p.1) }
    ensures up_to { IfSome result (λ p. p.0 ≤ number) }
    ensures last { IfSome result (λ p. (q : ℕ) → p.0 < q → q ≤ number → get nat_cmp places.now q ≡ None) }
    ensures none { IfNone result ((q : ℕ) → q ≤ number → get nat_cmp places.now q ≡ None) }
{
    let (key, place) = places.range(..=number).next_back()?;
    Some((*key, *place))
}

/// Puts a name behind others, and a line feed behind it. On an error there may be a name that doesn't count.
fn put_name(names: &mut Vec<u8>, name: &[u8]) -> Result<(), AllocError>
    ensures put { OnOk result (names.new.items ≡ names.old.items ++ (name.now ++ 10 ∷ [])) }
    ensures grown { HasGrown names.old.items names.new.items }
{
    names.extend_from_slice(name)?;
    names.push(b'\n')?;
    Ok(())
}

/// The name at a place among names.
fn name_from(names: &[u8], at: usize) -> &[u8]
    requires { at ≤ length names.now }
    ensures { result.now ≡ name_at (drop at names.now) }
{
    name_at(&names[at..])
}

/// The functions of a kernel, by their addresses, as it lists its symbols (`/proc/kallsyms`): a line `ADDRESS TYPE
/// NAME` for each. Of several lines of one address the first counts.
#[derive(Debug, Drop)]
pub struct SymbolNames {
    /// The names, each with a line feed behind it.
    names: Vec<u8>,
    /// Where in these the name is that each address has.
    places: BTreeMap<u64, usize>,
    ghost ended: { (address at : ℕ) → get nat_cmp places address ≡ Some at → IsEnded at names.items },
}

impl SymbolNames {
    ghost use Rattle.std.specs.Prelude.{◌≡◌, ℕ, ◌++◌, List, [], Some, OnOk, MatchOption};
    ghost use Rattle.std.specs.Option.{option_map, option_or};
    ghost use Rattle.event_fields.specs.Texts.{parts_of};
    ghost use Rattle.kernel_names.specs.Symbols.{lent_seen, name_at, name_if_at, symbol_in};
    ghost use Rattle.kernel_names.specs.SymbolNames.{known_name, name_up_to, symbol_seen};
    ghost use Rattle.kernel_names.specs.SymbolNames.{HasNoneUpTo, HasSymbols, IsSymbolAt};

    /// No function.
    pub fn new(alloc: Global) -> SymbolNames
        ensures { HasSymbols result [] }
    {
        SymbolNames {
            names: Vec::new(alloc),
            places: BTreeMap::new(alloc),
        }
    }

    /// Adds the functions of a text's lines, but none at the address of an earlier one. A line counts if it has an
    /// address in hexadecimal that isn't 0, a space, one of the letters `t`, `T`, `w` and `W`, a space and a name,
    /// which ends at the first blank or control character; others are passed over. On an error some of them may be
    /// added.
    pub fn add(&mut self, text: &[u8]) -> Result<(), NoMemory>
        ensures { (known : List (List ℕ)) → HasSymbols self.old known
            → OnOk result (HasSymbols self.new (known ++ parts_of 10 text.now)) }
    {
        let mut left = text;
        loop {
            let (line, rest) = part_cut(left, b'\n');
            self.put_line(line)?;
            let Some(rest) = rest else {
                return Ok(());
            };
            left = rest;
        }
    }

    /// Puts the function that a line names, if it names one.
    fn put_line(&mut self, line: &[u8]) -> Result<(), AllocError>
        ensures { OnOk result ((address : ℕ) → known_name self.new address
            ≡ option_or (known_name self.old address) (name_if_at address (symbol_in line.now))) }
    {
        match symbol_in(line) {
            Some(symbol) => self.put(symbol),
            None => Ok(()),
        }
    }

    /// Puts a function, if there is none at its address.
    fn put(&mut self, symbol: LentSymbol<'_>) -> Result<(), AllocError>
        requires { name_at symbol.name.now ≡ symbol.name.now }
        ensures { OnOk result ((address : ℕ) → known_name self.new address
            ≡ option_or (known_name self.old address) (name_if_at address (Some (lent_seen symbol.entry)))) }
    {
        if self.places.contains_key(&symbol.address) {
            return Ok(());
        }
        let at = self.names.len();
        put_name(&mut self.names, symbol.name)?;
        self.places.insert(symbol.address, at)?;
        Ok(())
    }

    /// The function whose address is the greatest that isn't above this one; None if all are above it.
    pub fn symbol_at(&self, address: u64) -> Option<KnownSymbol<'_>>
        ensures name { option_map symbol_seen result ≡ name_up_to (known_name self.now) address }
        ensures symbol { (lines : List (List ℕ)) → HasSymbols self.now lines → MatchOption result
            (HasNoneUpTo lines address) (λ found. IsSymbolAt lines address found.name.now found.offset) }
    {
        let (start, at) = last_up_to(&self.places, address)?;
        Some(KnownSymbol {
            name: name_from(self.names.as_slice(), at),
            offset: address - start,
        })
    }
}
