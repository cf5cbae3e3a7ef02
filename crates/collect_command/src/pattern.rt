//! Which texts a pattern matches: `*` stands for any bytes, `?` for one byte, and each other byte for itself.
ghost use Rattle.std.specs.Prelude.{◌≡◌, suc, Bool, List, ℕ, length, IfOk};
ghost use Rattle.collect_command.specs.Patterns.{begins_with, is_no_text, is_such, matches, matches_behind, some_end};
ghost use Rattle.collect_command.specs.Patterns.{IsRow};

use std::alloc::{AllocError, Global};

/// Whether a byte of a pattern that isn't `*` stands for this one.
fn is_such(wanted: u8, byte: u8) -> bool
    ensures { result ≡ is_such wanted byte }
{
    wanted == b'?' || wanted == byte
}

/// Which ends of a text, by where they begin, the empty pattern matches.
fn empty_row(alloc: Global, text: &[u8]) -> Result<Vec<bool>, AllocError>
    ensures { IfOk result (λ row. IsRow is_no_text text.now row.items) }
{
    let mut row = vec![in alloc; false; text.len()]?;
    row.push(true)?;
    Ok(row)
}

/// Makes of the ends that a pattern matches those that it matches behind a `*`.
fn put_star(row: &mut Vec<bool>, text: &[u8])
    requires { length row.old.items ≡ suc (length text.now) }
    ensures { (f : List ℕ → Bool) → IsRow f text.now row.old.items → IsRow (some_end f) text.now row.new.items }
{
    let mut at = text.len();
    while at > 0 {
        at -= 1;
        row[at] = row[at] | row[at + 1];
    }
}

/// Makes of the ends that a pattern matches those that it matches behind a byte that isn't `*`.
fn put_byte(row: &mut Vec<bool>, wanted: u8, text: &[u8])
    requires { length row.old.items ≡ suc (length text.now) }
    ensures { (f : List ℕ → Bool) → IsRow f text.now row.old.items
        → IsRow (begins_with wanted f) text.now row.new.items }
{
    let end = text.len();
    for at in 0..end {
        row[at] = is_such(wanted, text[at]) && row[at + 1];
    }
    row[end] = false;
}

/// Makes of the ends that a pattern matches those that it matches behind this byte.
fn put_before(row: &mut Vec<bool>, wanted: u8, text: &[u8])
    requires { length row.old.items ≡ suc (length text.now) }
    ensures { (f : List ℕ → Bool) → IsRow f text.now row.old.items
        → IsRow (matches_behind wanted f) text.now row.new.items }
{
    if wanted == b'*' {
        put_star(row, text);
    } else {
        put_byte(row, wanted, text);
    }
}

/// Whether a pattern matches a text. The time is that of their lengths' product.
pub(crate) fn matches(alloc: Global, pattern: &[u8], text: &[u8]) -> Result<bool, AllocError>
    ensures { IfOk result (λ found. found ≡ matches pattern.now text.now) }
{
    let mut row = empty_row(alloc, text)?;
    let mut at = pattern.len();
    while at > 0 {
        at -= 1;
        put_before(&mut row, pattern[at], text);
    }
    Ok(row[0])
}
