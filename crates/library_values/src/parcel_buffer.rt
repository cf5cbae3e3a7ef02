//! A page as parcel bytes in a caller's buffer, for which no memory is taken: `docs/formats/pages.md`, "Parcel bytes".
ghost use Rattle.std.specs.Prelude.{◌≡◌, ◌+◌, ◌-◌, ◌≤◌, ◌++◌, ℕ, List, take, drop, length, replicate, true};
ghost use Rattle.std.specs.Int.{to_le_bytes, w64};
ghost use Rattle.trace_model.specs.declared.limits.TheConstants.{MAX_SIZE};
ghost use Rattle.trace_model.specs.Image.{stores_count as is_count_stored, stored_count};
ghost use Rattle.trace_model.specs.ParcelBytes.{IsParcel, DecodesParcel};
ghost use Rattle.page_image.specs.Contents.{IsPage};
ghost use Rattle.page_numbers.specs.Parcels.{parcel_of_page};
ghost use Rattle.page_numbers.specs.Written.{bytes_of_page};
ghost use Rattle.library_values.specs.Fronts.{HasAtFront};
ghost use Rattle.library_values.specs.Used.{used_size, used_page};

use page_image::{Page, commit_number, stores_count};
use trace_model::CpuId;

/// How many bytes of a parcel are before its page's data: four numbers, the page's time, and its commit word.
pub const PARCEL_HEADER: usize = 48;

/// How many bytes a number takes, and the count of missed records.
const NUMBER: usize = 8;

/// Puts the page to the front of `out` as a parcel of this CPU, with `missed` numbers missing before its records: the
/// bytes that `Parcel::to_bytes` makes, `PARCEL_HEADER` and as many as the page's size. The answer is how many of them
/// are used: these read as the same parcel, and the others are zeros.
pub fn put_parcel(out: &mut [u8], cpu: CpuId, page: &Page, missed: u64) -> usize
    requires there { PARCEL_HEADER + page.now.size ≤ length out.old }
    requires fits { length page.now.bytes ≤ page.now.size }
    requires limit { page.now.size ≤ MAX_SIZE }
    ensures bytes { HasAtFront out.old (bytes_of_page cpu.0 page.now missed) out.new }
    ensures size { length (bytes_of_page cpu.0 page.now missed) ≡ PARCEL_HEADER + page.now.size }
    ensures len { result ≡ PARCEL_HEADER + used_size page.now missed }
    ensures used { take result out.new ≡ bytes_of_page cpu.0 (used_page page.now missed) missed }
    ensures reads { IsPage page.now → IsParcel (parcel_of_page cpu.0 page.now missed)
        → DecodesParcel (bytes_of_page cpu.0 page.now missed) (parcel_of_page cpu.0 page.now missed) }
    ensures used_reads { IsPage page.now → IsParcel (parcel_of_page cpu.0 page.now missed)
        → DecodesParcel (bytes_of_page cpu.0 (used_page page.now missed) missed)
        (parcel_of_page cpu.0 page.now missed) }
{
    let size = page.end() + room(page);
    let stored = stores_count(page.end(), missed, size);
    put_number(out, 0, u64::from(cpu.0));
    put_number(out, 8, page.fill().0);
    put_number(out, 16, page.first().0);
    put_number(out, 24, missed);
    put_number(out, 32, page.time());
    put_number(out, 40, commit_number(page.end(), missed, size));
    put(out, PARCEL_HEADER, page.data());
    let end = PARCEL_HEADER + page.end();
    let used = put_count(out, end, missed, stored);
    put_zeros(out, used, PARCEL_HEADER + size);
    used
}

/// How many bytes of the page's parcel are used, as `put_parcel` answers.
pub fn parcel_len(page: &Page, missed: u64) -> usize
    requires fits { length page.now.bytes ≤ page.now.size }
    requires limit { page.now.size ≤ MAX_SIZE }
    ensures { result ≡ PARCEL_HEADER + used_size page.now missed }
{
    let end = page.end();
    if stores_count(end, missed, end + room(page)) {
        return PARCEL_HEADER + end + NUMBER;
    }
    PARCEL_HEADER + end
}

/// How many bytes of the page its records leave.
fn room(page: &Page) -> usize
    requires fits { length page.now.bytes ≤ page.now.size }
    requires limit { page.now.size ≤ MAX_SIZE }
    ensures room { length page.now.bytes + result ≡ page.now.size }
    ensures limit { page.now.size ≤ MAX_SIZE }
{
    page.size() - page.end()
}

/// Puts the count of missed records to `at`, if it is stored: the answer is where the bytes after it begin.
fn put_count(out: &mut [u8], at: usize, missed: u64, stored: bool) -> usize
    requires room { stored ≡ true → at + NUMBER ≤ length out.old }
    requires short { at + NUMBER ≤ usize.MAX }
    ensures put { (contents : List ℕ) (size : ℕ)
        → stored ≡ is_count_stored contents missed size
        → take result out.new ≡ take at out.old ++ stored_count contents missed size }
    ensures end { (contents : List ℕ) (size : ℕ)
        → stored ≡ is_count_stored contents missed size
        → result ≡ at + length (stored_count contents missed size) }
    ensures behind { drop result out.new ≡ drop result out.old }
    ensures len { length out.new ≡ length out.old }
{
    if stored {
        put_number(out, at, missed);
        return at + NUMBER;
    }
    at
}

/// Puts a number to `at`, its lowest byte first.
fn put_number(out: &mut [u8], at: usize, number: u64)
    requires { at + NUMBER ≤ length out.old }
    ensures put { take (at + NUMBER) out.new ≡ take at out.old ++ to_le_bytes w64 number }
    ensures behind { drop (at + NUMBER) out.new ≡ drop (at + NUMBER) out.old }
    ensures len { length out.new ≡ length out.old }
{
    put(out, at, &number.to_le_bytes());
}

/// Puts the bytes to `at`.
fn put(out: &mut [u8], at: usize, bytes: &[u8])
    requires { at + length bytes.now ≤ length out.old }
    ensures put { take (at + length bytes.now) out.new ≡ take at out.old ++ bytes.now }
    ensures behind { drop (at + length bytes.now) out.new ≡ drop (at + length bytes.now) out.old }
    ensures len { length out.new ≡ length out.old }
{
    out[at..at + bytes.len()].copy_from_slice(bytes);
}

/// Puts zeros from `at` up to `end`.
fn put_zeros(out: &mut [u8], at: usize, end: usize)
    requires order { at ≤ end }
    requires end { end ≤ length out.old }
    ensures put { take end out.new ≡ take at out.old ++ replicate (end - at) 0 }
    ensures behind { drop end out.new ≡ drop end out.old }
    ensures len { length out.new ≡ length out.old }
{
    out[at..end].fill(0);
}
