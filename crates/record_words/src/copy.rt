//! A payload copied by parts that overlap, so that payloads of many lengths take the same way, and short ones no call.
//! `memmove` takes another branch for each length, which costs more than the copy. Numbers of 128 bits in place of
//! vectors are as fast only if both calls of `byteorder` are inlined.
ghost use Rattle.std.specs.Prelude.{◌≡◌, ◌+◌, ◌-◌, ◌≤◌, ◌<◌, ◌*◌, ℕ, length, drop};
ghost use Rattle.record_words.specs.declared.format.TheConstants.{SHORT_LIMIT};
ghost use Rattle.record_words.specs.Puts.{Puts};
ghost use Rattle.record_words.specs.Copies.{HasFront};

use crate::format::SHORT_LIMIT;
use std::simd::Simd;

/// Copies the payload to the front.
#[inline(always)]
pub(crate) fn copy_to_front(out: &mut [u8], payload: &[u8])
    requires { length payload.now ≤ length out.old }
    ensures { Puts out.old out.new payload.now }
{
    let len = payload.len();
    if len > SHORT_LIMIT {
        out[..len].copy_from_slice(payload);
    } else if len > 64 {
        copy_seven(out, payload);
    } else if len > 32 {
        copy_four(out, payload);
    } else {
        copy_two(out, payload);
    }
}

/// `copy_to_front`, for a payload of 65 to 112 bytes: four parts of 16 bytes at its front, and three at its end.
#[inline(always)]
fn copy_seven(out: &mut [u8], payload: &[u8])
    requires room { length payload.now ≤ length out.old }
    requires least { 64 < length payload.now }
    requires most { length payload.now ≤ SHORT_LIMIT }
    ensures { Puts out.old out.new payload.now }
{
    let len = payload.len();
    copy_part::<16>(out, payload, 0);
    copy_part::<16>(out, payload, 16);
    copy_part::<16>(out, payload, 32);
    copy_part::<16>(out, payload, 48);
    copy_part::<16>(out, payload, len - 48);
    copy_part::<16>(out, payload, len - 32);
    copy_part::<16>(out, payload, len - 16);
}

/// `copy_to_front`, for a payload of 33 to 64 bytes: two parts of 16 bytes at its front, and two at its end.
#[inline(always)]
fn copy_four(out: &mut [u8], payload: &[u8])
    requires room { length payload.now ≤ length out.old }
    requires least { 32 < length payload.now }
    requires most { length payload.now ≤ 64 }
    ensures { Puts out.old out.new payload.now }
{
    let len = payload.len();
    copy_part::<16>(out, payload, 0);
    copy_part::<16>(out, payload, 16);
    copy_part::<16>(out, payload, len - 32);
    copy_part::<16>(out, payload, len - 16);
}

/// `copy_to_front`, for a payload of at most 32 bytes: a part at its front, and one at its end.
#[inline(always)]
fn copy_two(out: &mut [u8], payload: &[u8])
    requires room { length payload.now ≤ length out.old }
    requires most { length payload.now ≤ 32 }
    ensures { Puts out.old out.new payload.now }
{
    let len = payload.len();
    if len > 16 {
        copy_ends::<16>(out, payload);
    } else if len > 8 {
        copy_ends::<8>(out, payload);
    } else if len > 4 {
        copy_ends::<4>(out, payload);
    } else if len > 2 {
        copy_ends::<2>(out, payload);
    } else if len > 0 {
        copy_ends::<1>(out, payload);
    }
}

/// `copy_to_front`, for a payload of one to two parts of `N` bytes.
#[inline(always)]
fn copy_ends<const N: usize>(out: &mut [u8], payload: &[u8])
    requires room { length payload.now ≤ length out.old }
    requires least { N ≤ length payload.now }
    requires most { length payload.now ≤ 2 * N }
    ensures { Puts out.old out.new payload.now }
{
    copy_part::<N>(out, payload, 0);
    copy_part::<N>(out, payload, payload.len() - N);
}

/// Copies the `N` bytes at this distance from the front.
#[inline(always)]
fn copy_part<const N: usize>(out: &mut [u8], payload: &[u8], at: usize)
    requires room { length payload.now ≤ length out.old }
    requires within { at + N ≤ length payload.now }
    ensures front { (n : ℕ) → at ≤ n → HasFront n payload.now out.old → HasFront (at + N) payload.now out.new }
    ensures behind { drop (length payload.now) out.new ≡ drop (length payload.now) out.old }
{
    Simd::<u8, N>::from_slice(&payload[at..]).copy_to_slice(&mut out[at..]);
}
