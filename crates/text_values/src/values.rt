//! Numbers and payloads as text.
ghost use Rattle.std.specs.Char.{digit_char};
ghost use Rattle.std.specs.Prelude.{◌≡◌, ◌<◌, ◌≤◌, ◌++◌, false, take, drop, IfOk, OnOk, OnErr};
ghost use Rattle.std.specs.Fmt.{decimal, digits};
ghost use Rattle.trace_model.specs.Sublist.{IsPrefix};
ghost use Rattle.text_model.specs.Text.{hex_text};
ghost use Rattle.text_values.specs.Digits.{pair_of, pairs_of};
ghost use Rattle.text_values.specs.declared.values.TheConstants.{HEX_DIGITS};

use itoa::Buffer;
use trace_model::NoMemory;

/// Puts the number in decimal. If memory is refused, the text is as before.
pub fn put_number(out: &mut Vec<u8>, number: u64) -> Result<(), NoMemory>
    ensures text { OnOk result (out.new.items ≡ out.old.items ++ decimal number) }
    ensures kept { OnErr result (out.new.items ≡ out.old.items) }
{
    let mut buffer = Buffer::new();
    out.extend_from_slice(buffer.format(number).as_bytes())?;
    Ok(())
}

/// The two digits of each byte.
static PAIRS: [[u8; 2]; 256] = [
    *b"00", *b"01", *b"02", *b"03", *b"04", *b"05", *b"06", *b"07", *b"08", *b"09", *b"0a", *b"0b",
    *b"0c", *b"0d", *b"0e", *b"0f", *b"10", *b"11", *b"12", *b"13", *b"14", *b"15", *b"16", *b"17",
    *b"18", *b"19", *b"1a", *b"1b", *b"1c", *b"1d", *b"1e", *b"1f", *b"20", *b"21", *b"22", *b"23",
    *b"24", *b"25", *b"26", *b"27", *b"28", *b"29", *b"2a", *b"2b", *b"2c", *b"2d", *b"2e", *b"2f",
    *b"30", *b"31", *b"32", *b"33", *b"34", *b"35", *b"36", *b"37", *b"38", *b"39", *b"3a", *b"3b",
    *b"3c", *b"3d", *b"3e", *b"3f", *b"40", *b"41", *b"42", *b"43", *b"44", *b"45", *b"46", *b"47",
    *b"48", *b"49", *b"4a", *b"4b", *b"4c", *b"4d", *b"4e", *b"4f", *b"50", *b"51", *b"52", *b"53",
    *b"54", *b"55", *b"56", *b"57", *b"58", *b"59", *b"5a", *b"5b", *b"5c", *b"5d", *b"5e", *b"5f",
    *b"60", *b"61", *b"62", *b"63", *b"64", *b"65", *b"66", *b"67", *b"68", *b"69", *b"6a", *b"6b",
    *b"6c", *b"6d", *b"6e", *b"6f", *b"70", *b"71", *b"72", *b"73", *b"74", *b"75", *b"76", *b"77",
    *b"78", *b"79", *b"7a", *b"7b", *b"7c", *b"7d", *b"7e", *b"7f", *b"80", *b"81", *b"82", *b"83",
    *b"84", *b"85", *b"86", *b"87", *b"88", *b"89", *b"8a", *b"8b", *b"8c", *b"8d", *b"8e", *b"8f",
    *b"90", *b"91", *b"92", *b"93", *b"94", *b"95", *b"96", *b"97", *b"98", *b"99", *b"9a", *b"9b",
    *b"9c", *b"9d", *b"9e", *b"9f", *b"a0", *b"a1", *b"a2", *b"a3", *b"a4", *b"a5", *b"a6", *b"a7",
    *b"a8", *b"a9", *b"aa", *b"ab", *b"ac", *b"ad", *b"ae", *b"af", *b"b0", *b"b1", *b"b2", *b"b3",
    *b"b4", *b"b5", *b"b6", *b"b7", *b"b8", *b"b9", *b"ba", *b"bb", *b"bc", *b"bd", *b"be", *b"bf",
    *b"c0", *b"c1", *b"c2", *b"c3", *b"c4", *b"c5", *b"c6", *b"c7", *b"c8", *b"c9", *b"ca", *b"cb",
    *b"cc", *b"cd", *b"ce", *b"cf", *b"d0", *b"d1", *b"d2", *b"d3", *b"d4", *b"d5", *b"d6", *b"d7",
    *b"d8", *b"d9", *b"da", *b"db", *b"dc", *b"dd", *b"de", *b"df", *b"e0", *b"e1", *b"e2", *b"e3",
    *b"e4", *b"e5", *b"e6", *b"e7", *b"e8", *b"e9", *b"ea", *b"eb", *b"ec", *b"ed", *b"ee", *b"ef",
    *b"f0", *b"f1", *b"f2", *b"f3", *b"f4", *b"f5", *b"f6", *b"f7", *b"f8", *b"f9", *b"fa", *b"fb",
    *b"fc", *b"fd", *b"fe", *b"ff",
];

/// The digits of a byte.
#[inline(always)]
fn pair(byte: u8) -> [u8; 2]
    ensures { result ≡ pair_of byte }
{
    PAIRS[byte as usize]
}

/// The digits of four bytes.
#[inline(always)]
fn four_pairs(bytes: [u8; 4]) -> [u8; 8]
    ensures { result ≡ pairs_of bytes }
{
    let [a, b, c, d] = bytes;
    let [a_high, a_low] = pair(a);
    let [b_high, b_low] = pair(b);
    let [c_high, c_low] = pair(c);
    let [d_high, d_low] = pair(d);
    [a_high, a_low, b_high, b_low, c_high, c_low, d_high, d_low]
}

/// The digits of eight bytes.
#[inline(always)]
fn eight_pairs(bytes: [u8; 8]) -> [u8; 16]
    ensures { result ≡ pairs_of bytes }
{
    let [a, b, c, d, e, f, g, h] = bytes;
    let [a_high, a_low, b_high, b_low, c_high, c_low, d_high, d_low] = four_pairs([a, b, c, d]);
    let [e_high, e_low, f_high, f_low, g_high, g_low, h_high, h_low] = four_pairs([e, f, g, h]);
    [
        a_high, a_low, b_high, b_low, c_high, c_low, d_high, d_low, e_high, e_low, f_high, f_low,
        g_high, g_low, h_high, h_low,
    ]
}

/// The digit of a number below 16.
#[inline(always)]
fn digit(value: u8) -> u8
    requires { value < 16 }
    ensures { result ≡ digit_char value }
{
    if value < 10 {
        b'0' + value
    } else {
        b'a' - 10 + value
    }
}

/// How many hexadecimal digits a number of 64 bits has at most.
pub(crate) const HEX_DIGITS: usize = 16;

/// Writes the hexadecimal digits of a number, so that they end where `place` does, and returns where they start.
pub(crate) fn write_hexadecimal(number: u64, place: &mut [u8; HEX_DIGITS]) -> usize
    ensures start { result ≤ HEX_DIGITS }
    ensures written { drop result place.new ≡ digits 16 false number }
{
    let mut left = number;
    let mut at = HEX_DIGITS - 1;
    while left >= 256 {
        let [high, low] = pair((left % 256) as u8);
        place[at] = low;
        place[at - 1] = high;
        at -= 2;
        left /= 256;
    }
    if left < 16 {
        place[at] = digit(left as u8);
        return at;
    }
    let [high, low] = pair(left as u8);
    place[at] = low;
    place[at - 1] = high;
    at - 1
}

/// The digits of a byte, without the table.
#[inline(always)]
fn plain_pair(byte: u8) -> [u8; 2]
    ensures { result ≡ pair_of byte }
{
    [digit(byte / 16), digit(byte % 16)]
}

/// The digits of four bytes, without the table.
#[inline(always)]
fn plain_four(bytes: [u8; 4]) -> [u8; 8]
    ensures { result ≡ pairs_of bytes }
{
    let [a, b, c, d] = bytes;
    let [a_high, a_low] = plain_pair(a);
    let [b_high, b_low] = plain_pair(b);
    let [c_high, c_low] = plain_pair(c);
    let [d_high, d_low] = plain_pair(d);
    [a_high, a_low, b_high, b_low, c_high, c_low, d_high, d_low]
}

/// The digits of sixteen bytes. Without a table, in a function that isn't inlined, the compiler makes all digits at
/// once.
#[inline(never)]
fn sixteen_pairs(bytes: &[u8; 16]) -> [u8; 32]
    ensures { result ≡ pairs_of bytes.now }
{
    let [a, b, c, d, e, f, g, h, i, j, k, l, m, n, o, p] = *bytes;
    let [a_high, a_low, b_high, b_low, c_high, c_low, d_high, d_low] = plain_four([a, b, c, d]);
    let [e_high, e_low, f_high, f_low, g_high, g_low, h_high, h_low] = plain_four([e, f, g, h]);
    let [i_high, i_low, j_high, j_low, k_high, k_low, l_high, l_low] = plain_four([i, j, k, l]);
    let [m_high, m_low, n_high, n_low, o_high, o_low, p_high, p_low] = plain_four([m, n, o, p]);
    [
        a_high, a_low, b_high, b_low, c_high, c_low, d_high, d_low, e_high, e_low, f_high, f_low,
        g_high, g_low, h_high, h_low, i_high, i_low, j_high, j_low, k_high, k_low, l_high, l_low,
        m_high, m_low, n_high, n_low, o_high, o_low, p_high, p_low,
    ]
}

/// Puts the digits of bytes, sixteen at a time, and returns the bytes that are left. On an error a part of that may be
/// put.
#[inline(never)]
fn put_sixteens<'a>(out: &mut Vec<u8>, bytes: &'a [u8]) -> Result<&'a [u8], NoMemory>
    ensures text { IfOk result (λ left.
        out.new.items ++ pairs_of left.now ≡ out.old.items ++ pairs_of bytes.now) }
    ensures behind { IsPrefix out.old.items out.new.items }
{
    let mut left = bytes;
    while let Some((part, rest)) = left.split_first_chunk::<16>() {
        out.extend_from_slice(&sixteen_pairs(part))?;
        left = rest;
    }
    Ok(left)
}

/// Puts the digits of bytes, byte by byte. On an error a part of that may be put.
#[inline(always)]
fn put_each(out: &mut Vec<u8>, bytes: &[u8]) -> Result<(), NoMemory>
    ensures text { OnOk result (out.new.items ≡ out.old.items ++ pairs_of bytes.now) }
    ensures behind { IsPrefix out.old.items out.new.items }
{
    for byte in bytes {
        out.extend_from_slice(&pair(*byte))?;
    }
    Ok(())
}

/// Puts the digits of fewer than eight bytes. On an error a part of that may be put.
#[inline(always)]
fn put_few(out: &mut Vec<u8>, bytes: &[u8]) -> Result<(), NoMemory>
    ensures text { OnOk result (out.new.items ≡ out.old.items ++ pairs_of bytes.now) }
    ensures behind { IsPrefix out.old.items out.new.items }
{
    if let [a, b, c, d, rest @ ..] = bytes {
        out.extend_from_slice(&four_pairs([*a, *b, *c, *d]))?;
        return put_each(out, rest);
    }
    put_each(out, bytes)
}

/// `put_sixteens`, if there are as many. Fewer bytes need no call.
#[inline(always)]
fn put_if_sixteen<'a>(out: &mut Vec<u8>, bytes: &'a [u8]) -> Result<&'a [u8], NoMemory>
    ensures text { IfOk result (λ left.
        out.new.items ++ pairs_of left.now ≡ out.old.items ++ pairs_of bytes.now) }
    ensures behind { IsPrefix out.old.items out.new.items }
{
    if bytes.len() < 16 {
        return Ok(bytes);
    }
    put_sixteens(out, bytes)
}

/// Puts the digits of fewer than sixteen bytes. On an error a part of that may be put.
#[inline(always)]
fn put_rest(out: &mut Vec<u8>, bytes: &[u8]) -> Result<(), NoMemory>
    ensures text { OnOk result (out.new.items ≡ out.old.items ++ pairs_of bytes.now) }
    ensures behind { IsPrefix out.old.items out.new.items }
{
    if let [a, b, c, d, e, f, g, h, rest @ ..] = bytes {
        out.extend_from_slice(&eight_pairs([*a, *b, *c, *d, *e, *f, *g, *h]))?;
        return put_few(out, rest);
    }
    put_few(out, bytes)
}

/// Puts two digits for each byte. On an error a part of that may be put.
#[inline(always)]
fn put_hex(out: &mut Vec<u8>, bytes: &[u8]) -> Result<(), NoMemory>
    ensures text { OnOk result (out.new.items ≡ out.old.items ++ pairs_of bytes.now) }
    ensures behind { IsPrefix out.old.items out.new.items }
{
    let left = put_if_sixteen(out, bytes)?;
    put_rest(out, left)
}

/// Puts the payload in lower-case hexadecimal, `-` if it is empty. If memory is refused, the text is as before.
#[inline(always)]
pub fn put_payload(out: &mut Vec<u8>, payload: &[u8]) -> Result<(), NoMemory>
    ensures text { OnOk result (out.new.items ≡ out.old.items ++ hex_text payload.now) }
    ensures kept { OnErr result (out.new.items ≡ out.old.items) }
{
    if payload.is_empty() {
        out.push(b'-')?;
        return Ok(());
    }
    let start = out.len();
    let put = put_hex(out, payload);
    drop_if_refused(out, start, put)
}

/// The answer of a call that put text after the first `start` bytes of `out`. If memory was refused, what was put is
/// dropped.
pub fn drop_if_refused<T>(
    out: &mut Vec<u8>,
    start: usize,
    put: Result<T, NoMemory>,
) -> Result<T, NoMemory>
    ensures answer { result ≡ put }
    ensures kept { OnOk put (out.new ≡ out.old) }
    ensures dropped { OnErr put (out.new.items ≡ take start out.old.items) }
{
    if put.is_err() {
        out.truncate(start);
    }
    put
}
