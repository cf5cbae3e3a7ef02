//! The types of fields.
ghost use Rattle.std.specs.Prelude.{◌≡◌, ◌<◌, ⊤, [], ◌∷◌, length, MatchOption};
ghost use Rattle.event_fields.specs.Types.{is_kept, words_of, is_named, is_among, is_pointer, type_size};
ghost use Rattle.event_fields.specs.Types.{is_byte_type, is_two_byte_type, is_four_byte_type, is_eight_byte_type};

use crate::field::NumberSize;
use crate::texts::part_cut;

/// Whether a word of a type counts.
fn is_kept(word: &[u8]) -> bool
    ensures { result ≡ is_kept word.now }
{
    !word.is_empty() && word != b"const".as_slice() && word != b"volatile".as_slice()
}

/// The next word of a type that counts, and what is after it.
fn next_word(text: &[u8]) -> Option<(&[u8], &[u8])>
    ensures words { MatchOption result (words_of text.now ≡ [])
        (λ found. words_of text.now ≡ found.0.now ∷ words_of found.1.now) }
    ensures shorter { MatchOption result ⊤ (λ found. length found.1.now < length text.now) }
{
    let mut left = text;
    loop {
        let (word, rest) = part_cut(left, b' ');
        if is_kept(word) {
            return Some((word, rest.unwrap_or(&[])));
        }
        left = rest?;
    }
}

/// Whether a type is the one of this name, but for `const` and `volatile`.
pub(crate) fn is_named(text: &[u8], name: &[u8]) -> bool
    ensures { result ≡ is_named name.now text.now }
{
    let mut left = text;
    let mut named = name;
    while let Some((word, rest)) = next_word(left) {
        let Some((wanted, others)) = next_word(named) else {
            return false;
        };
        if word != wanted {
            return false;
        }
        left = rest;
        named = others;
    }
    next_word(named).is_none()
}

/// Whether a type is the one of these names, between which are commas.
fn is_among(text: &[u8], names: &[u8]) -> bool
    ensures { result ≡ is_among names.now text.now }
{
    let mut left = names;
    loop {
        let (name, rest) = part_cut(left, b',');
        if is_named(text, name) {
            return true;
        }
        let Some(rest) = rest else {
            return false;
        };
        left = rest;
    }
}

/// Whether a type points.
#[tactic(auto, unfolding(crate::specs::Types::is_pointer))]
pub(crate) fn is_pointer(text: &[u8]) -> bool
    ensures { result ≡ is_pointer text.now }
{
    text.contains(&b'*')
}

/// Whether a number of the type has one byte.
#[tactic(auto, unfolding(crate::specs::Types::is_byte_type))]
fn is_byte_type(text: &[u8]) -> bool
    ensures { result ≡ is_byte_type text.now }
{
    is_among(text, b"char,signed char,unsigned char,bool,_Bool")
        || is_among(
            text,
            b"s8,u8,__s8,__u8,int8_t,uint8_t,u_int8_t,u_char,unchar",
        )
}

/// Whether a number of the type has two bytes.
#[tactic(auto, unfolding(crate::specs::Types::is_two_byte_type))]
fn is_two_byte_type(text: &[u8]) -> bool
    ensures { result ≡ is_two_byte_type text.now }
{
    is_among(
        text,
        b"short,short int,signed short,signed short int,unsigned short,unsigned short int",
    ) || is_among(
        text,
        b"s16,u16,__s16,__u16,__le16,__be16,__sum16,int16_t,uint16_t,u_int16_t,ushort,umode_t",
    )
}

/// Whether a number of the type has four bytes.
#[tactic(auto, unfolding(crate::specs::Types::is_four_byte_type))]
fn is_four_byte_type(text: &[u8]) -> bool
    ensures { result ≡ is_four_byte_type text.now }
{
    is_among(text, b"int,signed,signed int,unsigned,unsigned int")
        || is_among(
            text,
            b"s32,u32,__s32,__u32,__le32,__be32,__wsum,int32_t,uint32_t,u_int32_t,uint",
        )
        || is_among(
            text,
            b"pid_t,uid_t,gid_t,dev_t,mode_t,gfp_t,fmode_t,key_t,clockid_t,mqd_t",
        )
}

/// Whether a number of the type has eight bytes.
#[tactic(auto, unfolding(crate::specs::Types::is_eight_byte_type))]
fn is_eight_byte_type(text: &[u8]) -> bool
    ensures { result ≡ is_eight_byte_type text.now }
{
    is_among(
        text,
        b"long,long int,signed long,signed long int,unsigned long,unsigned long int",
    ) || is_among(
        text,
        b"long long,long long int,signed long long,unsigned long long,unsigned long long int",
    ) || is_among(
        text,
        b"s64,u64,__s64,__u64,__le64,__be64,int64_t,uint64_t,u_int64_t,ulong,size_t,ssize_t",
    ) || is_among(
        text,
        b"loff_t,off_t,sector_t,blkcnt_t,ino_t,pgoff_t,time64_t,ktime_t,dma_addr_t,phys_addr_t",
    )
}

/// The size of an element of a type, if it is known.
#[tactic(auto, unfolding(crate::specs::Types::type_size))]
pub fn type_size(text: &[u8]) -> Option<NumberSize>
    ensures { result ≡ type_size text.now }
{
    if is_pointer(text) || is_eight_byte_type(text) {
        return Some(NumberSize::Eight);
    }
    if is_four_byte_type(text) {
        return Some(NumberSize::Four);
    }
    if is_two_byte_type(text) {
        return Some(NumberSize::Two);
    }
    if is_byte_type(text) {
        return Some(NumberSize::One);
    }
    None
}
