//! A field of an event, as its format describes it.
ghost use Rattle.std.specs.Prelude.{◌≡◌};
ghost use Rattle.event_fields.specs.Cutting.{own_size};
ghost use Rattle.event_fields.specs.Lines.{field_seen};
ghost use Rattle.event_fields.specs.Numbers.{byte_count, is_signed_kind};
ghost use Rattle.event_fields.specs.Shown.{is_shown, numbers_of_kind};

/// Where the bytes of a field are.
#[derive(Clone, Copy, Debug, PartialEq, Eq)]
pub enum Place {
    /// At the field's offset: a number of bytes that the format states.
    Here(u32),
    /// From the field's offset on, to the end of the payload.
    Rest,
    /// Where the four bytes at the field's offset say: an offset in the low half, and a length in the high one.
    Located,
    /// The same, and that offset counts from after the four bytes.
    Relative,
}

impl Place {
    /// How many bytes the field has at its own offset.
    pub fn own_size(self) -> u32
        ensures { result ≡ own_size self }
    {
        match self {
            Place::Here(size) => size,
            Place::Rest => 0,
            Place::Located => 4,
            Place::Relative => 4,
        }
    }
}

/// Which numbers the bytes of a field are, and how they are printed.
#[derive(Clone, Copy, Debug, PartialEq, Eq)]
pub enum NumberKind {
    /// In two's complement; in decimal.
    Signed,
    /// In decimal.
    Unsigned,
    /// Of the type `unsigned long`: in hexadecimal, in JSON in decimal.
    Word,
    /// Of a type with a `*`: in hexadecimal, in JSON as a text.
    Address,
}

impl NumberKind {
    /// Whether the numbers are in two's complement.
    pub fn is_signed(self) -> bool
        ensures { result ≡ is_signed_kind self }
    {
        match self {
            NumberKind::Signed => true,
            NumberKind::Unsigned => false,
            NumberKind::Word => false,
            NumberKind::Address => false,
        }
    }
}

/// How many bytes a number has.
#[derive(Clone, Copy, Debug, PartialEq, Eq)]
pub enum NumberSize {
    /// 8 bits.
    One,
    /// 16 bits.
    Two,
    /// 32 bits.
    Four,
    /// 64 bits.
    Eight,
}

impl NumberSize {
    /// The number of bytes.
    pub fn byte_count(self) -> usize
        ensures { result ≡ byte_count self }
    {
        match self {
            NumberSize::One => 1,
            NumberSize::Two => 2,
            NumberSize::Four => 4,
            NumberSize::Eight => 8,
        }
    }
}

/// What the bytes of a field say.
#[derive(Clone, Copy, Debug, PartialEq, Eq)]
pub enum Kind {
    /// A number of as many bytes.
    Number(NumberKind),
    /// Numbers, each of one size.
    Numbers(NumberKind, NumberSize),
    /// A text, up to the first zero byte.
    Text,
    /// Nothing that is known.
    Bytes,
}

impl Kind {
    /// Which numbers those of a field are, if it has any.
    pub fn number_kind(self) -> NumberKind
        ensures { result ≡ numbers_of_kind self }
    {
        match self {
            Kind::Number(kind) | Kind::Numbers(kind, _) => kind,
            Kind::Text | Kind::Bytes => NumberKind::Unsigned,
        }
    }
}

/// Where the bytes of a field are, and what they say.
#[derive(Clone, Copy, Debug, PartialEq, Eq)]
pub struct Layout {
    /// Its offset in the payload, in bytes.
    pub at: u32,
    /// Where its bytes are.
    pub place: Place,
    /// What they say.
    pub kind: Kind,
}

/// A field of an event.
#[derive(Debug, Drop)]
pub struct Field {
    /// Its name.
    pub name: Vec<u8>,
    /// Its place and what it says.
    pub layout: Layout,
}

impl Field {
    /// Whether the field is shown: every event has those whose names begin with `common_`, and they aren't.
    #[tactic(auto, unfolding(crate::specs::Shown::is_shown))]
    pub fn is_shown(&self) -> bool
        ensures { result ≡ is_shown (field_seen self.now) }
    {
        !self.name.starts_with(b"common_")
    }
}

/// A field whose name is lent.
#[derive(Clone, Copy)]
pub(crate) struct LentField<'a> {
    /// Its name.
    pub(crate) name: &'a [u8],
    /// Its place and what it says.
    pub(crate) layout: Layout,
}
