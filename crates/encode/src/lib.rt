// The kinds of a column, as encode.rs has them, with the width, the default, encode and decode of each fixed one.
#![tactic(auto)]

mod fixed;

ghost use Rattle.std.specs.Prelude.{◌≡◌, ◌<◌, ◌≤◌, ◌^◌, take};
ghost use Rattle.encode.specs.Bytes.{low_first, high-first, little, big, in_eight, number_of};
ghost use Rattle.encode.specs.Promises.{Encodes, Decodes, Takes, Shaped, Wide, Default, Names};

pub use fixed::{
    BoolKind, DateKind, F64Kind, FixedKind, I16Kind, I32Kind, I64Kind, IntervalKind, TimestampKind,
    TimestampTzKind,
};

// The kinds of fixed width: bool, i16, i32, i64, Date, Timestamp, TimestampTz, Interval and f64.
#[derive(Clone, Copy, Debug, PartialEq, Eq)]
pub enum Primitive {
    Bool,
    I16,
    I32,
    I64,
    Date,
    Timestamp,
    TimestampTz,
    Interval,
    F64,
}

// How the items of a fixed kind are laid out, which kinds may share: a bool's byte; two, four or eight bytes, lowest first; four or
// eight, highest first.
#[derive(Clone, Copy, Debug, PartialEq, Eq)]
pub enum Shape {
    Bool,
    Low2,
    Low4,
    Low8,
    High4,
    High8,
}

// Every kind. A char has a width of 1 to 255. A blob's items are any bytes; those of a string are laid out alike and are text.
#[derive(Clone, Copy, Debug, PartialEq, Eq)]
pub enum Kind {
    Fixed(Primitive),
    Char(u8),
    Blob(bool),
}

// ---- numbers and their bytes

// The lowest W bytes of u, lowest first, and zeros.
pub fn low_first<const W: usize>(u: u64) -> [u8; 8]
    requires { W ≤ 8 }
    ensures { result ≡ in_eight (little W u) }
{
    let mut item = [0; 8];
    item[..W].copy_from_slice(&u.to_le_bytes()[..W]);
    item
}

// The same, highest first.
pub fn high_first<const W: usize>(u: u64) -> [u8; 8]
    requires { W ≤ 8 }
    ensures { result ≡ in_eight (big W u) }
{
    let mut item = [0; 8];
    item[..W].copy_from_slice(&u.to_be_bytes()[8 - W..]);
    item
}

// The number of an item's first W bytes, lowest first.
pub fn low<const W: usize>(item: [u8; 8]) -> u64
    requires { W ≤ 8 }
    ensures { (result ≡ number_of low_first (take W item)) × (result < 256 ^ W) }
{
    let mut bytes = [0; 8];
    bytes[..W].copy_from_slice(&item[..W]);
    u64::from_le_bytes(bytes)
}

// The same, highest first.
pub fn high<const W: usize>(item: [u8; 8]) -> u64
    requires { W ≤ 8 }
    ensures { (result ≡ number_of high-first (take W item)) × (result < 256 ^ W) }
{
    let mut bytes = [0; 8];
    bytes[8 - W..].copy_from_slice(&item[..W]);
    u64::from_be_bytes(bytes)
}

// The kind's own function, looked up.
impl Primitive {
    // The layout of its items: code that asks for no more than that goes by the shapes.
    pub fn shape(self) -> Shape
        ensures { Shaped self result }
    {
        match self {
            Primitive::Bool => Shape::Bool,
            Primitive::I16 => Shape::Low2,
            Primitive::I32 => Shape::Low4,
            Primitive::I64 => Shape::Low8,
            Primitive::Date => Shape::High4,
            Primitive::Timestamp => Shape::High8,
            Primitive::TimestampTz => Shape::High8,
            Primitive::Interval => Shape::High8,
            Primitive::F64 => Shape::Low8,
        }
    }

    pub fn width(self) -> usize
        ensures { Wide self result }
    {
        match self {
            Primitive::Bool => BoolKind::WIDTH,
            Primitive::I16 => I16Kind::WIDTH,
            Primitive::I32 => I32Kind::WIDTH,
            Primitive::I64 => I64Kind::WIDTH,
            Primitive::Date => DateKind::WIDTH,
            Primitive::Timestamp => TimestampKind::WIDTH,
            Primitive::TimestampTz => TimestampTzKind::WIDTH,
            Primitive::Interval => IntervalKind::WIDTH,
            Primitive::F64 => F64Kind::WIDTH,
        }
    }

    // What a plain block stores for a null.
    pub fn default_value(self) -> i64
        ensures { Default self result }
    {
        match self {
            Primitive::Bool => BoolKind::DEFAULT_VALUE,
            Primitive::I16 => I16Kind::DEFAULT_VALUE,
            Primitive::I32 => I32Kind::DEFAULT_VALUE,
            Primitive::I64 => I64Kind::DEFAULT_VALUE,
            Primitive::Date => DateKind::DEFAULT_VALUE,
            Primitive::Timestamp => TimestampKind::DEFAULT_VALUE,
            Primitive::TimestampTz => TimestampTzKind::DEFAULT_VALUE,
            Primitive::Interval => IntervalKind::DEFAULT_VALUE,
            Primitive::F64 => F64Kind::DEFAULT_VALUE,
        }
    }

    pub fn encode(self, v: i64) -> [u8; 8]
        ensures { Encodes self v result }
    {
        match self {
            Primitive::Bool => BoolKind::encode(v),
            Primitive::I16 => I16Kind::encode(v),
            Primitive::I32 => I32Kind::encode(v),
            Primitive::I64 => I64Kind::encode(v),
            Primitive::Date => DateKind::encode(v),
            Primitive::Timestamp => TimestampKind::encode(v),
            Primitive::TimestampTz => TimestampTzKind::encode(v),
            Primitive::Interval => IntervalKind::encode(v),
            Primitive::F64 => F64Kind::encode(v),
        }
    }

    pub fn decode(self, item: [u8; 8]) -> i64
        ensures { Decodes self item result }
    {
        match self {
            Primitive::Bool => BoolKind::decode(item),
            Primitive::I16 => I16Kind::decode(item),
            Primitive::I32 => I32Kind::decode(item),
            Primitive::I64 => I64Kind::decode(item),
            Primitive::Date => DateKind::decode(item),
            Primitive::Timestamp => TimestampKind::decode(item),
            Primitive::TimestampTz => TimestampTzKind::decode(item),
            Primitive::Interval => IntervalKind::decode(item),
            Primitive::F64 => F64Kind::decode(item),
        }
    }

    pub fn takes(self, v: i64) -> bool
        ensures { Takes self v result }
    {
        match self {
            Primitive::Bool => BoolKind::takes(v),
            Primitive::I16 => I16Kind::takes(v),
            Primitive::I32 => I32Kind::takes(v),
            Primitive::I64 => I64Kind::takes(v),
            Primitive::Date => DateKind::takes(v),
            Primitive::Timestamp => TimestampKind::takes(v),
            Primitive::TimestampTz => TimestampTzKind::takes(v),
            Primitive::Interval => IntervalKind::takes(v),
            Primitive::F64 => F64Kind::takes(v),
        }
    }
}

// The kind of a number and a width. The width is 0 for every kind but char.
pub fn kind_of(kind: usize, width: usize) -> Option<Kind>
    ensures { Names kind width result }
{
    if kind == 8 {
        if width == 0 {
            return None;
        }
        if limits::MOST_WIDTH < width {
            return None;
        }
        return Some(Kind::Char(width as u8));
    }
    if width != 0 {
        return None;
    }
    match kind {
        0 => Some(Kind::Fixed(Primitive::Bool)),
        1 => Some(Kind::Fixed(Primitive::I16)),
        2 => Some(Kind::Fixed(Primitive::I32)),
        3 => Some(Kind::Fixed(Primitive::I64)),
        4 => Some(Kind::Fixed(Primitive::Date)),
        5 => Some(Kind::Fixed(Primitive::Timestamp)),
        6 => Some(Kind::Fixed(Primitive::TimestampTz)),
        7 => Some(Kind::Fixed(Primitive::Interval)),
        9 => Some(Kind::Blob(false)),
        10 => Some(Kind::Blob(true)),
        11 => Some(Kind::Fixed(Primitive::F64)),
        _ => None,
    }
}
