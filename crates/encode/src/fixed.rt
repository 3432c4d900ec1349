// The fixed kinds as types, one for each shape that items have. Kinds that are laid out alike share one.
ghost use Rattle.std.specs.Prelude.{◌≡◌, ℕ, refl};
ghost use Rattle.encode.specs.declared.Shape.{Shape};
ghost use Rattle.encode.specs.Kinds.{wide_as};
ghost use Rattle.encode.specs.Promises.{EncodesAs, DecodesAs, TakesAs};

use super::{high, high_first, low, low_first};

// A value is carried as an i64. An encoded item is passed whole, as eight bytes of which the unused ones are 0.
pub trait FixedKind {
    ghost shape: { Shape };

    ghost WIDTH: { ℕ };

    const WIDTH: usize;

    // What a plain block stores for a null.
    const DEFAULT_VALUE: i64;

    fn encode(v: i64) -> [u8; 8]
        ensures { EncodesAs shape v result };

    fn decode(item: [u8; 8]) -> i64
        ensures { DecodesAs shape item result };

    // Whether v is an integer of the kind.
    fn takes(v: i64) -> bool
        ensures { TakesAs shape v result };

    ghost wide: { WIDTH ≡ wide_as shape };
}

// One byte, 0 or 1. Any other byte reads as true.
#[derive(Clone, Copy)]
pub struct BoolKind {}

impl FixedKind for BoolKind {
    ghost shape = { Shape.Bool };

    ghost WIDTH = { 1 };

    const WIDTH: usize = 1;

    const DEFAULT_VALUE: i64 = 0;

    fn encode(v: i64) -> [u8; 8] {
        low_first::<1>(v.cast_unsigned())
    }

    fn decode(item: [u8; 8]) -> i64 {
        if item[0] == 0 { 0 } else { 1 }
    }

    fn takes(v: i64) -> bool {
        v == 0 || v == 1
    }

    ghost wide = { refl };
}

// i16, little-endian.
#[derive(Clone, Copy)]
pub struct I16Kind {}

impl FixedKind for I16Kind {
    ghost shape = { Shape.Low2 };

    ghost WIDTH = { 2 };

    const WIDTH: usize = 2;

    const DEFAULT_VALUE: i64 = 0;

    fn encode(v: i64) -> [u8; 8] {
        low_first::<2>(v.cast_unsigned())
    }

    fn decode(item: [u8; 8]) -> i64 {
        i64::from((low::<2>(item) as u16).cast_signed())
    }

    fn takes(v: i64) -> bool {
        i16::try_from(v).is_ok()
    }

    ghost wide = { refl };
}

// i32, little-endian.
#[derive(Clone, Copy)]
pub struct I32Kind {}

impl FixedKind for I32Kind {
    ghost shape = { Shape.Low4 };

    ghost WIDTH = { 4 };

    const WIDTH: usize = 4;

    const DEFAULT_VALUE: i64 = 0;

    fn encode(v: i64) -> [u8; 8] {
        low_first::<4>(v.cast_unsigned())
    }

    fn decode(item: [u8; 8]) -> i64 {
        i64::from((low::<4>(item) as u32).cast_signed())
    }

    fn takes(v: i64) -> bool {
        i32::try_from(v).is_ok()
    }

    ghost wide = { refl };
}

// i64, little-endian.
#[derive(Clone, Copy)]
pub struct I64Kind {}

impl FixedKind for I64Kind {
    ghost shape = { Shape.Low8 };

    ghost WIDTH = { 8 };

    const WIDTH: usize = 8;

    const DEFAULT_VALUE: i64 = 0;

    fn encode(v: i64) -> [u8; 8] {
        low_first::<8>(v.cast_unsigned())
    }

    fn decode(item: [u8; 8]) -> i64 {
        low::<8>(item).cast_signed()
    }

    fn takes(_v: i64) -> bool {
        true
    }

    ghost wide = { refl };
}

// Days as an i32, big-endian.
#[derive(Clone, Copy)]
pub struct DateKind {}

impl FixedKind for DateKind {
    ghost shape = { Shape.High4 };

    ghost WIDTH = { 4 };

    const WIDTH: usize = 4;

    const DEFAULT_VALUE: i64 = 0;

    fn encode(v: i64) -> [u8; 8] {
        high_first::<4>(v.cast_unsigned())
    }

    fn decode(item: [u8; 8]) -> i64 {
        i64::from((high::<4>(item) as u32).cast_signed())
    }

    fn takes(v: i64) -> bool {
        i32::try_from(v).is_ok()
    }

    ghost wide = { refl };
}

// Microseconds as an i64, big-endian.
#[derive(Clone, Copy)]
pub struct TimestampKind {}

impl FixedKind for TimestampKind {
    ghost shape = { Shape.High8 };

    ghost WIDTH = { 8 };

    const WIDTH: usize = 8;

    const DEFAULT_VALUE: i64 = 0;

    fn encode(v: i64) -> [u8; 8] {
        high_first::<8>(v.cast_unsigned())
    }

    fn decode(item: [u8; 8]) -> i64 {
        high::<8>(item).cast_signed()
    }

    fn takes(_v: i64) -> bool {
        true
    }

    ghost wide = { refl };
}

// Microseconds with a time zone.
pub type TimestampTzKind = TimestampKind;

// Months, then days, each an i32, big-endian; carried as months times 2^32 plus days modulo 2^32.
pub type IntervalKind = TimestampKind;

// The bits of an f64, little-endian: each i64 is those of one, and rows are equal exactly when their bits are.
pub type F64Kind = I64Kind;
