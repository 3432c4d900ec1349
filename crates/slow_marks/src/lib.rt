// The bits of a bitmap and the keys of a dictionary, one by one: the second engine's own way, which shares no function with the first.
#![tactic(auto)]

ghost use Rattle.std.specs.Prelude.{◌≡◌, not, ◌+◌, ◌*◌, ◌<◌, ◌≤◌, ◌^◌, eqb, length};
ghost use Rattle.limits.specs.Limits.{MOST_ITEMS};
ghost use Rattle.nullable.specs.Nullable.{bitmap_length, bit_at};
ghost use Rattle.dict.specs.Dictionary.{slot_at};

// The bytes of a bitmap of `n` bits.
pub fn bitmap_len(n: usize) -> usize
    requires { n ≤ MOST_ITEMS }
    ensures { result ≡ bitmap_length n }
{
    (n + 7) / 8
}

// Whether bit `i` of a bitmap is 1: bit i mod 8, the lowest first, of byte i / 8.
pub fn is_set(bitmap: &[u8], i: usize) -> bool
    requires { i < 8 * length bitmap.now }
    ensures { result ≡ not (eqb (bit_at bitmap.now i) 0) }
{
    let byte = bitmap[i / 8];
    (byte >> (i % 8)) % 2 != 0
}

// What key `i` names: 0 for null, else an entry, from 1 on. The format's own number, which the rule on keys compares with the entries as it is.
pub fn slot_at(keys: &[u8], i: usize) -> usize
    requires { (i < MOST_ITEMS) × (4 * i + 4 ≤ length keys.now) }
    ensures { (result ≡ slot_at keys.now i) × (result < 2 ^ 32) }
{
    ((slow_numbers::number_at(keys, 4 * i, 4, false) as usize) + 0x8000_0000) % 0x1_0000_0000
}
