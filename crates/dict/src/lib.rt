// Dictionary blocks: the head and the keys.
#![tactic(auto)]

ghost use Rattle.std.specs.Prelude.{◌≡◌, ◌+◌, ◌*◌, ◌<◌, ◌≤◌, ◌^◌, length};
ghost use Rattle.limits.specs.Limits.{MOST_ITEMS};
ghost use Rattle.plain.specs.Plain.{places};
ghost use Rattle.dict.specs.Dictionary.{key_length, entries_in, slot_at, known as known_keys};

// The length of the key block, as the head has it; the number of entries.
pub fn key_len(s: &[u8]) -> u64
    requires { 12 ≤ length s.now }
    ensures { result ≡ key_length s.now }
{
    encode::high::<8>(plain::item(s, 0, 8))
}

pub fn entries_in(s: &[u8]) -> usize
    requires { 12 ≤ length s.now }
    ensures { (result ≡ entries_in s.now) × (result < 2 ^ 32) }
{
    encode::high::<4>(plain::item(s, 8, 4)) as usize
}

// What key `i` names: 0 for null, k + 1 for entry k. A key counts from null's, which is -2^31, so no sign is needed.
pub fn slot_at(keys: &[u8], i: usize) -> usize
    requires { (i < MOST_ITEMS) × (4 * i + 4 ≤ length keys.now) }
    ensures { (result ≡ slot_at keys.now i) × (result < 2 ^ 32) }
{
    (plain::u32_at(keys, 4 * i) + 0x8000_0000) % 0x1_0000_0000
}

// Whether each of `n` keys is null or names one of `entries`.
pub fn known(keys: &[u8], n: usize, entries: usize) -> bool
    requires { (n ≤ MOST_ITEMS) × (4 * n ≤ length keys.now) }
    ensures { result ≡ known_keys entries keys.now (places n 0) }
{
    for i in 0..n {
        if entries < slot_at(keys, i) {
            return false;
        }
    }
    true
}
