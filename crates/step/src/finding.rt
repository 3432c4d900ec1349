// What an append finds in the lent areas: none if a field that it reads is wrong, and else whether the row joins the last run, and which entry it is.
ghost use Rattle.std.specs.Prelude.{◌≡◌, ◌-◌, ◌≤◌, ◌<◌, length};
ghost use Rattle.limits.specs.Limits.{MOST_ITEMS, MOST_ENTRIES};
ghost use Rattle.plain.specs.Rows.{row_of};
ghost use Rattle.dict.specs.Dictionary.{entry_key};
ghost use Rattle.lookup.specs.Held.{held};
ghost use Rattle.lookup.specs.Asking.{FieldsThere, BytesThere, ItemThere};
ghost use Rattle.step.specs.Steps.{run_open, joins_run, run_step, joins_key, key_step};

use crate::Step;
use encode::Kind;
use needs::Counted;

// ---- encodings 2 and 3: the last item

// Whether there is a run that can take one row more.
pub fn run_open(c: Counted) -> bool
    ensures { result ≡ run_open c }
{
    if c.runs == 0 {
        return false;
    }
    c.last < limits::MOST_COUNT
}

// Whether the row joins the last run, of which there is one: a null only one of nulls.
fn joins_run(
    c: Counted,
    kind: Kind,
    items: &[u8],
    ends: &[u32],
    lens: &[u8],
    present: bool,
    value: i64,
    item: &[u8],
) -> bool
    requires { (0 < c.runs) × ItemThere kind (held items.now ends.now lens.now) (c.runs - 1) }
    ensures { result ≡ joins_run kind c (held items.now ends.now lens.now) (row_of kind present value item.now) }
{
    if run_open(c) {
        if c.null != 0 {
            return !present;
        }
        if present {
            return lookup::same_item(kind, items, ends, lens, c.runs - 1, value, item);
        }
        return false;
    }
    false
}

pub fn run_step(
    c: Counted,
    kind: Kind,
    items: &[u8],
    ends: &[u32],
    lens: &[u8],
    present: bool,
    value: i64,
    item: &[u8],
) -> Option<Step>
    requires { (c.runs ≤ MOST_ITEMS) × FieldsThere kind c.runs (held items.now ends.now lens.now) × BytesThere kind c.runs c.bytes (held items.now ends.now lens.now) }
    ensures { result ≡ run_step kind c (held items.now ends.now lens.now) (row_of kind present value item.now) }
{
    if c.runs == 0 {
        return Some(Step {
            stored: true,
            joins: false,
            key: 0,
        });
    }
    if lookup::field_wrong(kind, c.runs, c.bytes, ends, lens, c.runs - 1) {
        return None;
    }
    let joins = joins_run(c, kind, items, ends, lens, present, value, item);
    Some(Step {
        stored: !joins,
        joins,
        key: 0,
    })
}

// ---- encoding 4: the entries and the keys

// Whether the last run has the key and can take one row more.
fn joins_key(c: Counted, keys: &[i32], key: i32) -> bool
    requires { c.runs ≤ length keys.now }
    ensures { result ≡ joins_key c keys.now key }
{
    if run_open(c) {
        let i = c.runs - 1;
        return keys[i] == key;
    }
    false
}

// The key of entry `i`.
fn entry_key(i: usize) -> i32
    requires { i ≤ MOST_ENTRIES }
    ensures { result ≡ entry_key i }
{
    -2147483647 + (i as i32)
}

pub fn key_step(
    c: Counted,
    kind: Kind,
    items: &[u8],
    ends: &[u32],
    lens: &[u8],
    keys: &[i32],
    present: bool,
    value: i64,
    item: &[u8],
) -> Option<Step>
    requires { (c.entries ≤ MOST_ENTRIES) × (c.runs ≤ length keys.now) × FieldsThere kind c.entries (held items.now ends.now lens.now)
        × BytesThere kind c.entries c.bytes (held items.now ends.now lens.now) }
    ensures { result ≡ key_step kind c (held items.now ends.now lens.now) keys.now (row_of kind present value item.now) }
{
    if !present {
        let null_key = -2147483648;
        return Some(Step {
            stored: false,
            joins: joins_key(c, keys, null_key),
            key: null_key,
        });
    }
    let i = lookup::look_up(kind, c.entries, c.bytes, items, ends, lens, value, item)?;
    let key = entry_key(i);
    Some(Step {
        stored: i == c.entries,
        joins: joins_key(c, keys, key),
        key,
    })
}
