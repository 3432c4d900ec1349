// The last of the plain rules: whether the items of char and of string are text. First one look at all their bytes, of which none is
// above 127 in most columns; and otherwise item by item.
ghost use Rattle.std.specs.Prelude.{◌≡◌, ◌+◌, ◌*◌, ◌<◌, ◌≤◌, length, take, drop};
ghost use Rattle.encode.specs.Kinds.{blob, string};
ghost use Rattle.encode.specs.declared.Kind.TheVariants.{Char};
ghost use Rattle.limits.specs.Limits.{MOST_ITEMS};
ghost use Rattle.utf8.specs.Utf8.{is_text};
ghost use Rattle.utf8.specs.States.{class_table, move_table};
ghost use Rattle.plain.specs.Plain.{char_at, blob_at, lengths_number, all_text};

// The tables of the walk over text, laid out once for many items.
#[derive(Drop)]
struct Tables {
    classes: [u8; 256],
    moves: [u8; 108],
    ghost are: { (classes ≡ class_table) × (moves ≡ move_table) },
}

impl Tables {
    // Whether the `len` bytes from `from` on are text.
    fn are_text(&self, s: &[u8], from: usize, len: usize) -> bool
        requires { from + len ≤ length s.now }
        ensures { result ≡ is_text (take len (drop from s.now)) }
    {
        utf8::is_text_by(&self.classes, &self.moves, s, from, len)
    }
}

// ---- char, up to the first NUL

// Whether item `i` is text.
fn char_is_text(tables: &Tables, w: usize, s: &[u8], i: usize) -> bool
    requires { (i < MOST_ITEMS) × (w < 256) × (i * w + w ≤ length s.now) }
    ensures { result ≡ is_text (char_at w s.now i) }
{
    let at = i * w;
    if utf8::is_ascii(s, at, w) {
        return true;
    }
    tables.are_text(s, at, super::char_len(s, i, w))
}

fn chars_one_by_one(tables: &Tables, w: usize, n: usize, s: &[u8]) -> bool
    requires { (n ≤ MOST_ITEMS) × (w < 256) × (n * w ≤ length s.now) }
    ensures { result ≡ all_text (Char w) n s.now }
{
    for i in 0..n {
        if !char_is_text(tables, w, s, i) {
            return false;
        }
    }
    true
}

// Whether the `n` items are text.
pub fn chars_are_text(w: usize, n: usize, s: &[u8]) -> bool
    requires { (n ≤ MOST_ITEMS) × (w < 256) × (n * w ≤ length s.now) }
    ensures { result ≡ all_text (Char w) n s.now }
{
    if utf8::is_ascii(s, 0, s.len()) {
        return true;
    }
    let tables = Tables {
        classes: utf8::tables::CLASSES,
        moves: utf8::tables::MOVES,
    };
    chars_one_by_one(&tables, w, n, s)
}

// ---- string, whole

// Whether item `i` is text.
fn string_is_text(tables: &Tables, n: usize, s: &[u8], i: usize) -> bool
    requires { (i < n) × (n ≤ MOST_ITEMS) × (lengths_number blob n s.now ≡ 0) }
    ensures { result ≡ is_text (blob_at n s.now i) }
{
    let item = super::blob_at(n, s, i);
    let from = item.from;
    let len = item.len;
    if utf8::is_ascii(s, from, len) {
        return true;
    }
    tables.are_text(s, from, len)
}

fn strings_one_by_one(tables: &Tables, n: usize, s: &[u8]) -> bool
    requires { (n ≤ MOST_ITEMS) × (lengths_number blob n s.now ≡ 0) }
    ensures { result ≡ all_text string n s.now }
{
    for i in 0..n {
        if !string_is_text(tables, n, s, i) {
            return false;
        }
    }
    true
}

// Whether the `n` items are text. Their ends are good.
pub fn strings_are_text(n: usize, s: &[u8]) -> bool
    requires { (n ≤ MOST_ITEMS) × (lengths_number blob n s.now ≡ 0) }
    ensures { result ≡ all_text string n s.now }
{
    let from = 4 * n;
    if utf8::is_ascii(s, from, s.len() - from) {
        return true;
    }
    let tables = Tables {
        classes: utf8::tables::CLASSES,
        moves: utf8::tables::MOVES,
    };
    strings_one_by_one(&tables, n, s)
}
