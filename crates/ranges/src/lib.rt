// Ranges of places that are marked, put down as they end: in two lent lists, a range's slot being the same place in both. Where a slot
// isn't there the range is counted alone.
#![tactic(auto)]

ghost use Rattle.std.specs.Prelude.{◌≡◌, ◌+◌, ◌<◌, ◌^◌, None};
ghost use Rattle.ranges.specs.Recording.{mark, noted, ended, firsts_ended, lasts_ended, opened, added, firsts_added, lasts_added, Counted};

// Where marking stands: where the range that has begun and not ended began, if one has, the next place, and how many ranges have ended.
#[derive(Clone, Copy)]
pub struct Mark {
    pub since: Option<usize>,
    pub next: usize,
    pub count: usize,
}

// Before the first place.
pub fn start() -> Mark
    ensures { result ≡ mark None 0 0 }
{
    Mark {
        since: None,
        next: 0,
        count: 0,
    }
}

impl Mark {
    // `n` places more, all of them marked or none.
    pub fn add(self, on: bool, n: usize, firsts: &mut [usize], lasts: &mut [usize]) -> Mark
        requires { Counted self × (self.next + n < 2 ^ 64) }
        ensures value { result ≡ added self on n }
        ensures firsts_after { firsts.new ≡ firsts_added self on n firsts.old }
        ensures lasts_after { lasts.new ≡ lasts_added self on n lasts.old }
    {
        if n == 0 {
            return self;
        }
        if on {
            return self.opened(n);
        }
        let mut next = self.end(firsts, lasts);
        next.next = self.next + n;
        next
    }

    // One place more. Where it goes on as the place before it, no more than the next place moves.
    pub fn add_one(self, on: bool, firsts: &mut [usize], lasts: &mut [usize]) -> Mark
        requires { Counted self × (self.next + 1 < 2 ^ 64) }
        ensures value { result ≡ added self on 1 }
        ensures firsts_after { firsts.new ≡ firsts_added self on 1 firsts.old }
        ensures lasts_after { lasts.new ≡ lasts_added self on 1 lasts.old }
    {
        if on == self.since.is_some() {
            return Mark {
                since: self.since,
                next: self.next + 1,
                count: self.count,
            };
        }
        self.add(on, 1, firsts, lasts)
    }

    // The places that follow belong to the open range, or to one that begins with them.
    #[tactic(auto, unfolding(crate::specs::Recording::opened))]
    fn opened(self, n: usize) -> Mark
        requires { self.next + n < 2 ^ 64 }
        ensures { result ≡ opened self n }
    {
        Mark {
            since: Some(self.since.unwrap_or(self.next)),
            next: self.next + n,
            count: self.count,
        }
    }

    // The open range ends before the next place, and is put down.
    #[tactic(auto, unfolding(crate::specs::Recording::ended_by, crate::specs::Recording::firsts_by, crate::specs::Recording::lasts_by))]
    pub fn end(self, firsts: &mut [usize], lasts: &mut [usize]) -> Mark
        requires { Counted self }
        ensures value { result ≡ ended self }
        ensures firsts_after { firsts.new ≡ firsts_ended self firsts.old }
        ensures lasts_after { lasts.new ≡ lasts_ended self lasts.old }
    {
        let Some(first) = self.since else {
            return self;
        };
        note(firsts, self.count, first);
        note(lasts, self.count, self.next - 1);
        Mark {
            since: None,
            next: self.next,
            count: self.count + 1,
        }
    }
}

// A number at a slot, if the slot is there.
fn note(list: &mut [usize], i: usize, x: usize)
    ensures { list.new ≡ noted list.old i x }
{
    if i < list.len() {
        list[i] = x;
    }
}
