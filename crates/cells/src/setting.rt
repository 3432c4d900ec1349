// Cells set to numbers.
ghost use Rattle.std.specs.Prelude.{◌≡◌, ◌%◌, ◌^◌};

use crate::Areas;
use script::{Input, Shown, past, say};

// The area that a number names.
#[derive(Clone, Copy)]
pub enum Area {
    Items,
    Ends,
    Flags,
    Counts,
    Keys,
    Lens,
    Room,
}

impl From<usize> for Area {
    fn from(number: usize) -> Area {
        match number {
            0 => Area::Items,
            1 => Area::Ends,
            2 => Area::Flags,
            3 => Area::Counts,
            4 => Area::Keys,
            5 => Area::Lens,
            _ => Area::Room,
        }
    }
}

// A cell, which a number is put into by its lowest bits.
trait Cell: Shown {
    fn of(v: u64) -> Self;
}

impl Cell for u8 {
    fn of(v: u64) -> u8
        ensures { result ≡ v % 2 ^ 8 }
    {
        (v % 0x100) as u8
    }
}

impl Cell for u32 {
    fn of(v: u64) -> u32
        ensures { result ≡ v % 2 ^ 32 }
    {
        (v % 0x1_0000_0000) as u32
    }
}

impl Cell for i32 {
    fn of(v: u64) -> i32 {
        u32::of(v).cast_signed()
    }
}

// Cells to set: the first place, how many, the first number and the step to the next.
#[derive(Clone, Copy)]
struct Cells {
    place: usize,
    count: usize,
    start: u64,
    step: u64,
}

impl Cells {
    fn taken(input: &mut Input) -> Cells {
        Cells {
            place: input.number(),
            count: input.number(),
            start: input.number() as u64,
            step: input.number() as u64,
        }
    }

    // Sets those that are there.
    fn put<T: Cell>(self, area: &mut [T]) {
        let mut v = self.start;
        for i in 0..self.count {
            if let Some(cell) = area.get_mut(past(self.place, i)) {
                *cell = T::of(v);
            }
            v = v.wrapping_add(self.step);
        }
    }
}

// Sets the cells that the input names.
pub fn set(input: &mut Input, areas: &mut Areas, room: &mut [u8]) {
    say(b"cells");
    let area = Area::from(input.number());
    let cells = Cells::taken(input);
    match area {
        Area::Items => cells.put(areas.items),
        Area::Ends => cells.put(areas.ends),
        Area::Flags => cells.put(areas.flags),
        Area::Counts => cells.put(areas.counts),
        Area::Keys => cells.put(areas.keys),
        Area::Lens => cells.put(areas.lens),
        Area::Room => cells.put(room),
    }
}
