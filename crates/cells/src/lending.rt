// Areas lent in part.

// How many cells of each area are lent.
#[derive(Clone, Copy)]
pub struct Lent {
    pub items: usize,
    pub ends: usize,
    pub flags: usize,
    pub counts: usize,
    pub keys: usize,
    pub lens: usize,
}

// A builder's areas, to write.
#[derive(Drop)]
pub struct Areas<'a> {
    pub items: &'a mut [u8],
    pub ends: &'a mut [u32],
    pub flags: &'a mut [u8],
    pub counts: &'a mut [u32],
    pub keys: &'a mut [i32],
    pub lens: &'a mut [u8],
}

// The first n cells of an area, or all if there are fewer: to write.
pub fn part<T>(area: &mut [T], n: usize) -> &mut [T] {
    if area.len() <= n {
        return area;
    }
    &mut area[..n]
}
