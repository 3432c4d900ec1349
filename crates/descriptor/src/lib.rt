// A column's descriptor: its eight bytes taken apart and put together, and a block opened by it.
#![tactic(auto)]

ghost use Rattle.std.specs.Prelude.{◌≡◌, take};
ghost use Rattle.limits.specs.Refusals.{by_number};
ghost use Rattle.block.specs.Reading.{opening_of};
ghost use Rattle.descriptor.specs.Descriptor.{descriptor_of, packed_number, descriptor_bytes, described_opened};

use block::{Opening, Reader};
use limits::refusal::Refusal;

// The five fields of a descriptor. `zero` is 0 in every descriptor that opens a block.
#[repr(C)]
#[derive(Clone, Copy)]
pub struct Descriptor {
    pub kind: usize,
    pub encoding: usize,
    pub width: usize,
    pub zero: usize,
    pub rows: usize,
}

// Bit-packed, the most significant first: kind 4 bits, encoding 3, width 8, zero 1, rows 48.
pub fn unpack(bytes: [u8; 8]) -> Descriptor
    ensures { result ≡ descriptor_of (take 8 bytes) }
{
    let n = encode::high::<8>(bytes);
    Descriptor {
        kind: (n / 0x1000_0000_0000_0000) as usize,
        encoding: (n / 0x0200_0000_0000_0000 % 8) as usize,
        width: (n / 0x0002_0000_0000_0000 % 256) as usize,
        zero: (n / 0x0001_0000_0000_0000 % 2) as usize,
        rows: (n % 0x0001_0000_0000_0000) as usize,
    }
}

// The eight bytes of the fields: of each the bits that it has there, and the zero bit set for any number but 0.
pub fn pack(d: Descriptor) -> [u8; 8]
    ensures { result ≡ descriptor_bytes d }
{
    encode::high_first::<8>(packed(d))
}

fn packed(d: Descriptor) -> u64
    ensures { result ≡ packed_number d }
{
    let kind = (d.kind % 16) as u64;
    let encoding = (d.encoding % 8) as u64;
    let width = (d.width % 256) as u64;
    let zero = area::least(d.zero, 1) as u64;
    let rows = (d.rows % 0x0001_0000_0000_0000) as u64;
    kind * 0x1000_0000_0000_0000
        + encoding * 0x0200_0000_0000_0000
        + width * 0x0002_0000_0000_0000
        + zero * 0x0001_0000_0000_0000
        + rows
}

// The zero bit set counts as opening's 1.
pub fn open_by(d: Descriptor, block: &[u8]) -> Result<Reader, Refusal>
    ensures { by_number result ≡ described_opened d block.now }
{
    if d.zero != 0 {
        return Err(Refusal::Column);
    }
    block::open(d.kind, d.encoding, d.width, d.rows, block)
}

// The same as a number and a record.
pub fn open_by_number(d: Descriptor, block: &[u8]) -> Opening
    ensures { result ≡ opening_of (described_opened d block.now) }
{
    Opening::from(open_by(d, block))
}
