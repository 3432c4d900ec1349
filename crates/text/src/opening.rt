// The listing program's input, opened.
ghost use Rattle.std.specs.Prelude.{◌≡◌};
ghost use Rattle.limits.specs.Refusals.{by_number};
ghost use Rattle.text.specs.Input.{input_opened, block_in};

use block::Reader;
use limits::refusal::Refusal;

// The listing program's input: a descriptor and a block.
pub fn open(input: &[u8]) -> Result<Reader, Refusal>
    ensures { by_number result ≡ input_opened input.now }
{
    if input.len() < 8 {
        return Err(Refusal::Cut);
    }
    if limits::MOST_INPUT < input.len() {
        return Err(Refusal::Limit);
    }
    let d = descriptor::unpack([
        input[0], input[1], input[2], input[3], input[4], input[5], input[6], input[7],
    ]);
    descriptor::open_by(d, &input[8..])
}

// The input's block: what follows the descriptor.
pub fn block_of(input: &[u8]) -> &[u8]
    ensures { result.now ≡ block_in input.now }
{
    if input.len() < 8 {
        return input;
    }
    &input[8..]
}
