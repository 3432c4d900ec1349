// The areas, zero at first. The counts hold 1,048,576 runs, the items as many bools, the flags theirs; the room a nullable block of them; ends,
// keys and lengths hold 65,536 entries. Together they stay below the eight megabytes of a process's stack.
ghost use Rattle.std.specs.Prelude.{◌≡◌, length};

pub fn commands() -> [u8; 500000]
    ensures { 500000 ≡ length result }
{
    [0; 500000]
}

pub fn items() -> [u8; 1048640]
    ensures { 1048640 ≡ length result }
{
    [0; 1048640]
}

pub fn ends() -> [u32; 65600]
    ensures { 65600 ≡ length result }
{
    [0; 65600]
}

pub fn flags() -> [u8; 131080]
    ensures { 131080 ≡ length result }
{
    [0; 131080]
}

pub fn counts() -> [u32; 1048580]
    ensures { 1048580 ≡ length result }
{
    [0; 1048580]
}

pub fn keys() -> [i32; 65600]
    ensures { 65600 ≡ length result }
{
    [0; 65600]
}

pub fn lens() -> [u8; 65600]
    ensures { 65600 ≡ length result }
{
    [0; 65600]
}

pub fn room() -> [u8; 1180000]
    ensures { 1180000 ≡ length result }
{
    [0; 1180000]
}
