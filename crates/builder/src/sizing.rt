// The estimated size and should_finish, from the record alone.
ghost use Rattle.std.specs.Prelude.{◌≡◌};
ghost use Rattle.builder.specs.Finishing.{estimated, estimated_by, asked, asked_by};

use crate::{Asked, Builder, Estimated};
use limits::refusal::Refusal;

impl Builder {
    // The size, of a record that is right by itself.
    fn size(self) -> Result<usize, Refusal>
        ensures { estimated_by self result ≡ estimated self }
    {
        let Some(column) = format::column_of(self.kind, self.encoding, self.width) else {
            return Err(Refusal::Disagree);
        };
        if needs::is_wrong(self.counted, column.kind, column.encoding) {
            return Err(Refusal::Disagree);
        }
        Ok(sizes::size_of(self.counted, column.kind, column.encoding))
    }

    // The estimated size.
    pub fn estimate(self) -> Estimated
        ensures { result ≡ estimated self }
    {
        match self.size() {
            Ok(size) => Estimated {
                number: 0,
                size,
                builder: self,
            },
            Err(refusal) => Estimated {
                number: u8::from(refusal),
                size: 0,
                builder: self,
            },
        }
    }

    // Whether the block is full before a next row, of a record that is right by itself.
    fn is_full(self, present: bool, len: usize) -> Result<bool, Refusal>
        ensures { asked_by self result ≡ asked self present len }
    {
        let Some(column) = format::column_of(self.kind, self.encoding, self.width) else {
            return Err(Refusal::Disagree);
        };
        let c = self.counted;
        if needs::is_wrong(c, column.kind, column.encoding) {
            return Err(Refusal::Disagree);
        }
        Ok(sizes::is_full(
            c,
            self.target,
            self.keytarget,
            column.kind,
            column.encoding,
            present,
            len,
        ))
    }

    // Whether to finish before a next row: whether that row is present, and the length of its bytes.
    pub fn should_finish(self, present: bool, len: usize) -> Asked
        ensures { result ≡ asked self present len }
    {
        match self.is_full(present, len) {
            Ok(full) => Asked {
                number: 0,
                full,
                builder: self,
            },
            Err(refusal) => Asked {
                number: u8::from(refusal),
                full: false,
                builder: self,
            },
        }
    }
}
