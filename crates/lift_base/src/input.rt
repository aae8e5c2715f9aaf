// Where bytes come from, and reading them all.
ghost use Rattle.std.specs.Prelude.{◌≡◌, ◌<◌, List, ℕ, length, Option};
ghost use Rattle.lift_base.specs.Outside.{Reads};
ghost use Rattle.lift_base.specs.Whole.{ReadsWhole, FaultsOnlyBy};
ghost use Rattle.lift_base.specs.declared.input.ReadError.TheVariants.{Memory};

use std::alloc::{AllocError, Global};

/// What one read gave.
#[derive(Clone, Copy)]
pub enum Got {
    /// So many bytes, at the front of the buffer. None is the end of input.
    Bytes(usize),
    /// Nothing was given, and a fault was counted.
    Failed,
}

/// Where bytes come from.
pub trait Source {
    /// The bytes that are left, where they are told.
    ghost left: { Self → Option (List ℕ) };

    /// How often a read has failed.
    ghost faults: { Self → ℕ };

    /// Takes bytes from the front of what is left, and puts them at the front of the buffer.
    fn read(&mut self, buf: &mut [u8]) -> Got
        requires { 0 < length buf.old }
        ensures { Reads left faults self.old self.new result buf.new };
}

/// Why a source wasn't read to its end.
#[derive(Clone, Copy, Debug)]
pub enum ReadError {
    /// A read failed.
    Fault = 1,
    /// More bytes came than the limit allows.
    TooLong = 2,
    /// Memory ran out.
    Memory = 3,
}

impl From<AllocError> for ReadError {
    ghost from_gives = { λ _ e. e ≡ Memory };

    fn from(_: AllocError) -> Self {
        ReadError::Memory
    }
}

/// How many bytes a read may give at most.
const PIECE: usize = 4096;

/// Reads to the end of input, at most `limit` bytes. After an error some bytes may have been taken
/// from the source, and are lost. Each read but the last gives at least one byte.
pub fn read_all<S: Source>(
    alloc: Global,
    source: &mut S,
    limit: usize,
) -> Result<Vec<u8>, ReadError>
    ensures bytes { ReadsWhole S.left source.old source.new limit result }
    ensures faults { FaultsOnlyBy S.faults source.old source.new result }
{
    let mut bytes = Vec::new(alloc);
    let mut buffer = [0u8; PIECE];
    loop {
        match source.read(&mut buffer) {
            Got::Failed => return Err(ReadError::Fault),
            Got::Bytes(0) => return Ok(bytes),
            Got::Bytes(count) => {
                if count > limit - bytes.len() {
                    return Err(ReadError::TooLong);
                }
                bytes.extend_from_slice(&buffer[..count])?;
            }
        }
    }
}
