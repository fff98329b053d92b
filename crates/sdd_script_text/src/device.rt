//! Bytes from a reader and to a writer, whose failures are counted.

ghost use Rattle.std.specs.Prelude.{◌≡◌, ℕ, List, ◌≤◌, [], Option, length, IfOk, OnOk, OnErr, IfSome, MatchResult};
ghost use Rattle.std.specs.Io.KnownBytes.{Appends, IsAtEnd, ReadConsumes, WriteAppends};
ghost use Rattle.sdd_script_text.specs.Device.{CountsFailure, CountsEnd, ConsumesSome, AppendsBeginning};

mod std_adapters;

use std::alloc::{AllocError, Global};
pub use std_adapters::{Reader, Writer};
use thiserror::Error;

/// A device failed: a read or a write came to nothing.
#[derive(Clone, Copy, Debug, PartialEq, Eq, Error)]
#[error("the device failed")]
pub struct Fault;

/// What bytes are read from.
pub trait Source {
    /// The bytes that are left, where they are known.
    ghost remaining: { Self → Option (List ℕ) };

    /// How many reads failed so far, modulo 2^64.
    ghost failures: { Self → ℕ };

    /// Reads into the front of the buffer, and answers how many bytes: none only at the end, or with no room.
    fn read(&mut self, buffer: &mut [u8]) -> Result<usize, Fault>
        ensures bound { IfOk result (λ count. count ≤ length buffer.new) }
        ensures bytes { ReadConsumes (remaining self.old) (remaining self.new) result buffer.new }
        ensures counted { CountsFailure (failures self.old) (failures self.new) result };
}

/// What bytes are written to.
pub trait Sink {
    /// The bytes written so far, where they are known.
    ghost contents: { Self → Option (List ℕ) };

    /// How many writes failed so far, modulo 2^64.
    ghost failures: { Self → ℕ };

    /// Writes some of the bytes from their front, and answers how many. To take none of some bytes is a failure.
    fn write(&mut self, bytes: &[u8]) -> Result<usize, Fault>
        ensures bound { IfOk result (λ count. count ≤ length bytes.now) }
        ensures some { IfOk result (λ count. count ≡ 0 → bytes.now ≡ []) }
        ensures bytes { WriteAppends (contents self.old) (contents self.new) result bytes.now }
        ensures counted { CountsFailure (failures self.old) (failures self.new) result };
}

/// Why a source was not read to its end. What was read of it is lost.
#[derive(Clone, Copy, Debug, PartialEq, Eq, Error)]
pub enum ReadEnd {
    #[error("want of memory")]
    NoMemory,
    #[error("the device failed")]
    Fault,
}

impl From<AllocError> for ReadEnd {
    ghost use Rattle.std.specs.Prelude.{◌≡◌};
    ghost use Rattle.sdd_script_text.specs.declared.device.ReadEnd.TheVariants.{NoMemory};

    ghost from_gives = { λ _ end. end ≡ NoMemory };

    fn from(_error: AllocError) -> ReadEnd {
        ReadEnd::NoMemory
    }
}

impl From<Fault> for ReadEnd {
    ghost use Rattle.std.specs.Prelude.{◌≡◌};
    ghost use Rattle.sdd_script_text.specs.declared.device.ReadEnd.TheVariants.{Fault};

    ghost from_gives = { λ _ end. end ≡ Fault };

    fn from(_fault: Fault) -> ReadEnd {
        ReadEnd::Fault
    }
}

/// How many bytes are read at once at most.
const CHUNK: usize = 4096;

/// All bytes that a source has left.
///
/// Ends with `Fault` where a read failed, and with `NoMemory` where memory was wanted.
#[tactic(auto, using(crate::proofs::Devices::parts))]
pub fn read_to_end<S: Source>(alloc: Global, source: &mut S) -> Result<Vec<u8>, ReadEnd>
    ensures bytes { IfOk result
        (λ bytes. IfSome (S.remaining source.old) (λ all. bytes.items ≡ all)) }
    ensures end { OnOk result (IsAtEnd (S.remaining source.new)) }
    ensures consumed { ConsumesSome (S.remaining source.old) (S.remaining source.new) }
    ensures counted { MatchResult result (λ _. S.failures source.new ≡ S.failures source.old)
        (λ end. CountsEnd (S.failures source.old) (S.failures source.new) end) }
{
    let mut bytes = Vec::new(alloc);
    let mut buffer = [0; CHUNK];
    loop {
        let count = source.read(&mut buffer)?;
        if count == 0 {
            return Ok(bytes);
        }
        bytes.extend_from_slice(&buffer[..count])?;
    }
}

/// Writes all of the bytes, or a beginning of them where a write failed.
#[tactic(auto, using(crate::proofs::Devices::parts))]
pub fn write_all<S: Sink>(sink: &mut S, bytes: &[u8]) -> Result<(), Fault>
    ensures ok { OnOk result (Appends (S.contents sink.old) (S.contents sink.new) bytes.now) }
    ensures fault { OnErr result
        (AppendsBeginning (S.contents sink.old) (S.contents sink.new) bytes.now) }
    ensures counted { CountsFailure (S.failures sink.old) (S.failures sink.new) result }
{
    let mut written = 0;
    while written < bytes.len() {
        written += sink.write(&bytes[written..])?;
    }
    Ok(())
}
