//! Why bytes are no scenario.

ghost use Rattle.std.specs.Prelude.{◌≡◌, ◌++◌, [], Some, IfOk, IfSome, OnOk, codes, decimal, option_map};
ghost use Rattle.scenario_values.specs.declared.fault.ReadFault.TheVariants.{Memory as NoMemory};
ghost use Rattle.scenario_values.specs.Faults.{fault_of, escaped_byte, escaped, placed, holds, IsUnder};
ghost use Rattle.binlog_coords.specs.OrchBase.Gives.{Gives};

use crate::orch_base::Memory;
use itoa::Buffer;
use std::alloc::{AllocFailed, Global};
use std::marker::Model;

/// What is wrong at a place of a scenario's text.
#[derive(Clone, Copy, Debug, PartialEq, Eq)]
pub enum FaultCode {
    /// The text has more than 67,108,864 bytes.
    TooLong,
    /// The text is no UTF-8, or no JSON text as `serde_json` reads it.
    NotJson,
    /// A needed key is absent.
    Missing,
    /// A value is of another JSON kind.
    BadType,
    /// A key that isn't known, or that only a server with a source has.
    UnknownKey,
    /// A name doesn't read.
    BadName,
    /// An earlier server has the name.
    DuplicateName,
    /// No server has the name.
    UnknownName,
    /// A number that isn't whole or in its range, a length out of its range, or a word that is no choice.
    BadNumber,
    /// A server is below itself.
    Loop,
    /// A server's source doesn't log.
    SourceNotLogging,
    /// A source or an origin is of another cluster.
    OtherCluster,
    /// A server has executed more than its source.
    TooMany,
    /// A coordinate or a flush point is out of place.
    BadPlace,
    /// Histories disagree.
    NotKin,
    /// The histories and writes over all servers, or the turns, pass their limit.
    TooLarge,
    /// A coordinate doesn't read.
    BadCoord,
    /// A UUID isn't hexadecimal digits in groups of 8, 4, 4, 4 and 12 with `-` between them.
    BadUuid,
    /// An earlier server has the UUID.
    DuplicateUuid,
    /// A server has both a history and a source.
    BothGiven,
    /// A filter's regular expression has no pattern, or nests past the limit of `regex`.
    BadPattern,
    /// The scenario's version isn't 1, or a server's version doesn't read.
    BadVersion,
    /// A turn that isn't known, or has another number of parts.
    BadTurn,
    /// A command that isn't known, or one without a key that it needs.
    BadCommand,
    /// A server finds its place by GTIDs in a scenario without them.
    AutoWithoutGtid,
    /// A hook's text is empty, too long or has a control character, or its exit isn't 0 to 255.
    BadHook,
    /// With several orchestrators a turn of one names none. Or a turn of a single orchestrator names one, or the number
    /// is none of theirs.
    NodeTurn,
}

/// The position of a value in a text: a JSON pointer (RFC 6901), which contracts see as its bytes.
#[derive(Drop)]
pub struct Path {
    text: Vec<u8>,
}

impl Model for Path {
    ghost use Rattle.std.specs.Prelude.{List, ℕ};

    ghost Value = { List ℕ };

    ghost view = { λ p. p.text.items };
}

/// A fault and its place.
#[derive(Drop)]
pub struct Fault {
    pub code: FaultCode,
    pub path: Path,
}

/// Why no scenario was read.
#[derive(Drop)]
pub enum ReadFault {
    /// Out of memory.
    Memory,
    /// The bytes are no scenario.
    Fault(Fault),
}

impl Path {
    /// The JSON pointer's bytes.
    pub fn as_bytes(&self) -> &[u8]
        ensures { result.now ≡ self.now }
    {
        &self.text
    }
}

#[tactic(auto, unfolding(crate::specs::Faults::escaped_byte))]
fn escaped_byte(byte: u8, out: &mut Vec<u8>) -> Result<(), Memory>
    ensures { OnOk result (out.new.items ≡ out.old.items ++ escaped_byte byte) }
{
    match byte {
        b'~' => out.extend_from_slice(b"~0"),
        b'/' => out.extend_from_slice(b"~1"),
        _ => {
            out.push(byte)?;
            Ok(())
        }
    }
}

#[tactic(auto, using(crate::proofs::Escapes::escaped_on))]
fn escape(key: &[u8], out: &mut Vec<u8>) -> Result<(), Memory>
    ensures { OnOk result (out.new.items ≡ out.old.items ++ escaped key.now) }
{
    for byte in key {
        escaped_byte(*byte, out)?;
    }
    Ok(())
}

// The pointer to what the path points to in the value at a key.
fn below(alloc: Global, key: &[u8], path: &Path) -> Result<Path, Memory>
    ensures { IfOk result (λ p. p ≡ codes "/" ++ escaped key.now ++ path.now) }
{
    let mut text = Vec::new(alloc);
    text.extend_from_slice(b"/")?;
    escape(key, &mut text)?;
    text.extend_from_slice(&path.text)?;
    Ok(Path { text })
}

/// A fault of the value itself.
pub fn fails(alloc: Global, code: FaultCode) -> ReadFault
    ensures { fault_of result ≡ Some (record { code = code; path = [] }) }
{
    let path = Path {
        text: Vec::new(alloc),
    };
    ReadFault::Fault(Fault { code, path })
}

/// Nothing, if the test holds, and else this fault of the value itself.
pub fn holds(alloc: Global, code: FaultCode, test: bool) -> Result<(), ReadFault>
    ensures { Gives (λ _. tt) fault_of result (holds code test) }
{
    if test {
        Ok(())
    } else {
        Err(fails(alloc, code))
    }
}

// The fault in the value at a key.
fn placed(alloc: Global, key: &[u8], fault: ReadFault) -> ReadFault
    ensures { IfSome (fault_of result) (λ f. option_map (placed key.now) (fault_of fault)
        ≡ Some f) }
{
    match fault {
        ReadFault::Memory => ReadFault::Memory,
        ReadFault::Fault(fault) => match below(alloc, key, &fault.path) {
            Ok(path) => ReadFault::Fault(Fault {
                code: fault.code,
                path,
            }),
            Err(_) => ReadFault::Memory,
        },
    }
}

/// What was read of the value at a key. A fault gets the key before its path.
pub fn under<T>(alloc: Global, key: &[u8], read: Result<T, ReadFault>) -> Result<T, ReadFault>
    ensures { IsUnder key.now read result }
{
    match read {
        Ok(value) => Ok(value),
        Err(fault) => Err(placed(alloc, key, fault)),
    }
}

// The fault in the item of a number.
fn placed_item(alloc: Global, number: usize, fault: ReadFault) -> ReadFault
    ensures { IfSome (fault_of result) (λ f. option_map (placed (decimal number)) (fault_of fault)
        ≡ Some f) }
{
    let mut buffer = Buffer::new();
    let key = buffer.format(number);
    placed(alloc, key.as_bytes(), fault)
}

/// What was read of the item of this number, counted from 0. A fault gets the number before its path.
pub fn under_item<T>(
    alloc: Global,
    number: usize,
    read: Result<T, ReadFault>,
) -> Result<T, ReadFault>
    ensures { IsUnder (decimal number) read result }
{
    match read {
        Ok(value) => Ok(value),
        Err(fault) => Err(placed_item(alloc, number, fault)),
    }
}

impl From<Memory> for ReadFault {
    ghost from_gives = { λ _ e. e ≡ NoMemory };

    fn from(_e: Memory) -> ReadFault {
        ReadFault::Memory
    }
}

impl<T: Drop> From<AllocFailed<T>> for ReadFault {
    ghost from_gives = { λ _ e. e ≡ NoMemory };

    fn from(_e: AllocFailed<T>) -> ReadFault {
        ReadFault::Memory
    }
}
