//! Names of servers.

ghost use Rattle.std.specs.Prelude.{◌≡◌, ◌↔◌, ◌++◌, Ok, IsTrue, IfOk, OnOk, OnErr, Some, option_map, string_bytes, position, not, nat_le, slice_index};
ghost use Rattle.orch_base.specs.Gives.{Gives};
ghost use Rattle.orch_base.specs.Names.{fault_of, is_host_byte, host_of, port_of, host_at, port_at, port_value, name_at, printed, same_name, name_cmp, HostPort, IsName};
ghost use Rattle.orch_base.specs.declared.name.NameFault.TheVariants.{Memory};

use crate::Memory;
use itoa::Buffer;
use std::alloc::Global;
use std::cmp::Ordering;
use std::fmt;
use std::marker::Model;

/// What is wrong with a text that is no name: the first fault in this order.
#[derive(Clone, Copy, Debug, PartialEq, Eq)]
pub enum NameFault {
    /// No host.
    Empty,
    /// A host of more than 255 bytes.
    TooLong,
    /// A byte of the host, by its place, that is no letter, digit, `.`, `-` or `_`.
    BadByte(usize),
    /// No decimal of 1 to 65535 without leading zero.
    BadPort,
    /// Out of memory.
    Memory,
}

impl From<Memory> for NameFault {
    ghost from_gives = { λ _ e. e ≡ Memory };

    fn from(_e: Memory) -> NameFault {
        NameFault::Memory
    }
}

impl fmt::Display for NameFault {
    fn fmt<W: fmt::Write>(&self, f: &mut fmt::Formatter<W>) -> fmt::Result {
        match self {
            NameFault::Empty => write!(f, "no host"),
            NameFault::TooLong => write!(f, "a host of more than 255 bytes"),
            NameFault::BadByte(at) => write!(f, "byte {at} is none that a host has"),
            NameFault::BadPort => write!(f, "no port of 1 to 65535"),
            NameFault::Memory => write!(f, "out of memory"),
        }
    }
}

/// A server's name: a host of 1 to 255 letters, digits, `.`, `-` and `_`, and a port of 1 to 65535.
pub struct Name {
    host: String,
    port: u16,
}

impl Drop for Name {
    fn drop(self) {
        let Name {
            host: _host,
            port: _,
        } = self;
    }
}

impl Model for Name {
    ghost use Rattle.std.specs.Prelude.{string_bytes};
    ghost use Rattle.orch_base.specs.Names.{HostPort, IsName};

    ghost Value = { HostPort };

    ghost view = { λ n. record { host = string_bytes n.host; port = n.port } };

    ghost invariant = { λ n. IsName (record { host = string_bytes n.host; port = n.port }) };
}

fn is_host_byte(b: u8) -> bool
    ensures { result ≡ is_host_byte b }
{
    matches!(b, b'a'..=b'z' | b'A'..=b'Z' | b'0'..=b'9' | b'.' | b'-' | b'_')
}

// The text before the first colon, and the text after it.
fn parts(text: &str) -> (&str, Option<&str>)
    ensures host { result.0.now ≡ host_of text.now }
    ensures port { option_map (λ s. s.now) result.1 ≡ port_of text.now }
{
    match text.split_once(':') {
        Some((host, port)) => (host, Some(port)),
        None => (text, None),
    }
}

fn first_bad_byte(host: &[u8]) -> Option<usize>
    ensures { result ≡ position (λ b. not (is_host_byte b)) host.now }
{
    host.iter().position(|b| !is_host_byte(*b))
}

fn read_host(alloc: Global, host: &str) -> Result<String, NameFault>
    ensures { Gives string_bytes fault_of result (host_at host.now) }
{
    if host.is_empty() {
        return Err(NameFault::Empty);
    }
    if host.len() > 255 {
        return Err(NameFault::TooLong);
    }
    match first_bad_byte(host.as_bytes()) {
        Some(place) => Err(NameFault::BadByte(place)),
        None => Ok(String::from_str(alloc, host)?),
    }
}

fn read_port(port: Option<&str>) -> Result<u16, NameFault>
    ensures { Gives (λ n. n) fault_of result (port_at (option_map (λ s. s.now) port.entry)) }
{
    match port {
        None => Ok(3306),
        Some(digits) => match port_number(digits) {
            Some(number) => Ok(number),
            None => Err(NameFault::BadPort),
        },
    }
}

fn begins_above_zero(digits: &[u8]) -> bool
    ensures { result ≡ nat_le 49 (slice_index digits.now 0) }
{
    !digits.is_empty() && digits[0] >= b'1'
}

fn port_number(digits: &str) -> Option<u16>
    ensures { result ≡ port_value (Some digits.now) }
{
    if !begins_above_zero(digits.as_bytes()) {
        return None;
    }
    digits.parse::<u16>().ok()
}

impl Name {
    /// Reads HOST or HOST:PORT, which the first `:` divides; without a `:` the port is 3306. The fault is the first
    /// that the text has, in the order of `NameFault`.
    #[tactic(auto, using(crate::proofs::ReadNames::read_is_name), unfolding(crate::specs::Names::name_at))]
    pub fn read(alloc: Global, text: &str) -> Result<Name, NameFault>
        ensures gives { Gives (λ n. n) fault_of result (name_at text.now) }
        ensures name { IfOk result IsName }
    {
        let (host, port) = parts(text);
        let host = read_host(alloc, host)?;
        let port = read_port(port)?;
        Ok(Name { host, port })
    }

    /// The same name once more. `Err` means out of memory.
    pub fn copy(&self, alloc: Global) -> Result<Name, Memory>
        ensures { IfOk result (λ n. n ≡ self.now) }
    {
        let host = String::from_str(alloc, self.host.as_str())?;
        Ok(Name {
            host,
            port: self.port,
        })
    }

    /// The host.
    pub fn host(&self) -> &str
        ensures { result.now ≡ self.now.host }
    {
        self.host.as_str()
    }

    /// The port.
    pub fn port(&self) -> u16
        ensures { result ≡ self.now.port }
    {
        self.port
    }

    /// Whether host and port are the same, byte for byte.
    #[tactic(auto, using(crate::proofs::SameNames::same_name_tells))]
    pub fn is_same(&self, other: &Name) -> bool
        ensures same { result ≡ same_name self.now other.now }
        ensures equal { IsTrue result ↔ (self.now ≡ other.now) }
    {
        self.host.as_bytes() == other.host.as_bytes() && self.port == other.port
    }

    /// The order of names: by the host's bytes, then by the port.
    pub fn compare(&self, other: &Name) -> Ordering
        ensures { result ≡ name_cmp self.now other.now }
    {
        let hosts = self.host.as_bytes().cmp(other.host.as_bytes());
        hosts.then(self.port.cmp(&other.port))
    }

    /// Appends HOST:PORT, or nothing if memory runs out.
    pub fn print(&self, out: &mut Vec<u8>) -> Result<(), Memory>
        ensures ok { OnOk result (out.new.items ≡ out.old.items ++ printed self.now) }
        ensures err { OnErr result (out.new.items ≡ out.old.items) }
        ensures name { IsName self.now }
    {
        let mut buffer = Buffer::new();
        let port = buffer.format(self.port);
        out.reserve(self.host.len() + 1 + port.len())?;
        out.extend_from_slice(self.host.as_bytes()).unwrap();
        out.push(b':').unwrap();
        out.extend_from_slice(port.as_bytes()).unwrap();
        Ok(())
    }
}

/// What is printed reads as the same name.
pub fn printed_reads()
    ensures { (name : HostPort) → IsName name → name_at (printed name) ≡ Ok name }
{}
