//! The verdict on a message: one command byte, then one canonical CBOR item.

ghost use Rattle.std.specs.Prelude.{◌≡◌, Some};
ghost use Rattle.explain.specs.declared.verdict.Broken.TheVariants.{InvalidCbor};
ghost use Rattle.explain.specs.Judged.{judged, code, place_of, reach as reach_of, verdict_line};

use cbor::Fault;
use std::fmt;

const MAX_MESSAGE: usize = 1024;

const CREDENTIAL_MANAGEMENT: u8 = 0x41;

/// The rule that a message breaks.
#[derive(Clone, Copy, Debug, PartialEq, Eq)]
pub enum Broken {
    InvalidCommand,
    InvalidLength,
    InvalidCbor { place: usize },
    RequestTooLarge,
}

impl From<Fault> for Broken {
    ghost from_gives = { λ fault broken. broken ≡ InvalidCbor fault.place };

    fn from(fault: Fault) -> Broken {
        Broken::InvalidCbor { place: fault.place }
    }
}

/// The first rule that the message breaks, if any.
pub fn judge(message: &[u8]) -> Result<(), Broken>
    ensures answer { result ≡ judged message.now }
{
    if message.is_empty() {
        return Err(Broken::InvalidLength);
    }
    if message.len() > MAX_MESSAGE {
        return Err(Broken::RequestTooLarge);
    }
    if message[0] != CREDENTIAL_MANAGEMENT {
        return Err(Broken::InvalidCommand);
    }
    cbor::check(message, 1)?;
    Ok(())
}

/// What `judge` says of a message, shown as a line.
#[derive(Clone, Copy, Debug, PartialEq, Eq)]
pub struct Verdict(pub Result<(), Broken>);

impl Verdict {
    /// The status number.
    // Numbers: the protocol of the key fixes them, see docs/STATUS.md.
    pub fn status(&self) -> u8
        ensures answer { result ≡ code self.now.0 }
    {
        match self.0 {
            Ok(()) => 0x00,
            Err(Broken::InvalidCommand) => 0x01,
            Err(Broken::InvalidLength) => 0x03,
            Err(Broken::InvalidCbor { .. }) => 0x12,
            Err(Broken::RequestTooLarge) => 0x39,
        }
    }

    /// The place of the fault, 0 where there is none.
    // No `Option`: the line of a verdict has a place always, and docs/STATUS.md fixes 0 for none.
    pub fn place(&self) -> usize
        ensures answer { result ≡ place_of self.now.0 }
    {
        match self.0 {
            Err(Broken::InvalidCbor { place }) => place,
            _ => 0,
        }
    }

    /// Up to where a message of this verdict is outlined: to its end, or to the fault.
    pub fn reach(&self, size: usize) -> usize
        ensures answer { result ≡ reach_of self.now.0 size }
    {
        match self.0 {
            Ok(()) => size,
            Err(_) => self.place(),
        }
    }
}

impl fmt::Display for Verdict {
    ghost output = { λ v. Some (verdict_line v.0) };

    fn fmt<W: fmt::Write>(&self, f: &mut fmt::Formatter<W>) -> fmt::Result {
        let status = self.status();
        let place = self.place();
        writeln!(f, "read: 0x{status:02x} place {place}")
    }
}
