// Lines: a key, the sign "=", and a value.
ghost use Rattle.std.specs.Prelude.{◌≡◌};
ghost use Rattle.notation.specs.Reading.{seen};
ghost use Rattle.notation.specs.Lines.{key_of, read_key, read_fact_line};

use crate::faults::LineFault;
use crate::lists::{cut, whole};
use crate::terms::{Fact, Value};

#[derive(Clone, Copy, PartialEq, Eq)]
pub enum Key {
    Arity,
    Body,
    Head,
    Query,
    Strike,
    By,
    Fact,
}

// The key of a name.
impl TryFrom<&[u8]> for Key {
    type Error = LineFault;

    ghost try_from_gives = { λ name r. r ≡ key_of name.now };

    fn try_from(name: &[u8]) -> Result<Key, LineFault> {
        match name {
            b"arity" => Ok(Key::Arity),
            b"body" => Ok(Key::Body),
            b"head" => Ok(Key::Head),
            b"query" => Ok(Key::Query),
            b"strike" => Ok(Key::Strike),
            b"by" => Ok(Key::By),
            b"fact" => Ok(Key::Fact),
            _ => Err(LineFault::Unreadable),
        }
    }
}

// The key of a line, and its value.
pub fn keyed(line: &[u8]) -> Result<(Key, &[u8]), LineFault>
    ensures { seen result ≡ read_key line.now }
{
    let (name, value) = cut(b'=', line).ok_or(LineFault::Unreadable)?;
    let key = Key::try_from(name)?;
    Ok((key, value))
}

// The fact of a line, which is written without its end.
pub fn fact_line(line: &[u8]) -> Result<Fact, LineFault>
    ensures { result ≡ read_fact_line line.now }
{
    match keyed(line)? {
        (Key::Fact, value) => whole(value),
        _ => Err(LineFault::Unreadable),
    }
}
