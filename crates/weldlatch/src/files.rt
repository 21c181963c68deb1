// Files by name; `-` is standard input or output.
use crate::failure::Failure;
use cards::{Card, CardScheme};
use std::io::{Read, Write};
use std::{fs, io};

// Whether a file that exists may be overwritten.
#[derive(Clone, Copy, PartialEq, Eq)]
pub enum Overwrite {
    Never,
    Allowed,
}

// The failure of a file, or that there is no memory for its name.
fn fault(rt: &HostRuntime, name: &str, why: io::Error) -> Result<Failure, Failure> {
    Ok(Failure::File(String::from_str(rt.alloc(), name)?, why))
}

// All bytes of a file.
pub fn read(rt: &HostRuntime, name: &str) -> Result<Vec<u8>, Failure> {
    if name == "-" {
        let mut bytes = Vec::new(rt.alloc());
        rt.stdin().read_to_end(&mut bytes)?;
        return Ok(bytes);
    }
    fs::read(rt, name).try_map_err(|why| fault(rt, name, why))
}

// A card file: what it says, and the scheme that it names.
pub fn open_card(rt: &HostRuntime, name: &str) -> Result<(Card, CardScheme), Failure> {
    let bytes = read(rt, name)?;
    Ok(cards::open(rt.alloc(), &bytes)?)
}

// Refuses a file that exists, unless it may be overwritten.
pub fn check_new(rt: &HostRuntime, name: &str, overwrite: Overwrite) -> Result<(), Failure> {
    if overwrite == Overwrite::Allowed || name == "-" || !fs::exists(rt, name)? {
        return Ok(());
    }
    Err(Failure::Exists(String::from_str(rt.alloc(), name)?))
}

// Writes a file; one that exists only if it may be overwritten.
pub fn write(
    rt: &HostRuntime,
    name: &str,
    bytes: &[u8],
    overwrite: Overwrite,
) -> Result<(), Failure> {
    check_new(rt, name, overwrite)?;
    if name == "-" {
        rt.stdout().write_all(bytes)?;
        return Ok(());
    }
    fs::write(rt, name, bytes).try_map_err(|why| fault(rt, name, why))
}
