//! A file that is cut off or changed at each of its bytes.
use crate::trip::{ROOM, triangle, write_verdict};
use chain_writer::Written;
use std::io;
use std::io::Write;

/// What a byte is changed by.
const CHANGES: [u8; 3] = [0x01, 0x04, 0xff];

/// Writes what becomes of a file that is cut off.
fn write_cut<W: Write>(out: &mut W, file: &[u8]) -> io::Result<()> {
    // By length: each front of the file is read, and its length is printed.
    for i in 0..file.len() {
        write!(out, "cut to {i} bytes: ")?;
        write_verdict(out, &file[..i])?;
    }
    Ok(())
}

/// Writes what becomes of a file that one byte is changed in.
fn write_changed<W: Write>(out: &mut W, file: &mut [u8], change: u8) -> io::Result<()> {
    // By place: each byte is changed where it stands, and its place is printed.
    for i in 0..file.len() {
        let was = file[i];
        file[i] = was ^ change;
        write!(out, "byte {i} changed by {change}: ")?;
        write_verdict(out, file)?;
        file[i] = was;
    }
    Ok(())
}

/// The first `n` bytes, or all if there are fewer.
fn front(bytes: &[u8], n: usize) -> &[u8] {
    &bytes[..n.min(bytes.len())]
}

/// Writes the lines of all damages.
pub fn write_damages<W: Write>(out: &mut W) -> anyhow::Result<()> {
    // A fixed buffer: the lists here are short, and a `Vec` would only add a way to fail.
    let mut buffer = [0u8; ROOM];
    let Written { out: bytes, length } = triangle(&mut buffer)?;
    write_cut(out, &bytes[..length])?;
    write!(out, "whole: ")?;
    write_verdict(out, &bytes[..length])?;
    write!(out, "a byte more: ")?;
    write_verdict(out, front(bytes, length + 1))?;
    for change in CHANGES {
        write_changed(out, &mut bytes[..length], change)?;
    }
    Ok(())
}
