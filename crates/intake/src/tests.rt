use super::*;
use std::test::Fail;

/// A reader that gives one byte at a time, and is interrupted before each.
#[derive(Drop)]
struct Slow<'a> {
    rest: &'a [u8],
    ready: bool,
}

impl Read for Slow<'_> {
    fn read(&mut self, buf: &mut [u8]) -> io::Result<usize> {
        self.ready = !self.ready;
        if self.ready {
            return Err(io::Error::from(ErrorKind::Interrupted));
        }
        let (Some(first), Some((byte, rest))) = (buf.first_mut(), self.rest.split_first()) else {
            return Ok(0);
        };
        *first = *byte;
        self.rest = rest;
        Ok(1)
    }
}

/// A reader that fails once its bytes are gone.
#[derive(Drop)]
struct Failing<'a> {
    rest: &'a [u8],
}

impl Read for Failing<'_> {
    fn read(&mut self, buf: &mut [u8]) -> io::Result<usize> {
        if self.rest.is_empty() {
            return Err(io::Error::from(ErrorKind::Other));
        }
        self.rest.read(buf)
    }
}

#[test]
fn a_byte_at_a_time(rt: HostRuntime) -> Result<(), Fail> {
    let mut input = Slow {
        rest: b"seven",
        ready: false,
    };
    let mut buffer = [b'-'; 7];
    assert_eq!(rt; take_from(&mut input, &mut buffer)?, 5);
    assert_eq!(rt; &buffer, b"seven--");
    Ok(())
}

#[test]
fn no_more_than_there_is_room_for(rt: HostRuntime) -> Result<(), Fail> {
    let mut input: &[u8] = b"seven";
    let mut buffer = [b'-'; 3];
    assert_eq!(rt; take_from(&mut input, &mut buffer)?, 3);
    assert_eq!(rt; &buffer, b"sev");
    assert!(rt; input == b"en".as_slice());
    Ok(())
}

#[test]
fn what_came_before_a_failure(rt: HostRuntime) {
    let mut input = Failing { rest: b"seven" };
    let mut buffer = [b'-'; 7];
    assert!(rt; take_from(&mut input, &mut buffer).is_err());
    assert_eq!(rt; &buffer, b"seven--");
}
