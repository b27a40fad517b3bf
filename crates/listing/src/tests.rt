use super::*;
use std::io;
use std::io::{ErrorKind, Read, Write};
use std::test::Fail;
use survey::Survey;

const TRIANGLE: &[u8] = b"3\n1,2,10,0\n2,3,0,5\n1,3,-2,1\n";

const WANTED: &[u8] = b"1 1 2\n2 1 3\n3 2 3\ntotal 3 16 12\n";

/// A reader that gives one byte at a time, and is interrupted before each.
#[derive(Drop)]
struct Slow<'a> {
    rest: &'a [u8],
    ready: bool,
}

impl Read for Slow<'_> {
    fn read(&mut self, buf: &mut [u8]) -> io::Result<usize> {
        self.ready = !self.ready;
        if self.ready {
            return Err(io::Error::from(ErrorKind::Interrupted));
        }
        let (Some(first), Some((byte, rest))) = (buf.first_mut(), self.rest.split_first()) else {
            return Ok(0);
        };
        *first = *byte;
        self.rest = rest;
        Ok(1)
    }
}

/// A writer over memory that takes a byte at a time, is interrupted before each, and fails once it has taken so many.
#[derive(Drop)]
struct Short {
    held: [u8; 64],
    used: usize,
    most: usize,
    ready: bool,
}

impl Short {
    fn new(most: usize) -> Short {
        Short {
            held: [0; 64],
            used: 0,
            most,
            ready: false,
        }
    }
}

impl Write for Short {
    fn write(&mut self, buf: &[u8]) -> io::Result<usize> {
        self.ready = !self.ready;
        if self.ready {
            return Err(io::Error::from(ErrorKind::Interrupted));
        }
        if self.used >= self.most {
            return Err(io::Error::from(ErrorKind::Other));
        }
        let (Some(place), Some(byte)) = (self.held.get_mut(self.used), buf.first()) else {
            return Ok(0);
        };
        *place = *byte;
        self.used += 1;
        Ok(1)
    }

    fn flush(&mut self) -> io::Result<()> {
        Ok(())
    }
}

/// Keeps what it was told.
#[derive(Drop)]
struct Told {
    points: u8,
    labels: usize,
    chains: u64,
    pages: u64,
}

impl Told {
    fn new() -> Told {
        Told {
            points: 0,
            labels: 0,
            chains: 0,
            pages: 0,
        }
    }
}

impl Watch for Told {
    fn begun(&mut self, survey: &Survey) {
        self.points = survey.points();
        self.labels = survey.len();
    }

    fn written(&mut self, chains: u64) {
        self.chains = chains;
        self.pages = self.pages.saturating_add(1);
    }
}

/// A writer that only counts what it takes.
#[derive(Drop)]
struct Counting(u64);

impl Write for Counting {
    fn write(&mut self, buf: &[u8]) -> io::Result<usize> {
        self.0 = self.0.wrapping_add(buf.len() as u64);
        Ok(buf.len())
    }

    fn flush(&mut self) -> io::Result<()> {
        Ok(())
    }
}

/// Lists the triangle on a writer that takes so many bytes.
fn listed_on(out: &mut Short) -> Result<Answer, Failure> {
    let mut input = Slow {
        rest: TRIANGLE,
        ready: false,
    };
    list_survey(&mut input, &mut [0; MOST_INPUT], out, &mut Unwatched)
}

#[test]
fn fails_at_each_byte(rt: HostRuntime) {
    for most in 0..=WANTED.len() {
        let mut out = Short::new(most);
        let answer = listed_on(&mut out);
        let is_whole = most == WANTED.len();
        assert_eq!(rt; matches!(answer, Ok(Answer::Listed)), is_whole);
        assert_eq!(rt; matches!(answer, Err(Failure::Writing(_))), !is_whole);
        assert!(rt; out.held[..out.used.min(64)] == WANTED[..most.min(WANTED.len())]);
    }
}

#[test]
fn a_refusal_and_its_input(rt: HostRuntime) {
    let text = b"3\n1,2,0,0\n2,3,-0,0\n";
    let mut buffer = [b'-'; MOST_INPUT];
    let mut out = Short::new(64);
    let mut input: &[u8] = text;
    let answer = list_survey(&mut input, &mut buffer, &mut out, &mut Unwatched);
    let Ok(Answer::Refused { why, length }) = answer else {
        panic!(rt; "not refused");
    };
    assert_eq!(rt; (why.fault.number(), why.row, length), (1, 3, text.len()));
    assert!(rt; buffer.get(..length) == Some(text.as_slice()));
    assert!(rt; out.held[..16] == b"refused 1 row 3\n"[..]);
}

#[test]
fn no_more_than_is_read(rt: HostRuntime) {
    let text = [b'1'; MOST_INPUT + 1];
    let mut input: &[u8] = &text;
    let mut out = Short::new(64);
    let answer = list_survey(&mut input, &mut [0; MOST_INPUT], &mut out, &mut Unwatched);
    assert!(rt;
        matches!(
            answer,
            Ok(Answer::Refused {
                length: MOST_INPUT,
                ..
            })
        )
    );
    assert_eq!(rt; input.len(), 1);
}

#[test]
fn is_told_how_it_goes_on(rt: HostRuntime) {
    let mut input: &[u8] =
        b"6\n1,2,0,0\n1,3,0,0\n2,3,0,0\n1,4,0,0\n2,4,0,0\n3,4,0,0\n1,5,0,0\n2,5,0,0\n3,5,0,0\n4,5,0,0\n1,6,0,0\n2,6,0,0\n3,6,0,0\n4,6,0,0\n5,6,0,0\n";
    let mut out = Counting(0);
    let mut told = Told::new();
    let answer = list_survey(&mut input, &mut [0; MOST_INPUT], &mut out, &mut told);
    assert!(rt; matches!(answer, Ok(Answer::Listed)));
    assert_eq!(rt; (told.points, told.labels), (6, 15));
    // The number of trees on six points is 6^4, and their lines take more than two pages.
    assert_eq!(rt; told.chains, 1296);
    assert_eq!(rt; (told.pages, out.0), (3, 20940));
}
