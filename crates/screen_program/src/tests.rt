// Readers that give a text in pieces, or fail behind it.
use super::*;
use std::test::Fail;

#[derive(Drop)]
struct Pieces<'a> {
    rest: &'a [u8],
    most: usize,
    fails: bool,
}

impl Read for Pieces<'_> {
    fn read(&mut self, buf: &mut [u8]) -> io::Result<usize> {
        if self.fails && self.rest.is_empty() {
            return Err(io::Error::other("no more"));
        }
        let n = self.most.min(buf.len());
        self.rest.read(&mut buf[..n])
    }
}

#[test]
fn prints_of_pieces(rt: HostRuntime) -> Result<(), Fail> {
    let mut input = Pieces {
        rest: b"no screen",
        most: 4,
        fails: false,
    };
    let mut output = Vec::new(rt.alloc());
    run(Listing::Boxes, &mut input, &mut output)?;
    assert_eq!(rt; output.as_slice(), b" refused       8\n".as_slice());
    Ok(())
}

#[test]
fn prints_nothing_of_a_read_that_fails(rt: HostRuntime) -> Result<(), Fail> {
    let mut input = Pieces {
        rest: b"no screen",
        most: 4,
        fails: true,
    };
    let mut output = Vec::new(rt.alloc());
    match run(Listing::Boxes, &mut input, &mut output) {
        Err(Failure::NotRead(_)) => {}
        _ => panic!(rt; "a read failed"),
    }
    assert_eq!(rt; output.as_slice(), b"".as_slice());
    Ok(())
}
