//! A reader of a relationship file after a fault, and a file that comes in pieces.
use caida_reader::{Reader, RelError, read_pieces};
use net_names::Rel;
use std::test::Fail;

#[test]
fn a_reader_that_has_failed_stays_so(rt: HostRuntime) {
    let mut reader = Reader::new(rt.alloc());
    let conflict = RelError::Conflict {
        line: 2,
        earlier: 1,
    };
    assert!(rt; reader.feed(b"1|2|-1\n1|2") == Ok(()));
    assert!(rt; reader.feed(b"|0\n1|") == Err(conflict));
    assert!(rt; reader.feed(b"1|1|1\n") == Err(conflict));
    assert!(rt; reader.finish().err() == Some(conflict));
}

#[test]
fn a_file_in_two_pieces_is_read_whole(rt: HostRuntime) -> Result<(), Fail> {
    let mut pieces = Vec::new(rt.alloc());
    pieces.push(b"1|".to_vec(rt.alloc())?)?;
    pieces.push(b"2|0".to_vec(rt.alloc())?)?;
    let links = read_pieces(rt.alloc(), &pieces)?;
    let link = links.at(0).expect(&rt, "a link");
    assert!(rt; link.lo.get() == 1 && link.hi.get() == 2 && link.rel == Rel::Peer);
    Ok(())
}
