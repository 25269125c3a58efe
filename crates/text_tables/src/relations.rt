//! Relation texts, read between a left net of 2 places and a right net of 3, where nothing else is said.
use places::Relation;
use relation_texts::read_relation;
use std::process::Abort;
use std::test::Fail;

/// The text has this fault: number, line, column, token.
fn fault_between(
    rt: &impl Abort,
    text: &[u8],
    left: u8,
    right: u8,
    wanted: (u8, usize, usize),
    token: &[u8],
) -> Result<(), Fail> {
    let Err(fault) = read_relation(text, left, right) else {
        return Err(Fail::new("a relation was read"));
    };
    assert_eq!(rt; fault.number(), wanted.0);
    assert_eq!(rt; fault.line(), wanted.1);
    assert_eq!(rt; fault.column(), wanted.2);
    assert!(rt; fault.token() == token);
    Ok(())
}

fn fault(
    rt: &impl Abort,
    text: &[u8],
    wanted: (u8, usize, usize),
    token: &[u8],
) -> Result<(), Fail> {
    fault_between(rt, text, 2, 3, wanted, token)
}

/// How many pairs a relation has. The numbers below 256 are those of the pairs, 16 of them for each left place.
fn size(relation: &Relation) -> usize {
    (0..256u16)
        .filter(|n| relation.contains((n / 16) as u8, (n % 16) as u8))
        .count()
}

/// The text has no fault, and its relation has so many pairs, this one among them.
fn read_between(
    rt: &impl Abort,
    text: &[u8],
    left: u8,
    right: u8,
    pairs: usize,
    pair: (u8, u8),
) -> Result<(), Fail> {
    let Ok(relation) = read_relation(text, left, right) else {
        return Err(Fail::new("a fault was reported"));
    };
    assert_eq!(rt; size(&relation), pairs);
    assert!(rt; pairs == 0 || relation.contains(pair.0, pair.1));
    Ok(())
}

#[test]
fn relations_are_read(rt: HostRuntime) -> Result<(), Fail> {
    read_between(
        &rt,
        b"c two beside three\np edge 5 3\ne 1 3\ne 1 5\ne 2 4\n",
        2,
        3,
        3,
        (0, 2),
    )?;
    read_between(&rt, b"p edge 5 1\ne 2 5", 2, 3, 1, (1, 2))?;
    read_between(
        &rt,
        b"  p   edge 5    1   \n\n \nc\nc p edge\n  e  1 4 ",
        2,
        3,
        1,
        (0, 1),
    )?;
    read_between(&rt, b"p edge 5 0", 2, 3, 0, (0, 0))?;
    read_between(&rt, b"p edge 0 0\n", 0, 0, 0, (0, 0))?;
    read_between(&rt, b"p edge 32 1\ne 16 32\n", 16, 16, 1, (15, 15))
}

#[test]
fn more_places_count_as_sixteen(rt: HostRuntime) -> Result<(), Fail> {
    read_between(&rt, b"p edge 32 1\ne 16 17\n", 17, 255, 1, (15, 0))?;
    fault_between(&rt, b"p edge 33 1\n", 17, 16, (14, 1, 8), b"33")?;
    fault_between(&rt, b"p edge 510 1\n", 255, 255, (14, 1, 8), b"510")?;
    fault_between(&rt, b"p edge 32 1\ne 17 17\n", 255, 255, (14, 2, 3), b"17")?;
    fault_between(&rt, b"p edge 32 1\ne 16 33\n", 255, 255, (14, 2, 6), b"33")
}

#[test]
fn the_header_is_missing(rt: HostRuntime) -> Result<(), Fail> {
    fault(&rt, b"", (13, 1, 1), b"")?;
    fault(&rt, b"\n", (13, 2, 1), b"")?;
    fault(&rt, b"c x", (13, 2, 1), b"")?;
    fault(&rt, b"c x\n", (13, 2, 1), b"")?;
    fault(&rt, b"c\n\n   ", (13, 4, 1), b"")?;
    fault(&rt, b"e 1 3", (13, 1, 1), b"e")?;
    fault(&rt, b"c\n   e 1 3\np edge 5 1", (13, 2, 4), b"e")
}

#[test]
fn the_header_comes_again(rt: HostRuntime) -> Result<(), Fail> {
    fault(&rt, b"p edge 5 0\np edge 5 0", (13, 2, 1), b"p")?;
    fault(&rt, b"p edge 5 1\ne 1 3\n  p edge 5 1\n", (13, 3, 3), b"p")?;
    fault(&rt, b"p edge 5 0\np edge 4 9", (13, 2, 1), b"p")?;
    fault(&rt, b"p edge 5 0\np edge 5", (12, 2, 9), b"")?;
    fault(&rt, b"p edge 5 0\np edg 5 0", (12, 2, 3), b"edg")
}

#[test]
fn lines_that_fit_no_form(rt: HostRuntime) -> Result<(), Fail> {
    fault(&rt, b"cx", (12, 1, 1), b"cx")?;
    fault(&rt, b"x", (12, 1, 1), b"x")?;
    fault(&rt, b" pp edge 5 0", (12, 1, 2), b"pp")?;
    fault(&rt, b"p", (12, 1, 2), b"")?;
    fault(&rt, b"p  ", (12, 1, 4), b"")?;
    fault(&rt, b"p edge", (12, 1, 7), b"")?;
    fault(&rt, b"p edge 5", (12, 1, 9), b"")?;
    fault(&rt, b"p edge 5 \n", (12, 1, 10), b"")
}

#[test]
fn edges_that_fit_no_form(rt: HostRuntime) -> Result<(), Fail> {
    fault(&rt, b"p edge 5 0 0", (12, 1, 12), b"0")?;
    fault(&rt, b"p edges 5 0", (12, 1, 3), b"edges")?;
    fault(&rt, b"p edge 5 1\ne", (12, 2, 2), b"")?;
    fault(&rt, b"p edge 5 1\ne 1", (12, 2, 4), b"")?;
    fault(&rt, b"p edge 5 1\ne 1 3 3", (12, 2, 7), b"3")?;
    fault(&rt, b"p edge 5 1\nee 1 3", (12, 2, 1), b"ee")?;
    fault(&rt, b"p edge 5 1\ne x 9", (12, 2, 3), b"x")?;
    fault(&rt, b"p edge 5 1\ne 9 x", (12, 2, 5), b"x")
}

#[test]
fn shapes_of_numbers(rt: HostRuntime) -> Result<(), Fail> {
    fault(&rt, b"p edge 05 0", (12, 1, 8), b"05")?;
    fault(&rt, b"p edge 00 0", (12, 1, 8), b"00")?;
    fault(&rt, b"p edge 000005 0", (12, 1, 8), b"000005")?;
    fault(&rt, b"p edge 123456 0", (12, 1, 8), b"123456")?;
    fault(&rt, b"p edge 99999 0", (14, 1, 8), b"99999")?;
    fault(&rt, b"p edge 5 99999", (14, 1, 10), b"99999")?;
    fault(&rt, b"p edge +5 0", (12, 1, 8), b"+5")?;
    fault(&rt, b"p edge 5. 0", (12, 1, 8), b"5.")
}

#[test]
fn wrong_numbers(rt: HostRuntime) -> Result<(), Fail> {
    fault(&rt, b"p edge 4 0", (14, 1, 8), b"4")?;
    fault(&rt, b"p edge 6 0", (14, 1, 8), b"6")?;
    fault(&rt, b"p edge 5 1\ne 0 3", (14, 2, 3), b"0")?;
    fault(&rt, b"p edge 5 1\ne 3 3", (14, 2, 3), b"3")?;
    fault(&rt, b"p edge 5 1\ne 2 2", (14, 2, 5), b"2")?;
    fault(&rt, b"p edge 5 1\ne 2 6", (14, 2, 5), b"6")?;
    fault(&rt, b"p edge 5 1\ne 3 6", (14, 2, 3), b"3")?;
    fault_between(&rt, b"p edge 0 1\ne 1 1", 0, 0, (14, 2, 3), b"1")
}

#[test]
fn wrong_numbers_of_pairs(rt: HostRuntime) -> Result<(), Fail> {
    fault(&rt, b"p edge 5 1", (14, 1, 10), b"1")?;
    fault(&rt, b"c\n p edge 5 0\ne 1 3\n", (14, 2, 11), b"0")?;
    fault(&rt, b"p edge 5 2\ne 1 3\n\n", (14, 1, 10), b"2")?;
    fault(&rt, b"p edge 5 9\ne 1 3\ne 1 3\n", (15, 3, 1), b"e")
}

#[test]
fn pairs_again(rt: HostRuntime) -> Result<(), Fail> {
    fault(&rt, b"p edge 5 2\ne 1 3\n e 1 3", (15, 3, 2), b"e")?;
    fault(
        &rt,
        b"p edge 5 3\ne 1 3\ne 2 3\nc\ne 1 3\n",
        (15, 5, 1),
        b"e",
    )
}

#[test]
fn the_earlier_line_first(rt: HostRuntime) -> Result<(), Fail> {
    fault(&rt, b"p edge 5 2\ne 1 3\ne 1 3\nx", (15, 3, 1), b"e")?;
    fault(&rt, b"p edge 4 0\nx", (14, 1, 8), b"4")?;
    fault(&rt, b"e 9 9\nx", (13, 1, 1), b"e")?;
    fault(&rt, b"p edge 5 9\nx", (12, 2, 1), b"x")?;
    fault(&rt, b"p edge 5 9\ne 1 3\ne 1 9", (14, 3, 5), b"9")
}

#[test]
fn other_bytes_are_bytes_of_tokens(rt: HostRuntime) -> Result<(), Fail> {
    fault(&rt, b"\0", (12, 1, 1), b"\0")?;
    fault(&rt, b"\tp edge 5 0", (12, 1, 1), b"\tp")?;
    fault(&rt, b"p edge 5 0\r\n", (12, 1, 10), b"0\r")?;
    fault(&rt, b"p\x7f edge 5 0", (12, 1, 1), b"p\x7f")?;
    fault(&rt, b"p edge\x80 5 0", (12, 1, 3), b"edge\x80")?;
    fault(&rt, b"p edge 5\xff 0", (12, 1, 8), b"5\xff")?;
    fault(&rt, b"c\t", (12, 1, 1), b"c\t")?;
    read_between(&rt, b"c \0\t\r\x7f\x80\xff\np edge 5 0", 2, 3, 0, (0, 0))
}

#[test]
fn long_texts(rt: HostRuntime) -> Result<(), Fail> {
    fault(&rt, &[b' '; 4096], (13, 2, 1), b"")?;
    fault(&rt, &[b' '; 4097], (11, 0, 0), b"")?;
    fault(&rt, &[b'x'; 4097], (11, 0, 0), b"")?;
    fault(&rt, &[b'\n'; 4096], (13, 4097, 1), b"")
}
