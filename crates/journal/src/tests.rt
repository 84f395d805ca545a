use super::*;
use std::test::Fail;

// Whole keys: put [10,20) rows 5; put [30,40) rows 7; advance; open 0 for 35; step; drop 35; step; counts; close; counts; drop 10; advance.
const EXAMPLE: &[u8; 89] = b"\x01\
\x01\0\0\0\0\0\0\0\x0a\0\0\0\0\0\0\0\x14\0\0\0\0\0\0\0\x05\
\x01\0\0\0\0\0\0\0\x1e\0\0\0\0\0\0\0\x28\0\0\0\0\0\0\0\x07\
\x04\
\x05\0\0\0\0\0\0\0\0\x23\
\x06\0\
\x02\0\0\0\0\0\0\0\x23\
\x06\0\
\x08\
\x07\0\
\x08\
\x02\0\0\0\0\0\0\0\x0a\
\x04";

#[test]
fn reads_the_example(rt: HostRuntime) -> Result<(), Fail> {
    let mut reader = Reader::new(EXAMPLE)?;
    assert_eq!(rt; reader.key_kind(), KeyKind::Whole);
    let records = [
        Record::Put {
            low: 2,
            high: 10,
            rows: 5,
        },
        Record::Put {
            low: 27,
            high: 35,
            rows: 7,
        },
        Record::Advance,
        Record::Open {
            session: 0,
            key: 54,
        },
        Record::Step { session: 0 },
        Record::Drop { key: 65 },
        Record::Step { session: 0 },
        Record::Counts,
        Record::Close { session: 0 },
        Record::Counts,
        Record::Drop { key: 80 },
        Record::Advance,
    ];
    for record in records {
        assert_eq!(rt; reader.next()?, Some(record));
    }
    assert_eq!(rt; reader.next()?, None);
    assert_eq!(rt; reader.next()?, None, "the reader stays at the end");
    Ok(())
}

#[test]
fn tells_where_a_log_fails(rt: HostRuntime) -> Result<(), Fail> {
    // Decimal keys: a step, then a split whose body lacks its last byte.
    let mut cut = Reader::new(
        b"\x02\x06\x1f\x03\0\0\0\0\0\0\0\0\x23\0\0\0\0\0\0\0\x05\0\0\0\0\0\0\0",
    )?;
    assert_eq!(rt; cut.next()?, Some(Record::Step { session: 31 }));
    assert_eq!(rt; cut.next(), Err(LogFault::Cut { at: 3 }));
    assert_eq!(rt; cut.next(), Err(LogFault::Cut { at: 3 }));
    // Text keys: an unknown kind as the last byte.
    let mut unknown = Reader::new(b"\x03\x08\x09")?;
    assert_eq!(rt; unknown.next()?, Some(Record::Counts));
    assert_eq!(rt; unknown.next(), Err(LogFault::Unknown { at: 2 }));
    Ok(())
}

#[test]
fn reads_the_first_byte(rt: HostRuntime) -> Result<(), Fail> {
    assert_eq!(rt; Reader::new(b"\x03")?.next()?, None);
    let empty = LogFault::Cut { at: 0 };
    assert!(rt; matches!(Reader::new(b""), Err(fault) if fault == empty));
    assert_eq!(rt; empty.number(), 16);
    assert_eq!(rt; empty.at(), 0);
    let unknown = LogFault::Unknown { at: 0 };
    assert!(rt; matches!(Reader::new(b"\x04\x08"), Err(fault) if fault == unknown));
    assert_eq!(rt; unknown.number(), 15);
    Ok(())
}
