// Records of a text and their columns: where records end and break off, what their fields mean, and the limits of numbers. Places and bytes
// are counted by hand.
use refusal::Refusal;
use station::record::{Station, Status};
use std::test::Fail;
use text::fault::RecordFault;
use text::record::{Damage, Record, read_record};
use text::words::KindName;

// The record at the front of the text.
fn front(text: &[u8]) -> Option<Record> {
    read_record(text, 0)?.ok()
}

// Where the text breaks off, if no record is in front.
fn damage(text: &[u8]) -> Option<Damage> {
    match read_record(text, 0)? {
        Ok(_) => None,
        Err(damage) => Some(damage),
    }
}

// The first impossible byte, and where reading goes on.
fn breaks(text: &[u8], offset: usize, next: usize) -> bool {
    match damage(text) {
        Some(damage) => damage.offset == offset && damage.next == next,
        None => false,
    }
}

// How many fields the record in front has, and where the text goes on.
fn ends(text: &[u8], count: usize, next: usize) -> bool {
    match front(text) {
        Some(record) => record.count == count && record.next == next,
        None => false,
    }
}

// Whether the last of the fields that are kept means these bytes, as far as a label column is kept.
fn last_means(text: &[u8], bytes: &[u8]) -> bool {
    match front(text) {
        Some(record) => {
            let last = record.count.min(5).saturating_sub(1);
            match record.fields.get(last) {
                Some(field) => field.label(text).bytes() == bytes,
                None => false,
            }
        }
        None => false,
    }
}

// The first field as a number; None where it is none.
fn number(text: &[u8]) -> Option<u64> {
    front(text)?.fields[0].number(text).ok()
}

fn station(text: &[u8]) -> Option<Station> {
    front(text)?.station(text).ok()
}

// The fault of the add record in front.
fn fault(text: &[u8]) -> Option<RecordFault> {
    front(text)?.station(text).err()
}

#[test]
fn first_impossible_bytes(rt: HostRuntime) {
    let rows: [(&[u8], usize, usize); 18] = [
        (b"a\"b", 1, 3),
        (b"a\"b\r\nc", 1, 5),
        (b"\r", 1, 1),
        (b"a\r", 2, 2),
        (b"a\rb\r\nc", 2, 5),
        (b"a\r\r\nc", 2, 4),
        (b"a\n", 1, 2),
        (b"\"", 1, 1),
        (b"\"a", 2, 2),
        (b"\"a\"\"", 4, 4),
        (b"a,\"b\r\n", 6, 6),
        (b"\"a\"b\r\n", 3, 6),
        (b"\"a\r\nb\x7f\r\nc", 5, 8),
        (b"\x1f", 0, 1),
        (b"a\x7f", 1, 2),
        (b"\x80", 0, 1),
        (b"\"\x1f\"", 1, 3),
        (b"\"\x80\"", 1, 3),
    ];
    for (text, offset, next) in rows {
        assert!(rt; breaks(text, offset, next));
    }
}

#[test]
fn where_records_end(rt: HostRuntime) {
    let rows: [(&[u8], usize, usize); 10] = [
        (b"\r\n", 1, 2),
        (b"a", 1, 1),
        (b" ~\r\n", 1, 4),
        (b"a,", 2, 2),
        (b",\r\nb", 2, 3),
        (b"\"a\r\nb\",c\r\nd", 2, 10),
        (b"\"\"", 1, 2),
        (b"a,b,c,d,e", 5, 9),
        (b"a,b,c,d,e,f\r\n", 6, 13),
        (b"\",\"\"\",a", 2, 7),
    ];
    for (text, count, next) in rows {
        assert!(rt; ends(text, count, next));
    }
    assert!(rt; read_record(b"", 0).is_none());
    assert!(rt; read_record(b"a\r\n", 3).is_none());
    assert!(rt; read_record(b"a\r\n", 4).is_none());
}

#[test]
fn what_fields_mean(rt: HostRuntime) {
    let rows: [(&[u8], &[u8]); 8] = [
        (b"add,North", b"North"),
        (b"add,\"North\"", b"North"),
        (b"add,", b""),
        (b"add,\"\"", b""),
        (b"add,\"\"\"\"", b"\""),
        (b"add,\"a, \"\"b\"\"\r\nc\"", b"a, \"b\"\r\nc"),
        (b"abcdefghijklmnopqrstuvwxyz", b"abcdefghijklmnopqrstuvwxy"),
        (b"a,b,c,d,\"e\",f", b"e"),
    ];
    for (text, bytes) in rows {
        assert!(rt; last_means(text, bytes));
    }
}

#[test]
fn numbers_and_their_limits(rt: HostRuntime) {
    let rows: [(&[u8], Option<u64>); 11] = [
        (b"0", Some(0)),
        (b"18446744073709551615", Some(u64::MAX)),
        (b"\"907\"", Some(907)),
        (b"18446744073709551616", None),
        (b"99999999999999999999", None),
        (b"184467440737095516150", None),
        (b"01", None),
        (b"00", None),
        (b"+1", None),
        (b"1 ", None),
        (b"\"\"", None),
    ];
    for (text, value) in rows {
        assert!(rt; number(text) == value);
    }
}

#[test]
fn words_for_kinds(rt: HostRuntime) {
    let kind = |text: &[u8]| front(text)?.fields[0].kind(text).ok();
    assert!(rt; matches!(kind(b"runs"), Some(KindName::Runs)));
    assert!(rt; matches!(kind(b"counts"), Some(KindName::Counts)));
    assert!(rt; matches!(kind(b"\"residues\""), Some(KindName::Residues)));
    assert!(rt; matches!(kind(b"costs"), Some(KindName::Costs)));
    assert!(rt; kind(b"Costs").is_none());
    assert!(rt; kind(b"cost").is_none());
}

#[test]
fn stations_of_add_records(rt: HostRuntime) -> Result<(), Fail> {
    let north = Station::new(b"North, \"old\"", Status::Bypass, 0, 7)?;
    assert!(rt; station(b"add,\"North, \"\"old\"\"\",bypass,0,7\r\n") == Some(north));
    assert!(rt; matches!(fault(b"close"), Some(RecordFault::Unknown)));
    assert!(rt; matches!(fault(b"add,A,up,1,1,"), Some(RecordFault::Unknown)));
    assert!(rt; matches!(fault(b"add,A,upp,01,1"), Some(RecordFault::NotAWord(6))));
    assert!(rt; matches!(fault(b"add,A,up,01,x"), Some(RecordFault::NotANumber(9))));
    assert!(rt;
        matches!(
            fault(b"add,A,up,1,\"x\""),
            Some(RecordFault::NotANumber(11))
        )
    );
    assert!(rt;
        matches!(
            fault(b"add,abcdefghijklmnopqrstuvwxy,up,1,1"),
            Some(RecordFault::Line(Refusal::BadLabel))
        )
    );
    Ok(())
}
