use spe_model::{Bytes, RecordFault, Text, Value, Values};
use spe_record::{decode, encode, encoded_length, value_count};
use std::alloc::{AllocError, Global};
use std::process::Abort;
use std::test::Fail;

#[test]
fn every_short_type(rt: HostRuntime) -> Result<(), Fail> {
    let bytes = b"\x07\x00\x08\x09\x07\x0d\x0c\x3f\xf8\x00\x00\x00\x00\x00\x00";
    let values = decode(rt.alloc(), bytes)?;
    match values.as_slice() {
        [
            Value::Null,
            Value::Int(zero),
            Value::Int(one),
            Value::Real8(float),
            Value::Text(text),
            Value::Blob(blob),
        ] => {
            assert_eq!(rt; (*zero, *one), (0, 1));
            assert_eq!(rt; *float, [0x3f, 0xf8, 0, 0, 0, 0, 0, 0]);
            assert_eq!(rt; text.as_str(), "");
            assert_eq!(rt; blob.as_slice(), b"".as_slice());
        }
        _ => assert!(rt; false, "other values"),
    }
    Ok(())
}

static NUMBERS: [(&[u8], i64); 8] = [
    (b"\x02\x01\xff", -1),
    (b"\x02\x02\x80\x00", -32768),
    (b"\x02\x03\x7f\xff\xff", 8388607),
    (b"\x02\x04\x80\x00\x00\x00", -2147483648),
    (b"\x02\x05\x80\x00\x00\x00\x00\x00", -140737488355328),
    (b"\x02\x06\x80\x00\x00\x00\x00\x00\x00\x00", i64::MIN),
    (b"\x02\x06\x7f\xff\xff\xff\xff\xff\xff\xff", i64::MAX),
    (b"\x80\x03\x01\x07", 7),
];

#[test]
fn numbers(rt: HostRuntime) -> Result<(), Fail> {
    for (bytes, number) in &NUMBERS {
        let values = decode(rt.alloc(), *bytes)?;
        assert!(rt;
            matches!(values.as_slice(), [Value::Int(n)] if n == number),
            "{number}"
        );
    }
    Ok(())
}

static FAULTS: [(&[u8], RecordFault); 9] = [
    (b"", RecordFault::HeaderLength),
    (b"\x81", RecordFault::HeaderLength),
    (b"\x03\x00", RecordFault::HeaderLength),
    (b"\x02\x81\x00", RecordFault::HeaderLength),
    (b"\x02\x0a", RecordFault::ReservedType),
    (b"\x03\x0b\x01", RecordFault::ReservedType),
    (b"\x02\x01", RecordFault::Short),
    (b"\x02\x00\x00", RecordFault::Trailing),
    (b"\x02\x0f\xff", RecordFault::NotUtf8),
];

#[test]
fn faults(rt: HostRuntime) {
    for (bytes, fault) in &FAULTS {
        let found = decode(rt.alloc(), *bytes);
        assert!(rt; matches!(found, Err(f) if f == *fault), "{fault:?}");
    }
}

#[test]
fn faults_of_counting(rt: HostRuntime) {
    for (bytes, fault) in &FAULTS {
        let found = value_count(*bytes);
        assert!(rt; matches!(found, Err(f) if f == *fault), "{fault:?}");
    }
}

static COUNTS: [(&[u8], usize); 4] = [
    (b"\x01", 0),
    (b"\x80\x03\x01\x07", 1),
    (b"\x04\x13\x10\x01\xc3\xa9z\xff\xfe\x07", 3),
    (
        b"\x07\x00\x08\x09\x07\x0d\x0c\x3f\xf8\x00\x00\x00\x00\x00\x00",
        6,
    ),
];

#[test]
fn values_are_counted(rt: HostRuntime) {
    for (bytes, count) in &COUNTS {
        let found = value_count(*bytes);
        assert!(rt; matches!(found, Ok(n) if n == *count), "{count}");
    }
}

/// NULL, 0, 1, a float, an empty text and an empty blob.
fn short_values(alloc: Global) -> Result<Values, AllocError> {
    let mut values = Vec::new(alloc);
    values.push(Value::Null)?;
    values.push(Value::Int(0))?;
    values.push(Value::Int(1))?;
    values.push(Value::Real8([0x3f, 0xf8, 0, 0, 0, 0, 0, 0]))?;
    values.push(Value::Text(Text::new(String::from_str(alloc, "")?)))?;
    values.push(Value::Blob(Bytes::new(Vec::new(alloc))))?;
    Ok(Values::new(values))
}

#[test]
fn every_short_type_is_written(rt: HostRuntime) -> Result<(), Fail> {
    let values = short_values(rt.alloc())?;
    let bytes = encode(rt.alloc(), &values, None)?;
    assert!(rt;
        bytes.as_slice()
            == b"\x07\x00\x08\x09\x07\x0d\x0c\x3f\xf8\x00\x00\x00\x00\x00\x00".as_slice()
    );
    assert_eq!(rt; encoded_length(&values, None), 15);
    // the float's place is the rowid's
    let bytes = encode(rt.alloc(), &values, Some(3))?;
    assert!(rt; bytes.as_slice() == b"\x07\x00\x08\x09\x00\x0d\x0c".as_slice());
    assert_eq!(rt; encoded_length(&values, Some(3)), 7);
    Ok(())
}

// A record of one whole number.
static WRITTEN: [(i64, &[u8]); 12] = [
    (-1, b"\x02\x01\xff"),
    (127, b"\x02\x01\x7f"),
    (200, b"\x02\x02\x00\xc8"),
    (-129, b"\x02\x02\xff\x7f"),
    (32768, b"\x02\x03\x00\x80\x00"),
    (8388607, b"\x02\x03\x7f\xff\xff"),
    (8388608, b"\x02\x04\x00\x80\x00\x00"),
    (-2147483648, b"\x02\x04\x80\x00\x00\x00"),
    (2147483648, b"\x02\x05\x00\x00\x80\x00\x00\x00"),
    (-140737488355328, b"\x02\x05\x80\x00\x00\x00\x00\x00"),
    (140737488355328, b"\x02\x06\x00\x00\x80\x00\x00\x00\x00\x00"),
    (i64::MIN, b"\x02\x06\x80\x00\x00\x00\x00\x00\x00\x00"),
];

fn expect_written(rt: &impl Abort, alloc: Global, case: &(i64, &[u8])) -> Result<(), AllocError> {
    let (number, wanted) = *case;
    let mut values = Vec::new(alloc);
    values.push(Value::Int(number))?;
    let bytes = encode(alloc, &Values::new(values), None)?;
    assert!(rt; bytes.as_slice() == wanted, "{number}");
    Ok(())
}

#[test]
fn numbers_are_written(rt: HostRuntime) -> Result<(), Fail> {
    for case in &WRITTEN {
        expect_written(&rt, rt.alloc(), case)?;
    }
    Ok(())
}

// 126 serial types of one byte and one byte for the length are 127, which that byte spells; with one
// type more the length takes two.
#[test]
fn long_header(rt: HostRuntime) -> Result<(), Fail> {
    let mut values = Vec::new(rt.alloc());
    for _ in 0..126 {
        values.push(Value::Null)?;
    }
    let most = Values::new(values);
    assert_eq!(rt; encoded_length(&most, None), 127);
    let mut values = most.into_vec();
    values.push(Value::Null)?;
    let more = Values::new(values);
    assert_eq!(rt; encoded_length(&more, None), 129);
    let bytes = encode(rt.alloc(), &more, None)?;
    assert!(rt; bytes.as_slice().starts_with(b"\x81\x01\x00"));
    assert_eq!(rt; bytes.as_slice().len(), 129);
    Ok(())
}
