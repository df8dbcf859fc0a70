use spe_format::{put_varint, read_varint};

static READ: [(&[u8], Option<(u64, usize)>); 7] = [
    (b"\x7f", Some((127, 1))),
    (b"\x81\x00", Some((128, 2))),
    (b"\x80\x01", Some((1, 2))),
    (
        b"\x80\xc0\x80\x80\x80\x80\x80\x80\x00rest",
        Some((1 << 56, 9)),
    ),
    (b"\xff\xff\xff\xff\xff\xff\xff\xff\xff", Some((u64::MAX, 9))),
    (b"\x81", None),
    (b"", None),
];

#[test]
fn read(rt: HostRuntime) {
    for (bytes, found) in &READ {
        assert_eq!(rt; read_varint(*bytes), *found);
    }
}

static PUT: [(u64, &[u8]); 6] = [
    (0, b"\x00"),
    (127, b"\x7f"),
    (128, b"\x81\x00"),
    (1 << 56, b"\x80\xc0\x80\x80\x80\x80\x80\x80\x00"),
    ((1 << 56) - 1, b"\xff\xff\xff\xff\xff\xff\xff\x7f"),
    (u64::MAX, b"\xff\xff\xff\xff\xff\xff\xff\xff\xff"),
];

#[test]
fn put(rt: HostRuntime) {
    for (value, bytes) in &PUT {
        let mut out = [0x55u8; 9];
        let length = put_varint(*value, &mut out);
        assert_eq!(rt; length, bytes.len());
        assert_eq!(rt; &out[..length], *bytes);
        assert!(rt; out[length..].iter().all(|byte| *byte == 0x55));
    }
}
