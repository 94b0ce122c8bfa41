// What cannot be read: every cut, every byte that is no letter, and the end of the input.
use command::{Unreadable, read};
use std::process::Abort;

// Each front of these bytes, the whole not counted, is cut short.
fn cut_short(rt: &impl Abort, bytes: &[u8]) {
    for size in 1..bytes.len() {
        assert!(rt; matches!(read(&bytes[0..size], 0), Some(Err(Unreadable::CutShort))));
    }
    assert!(rt; matches!(read(bytes, 0), Some(Ok(_))));
}

#[test]
fn each_cut(rt: HostRuntime) {
    cut_short(&rt, &[b'D', 0, 0, 0, 0, 0, 0, 0, 0, 0, 0, 0, 0]);
    cut_short(&rt, &[b'W', 0, 0, 0, 0, 0, 0, 0, 0, 0]);
    cut_short(&rt, &[b'O', 0, 0, 0, 0, 0, 0]);
    cut_short(&rt, &[b'B', 0, 0, 0, 0, 0, 0, 0, 0]);
    cut_short(&rt, &[b'S', 0]);
    cut_short(&rt, &[b'A', 0]);
    cut_short(&rt, &[b'X', 0]);
    cut_short(&rt, &[b'T', 0, 0, 0, 0, 0, 0, 0]);
    cut_short(&rt, &[b'R', 0, 0, 0, 0, 0]);
    cut_short(&rt, &[b'C'; 52]);
    cut_short(&rt, &[b'I', 0]);
    cut_short(&rt, &[b'M', 0, 0, 0, 0, 0, 0, 0, 0, 0]);
    cut_short(&rt, &[b'K', 0]);
    cut_short(&rt, &[b'Q', 0]);
    cut_short(&rt, &[b'N', 0, 0]);
}

// The letters are 15 of the 256 bytes.
#[test]
fn unknown_letters(rt: HostRuntime) {
    let unknown = (0..=255u8)
        .filter(|b| matches!(read(&[*b, *b], 0), Some(Err(Unreadable::UnknownLetter))))
        .count();
    assert_eq!(rt; unknown, 241);
    assert!(rt; matches!(read(b"d\x01", 0), Some(Err(Unreadable::UnknownLetter))));
}

#[test]
fn places(rt: HostRuntime) {
    assert!(rt; matches!(read(b"", 0), None));
    assert!(rt; matches!(read(b"S\x01", 2), None));
    assert!(rt; matches!(read(b"S\x01", 3), None));
    assert!(rt; matches!(read(b"S\x01", 1), Some(Err(Unreadable::UnknownLetter))));
    assert_eq!(rt; Unreadable::UnknownLetter.number(), 41);
    assert_eq!(rt; Unreadable::CutShort.number(), 42);
    assert_eq!(rt; Unreadable::LongFile.number(), 43);
    assert_eq!(rt; Unreadable::PageEnd.number(), 44);
}
