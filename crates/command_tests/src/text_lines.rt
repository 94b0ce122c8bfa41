// Lines of text: what they are written as, and what is wanted of those that cannot be read.
use command_text::{Expected, encode_line};
use std::process::Abort;
use std::test::Fail;

fn says(rt: &impl Abort, text: &[u8], bytes: &[u8]) -> Result<(), Fail> {
    match encode_line(text) {
        Ok(command) => {
            assert!(rt; command.as_slice() == bytes);
            Ok(())
        },
        Err(expected) => Err(Fail::new(expected.text())),
    }
}

fn wants(rt: &impl Abort, text: &[u8], expected: Expected) -> Result<(), Fail> {
    match encode_line(text) {
        Ok(_) => Err(Fail::new("read")),
        Err(found) => {
            assert_eq!(rt; found, expected);
            assert!(rt; found.text() == expected.text());
            Ok(())
        },
    }
}

#[test]
fn blanks_and_comments(rt: HostRuntime) -> Result<(), Fail> {
    says(&rt, b"", b"")?;
    says(&rt, b" \t\r", b"")?;
    says(&rt, b"# S 1", b"")?;
    says(&rt, b"  S  7  # sealed", b"S\x07")?;
    says(&rt, b"N 258#", b"N\x01\x02")?;
    says(&rt, b"S 007\r", b"S\x07")
}

#[test]
fn widest_numbers(rt: HostRuntime) -> Result<(), Fail> {
    says(&rt, b"S 255", b"S\xff")?;
    says(&rt, b"N 65535", b"N\xff\xff")?;
    says(
        &rt,
        b"B 1 2 4294967295 3",
        b"B\x01\x02\xff\xff\xff\xff\x00\x03",
    )?;
    says(
        &rt,
        b"M 9 18446744073709551615",
        b"M\x09\xff\xff\xff\xff\xff\xff\xff\xff",
    )
}

#[test]
fn unreadable_lines(rt: HostRuntime) -> Result<(), Fail> {
    wants(&rt, b"Z 1", Expected::Letter)?;
    wants(&rt, b"s 1", Expected::Letter)?;
    wants(&rt, b"1", Expected::Letter)?;
    let seal = Expected::Operands { letter: b'S' };
    wants(&rt, b"S", seal)?;
    wants(&rt, b"S 256", seal)?;
    wants(&rt, b"S 1 2", seal)?;
    wants(&rt, b"S -1", seal)?;
    wants(&rt, b"S 1x", seal)?;
    wants(&rt, b"S # 1", seal)?;
    wants(&rt, b"N 65536", Expected::Operands { letter: b'N' })?;
    wants(
        &rt,
        b"B 1 2 4294967296 3",
        Expected::Operands { letter: b'B' },
    )?;
    wants(
        &rt,
        b"M 1 18446744073709551616",
        Expected::Operands { letter: b'M' },
    )?;
    wants(&rt, b"C 1 2 3 4 5 6", Expected::Operands { letter: b'C' })
}
