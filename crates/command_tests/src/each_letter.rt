// Each letter: its bytes, the command that is read of them, and the same bytes written again.
use command::{Command, LIMIT_BYTES, LONGEST_COMMAND, limit, read};
use encoder::encode;
use std::process::Abort;
use std::test::Fail;

// The bytes are this one command, of the letter that they begin with, and are written of it again.
fn shows(rt: &impl Abort, bytes: &[u8], command: Command) -> Result<(), Fail> {
    let Some(Ok(found)) = read(bytes, 0) else {
        return Err(Fail::new("not read"));
    };
    assert_eq!(rt; found.next, bytes.len());
    assert_eq!(rt; found.command, command);
    assert!(rt; bytes.first() == Some(&u8::from(command.letter())));
    assert!(rt; encode(command).as_slice() == bytes);
    Ok(())
}

#[test]
fn money(rt: HostRuntime) -> Result<(), Fail> {
    shows(
        &rt,
        &[b'D', 1, 2, 0, 0, 0, 0, 0, 1, 134, 160, 39, 15],
        Command::Add {
            participant: 1,
            kind: 2,
            sum: 100_000,
            last_day: 9_999,
        },
    )?;
    shows(
        &rt,
        &[b'W', 12, 1, 2, 3, 4, 5, 6, 7, 8],
        Command::Withdraw {
            participant: 12,
            sum: 72_623_859_790_382_856,
        },
    )?;
    shows(
        &rt,
        &[b'M', 3, 255, 255, 255, 255, 255, 255, 255, 255],
        Command::Payment {
            participant: 3,
            sum: u64::MAX,
        },
    )?;
    shows(&rt, b"I\x04", Command::Invoice { participant: 4 })?;
    shows(&rt, b"K\x05", Command::Draw { participant: 5 })?;
    shows(&rt, b"Q\x06", Command::Payout { participant: 6 })?;
    shows(&rt, b"N\x01\x02", Command::Day { day: 258 })
}

#[test]
fn auctions(rt: HostRuntime) -> Result<(), Fail> {
    shows(
        &rt,
        b"O\x01\x02\x00\x18\x13\x88",
        Command::Open {
            from: 1,
            to: 2,
            first_hour: 0,
            hours: 24,
            capacity: 5_000,
        },
    )?;
    shows(
        &rt,
        b"B\x09\x08\x00\x0f\x42\x40\x02\x01",
        Command::Bid {
            participant: 9,
            auction: 8,
            price: 1_000_000,
            mw: 513,
        },
    )?;
    shows(&rt, b"S\x01", Command::Seal { auction: 1 })?;
    shows(&rt, b"A\x02", Command::Award { auction: 2 })?;
    shows(&rt, b"X\x03", Command::Cancel { auction: 3 })
}

#[test]
fn rights(rt: HostRuntime) -> Result<(), Fail> {
    shows(
        &rt,
        b"T\x01\x02\x03\xbf\x04\x01\x00",
        Command::Transfer {
            giver: 1,
            taker: 2,
            auction: 3,
            first_hour: 191,
            hours: 4,
            mw: 256,
        },
    )?;
    shows(
        &rt,
        b"R\x01\x02\x03\xff\xff",
        Command::Return {
            participant: 1,
            out_of: 2,
            into: 3,
            mw: 65_535,
        },
    )?;
    let mut curtail = [7; LONGEST_COMMAND];
    curtail[0] = b'C';
    curtail[1] = 3;
    curtail[2] = 1;
    curtail[3] = 168;
    shows(
        &rt,
        &curtail,
        Command::Curtail {
            from: 3,
            to: 1,
            first_hour: 168,
            limits: &[7; LIMIT_BYTES],
        },
    )
}

#[test]
fn limits(rt: HostRuntime) {
    let mut bytes = [0; 48];
    bytes[1] = 70;
    bytes[46] = 19;
    bytes[47] = 136;
    assert_eq!(rt; limit(&bytes, 0), Some(70));
    assert_eq!(rt; limit(&bytes, 1), Some(0));
    assert_eq!(rt; limit(&bytes, 23), Some(5_000));
    assert_eq!(rt; limit(&bytes, 24), None);
}
