//! Names and files at their bounds.
use sheet::{Cause, Fault, Reader, Record, Writer};

const PLAIN: [u8; 33] = [0x20; 33];

// What is answered to a name with this text.
fn naming(text: &[u8]) -> Result<(), Cause> {
    let mut out = [0; 64];
    let mut writer = Writer::begin(&mut out)?;
    writer.write(&Record::Name { sensor: 1, text })
}

// What is answered to the reading of a file's first two records.
fn second(file: &[u8]) -> Result<(), Fault> {
    let mut reader = Reader::open(file)?;
    reader.next()?;
    reader.next()?;
    Ok(())
}

// The number and the position of a refusal.
fn numbers(fault: Fault) -> (u8, usize) {
    (u8::from(fault.cause), fault.position)
}

#[test]
fn lengths_of_names(rt: HostRuntime) {
    assert_eq!(rt; naming(&PLAIN[..32]), Ok(()));
    assert_eq!(rt; naming(&PLAIN).map_err(u8::from), Err(13));
    assert_eq!(rt; naming(&[]).map_err(u8::from), Err(13));
}

#[test]
fn bytes_of_names(rt: HostRuntime) {
    assert_eq!(rt; naming(&[0x20, 0x7e]), Ok(()));
    assert_eq!(rt; naming(&[0x20, 0x1f]).map_err(u8::from), Err(14));
    assert_eq!(rt; naming(&[0x7f]).map_err(u8::from), Err(14));
}

#[test]
fn names_read(rt: HostRuntime) {
    let mut file = [1, 0, 8, 1, 2, 1, 1, 0, 0, 0, 0, 0, 3, 2, 0, 0x7e];
    assert_eq!(rt; second(&file), Ok(()));
    file[15] = 0x7f;
    assert_eq!(rt; second(&file).map_err(numbers), Err((14, 11)));
}

#[test]
fn lengths_of_files(rt: HostRuntime) {
    let file = [1; 32769];
    assert!(rt; Reader::open(&file[..32768]).is_ok());
    assert_eq!(rt; second(&file).map_err(numbers), Err((10, 0)));
}
