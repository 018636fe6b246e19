//! Sheets at the bounds of what may be loaded.
use kinds::SheetRule;
use load::load::load;
use plan::draft::Draft;

// What is answered to loading a file into two places: where it is refused, the number and the position.
fn answer(file: &[u8]) -> Result<(), (u8, u32)> {
    let mut places = [SheetRule::default(); 2];
    let mut draft = Draft::begin(&mut places);
    load(file, &mut draft).map_err(|fault| (u8::from(fault.cause), fault.position))
}

// A head, then three rules of four bytes into two places.
#[test]
fn rules_of_a_file(rt: HostRuntime) {
    let file = [
        1, 0, 8, 1, 1, 1, 1, 0, 0, 0, 0, 0, 2, 11, 0, 0, 2, 11, 0, 0, 2, 11, 0,
    ];
    assert_eq!(rt; answer(&file[..19]), Ok(()));
    assert_eq!(rt; answer(&file), Err((8, 19)));
}

// A rule on a set that is not there, then a record of no known kind: the first one counts.
#[test]
fn first_fault(rt: HostRuntime) {
    let file = [1, 0, 8, 1, 1, 1, 1, 0, 0, 0, 0, 0, 2, 11, 9, 0, 1, 12];
    assert_eq!(rt; answer(&file), Err((3, 11)));
    assert_eq!(rt; answer(&file[..11]), Ok(()));
}

// A name's sensor is on the board, and a name does nothing else.
#[test]
fn names_of_sensors(rt: HostRuntime) {
    let mut file = [1, 0, 8, 1, 2, 1, 1, 0, 0, 0, 0, 0, 3, 2, 1, 0x41];
    assert_eq!(rt; answer(&file), Ok(()));
    file[14] = 2;
    assert_eq!(rt; answer(&file), Err((2, 11)));
}
