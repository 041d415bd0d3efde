//! What a table of words finds.
use smps_words::Words;
use std::test::Fail;

/// The table of the kinds of bounds.
macro_rules! kinds {
    () => {
        Words::new(b"LO UP FX FR MI PL", [10, 20, 30, 40, 50, 60])
    };
}

#[test]
fn words_have_the_codes_of_their_rows(rt: HostRuntime) -> Result<(), Fail> {
    let table = kinds!();
    assert_eq!(rt; table.find(b"LO"), Some(10));
    assert_eq!(rt; table.find(b"PL"), Some(60));
    assert_eq!(rt; table.find(b"L"), None);
    assert_eq!(rt; table.find(b"UP "), None);
    assert_eq!(rt; table.find(b""), None);
    Ok(())
}
