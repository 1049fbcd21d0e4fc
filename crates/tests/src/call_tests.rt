use calls::{Call, NotACall};
use std::process::Abort;

// Whether a text is read as no call.
fn is_refused(text: &str) -> bool {
    let answer: Result<Call, NotACall> = text.parse();
    answer == Err(NotACall)
}

#[test]
fn texts_are_read_as_calls(rt: HostRuntime) {
    let signed: Result<Call, NotACall> = " open  +7 007".parse();
    assert_eq!(rt;
        signed,
        Ok(Call::Open {
            resource: 7,
            holder: 7
        })
    );
    let highest: Result<Call, NotACall> = "day 65535\n".parse();
    assert_eq!(rt; highest, Ok(Call::Day { day: 65_535 }));
}

#[test]
fn other_texts_are_no_calls(rt: HostRuntime) {
    assert!(rt; is_refused(""));
    assert!(rt; is_refused("now"));
    assert!(rt; is_refused("Today"));
    assert!(rt; is_refused("open 7"));
    assert!(rt; is_refused("open 7 1 5"));
    assert!(rt; is_refused("open 7 -1"));
    assert!(rt; is_refused("open 7 +"));
    assert!(rt; is_refused("day 65536"));
}
