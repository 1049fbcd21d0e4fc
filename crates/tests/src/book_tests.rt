use book::{Book, BookReason, Code, Event, Header, MOST_BYTES};
use kinds::KindOfShare;
use std::test::Fail;

// The worked book of ten events.
const WORKED: [u8; 78] = [
    10, 0, 1, 2, 30, 0, 0, 0, 1, 2, 2, 2, 3, 7, 5, 2, 2, 6, 7, 0, 1, 0, 0, 0, 1, 0, 2, 0, 20, 0, 2,
    0, 3, 0, 10, 0, 3, 0, 4, 0, 5, 0, 2, 0, 0, 0, 0, 0, 10, 0, 0, 0, 0, 0, 2, 0, 1, 0, 0, 0, 1, 0,
    5, 0, 41, 0, 1, 0, 5, 0, 40, 0, 2, 0, 0, 0, 0, 0,
];

// The number of the refusal of some bytes, or 0 where they open.
fn refusal(bytes: &[u8]) -> u8 {
    Book::open(bytes).err().map_or(0, BookReason::number)
}

#[test]
fn the_worked_book_opens(rt: HostRuntime) -> Result<(), Fail> {
    let book = Book::open(&WORKED)?;
    let header = Header {
        events: 10,
        kind: KindOfShare::Trees,
        chain: 2,
        term: 30,
    };
    assert_eq!(rt; book.header, header);
    let fourth = book.event(3).ok_or("no fourth event")?;
    assert_eq!(rt; fourth.code_and_operands(), Ok((Code::Delegate, [3, 4, 5])));
    let last = book.event(9).ok_or("no tenth event")?;
    assert_eq!(rt; last.code_and_operands(), Ok((Code::Recall, [2, 0, 0])));
    assert!(rt; book.event(10).is_none());
    Ok(())
}

// Each of these breaks the rule of its number and, where it can, the rules after it. The last two break none.
#[test]
fn the_first_broken_rule_refuses(rt: HostRuntime) {
    assert_eq!(rt; refusal(&[]), 41);
    assert_eq!(rt; refusal(&[255, 255, 0, 0, 0, 0, 1]), 41);
    assert_eq!(rt; refusal(&[1, 16, 0, 0, 0, 0, 1, 0]), 42);
    assert_eq!(rt; refusal(&[1, 0, 0, 0, 0, 0, 1, 0]), 43);
    assert_eq!(rt; refusal(&[0, 16, 4, 0, 0, 0, 1, 0]), 43);
    assert_eq!(rt; refusal(&[1, 0, 1, 0, 0, 0, 1, 0]), 44);
    assert_eq!(rt; refusal(&[1, 0, 2, 0, 0, 0, 0, 1]), 44);
    assert_eq!(rt; refusal(&[1, 0, 1, 0, 0, 0, 0, 0]), 45);
    assert_eq!(rt; refusal(&[0, 0, 2, 0, 0, 0, 0, 0, 0]), 45);
    assert_eq!(rt; refusal(&[0, 0, 2, 255, 255, 255, 0, 0]), 0);
    assert_eq!(rt; refusal(&[1, 0, 1, 0, 0, 0, 0, 0, 8, 0, 0, 0, 0, 0, 0]), 0);
}

#[test]
fn the_longest_book_opens(rt: HostRuntime) {
    let mut bytes = [0; 28681];
    bytes[1] = 16;
    bytes[2] = 2;
    assert_eq!(rt; MOST_BYTES, 28680);
    assert_eq!(rt; refusal(&bytes[..MOST_BYTES]), 0);
    assert_eq!(rt; refusal(&bytes), 45);
}

#[test]
fn an_unknown_code_comes_before_an_unused_operand(rt: HostRuntime) {
    let bytes = [1, 0, 2, 0, 0, 1];
    let event = |code| Event {
        code,
        bytes: &bytes,
    };
    assert_eq!(rt; event(0).code_and_operands(), Err(BookReason::UnknownCode));
    assert_eq!(rt; event(8).code_and_operands(), Err(BookReason::UnknownCode));
    assert_eq!(rt;
        event(1).code_and_operands(),
        Err(BookReason::UnusedOperand)
    );
    assert_eq!(rt;
        event(2).code_and_operands(),
        Ok((Code::Delegate, [1, 2, 256]))
    );
}
