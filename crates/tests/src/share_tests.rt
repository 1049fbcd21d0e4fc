use crate::prints;
use counting::Counting;
use rounds::{Round, lend_and_return};
use shares::{LONGEST_TEXT, Printed, Share, join_all, text_of};
use std::test::Fail;
use trees::Trees;

// The half kept, so many times over.
fn kept<S: Share>(share: S, times: u16) -> Option<S> {
    let mut left = share;
    for _ in 0..times {
        left = left.halve()?.0;
    }
    Some(left)
}

#[test]
fn the_whole_tree_halves(rt: HostRuntime) -> Result<(), Fail> {
    let halves = Trees::whole().halve().ok_or("no halves")?;
    assert!(rt; prints(Trees::whole(), b"1"));
    assert!(rt; prints(halves.0, b"(10)"));
    assert!(rt; prints(halves.1, b"(01)"));
    Ok(())
}

#[test]
fn the_upper_half_halves(rt: HostRuntime) -> Result<(), Fail> {
    let upper = Trees::whole().halve().ok_or("no halves")?.1;
    let halves = upper.halve().ok_or("no halves")?;
    assert!(rt; prints(halves.0, b"(0(10))"));
    assert!(rt; prints(halves.1, b"(0(01))"));
    Ok(())
}

#[test]
fn a_half_and_a_quarter_join(rt: HostRuntime) -> Result<(), Fail> {
    let halves = Trees::whole().halve().ok_or("no halves")?;
    let quarter = halves.1.halve().ok_or("no halves")?.0;
    let joined = halves.0.join(quarter).ok_or("no join")?;
    assert!(rt; prints(joined, b"(1(10))"));
    assert!(rt; halves.0.join(halves.0).is_none());
    Ok(())
}

#[test]
fn one_cell_does_not_halve(rt: HostRuntime) -> Result<(), Fail> {
    let cell = kept(Trees::whole(), 6).ok_or("no halves")?;
    assert!(rt; prints(cell, b"((((((10)0)0)0)0)0)"));
    assert!(rt; cell.halve().is_none());
    assert!(rt; Trees::empty().halve().is_none());
    Ok(())
}

#[test]
fn readers_come_back_to_their_source(rt: HostRuntime) -> Result<(), Fail> {
    let reader = Counting::whole().halve().ok_or("no halves")?.1;
    let source = kept(Counting::whole(), 3).ok_or("no halves")?;
    let three = join_all(&[reader, reader, reader]).ok_or("no join")?;
    let four = join_all(&[three, reader]).ok_or("no join")?;
    assert!(rt; prints(source, b"s3"));
    assert!(rt; prints(three, b"r3"));
    assert!(rt; source.join(three).ok_or("no join")? == Counting::whole());
    assert!(rt; source.join(four).is_none());
    Ok(())
}

#[test]
fn a_source_gives_out_4095_readers(rt: HostRuntime) -> Result<(), Fail> {
    let source = kept(Counting::whole(), 4094).ok_or("no halves")?;
    let halves = source.halve().ok_or("no halves")?;
    assert!(rt; prints(source, b"s4094"));
    assert!(rt; prints(halves.0, b"s4095"));
    assert!(rt; prints(halves.1, b"r1"));
    assert!(rt; halves.0.halve().is_none());
    Ok(())
}

#[test]
fn one_reader_does_not_halve(rt: HostRuntime) -> Result<(), Fail> {
    let reader = Counting::whole().halve().ok_or("no halves")?.1;
    let two = reader.join(reader).ok_or("no join")?;
    let halves = two.halve().ok_or("no halves")?;
    assert!(rt; prints(halves.0, b"r1"));
    assert!(rt; prints(halves.1, b"r1"));
    assert!(rt; reader.halve().is_none());
    assert!(rt; Counting::empty().halve().is_none());
    assert!(rt; prints(Counting::empty(), b"e"));
    Ok(())
}

// Every second cell of a block of 2 ^ (depth + 1) cells.
fn every_second(block: Trees, depth: u8) -> Option<Trees> {
    let halves = block.halve()?;
    if depth == 0 {
        return Some(halves.0);
    }
    let low = every_second(halves.0, depth - 1)?;
    let high = every_second(halves.1, depth - 1)?;
    low.join(high)
}

#[test]
fn the_longest_text_has_190_bytes(rt: HostRuntime) -> Result<(), Fail> {
    let mut space = [b'.'; LONGEST_TEXT];
    let share = every_second(Trees::whole(), 5).ok_or("no join")?;
    assert_eq!(rt; share.write(&mut space), 190);
    assert_eq!(rt; space[0], b'(');
    assert_eq!(rt; space[189], b')');
    Ok(())
}

#[test]
fn bytes_after_a_text_stay(rt: HostRuntime) -> Result<(), Fail> {
    let mut space = [b'.'; LONGEST_TEXT];
    let length = Trees::whole()
        .halve()
        .ok_or("no halves")?
        .0
        .write(&mut space);
    assert_eq!(rt; length, 4);
    assert_eq!(rt; space[3], b')');
    assert_eq!(rt; space[4], b'.');
    assert_eq!(rt; space[189], b'.');
    Ok(())
}

#[test]
fn a_share_has_its_text_as_a_string(rt: HostRuntime) -> Result<(), Fail> {
    let half = Trees::whole().halve().ok_or("no halves")?.0;
    let source = kept(Counting::whole(), 3).ok_or("no halves")?;
    assert_eq!(rt; text_of(rt.alloc(), half)?.as_str(), "(10)");
    assert_eq!(rt; text_of(rt.alloc(), source)?.as_str(), "s3");
    Ok(())
}

#[test]
fn a_round_of_counting_shares_serves_4095(rt: HostRuntime) -> Result<(), Fail> {
    let round: Round<Counting> = lend_and_return(rt.alloc(), 4096)?;
    assert_eq!(rt; round.out.loans.len(), 4095);
    assert!(rt; prints(round.out.left, b"s4095"));
    assert!(rt; round.back == Counting::whole());
    Ok(())
}
