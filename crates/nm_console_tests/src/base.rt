//! Numbers, sets of them, tags and tokens.

use nm_base::{
    ChangeMask, ChangeNo, DeviceMask, DeviceNo, Failed, Groups, Numbers, SessionId, Tag,
    count_fault, token, write_decimal,
};
use std::test::Fail;

fn session(number: u32) -> Option<u32> {
    SessionId::new(number).map(SessionId::get)
}

#[test]
fn sessions_have_their_range(rt: HostRuntime) {
    assert!(rt; session(0).is_none());
    assert!(rt; session(1) == Some(1) && session(u32::MAX) == Some(4294967295));
}

fn is_mask_of(first: DeviceNo, last: DeviceNo) -> bool {
    let both = DeviceMask(0).with(last).with(first);
    both == DeviceMask(0x8000_0001)
        && both.contains(last)
        && both.first() == Some(first)
        && both.without(first).first() == Some(last)
}

// Whether a set of changes 1 and 64 has the least change 1, and is a set of change 1 without the other.
fn is_set_with(set: ChangeMask, change: ChangeNo) -> bool {
    set == ChangeMask(0x8000_0000_0000_0001)
        && set.contains(change)
        && set.without(change) == ChangeMask(1)
        && set.first() == ChangeNo::new(1)
}

// Bit d - 1 stands for device d, and bit c - 1 for change set c.
#[test]
fn masks_are_sets(rt: HostRuntime) -> Result<(), Fail> {
    let first = DeviceNo::new(1).ok_or("1")?;
    let last = DeviceNo::new(32).ok_or("32")?;
    let change = ChangeNo::new(64).ok_or("64")?;
    assert!(rt; is_mask_of(first, last) && DeviceMask(0).first().is_none());
    assert!(rt; is_set_with(ChangeMask(1).with(change), change));
    Ok(())
}

#[test]
fn decimals_are_written(rt: HostRuntime) -> Result<(), Fail> {
    let mut text = Vec::new(rt.alloc());
    text.extend_from_slice(b"n=")?;
    write_decimal(18446744073709551615, &mut text)?;
    assert!(rt; text.as_slice() == b"n=18446744073709551615".as_slice());
    Ok(())
}

fn text_of(number: u8) -> &'static str {
    Tag::from_number(number).map_or("none", Tag::text)
}

// The texts of RFC 6241 appendix A that no journal has, and numbers that are none.
#[test]
fn tags_of_edits_have_their_texts(rt: HostRuntime) {
    assert!(rt; text_of(9) == "unknown-element" && text_of(10) == "bad-attribute");
    assert!(rt; text_of(11) == "missing-element" && text_of(0) == "none" && text_of(12) == "none");
}

fn are_three(numbers: &Numbers) -> bool {
    numbers.as_slice() == [7, 3, 7].as_slice()
        && numbers.len() == 3
        && numbers.contains(3)
        && !numbers.contains(4)
}

#[test]
fn numbers_are_listed(rt: HostRuntime) -> Result<(), Fail> {
    let mut numbers = Numbers::new(rt.alloc());
    let was_empty = numbers.is_empty();
    numbers.push(7)?;
    numbers.push(3)?;
    numbers.push(7)?;
    assert!(rt; was_empty && are_three(&numbers));
    let mut groups = Groups::new(rt.alloc());
    groups.push(numbers)?;
    assert!(rt; groups.as_slice().len() == 1);
    Ok(())
}

fn counts_to(count: u64, want: u64) -> bool {
    let mut faults = count;
    count_fault(&mut faults) == Failed && faults == want
}

#[test]
fn counts_stay_at_the_greatest(rt: HostRuntime) {
    assert!(rt; counts_to(0, 1) && counts_to(u64::MAX, u64::MAX));
}

#[test]
fn tokens_have_their_numbers(rt: HostRuntime) -> Result<(), Fail> {
    let change = ChangeNo::new(12).ok_or("12")?;
    let token = token::token_of(rt.alloc(), change)?;
    assert!(rt; token.as_str() == "netm:12" && token::is_reserved(&token));
    Ok(())
}
