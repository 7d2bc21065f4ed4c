use crate::files::{FILE, MALFORMED, RECORDS, ROOM, Row};
use book::line::Line;
use desk::step::{UNTOUCHED, hand_over};
use desk::{expect, opened, replied, told};
use intake::Reply;
use logic::concept::Concept;
use std::alloc::{AllocError, Global};
use std::test::Fail;

// A record that is put before another one: its length, and its kind. Its body is zeros.
type Damage = (u16, u16);

// The file with one record more, which begins at this place.
fn with_record(
    alloc: Global,
    file: &[u8],
    from: usize,
    (size, kind): Damage,
) -> Result<Vec<u8>, AllocError> {
    let (before, behind) = file.split_at(from.min(file.len()));
    let mut longer = before.to_vec(alloc)?;
    longer.extend_from_slice(&size.to_le_bytes())?;
    longer.extend_from_slice(&kind.to_le_bytes())?;
    for _ in 0..size {
        longer.push(0)?;
    }
    longer.extend_from_slice(behind)?;
    Ok(longer)
}

// A record before or after the one that is damaged is answered as ever.
fn as_ever(record: &Row, reply: &Reply, (size, wrong): Damage) -> Result<(), Fail> {
    let (from, _, kind, said) = *record;
    expect(
        format_args!("record at {from}, with kind {wrong} of {size} besides"),
        replied(reply),
        (kind, said),
    )
}

// The record that was put before record number `at` is malformed.
fn read_past(file: &[u8], records: &[Row], at: usize, damage: Damage) -> Result<(), Fail> {
    let mut concepts = [Concept::Top; 3];
    let mut lines = [Line::default(); 1];
    let mut docket = opened(ROOM, &mut concepts, &mut lines)?;
    let mut replies = [UNTOUCHED; 14];
    expect(
        "taken",
        told(hand_over(&mut docket, file, &mut replies)),
        Ok(14),
    )?;
    let (before, behind) = records.split_at(at.min(records.len()));
    for (record, reply) in before.iter().zip(&replies) {
        as_ever(record, reply, damage)?;
    }
    let (from, _, _, _) = records.get(at).ok_or("no such record")?;
    let reply = replies.get(at).ok_or("no such reply")?;
    let (size, kind) = damage;
    expect(
        format_args!("kind {kind} of {size}"),
        replied(reply),
        (kind, Err((MALFORMED, *from))),
    )?;
    for (record, reply) in behind.iter().zip(replies.iter().skip(at).skip(1)) {
        as_ever(record, reply, damage)?;
    }
    Ok(())
}

// Before a record one that is like it but for its length or its kind.
fn all_damages(
    alloc: Global,
    file: &[u8],
    records: &[Row],
    at: usize,
    record: &Row,
) -> Result<(), Fail> {
    let (from, end, kind, _) = *record;
    let size = end.saturating_sub(from.saturating_add(4)).min(999) as u16;
    // lines, claims and models can have every even length
    let wrong = if matches!(kind, 7 | 8 | 10) {
        size + 3
    } else {
        size + 2
    };
    for damage in [
        (size + 1, kind),
        (wrong, kind),
        (size + 255, kind),
        (size.max(2) - 1, kind),
        (size, 0),
        (size, 11),
        (size, 65535),
        (size + 1, 0),
    ] {
        let longer = with_record(alloc, file, from, damage)?;
        read_past(longer.as_slice(), records, at, damage)?;
    }
    Ok(())
}

// The same of each record.
fn each(alloc: Global, file: &[u8], records: &[Row]) -> Result<(), Fail> {
    for (at, record) in records.iter().enumerate() {
        all_damages(alloc, file, records, at, record)?;
    }
    Ok(())
}

#[test]
fn read_on_behind_damage(rt: HostRuntime) -> Result<(), Fail> {
    each(rt.alloc(), FILE, &RECORDS)
}
