//! Trees and texts at their limits: 1,000,000 nodes and 16,000,000 ends.

use pattern_tree::{PatternTree, TreeFault};
use sample_feed::narrowed;
use std::alloc::{AllocError, Global};
use std::test::Fail;
use timetable::{StopId, Width};
use tree_codec::{CodecFault, decode_as, encode};

// The tree of stop 0 that has each path of one ride between stops below 1,000, with the end 0.
fn full_tree(alloc: Global) -> Result<PatternTree, Fail> {
    let mut tree = PatternTree::new_in(alloc, StopId::new(0));
    for board in 0..1_000 {
        for alight in 0..1_000 {
            let ride = (StopId::new(board), StopId::new(alight));
            if !tree.insert(&[ride], StopId::new(0))? {
                return Err(Fail::new("a pair that was there"));
            }
        }
    }
    Ok(tree)
}

// Whether a full tree takes no other path, and another end.
fn takes_ends_only(tree: &mut PatternTree) -> bool {
    let other = [(StopId::new(1_000), StopId::new(0))];
    let refused = tree.insert(&other, StopId::new(0)) == Err(TreeFault::TooLarge);
    let lacked = !tree.contains(&other, StopId::new(0));
    let first = [(StopId::new(0), StopId::new(0))];
    refused && lacked && tree.insert(&first, StopId::new(1)) == Ok(true)
}

// Whether the text is read to its end; and, with one more node announced, is refused as too large where that node would begin.
fn reads_nodes(alloc: Global, width: Width, text: &mut [u8]) -> Result<bool, Fail> {
    let (_, used) = decode_as(alloc, text, width, 1_001)?;
    let is_whole = used == text.len();
    let place = match width {
        Width::Two => 2..6,
        Width::Four => 4..8,
    };
    let Some(count) = text.get_mut(place) else {
        return Err(Fail::new("a short text"));
    };
    count.copy_from_slice(&1_000_001_u32.to_be_bytes());
    Ok(is_whole && decode_as(alloc, text, width, 1_001).err() == Some(CodecFault::TooLarge))
}

// A node with one end and no child has 20 bytes, and before the nodes stand 8. They are 12 and 6 if the number of a stop takes two bytes.
#[test]
fn nodes_up_to_the_limit(rt: HostRuntime) -> Result<(), Fail> {
    let alloc = rt.alloc();
    let mut tree = full_tree(alloc)?;
    let mut text = Vec::new(alloc);
    encode(&tree, &mut text)?;
    assert_eq!(rt; text.len(), 20_000_008);
    let mut narrow = narrowed(alloc, &text)?;
    assert_eq!(rt; narrow.len(), 12_000_006);
    assert!(rt; reads_nodes(alloc, Width::Four, &mut text)?);
    assert!(rt; reads_nodes(alloc, Width::Two, &mut narrow)?);
    assert!(rt; takes_ends_only(&mut tree));
    Ok(())
}

// Adds the number of a stop, or a number of ends.
fn put_number(text: &mut Vec<u8>, width: Width, number: u16) -> Result<(), AllocError> {
    match width {
        Width::Two => text.extend_from_slice(&number.to_be_bytes()),
        Width::Four => text.extend_from_slice(&u32::from(number).to_be_bytes()),
    }
}

// The text of first nodes from stop 0 to the stops 0 to 243, each with the ends 0 to 65,533, and of one more with `last` ends, up to
// that number.
fn many_ends(alloc: Global, width: Width, last: u16) -> Result<Vec<u8>, AllocError> {
    let mut text = Vec::new(alloc);
    put_number(&mut text, width, 0)?;
    text.extend_from_slice(b"\x00\x00\x00\xF5")?;
    for alight in 0..244_u16 {
        put_number(&mut text, width, 0)?;
        put_number(&mut text, width, alight)?;
        put_number(&mut text, width, 65_534)?;
        for end in 0..65_534_u16 {
            put_number(&mut text, width, end)?;
        }
        text.extend_from_slice(b"\x00\x00\x00\x00")?;
    }
    put_number(&mut text, width, 0)?;
    put_number(&mut text, width, 244)?;
    put_number(&mut text, width, last)?;
    Ok(text)
}

// 244 times 65,534 ends and 9,704 more are 16,000,000.
const ENDS: [(u16, CodecFault); 2] = [
    (9_704, CodecFault::Truncated),
    (9_705, CodecFault::TooLarge),
];

// Whether a text with as many ends as `ENDS` says is refused for what it should be.
fn reads_ends(alloc: Global, width: Width) -> Result<bool, AllocError> {
    for (last, fault) in ENDS {
        let text = many_ends(alloc, width, last)?;
        if decode_as(alloc, &text, width, 65_534).err() != Some(fault) {
            return Ok(false);
        }
    }
    Ok(true)
}

#[test]
fn narrow_ends_up_to_the_limit(rt: HostRuntime) -> Result<(), Fail> {
    assert!(rt; reads_ends(rt.alloc(), Width::Two)?);
    Ok(())
}

#[test]
fn ends_up_to_the_limit(rt: HostRuntime) -> Result<(), Fail> {
    assert!(rt; reads_ends(rt.alloc(), Width::Four)?);
    Ok(())
}
