//! Texts of trees, in which the number of a stop takes two bytes, as in the first version of a store, and in which it takes four.

use linked_list_allocator::LocalHeap;
use pattern_tree::PatternTree;
use sample_feed::narrowed;
use std::alloc::{Allocator, Global};
use std::test::Fail;
use timetable::{StopId, Width};
use tree_codec::{CodecFault, decode, decode_v1, encode};

// Of source 0: (0, 1) ends at 1, and goes on by (1, 3), which ends at 3; (0, 2) ends at 2 and 4; (0, 3) ends at 3.
const OLD_SOURCE_0: [u8; 56] = [
    0, 0, 0, 0, 0, 3, 0, 0, 0, 1, 0, 1, 0, 1, 0, 0, 0, 1, 0, 1, 0, 3, 0, 1, 0, 3, 0, 0, 0, 0, 0, 0,
    0, 2, 0, 2, 0, 2, 0, 4, 0, 0, 0, 0, 0, 0, 0, 3, 0, 1, 0, 3, 0, 0, 0, 0,
];

const SOURCE_0: [u8; 92] = [
    0, 0, 0, 0, 0, 0, 0, 3, 0, 0, 0, 0, 0, 0, 0, 1, 0, 0, 0, 1, 0, 0, 0, 1, 0, 0, 0, 1, 0, 0, 0, 1,
    0, 0, 0, 3, 0, 0, 0, 1, 0, 0, 0, 3, 0, 0, 0, 0, 0, 0, 0, 0, 0, 0, 0, 2, 0, 0, 0, 2, 0, 0, 0, 2,
    0, 0, 0, 4, 0, 0, 0, 0, 0, 0, 0, 0, 0, 0, 0, 3, 0, 0, 0, 1, 0, 0, 0, 3, 0, 0, 0, 0,
];

// Of source 0: (0, 1) ends at 1.
const OLD_ONE_NODE: [u8; 18] = [0, 0, 0, 0, 0, 1, 0, 0, 0, 1, 0, 1, 0, 1, 0, 0, 0, 0];

const ONE_NODE: [u8; 28] = [
    0, 0, 0, 0, 0, 0, 0, 1, 0, 0, 0, 0, 0, 0, 0, 1, 0, 0, 0, 1, 0, 0, 0, 1, 0, 0, 0, 0,
];

// Eight nodes, one below the other, and a child announced below the eighth.
const OLD_NINE_LEVELS: [u8; 86] = [
    0, 0, 0, 0, 0, 1, 0, 0, 0, 1, 0, 0, 0, 0, 0, 1, 0, 0, 0, 1, 0, 0, 0, 0, 0, 1, 0, 0, 0, 1, 0, 0,
    0, 0, 0, 1, 0, 0, 0, 1, 0, 0, 0, 0, 0, 1, 0, 0, 0, 1, 0, 0, 0, 0, 0, 1, 0, 0, 0, 1, 0, 0, 0, 0,
    0, 1, 0, 0, 0, 1, 0, 0, 0, 0, 0, 1, 0, 0, 0, 1, 0, 0, 0, 0, 0, 1,
];

const NINE_LEVELS: [u8; 136] = [
    0, 0, 0, 0, 0, 0, 0, 1, 0, 0, 0, 0, 0, 0, 0, 1, 0, 0, 0, 0, 0, 0, 0, 1, 0, 0, 0, 0, 0, 0, 0, 1,
    0, 0, 0, 0, 0, 0, 0, 1, 0, 0, 0, 0, 0, 0, 0, 1, 0, 0, 0, 0, 0, 0, 0, 1, 0, 0, 0, 0, 0, 0, 0, 1,
    0, 0, 0, 0, 0, 0, 0, 1, 0, 0, 0, 0, 0, 0, 0, 1, 0, 0, 0, 0, 0, 0, 0, 1, 0, 0, 0, 0, 0, 0, 0, 1,
    0, 0, 0, 0, 0, 0, 0, 1, 0, 0, 0, 0, 0, 0, 0, 1, 0, 0, 0, 0, 0, 0, 0, 1, 0, 0, 0, 0, 0, 0, 0, 1,
    0, 0, 0, 0, 0, 0, 0, 1,
];

// The tree that the bytes begin with, and how many bytes its text takes.
fn read<A: Allocator + Clone>(
    alloc: A,
    width: Width,
    bytes: &[u8],
) -> Result<(PatternTree<A>, usize), CodecFault> {
    match width {
        Width::Two => decode_v1(alloc, bytes, 5),
        Width::Four => decode(alloc, bytes, 5),
    }
}

// What the tree that the bytes begin with is written as again.
fn text_of(alloc: Global, width: Width, bytes: &[u8]) -> Result<Vec<u8>, CodecFault> {
    let (tree, _) = read(alloc, width, bytes)?;
    let mut text = Vec::new(alloc);
    encode(&tree, &mut text)?;
    Ok(match width {
        Width::Two => narrowed(alloc, &text)?,
        Width::Four => text,
    })
}

// Whether the text is that of the tree that is read from it, and each front of it ends too early.
fn is_text(alloc: Global, width: Width, text: &[u8]) -> Result<bool, CodecFault> {
    let again = text_of(alloc, width, text)?;
    for len in 0..text.len() {
        if !is_refused(alloc, width, &text[..len], CodecFault::Truncated) {
            return Ok(false);
        }
    }
    Ok(again.as_slice() == text)
}

const TEXTS: [(Width, &[u8]); 4] = [
    (Width::Two, &OLD_SOURCE_0),
    (Width::Two, &OLD_ONE_NODE),
    (Width::Four, &SOURCE_0),
    (Width::Four, &ONE_NODE),
];

#[test]
fn texts_and_their_fronts(rt: HostRuntime) -> Result<(), Fail> {
    for (width, text) in TEXTS {
        assert!(rt; is_text(rt.alloc(), width, text)?);
    }
    Ok(())
}

#[test]
fn one_node(rt: HostRuntime) -> Result<(), Fail> {
    let mut tree = PatternTree::new_in(rt.alloc(), StopId::new(0));
    assert!(rt; tree.insert(&[(StopId::new(0), StopId::new(1))], StopId::new(1))?);
    let mut text = Vec::new(rt.alloc());
    encode(&tree, &mut text)?;
    assert!(rt; text.as_slice() == ONE_NODE.as_slice());
    Ok(())
}

// The first of the faults that are met: in texts of two bytes,
const OLD_FAULTS: [(&[u8], CodecFault); 7] = [
    (&[0, 5, 0, 0, 0, 0], CodecFault::UnknownStop),
    (
        &[0, 0, 0, 0, 0, 1, 0, 0, 0, 5, 0, 1, 0, 1, 0, 0, 0, 0],
        CodecFault::UnknownStop,
    ),
    (
        &[0, 0, 0, 0, 0, 1, 0, 0, 0, 1, 0, 2, 0, 1, 0, 1],
        CodecFault::NotRising,
    ),
    (
        &[
            0, 0, 0, 0, 0, 2, 0, 0, 0, 1, 0, 1, 0, 1, 0, 0, 0, 0, 0, 0, 0, 1,
        ],
        CodecFault::NotRising,
    ),
    (
        &[0, 0, 0, 0, 0, 1, 0, 0, 0, 1, 0, 0, 0, 0, 0, 0],
        CodecFault::EmptyNode,
    ),
    (&OLD_NINE_LEVELS, CodecFault::TooDeep),
    (&[], CodecFault::Truncated),
];

// and of four. A node may announce 16,000,000 ends, and no more.
const FAULTS: [(&[u8], CodecFault); 10] = [
    (b"\x00\x00\x00\x05\x00\x00\x00\x00", CodecFault::UnknownStop),
    (b"\x00\x01\x00\x00\x00\x00\x00\x00", CodecFault::UnknownStop),
    (
        b"\x00\x00\x00\x00\x00\x00\x00\x01\x00\x00\x00\x00\x00\x00\x00\x05\x00\x00\x00\x01\x00\x00\x00\x01\x00\x00\x00\x00",
        CodecFault::UnknownStop,
    ),
    (
        b"\x00\x00\x00\x00\x00\x00\x00\x01\x00\x00\x00\x00\x00\x00\x00\x01\x00\x00\x00\x02\x00\x00\x00\x01\x00\x00\x00\x01",
        CodecFault::NotRising,
    ),
    (
        b"\x00\x00\x00\x00\x00\x00\x00\x02\x00\x00\x00\x00\x00\x00\x00\x01\x00\x00\x00\x01\x00\x00\x00\x01\x00\x00\x00\x00\
        \x00\x00\x00\x00\x00\x00\x00\x01",
        CodecFault::NotRising,
    ),
    (
        b"\x00\x00\x00\x00\x00\x00\x00\x01\x00\x00\x00\x00\x00\x00\x00\x01\x00\x00\x00\x00\x00\x00\x00\x00",
        CodecFault::EmptyNode,
    ),
    (&NINE_LEVELS, CodecFault::TooDeep),
    (
        b"\x00\x00\x00\x00\x00\x00\x00\x01\x00\x00\x00\x00\x00\x00\x00\x01\x00\xF4\x24\x01",
        CodecFault::TooLarge,
    ),
    (
        b"\x00\x00\x00\x00\x00\x00\x00\x01\x00\x00\x00\x00\x00\x00\x00\x01\x00\xF4\x24\x00",
        CodecFault::Truncated,
    ),
    (&[], CodecFault::Truncated),
];

// Whether the text is refused for that.
fn is_refused(alloc: Global, width: Width, bytes: &[u8], fault: CodecFault) -> bool {
    text_of(alloc, width, bytes) == Err(fault)
}

#[test]
fn faults_are_named(rt: HostRuntime) {
    for (bytes, fault) in OLD_FAULTS {
        assert!(rt; is_refused(rt.alloc(), Width::Two, bytes, fault));
    }
    for (bytes, fault) in FAULTS {
        assert!(rt; is_refused(rt.alloc(), Width::Four, bytes, fault));
    }
}

// Whether the text with another byte is refused, or begins with what it is read as.
fn has_answer(
    alloc: Global,
    width: Width,
    text: &[u8],
    place: usize,
    byte: u8,
) -> Result<bool, CodecFault> {
    let mut changed = text.to_vec(alloc)?;
    let Some(there) = changed.get_mut(place) else {
        return Ok(false);
    };
    *there = byte;
    Ok(match text_of(alloc, width, &changed) {
        Ok(text) => changed.starts_with(&text),
        Err(fault) => fault != CodecFault::Memory,
    })
}

#[test]
fn each_changed_byte_has_an_answer(rt: HostRuntime) -> Result<(), Fail> {
    let texts: [(Width, &[u8]); 2] = [(Width::Two, &OLD_SOURCE_0), (Width::Four, &SOURCE_0)];
    for (width, text) in texts {
        for place in 0..text.len() {
            for byte in 0..=255 {
                assert!(rt; has_answer(rt.alloc(), width, text, place, byte)?);
            }
        }
    }
    Ok(())
}

// The largest counts of nodes and of ends, with a heap of a few blocks.
const COUNTS: [(Width, &[u8]); 4] = [
    (Width::Two, &[0, 0, 255, 255, 255, 255]),
    (Width::Two, &[0, 0, 0, 0, 0, 1, 0, 0, 0, 1, 255, 255]),
    (Width::Four, &[0, 0, 0, 0, 255, 255, 255, 255]),
    (
        Width::Four,
        &[
            0, 0, 0, 0, 0, 0, 0, 1, 0, 0, 0, 0, 0, 0, 0, 1, 0, 244, 36, 0,
        ],
    ),
];

// Whether the text is refused since it ends too early, and nothing of the heap is taken.
fn reserves_nothing(heap: &LocalHeap, width: Width, bytes: &[u8]) -> bool {
    let fault = read(heap, width, bytes).err();
    fault == Some(CodecFault::Truncated) && heap.used() == 0
}

#[test]
fn counts_reserve_nothing(rt: HostRuntime) -> Result<(), Fail> {
    let heap = LocalHeap::new(rt.alloc(), 1024)?;
    for (width, bytes) in COUNTS {
        assert!(rt; reserves_nothing(&heap, width, bytes));
    }
    Ok(())
}
