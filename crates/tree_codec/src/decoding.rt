//! Reading a tree. The bytes are from strangers: no more is reserved by a count than a few nodes for which there are bytes, or one end for
//! each byte. Nodes are read no deeper than 8 levels. A node is read where it stays, after its earlier siblings: it isn't moved.

ghost use Rattle.std.specs.Prelude.{None, ℕ, ◌≡◌, ◌≢◌, ◌<◌, ◌≤◌, ◌++◌, ◌-◌, min, List, [], length, take, IfOk, IfErr, MatchResult};
ghost use Rattle.pattern_tree.specs.Forest.{forest, none};
ghost use Rattle.pattern_tree.specs.Branch.{branch, branches};
ghost use Rattle.pattern_tree.specs.Content.{Content};
ghost use Rattle.tree_codec.specs.Text.{TreeText, BeginsNoText};
ghost use Rattle.timetable.specs.Widths.{byte_count, most_stops};
ghost use Rattle.tree_codec.specs.Reading.{Fails, Gives, remaining, end_follows, step_follows, lacks_items, ends_at, node_at, children_at, level_at, tree_at};

use crate::fault::CodecFault;
use crate::input::Input;
use crate::width::StopForm;
use pattern_tree::{MOST_ENDS, MOST_NODES, Node, PatternTree};
use std::alloc::{AllocError, Allocator};
use timetable::{StopId, Width};

/// How many levels of nodes a tree has at most.
const MOST_LEVELS: u8 = 8;

/// For how many siblings memory is reserved at most before they are read.
const RESERVED_NODES: usize = 64;

/// A node takes more bytes than these, whatever the width.
const BELOW_A_NODE: usize = 8;

/// How many nodes and ends may still come.
#[derive(Drop)]
struct Room {
    nodes: u32,
    ends: u32,
}

/// Whether `end` comes after the last one, if there is one.
fn end_follows(last: Option<StopId>, end: StopId) -> bool
    ensures { result ≡ end_follows last end }
{
    match last {
        None => true,
        Some(last) => last < end,
    }
}

/// Whether a step comes after the last one, if there is one.
fn step_follows(last: Option<(StopId, StopId)>, board: StopId, alight: StopId) -> bool
    ensures { result ≡ step_follows last (board, alight) }
{
    match last {
        None => true,
        Some(last) => last.0 < board || last.0 == board && last.1 < alight,
    }
}

/// Whether a node with `ends` ends and `children` children has nothing.
fn is_empty(ends: u32, children: u32) -> bool
    ensures { result ≡ lacks_items ends children }
{
    ends == 0 && children == 0
}

/// Reads `count` ends, into an empty list.
fn read_ends<A: Allocator>(
    input: &mut Input,
    form: StopForm,
    count: u32,
    ends: &mut Vec<StopId, A>,
) -> Result<(), CodecFault>
    requires { ends.old.items ≡ [] }
    ensures { Gives (λ _. (ends.new.items, input.new.bytes.now)) result
        (ends_at (byte_count form.width) form.stops count None input.old.bytes.now) }
{
    ends.reserve_exact((count as usize).min(input.bytes.len()))?;
    let mut last = None;
    for _ in 0..count {
        let end = input.stop(form)?;
        if !end_follows(last, end) {
            return Err(CodecFault::NotRising);
        }
        ends.push(end)?;
        last = Some(end);
    }
    Ok(())
}

/// A node that isn't read yet.
fn blank<A: Allocator + Clone>(alloc: &A) -> Result<Node<A>, AllocError>
    ensures { IfOk result (λ node. branch node ≡ record { board = 0; alight = 0; ends = []; next = none }) }
{
    Ok(Node {
        board: StopId::new(0),
        alight: StopId::new(0),
        ends: Vec::new(alloc.clone()?),
        next: Vec::new(alloc.clone()?),
    })
}

/// Reads a node with all below it, on at most `below` levels, into one that isn't read yet.
#[cycle(nodes)]
#[tactic(auto, unfolding(crate::specs::Reading::node_at))]
fn read_node<A: Allocator + Clone>(
    alloc: &A,
    input: &mut Input,
    room: &mut Room,
    form: StopForm,
    below: u8,
    last: Option<(StopId, StopId)>,
    node: &mut Node<A>,
) -> Result<(), CodecFault>
    requires ends { (branch node.old).ends ≡ [] }
    requires next { (branch node.old).next ≡ none }
    ensures { Gives (λ _. (branch node.new, remaining input.new.bytes.now room.new.nodes room.new.ends)) result
        (node_at (byte_count form.width) form.stops (children_at (byte_count form.width) form.stops below) last
        (remaining input.old.bytes.now room.old.nodes room.old.ends)) }
{
    if room.nodes == 0 {
        return Err(CodecFault::TooLarge);
    }
    let mut rest = Input { bytes: input.bytes };
    let board = rest.stop(form)?;
    let alight = rest.stop(form)?;
    if !step_follows(last, board, alight) {
        return Err(CodecFault::NotRising);
    }
    let count = rest.number(form.width)?;
    if room.ends < count {
        return Err(CodecFault::TooLarge);
    }
    node.board = board;
    node.alight = alight;
    read_ends(&mut rest, form, count, &mut node.ends)?;
    let children = rest.number(Width::Four)?;
    if is_empty(count, children) {
        return Err(CodecFault::EmptyNode);
    }
    input.bytes = rest.bytes;
    room.nodes -= 1;
    room.ends -= count;
    if children > 0 {
        read_level(alloc, input, room, form, below, children, &mut node.next)?;
    }
    Ok(())
}

/// Reads `count` siblings with all below them, on at most `levels` levels, into an empty list.
#[cycle(nodes)]
fn read_level<A: Allocator + Clone>(
    alloc: &A,
    input: &mut Input,
    room: &mut Room,
    form: StopForm,
    levels: u8,
    count: u32,
    nodes: &mut Vec<Node<A>, A>,
) -> Result<(), CodecFault>
    requires { nodes.old.items ≡ [] }
    ensures { Gives (λ _. (forest (branches nodes.new.items), remaining input.new.bytes.now room.new.nodes room.new.ends)) result
        (level_at (byte_count form.width) form.stops levels count None (remaining input.old.bytes.now room.old.nodes room.old.ends)) }
{
    let room_for = (input.bytes.len() / BELOW_A_NODE).min(RESERVED_NODES);
    nodes.reserve_exact((count as usize).min(room_for))?;
    let mut last = None;
    for _ in 0..count {
        if levels == 0 {
            return Err(CodecFault::TooDeep);
        }
        let node = nodes.push_mut(blank(alloc)?)?;
        read_node(alloc, input, room, form, levels - 1, last, node)?;
        last = Some((node.board, node.alight));
    }
    Ok(())
}

/// Reads a tree's source and its nodes.
#[tactic(auto, unfolding(crate::specs::Reading::tree_at))]
fn source_and_nodes<A: Allocator + Clone>(
    alloc: &A,
    input: &mut Input,
    room: &mut Room,
    form: StopForm,
) -> Result<(StopId, Vec<Node<A>, A>), CodecFault>
    requires nodes { room.old.nodes ≡ MOST_NODES }
    requires ends { room.old.ends ≡ MOST_ENDS }
    ensures { Gives (λ read. (read.0, forest (branches read.1.items), remaining input.new.bytes.now room.new.nodes room.new.ends)) result
        (tree_at (byte_count form.width) form.stops input.old.bytes.now) }
{
    let source = input.stop(form)?;
    let count = input.number(Width::Four)?;
    let mut first = Vec::new(alloc.clone()?);
    read_level(alloc, input, room, form, MOST_LEVELS, count, &mut first)?;
    Ok((source, first))
}

/// The tree whose text the bytes begin with, its stops in this form, and how many bytes the text takes.
fn tree<A: Allocator + Clone>(
    alloc: A,
    bytes: &[u8],
    form: StopForm,
) -> Result<(PatternTree<A>, usize), CodecFault>
    ensures read { MatchResult result
        (λ read. (read.1 ≤ length bytes.now) × TreeText (byte_count form.width) form.stops (take read.1 bytes.now) read.0)
        (λ fault. fault ≢ CodecFault.Memory → BeginsNoText (byte_count form.width) form.stops bytes.now) }
    ensures fault { IfErr result (λ fault. Fails fault (tree_at (byte_count form.width) form.stops bytes.now)) }
{
    let mut input = Input { bytes };
    let mut room = Room {
        nodes: MOST_NODES,
        ends: MOST_ENDS,
    };
    let (source, first) = source_and_nodes(&alloc, &mut input, &mut room, form)?;
    let nodes = MOST_NODES - room.nodes;
    let ends = MOST_ENDS - room.ends;
    let used = bytes.len() - input.bytes.len();
    Ok((PatternTree::from_nodes(source, nodes, ends, first), used))
}

/// The tree whose text the bytes begin with, its stops in this width, and how many bytes the text takes. Each stop's number is below
/// `n_stops`, and below the number of stops that the width has numbers for. What follows the text isn't looked at. A fault other than want
/// of memory comes only if the bytes begin with no text, and is the first that is met from left to right.
pub fn decode_as<A: Allocator + Clone>(
    alloc: A,
    bytes: &[u8],
    width: Width,
    n_stops: usize,
) -> Result<(PatternTree<A>, usize), CodecFault>
    ensures read { MatchResult result
        (λ read. (read.1 ≤ length bytes.now) × TreeText (byte_count width) (min n_stops (most_stops width)) (take read.1 bytes.now) read.0)
        (λ fault. fault ≢ CodecFault.Memory → BeginsNoText (byte_count width) (min n_stops (most_stops width)) bytes.now) }
    ensures fault { IfErr result (λ fault. Fails fault (tree_at (byte_count width) (min n_stops (most_stops width)) bytes.now)) }
{
    let stops = n_stops.min(width.most_stops() as usize) as u32;
    let form = StopForm { width, stops };
    tree(alloc, bytes, form)
}

/// The same of a text in which the number of a stop takes four bytes.
pub fn decode<A: Allocator + Clone>(
    alloc: A,
    bytes: &[u8],
    n_stops: usize,
) -> Result<(PatternTree<A>, usize), CodecFault>
    ensures read { MatchResult result
        (λ read. (read.1 ≤ length bytes.now) × TreeText 4 (min n_stops 1000000) (take read.1 bytes.now) read.0)
        (λ fault. fault ≢ CodecFault.Memory → BeginsNoText 4 (min n_stops 1000000) bytes.now) }
    ensures fault { IfErr result (λ fault. Fails fault (tree_at 4 (min n_stops 1000000) bytes.now)) }
{
    decode_as(alloc, bytes, Width::Four, n_stops)
}

/// The same of a text in which it takes two bytes, as in the first version of a store.
pub fn decode_v1<A: Allocator + Clone>(
    alloc: A,
    bytes: &[u8],
    n_stops: usize,
) -> Result<(PatternTree<A>, usize), CodecFault>
    ensures read { MatchResult result
        (λ read. (read.1 ≤ length bytes.now) × TreeText 2 (min n_stops 65534) (take read.1 bytes.now) read.0)
        (λ fault. fault ≢ CodecFault.Memory → BeginsNoText 2 (min n_stops 65534) bytes.now) }
    ensures fault { IfErr result (λ fault. Fails fault (tree_at 2 (min n_stops 65534) bytes.now)) }
{
    decode_as(alloc, bytes, Width::Two, n_stops)
}
