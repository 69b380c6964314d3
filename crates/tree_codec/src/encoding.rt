//! Writing a tree.

ghost use Rattle.std.specs.Prelude.{◌≡◌, ◌<◌, ◌++◌, OnOk, OnErr};
ghost use Rattle.byteorder.specs.Endian.{big_bytes};
ghost use Rattle.timetable.specs.Writing.{Grown};
ghost use Rattle.pattern_tree.specs.Forest.{forest};
ghost use Rattle.pattern_tree.specs.Branch.{branch, branches};
ghost use Rattle.tree_codec.specs.Text.{numbers_text, nodes_text, StopsBelow, AreBelow, AppendsText};
ghost use Rattle.timetable.specs.Widths.{byte_count};
ghost use Rattle.tree_codec.specs.Writing.{head_text, HeadBelow};

use pattern_tree::{Node, PatternTree};
use std::alloc::{AllocError, Allocator};
use timetable::{StopId, Width};

/// Writes a number, by its lowest bytes.
fn put_number(out: &mut Vec<u8>, width: Width, number: usize) -> Result<(), AllocError>
    ensures ok { OnOk result (out.new.items ≡ out.old.items ++ big_bytes (byte_count width) number) }
    ensures err { OnErr result (Grown out.old.items out.new.items) }
{
    let bytes = (number as u64).to_be_bytes();
    out.extend_from_slice(&bytes[8 - width.byte_count()..])
}

/// Writes a stop's number.
fn put_stop(out: &mut Vec<u8>, width: Width, stop: StopId) -> Result<(), AllocError>
    ensures ok { OnOk result (out.new.items ≡ out.old.items ++ big_bytes (byte_count width) stop) }
    ensures err { OnErr result (Grown out.old.items out.new.items) }
    ensures below { stop < 1000000 }
{
    put_number(out, width, stop.number())
}

/// Writes the ends of a node.
fn put_ends(out: &mut Vec<u8>, width: Width, ends: &[StopId]) -> Result<(), AllocError>
    ensures ok { OnOk result (out.new.items ≡ out.old.items ++ numbers_text (byte_count width) ends.now) }
    ensures below { OnOk result (AreBelow 1000000 ends.now) }
    ensures err { OnErr result (Grown out.old.items out.new.items) }
{
    for end in ends {
        put_stop(out, width, *end)?;
    }
    Ok(())
}

/// Writes a node up to the number of its children.
fn put_node<A: Allocator>(out: &mut Vec<u8>, width: Width, node: &Node<A>) -> Result<(), AllocError>
    ensures ok { OnOk result (out.new.items ≡ out.old.items ++ head_text (byte_count width) (branch node.now)) }
    ensures below { OnOk result (HeadBelow 1000000 (branch node.now)) }
    ensures err { OnErr result (Grown out.old.items out.new.items) }
{
    let ends = node.ends.as_slice();
    let next = node.next.as_slice();
    put_stop(out, width, node.board)?;
    put_stop(out, width, node.alight)?;
    put_number(out, width, ends.len())?;
    put_ends(out, width, ends)?;
    put_number(out, Width::Four, next.len())
}

/// Writes siblings and all below them.
fn put_level<A: Allocator>(
    out: &mut Vec<u8>,
    width: Width,
    level: &[Node<A>],
) -> Result<(), AllocError>
    ensures ok { OnOk result (out.new.items ≡ out.old.items ++ nodes_text (byte_count width) (forest (branches level.now))) }
    ensures below { OnOk result (StopsBelow 1000000 (forest (branches level.now))) }
    ensures err { OnErr result (Grown out.old.items out.new.items) }
{
    for node in level {
        put_node(out, width, node)?;
        put_level(out, width, &node.next)?;
    }
    Ok(())
}

/// Writes the text of a tree.
fn put_tree<A: Allocator>(tree: &PatternTree<A>, out: &mut Vec<u8>) -> Result<(), AllocError>
    ensures ok { OnOk result (AppendsText 4 1000000 out.old.items out.new.items tree.now) }
    ensures err { OnErr result (Grown out.old.items out.new.items) }
{
    put_stop(out, Width::Four, tree.source())?;
    let first = tree.first();
    put_number(out, Width::Four, first.len())?;
    put_level(out, Width::Four, first)
}

/// Writes the text of a tree at the end. If memory runs out, the vector is as before.
pub fn encode<A: Allocator>(tree: &PatternTree<A>, out: &mut Vec<u8>) -> Result<(), AllocError>
    ensures ok { OnOk result (AppendsText 4 1000000 out.old.items out.new.items tree.now) }
    ensures err { OnErr result (out.new.items ≡ out.old.items) }
{
    let before = out.len();
    let written = put_tree(tree, out);
    if written.is_err() {
        out.truncate(before);
    }
    written
}
