//! Reads texts of trees.

ghost use Rattle.std.specs.Prelude.{◌≡◌, ◌≢◌, ◌↔◌, ◌<◌, ◌+◌, ◌^◌, List, take, drop, get_or, length, map, IsTrue, IfOk, IfErr, MatchResult};
ghost use Rattle.std.specs.List.{All};
ghost use Rattle.disk_model.specs.Disk.{Grew, State, empty_disk};
ghost use Rattle.pattern_tree.specs.Content.{Content};
ghost use Rattle.section_store.specs.Sections.{Form, IsSection, MayStand, form_of};
ghost use Rattle.part_shelf.specs.Spots.{IsTextAt};

use crate::entry::Spot;
use crate::fault::TextFault;
use disk_model::{Disk, ReadFault, read_up_to};
use pattern_tree::PatternTree;
use std::alloc::Global;
use timetable::{Rides, StopId, Timetable, Width};
use tree_codec::laws::{texts_apart, texts_within};
use tree_codec::{CodecFault, decode};

/// The text that stands in a file from a place on, in place of what `text` has.
pub(crate) fn read_text<D: Disk>(
    disk: &mut D,
    place: u64,
    size: u64,
    text: &mut Vec<u8>,
) -> Result<(), TextFault>
    ensures honest { D.honest disk.old ↔ D.honest disk.new }
    ensures same { D.honest disk.old → D.state disk.new ≡ D.state disk.old }
    ensures text { D.honest disk.old → place + size < 2 ^ 64 → MatchResult result
        (λ _. text.new.items ≡ take size (drop place (D.state disk.old).read)) (λ fault. fault ≢ TextFault.Changed) }
    ensures counted { MatchResult result (λ _. D.failures disk.new ≡ D.failures disk.old)
        (λ fault. fault ≡ TextFault.Device → Grew (D.failures disk.old) (D.failures disk.new)) }
{
    if place.checked_add(size).is_none() {
        return Err(TextFault::Changed);
    }
    match read_up_to(disk, place, size, text) {
        Ok(()) => Ok(()),
        Err(ReadFault::Failed) => Err(TextFault::Device),
        Err(ReadFault::Memory) => Err(TextFault::Memory),
    }
}

/// The text that stands at a spot, in place of what `text` has.
pub(crate) fn read_spot<D: Disk>(
    disks: &mut Vec<D>,
    spot: Spot,
    text: &mut Vec<u8>,
) -> Result<(), TextFault>
    ensures honest { All D.honest disks.old.items → All D.honest disks.new.items }
    ensures same { All D.honest disks.old.items → map D.state disks.new.items ≡ map D.state disks.old.items }
    ensures text { (form : Form) (states : List State) (tree : Content) → All D.honest disks.old.items
        → states ≡ map D.state disks.old.items → spot.part < length states
        → IsTextAt form (get_or states spot.part empty_disk).read spot.place spot.size tree
        → MatchResult result (λ _. IsSection form text.new.items tree) (λ fault. fault ≢ TextFault.Changed) }
    ensures counted { MatchResult result (λ _. map D.failures disks.new.items ≡ map D.failures disks.old.items)
        (λ fault. fault ≡ TextFault.Device
        → Grew (get_or (map D.failures disks.old.items) spot.part 0) (get_or (map D.failures disks.new.items) spot.part 0)) }
    ensures long { length disks.new.items ≡ length disks.old.items }
{
    let Spot { part, place, size } = spot;
    if part >= disks.len() {
        return Err(TextFault::Changed);
    }
    read_text(&mut disks[part], place, size, text)
}

/// Whether these are the same bytes.
pub(crate) fn same_bytes(left: &[u8], right: &[u8]) -> bool
    ensures { IsTrue result ↔ left.now ≡ right.now }
{
    left == right
}

/// The tree of the stop whose text that is, all of it. No other text was there before.
pub(crate) fn tree_in(
    alloc: Global,
    text: &[u8],
    table: &Timetable,
    rides: Rides,
    stop: StopId,
) -> Result<PatternTree, TextFault>
    ensures tree { (tree : Content) → IsSection (form_of table.now rides) text.now tree → tree.source ≡ stop
        → MatchResult result (λ read. read ≡ tree) (λ fault. fault ≢ TextFault.Changed) }
    ensures may { IfOk result (MayStand (form_of table.now rides)) }
    ensures of { IfOk result (λ tree. tree.source ≡ stop) }
    ensures device { IfErr result (λ fault. fault ≢ TextFault.Device) }
{
    texts_apart();
    texts_within();
    match decode(alloc, text, table.stops()) {
        Ok(read) => {
            let (tree, used) = read;
            if used < text.len() {
                return Err(TextFault::Changed);
            }
            if tree.depth() > usize::from(rides.number()) {
                return Err(TextFault::Changed);
            }
            if tree.source() != stop {
                return Err(TextFault::Changed);
            }
            Ok(tree)
        }
        Err(fault) => {
            if fault == CodecFault::Memory {
                Err(TextFault::Memory)
            } else {
                Err(TextFault::Changed)
            }
        }
    }
}
