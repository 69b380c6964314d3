//! Reads one section of a store.

ghost use Rattle.std.specs.Prelude.{◌≡◌, ◌↔◌, ◌^◌, ◌⊎◌, ◌≤◌, ◌<◌, ◌+◌, ℕ, List, length, drop, IfOk, IfErr, IfSome, MatchOption};
ghost use Rattle.timetable.specs.Table.{stops_of};
ghost use Rattle.section_store.specs.Sections.{Fits, IsSection, IsNew, MayStand};
ghost use Rattle.section_store.specs.Sources.{IsSetOf};
ghost use Rattle.recovery.specs.Reading.{OnlyCounted, IsBad, IsShut, IsFound};
ghost use Rattle.recovery.specs.Recovery.{IsEnd, IsOutside};

use crate::found::Found;
use crate::reading::read_text;
use disk_model::Disk;
use pattern_tree::PatternTree;
use section_store::reading_laws::sized_apart;
use section_store::{Form, StopSet};
use std::alloc::Allocator;
use store_faults::RecoverFault;
use tree_codec::laws::{texts_apart, texts_within};
use tree_codec::{CodecFault, decode_as};

// The tree whose text that is, all of it, if it may stand after the sources that are present; none if there is no such
// tree.
fn tree_in<A: Allocator + Clone>(
    alloc: A,
    text: &[u8],
    form: &Form,
    present: &StopSet,
) -> Result<Option<PatternTree<A>>, RecoverFault>
    requires fits { Fits form.now }
    ensures found { (stored : List ℕ) → IsSetOf (stops_of form.now.table) present.now stored → length text.now < 2 ^ 32
        → IfOk result (λ found. MatchOption found (IsBad form.now stored text.now)
        (λ tree. IsSection form.now text.now tree × IsNew tree.source stored)) }
    ensures known { IfOk result (λ found. IfSome found (MayStand form.now)) }
    ensures memory { IfErr result (λ fault. fault ≡ RecoverFault.Memory) }
{
    texts_apart();
    texts_within();
    match decode_as(
        alloc,
        text,
        form.version().width(),
        form.timetable().stops(),
    ) {
        Ok(read) => {
            let (tree, used) = read;
            if used < text.len() {
                return Ok(None);
            }
            if tree.depth() > usize::from(form.k().number()) {
                return Ok(None);
            }
            if present.contains(tree.source()) {
                return Ok(None);
            }
            Ok(Some(tree))
        }
        Err(fault) => {
            if fault == CodecFault::Memory {
                Err(RecoverFault::Memory)
            } else {
                Ok(None)
            }
        }
    }
}

/// A tree that was read, and where the gate after it stands.
#[derive(Drop)]
pub(crate) struct Section<A: Allocator> {
    pub(crate) tree: PatternTree<A>,
    pub(crate) end: u64,
}

/// The section that comes next, its tree in the memory of `alloc`; none if the gate there is closed. Its text is read into `text`.
pub(crate) fn next_section<D: Disk, A: Allocator + Clone>(
    alloc: A,
    disk: &mut D,
    end: u64,
    form: &Form,
    found: &Found,
    text: &mut Vec<u8>,
) -> Result<Option<Section<A>>, RecoverFault>
    requires fits { Fits form.now }
    requires within { found.now.place ≤ end }
    requires whole { D.honest disk.old → end ≡ length (D.state disk.old).read }
    requires set { IsSetOf (stops_of form.now.table) found.now.present found.now.stored.items }
    ensures honest { D.honest disk.old ↔ D.honest disk.new }
    ensures same { D.honest disk.old → D.state disk.new ≡ D.state disk.old }
    ensures next { D.honest disk.old → IfOk result (λ ahead. MatchOption ahead (IsShut (drop found.now.place (D.state disk.old).read))
        (λ section. IsFound form.now found.now.stored.items (drop found.now.place (D.state disk.old).read) found.now.place section.tree
        section.end)) }
    ensures ended { D.honest disk.old → IfErr result (λ fault. IsOutside fault
        ⊎ ((fault ≡ RecoverFault.Damaged (length found.now.stored.items))
        × IsEnd form.now found.now.stored.items (drop found.now.place (D.state disk.old).read))) }
    ensures known { IfOk result (λ ahead. IfSome ahead (λ section. MayStand form.now section.tree)) }
    ensures inside { IfOk result (λ ahead. IfSome ahead (λ section. (found.now.place < section.end) × (section.end ≤ end))) }
    ensures counted { OnlyCounted result (D.failures disk.old) (D.failures disk.new) }
{
    sized_apart();
    let place = found.place;
    let number = found.stored.len();
    match read_text(disk, place, end, number, text) {
        Err(fault) => Err(fault),
        Ok(ahead) => {
            if !ahead {
                return Ok(None);
            }
            match tree_in(alloc, text, form, &found.present) {
                Err(fault) => Err(fault),
                Ok(read) => match read {
                    None => Err(RecoverFault::Damaged(number)),
                    Some(tree) => Ok(Some(Section {
                        tree,
                        end: place + 5 + text.len() as u64,
                    })),
                },
            }
        }
    }
}
