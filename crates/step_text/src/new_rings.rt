//! The rings of a script before its first line.
ghost use Rattle.std.specs.Prelude.{◌≡◌, ◌++◌, ◌∷◌, [], ℕ, ◌%◌, ◌<◌, ◌≤◌, OnOk, IfOk, All, List, codes, length};
ghost use Rattle.std.specs.Prelude.{flat_map, map};
ghost use Rattle.std.specs.Fmt.{decimal};
ghost use Rattle.text_model.specs.Text.{line_feed};
ghost use Rattle.trace_model.specs.Ring.{IsStart};
ghost use Rattle.trace_model.specs.Ring as model;
ghost use Rattle.link_marks.specs.ModelLinks.{link_of};
ghost use Rattle.world_model.specs.Lanes.{Lane, IsNewLane};
ghost use Rattle.step_model.specs.Changes.{all_counts, all_links, all_pages};
ghost use Rattle.step_model.specs.StepTexts.{change_text, key_line, spaced};
ghost use Rattle.step_model.specs.RunTexts.{new_ring_text, new_rings_text, trace_line};
ghost use Rattle.step_text.specs.Seen.{counts_in};
ghost use Rattle.step_text.specs.Known.{IsKnownOf, known_in};

use crate::changes::put_count;
use crate::put::{put_link_line, put_page_line, put_reader_line, put_spaced, put_spare_link_line};
use crate::seen::{Counts, Parts};
use crate::teller::Known;
use link_marks::Link;
use ring_core::Core;
use std::alloc::Global;
use text_values::put_number;
use trace_model::NoMemory;
use trace_script::Script;

/// The first line.
pub(crate) fn put_trace_line(out: &mut Vec<u8>, script: &Script) -> Result<(), NoMemory>
    ensures { OnOk result (out.new.items ≡ out.old.items ++ trace_line script.now) }
{
    out.extend_from_slice(b"trace")?;
    put_spaced(out, script.pages() as u64)?;
    put_spaced(out, script.size() as u64)?;
    put_spaced(out, u64::from(script.cpus()))?;
    put_spaced(out, script.collectors() as u64)?;
    put_spaced(out, script.start().0)?;
    out.push(b'\n')?;
    Ok(())
}

/// What is known of a new ring.
pub(crate) fn new_ring(alloc: Global, script: &Script) -> Result<Known, NoMemory>
    ensures known { IfOk result (λ known. (c : model.Core) → IsStart script.now.pages script.now.start c
        → IsKnownOf (known_in known) c) }
    ensures pages { OnOk result (1 ≤ script.now.pages) }
{
    let start = script.start().0;
    let ring = Core::new_at(alloc, script.pages(), script.size(), start)?;
    let links = ring.links().to_vec(alloc)?;
    let order = ring.order().to_vec(alloc)?;
    let parts = Parts {
        spare_link: ring.spare_link(),
        counts: Counts {
            spare: ring.spare(),
            done: ring.done(),
            opened: ring.opened(),
            wish: ring.wish(),
            head: start,
            committed: 0,
        },
        depth: 0,
        top: None,
        reader: ring.reader(),
        records: 0,
        last_moment: 0,
    };
    Ok(Known {
        links,
        order,
        parts,
    })
}

/// A copy of what is known of a ring.
fn copy_of(alloc: Global, known: &Known) -> Result<Known, NoMemory>
    ensures { IfOk result (λ copy. known_in copy ≡ known_in known.now) }
{
    Ok(Known {
        links: known.links.as_slice().to_vec(alloc)?,
        order: known.order.as_slice().to_vec(alloc)?,
        parts: known.parts,
    })
}

/// Copies of what is known of a ring, one for each CPU.
pub(crate) fn copies_of(alloc: Global, known: &Known, cpus: u32) -> Result<Vec<Known>, NoMemory>
    ensures count { IfOk result (λ rings. length rings.items ≡ cpus) }
    ensures each { IfOk result (λ rings. All (λ copy. known_in copy ≡ known_in known.now) rings.items) }
{
    let mut rings = Vec::with_capacity(alloc, cpus as usize)?;
    for _ in 0..cpus {
        rings.push(copy_of(alloc, known)?)?;
    }
    Ok(rings)
}

/// All links.
fn put_links(out: &mut Vec<u8>, links: &[Link]) -> Result<(), NoMemory>
    ensures { OnOk result (out.new.items
        ≡ out.old.items ++ flat_map change_text (all_links 0 (map link_of links.now))) }
{
    for position in 0..links.len() {
        put_link_line(out, position as u64, links[position])?;
    }
    Ok(())
}

/// The page at each position.
fn put_pages(out: &mut Vec<u8>, order: &[u16]) -> Result<(), NoMemory>
    ensures { OnOk result (out.new.items ≡ out.old.items ++ flat_map change_text (all_pages 0 order.now)) }
{
    for position in 0..order.len() {
        put_page_line(out, position as u64, order[position])?;
    }
    Ok(())
}

/// All counts.
fn put_counts(out: &mut Vec<u8>, counts: &Counts) -> Result<(), NoMemory>
    ensures { OnOk result (out.new.items
        ≡ out.old.items ++ flat_map change_text (all_counts (counts_in counts.now))) }
{
    put_count(out, b"spare", u64::from(counts.spare))?;
    put_count(out, b"done", counts.done)?;
    put_count(out, b"opened", counts.opened)?;
    put_count(out, b"wish", counts.wish)?;
    put_count(out, b"head", counts.head)?;
    put_count(out, b"committed", counts.committed)
}

/// The line that says that the ring of this CPU is new.
fn put_new_line(out: &mut Vec<u8>, cpu: u64) -> Result<(), NoMemory>
    ensures { OnOk result (out.new.items
        ≡ out.old.items ++ (codes "- c" ++ decimal cpu ++ codes " new" ++ line_feed ∷ [])) }
{
    out.extend_from_slice(b"- c")?;
    put_number(out, cpu)?;
    out.extend_from_slice(b" new\n")?;
    Ok(())
}

/// The first fill of a ring of `pages` pages: it has no record yet.
fn put_first_fill(out: &mut Vec<u8>, fill: u64, pages: u64) -> Result<(), NoMemory>
    requires { 0 < pages }
    ensures { OnOk result (out.new.items
        ≡ out.old.items ++ key_line (codes "fill" ++ spaced fill) (decimal (fill % pages) ++ spaced 0)) }
{
    out.extend_from_slice(b"  fill")?;
    put_spaced(out, fill)?;
    put_spaced(out, fill % pages)?;
    put_spaced(out, 0)?;
    out.push(b'\n')?;
    Ok(())
}

/// A new ring of this CPU.
fn put_new_ring(out: &mut Vec<u8>, cpu: u64, known: &Known) -> Result<(), NoMemory>
    requires { 0 < length (known_in known.now).order }
    ensures { OnOk result ((n start : ℕ) (c : model.Core)
        → IsStart n start c
        → IsKnownOf (known_in known.now) c
        → out.new.items ≡ out.old.items ++ new_ring_text cpu c) }
{
    let parts = &known.parts;
    put_new_line(out, cpu)?;
    put_links(out, known.links.as_slice())?;
    put_spare_link_line(out, parts.spare_link)?;
    put_pages(out, known.order.as_slice())?;
    put_counts(out, &parts.counts)?;
    put_reader_line(out, parts.reader)?;
    put_first_fill(out, parts.counts.head, known.order.len() as u64)
}

/// The rings of all CPUs.
pub(crate) fn put_new_rings(out: &mut Vec<u8>, cpus: u32, known: &Known) -> Result<(), NoMemory>
    requires { 0 < length (known_in known.now).order }
    ensures { OnOk result ((n start : ℕ) (lanes : List Lane)
        → length lanes ≡ cpus
        → All (IsNewLane n start) lanes
        → ((c : model.Core) → IsStart n start c → IsKnownOf (known_in known.now) c)
        → out.new.items ≡ out.old.items ++ new_rings_text lanes) }
{
    for cpu in 0..cpus {
        put_new_ring(out, u64::from(cpu), known)?;
    }
    Ok(())
}
