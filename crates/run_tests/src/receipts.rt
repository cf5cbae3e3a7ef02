//! A receipt that goes by a channel, from a writer's thread to a reader's.
ghost use Rattle.std.specs.Prelude.{◌≡◌};
ghost use Rattle.ring_shared.specs.Calls.{IsWriter};
ghost use Rattle.ring_shared.specs.Takes.{IsReader};

use crossbeam_channel::{Receiver, Sender, bounded};
use page_image::Body;
use ring_shared::{Reader, Receipt, Take, Writer, ring};
use std::alloc::Global;
use std::marker::{Brand, PhantomData};
use std::sync::Wait;
use std::test::Fail;
use std::thread;
use std::thread::Threads;
use trace_model::FillNo;

/// Names one ring, so that both threads know that the receipt is of theirs.
trait RingName {
    ghost use Rattle.atomic_table.specs.Seated.{TableId};

    ghost table: { TableId };
}

impl RingName for Brand {
    ghost use Rattle.std.specs.Prelude.{[]};

    ghost table = { record {
      words = 0;
      slots = 0;
      views_name = 0;
      atom = 0;
      block = 0;
      offset = 0;
      slot_names = [];
    } };
}

/// A receipt of the ring of this name.
#[derive(Drop)]
struct Note<N: RingName> {
    receipt: Receipt,
    ring: PhantomData<N>,
    ghost is_of: { receipt.table ≡ N.table },
}

/// Writes two records, each of which fills a page, so that the first page is closed; and sends a receipt.
fn write_and_send<N: RingName, R: Wait>(rt: &R, writer: Writer, sender: Sender<Note<N>>) -> bool
    requires writer { IsWriter writer }
    requires ring { writer.table ≡ N.table }
{
    let mut writer = writer;
    let written = writer.write(1, &[b'a'; 28]).is_ok() && writer.write(2, &[b'b'; 28]).is_ok();
    let note = Note {
        receipt: writer.receipt(),
        ring: PhantomData,
    };
    written && writer.done() == 1 && sender.send(rt, note).is_ok()
}

/// Learns a receipt, and takes a page.
fn receive_and_take<N: RingName, R: Wait>(
    rt: &R,
    alloc: Global,
    reader: Reader,
    receiver: Receiver<Note<N>>,
) -> Option<FillNo>
    requires reader { IsReader reader }
    requires ring { reader.table ≡ N.table }
    requires size { reader.shape.size ≡ 32 }
{
    let mut reader = reader;
    let Note { receipt, ring: _ } = receiver.recv(rt).ok()?;
    reader.learn(receipt);
    match reader.take(Body::new(alloc, 32).ok()?) {
        Take::Page(page, 0) => Some(page.fill()),
        _ => None,
    }
}

/// Writes in one thread and takes in another.
fn write_and_take<N: RingName + Send, R: Threads + Wait + Sync>(
    rt: &R,
    alloc: Global,
    writer: Writer,
    reader: Reader,
) -> Result<(bool, Option<FillNo>), Fail>
    requires writer { IsWriter writer × (writer.table ≡ N.table) }
    requires reader { IsReader reader × (reader.table ≡ N.table) × (reader.shape.size ≡ 32) }
{
    let (sender, receiver) = bounded(alloc, 1)?;
    Ok(thread::join(
        rt,
        move || write_and_send::<N, R>(rt, writer, sender),
        move || receive_and_take::<N, R>(rt, alloc, reader, receiver),
    ))
}

#[test]
fn what_a_receipt_has_is_found(rt: HostRuntime) -> Result<(), Fail> {
    let (writer, reader) = ring(rt.alloc(), 2, 32)?;
    let (written, taken) = write_and_take::<Brand, _>(&rt, rt.alloc(), writer, reader)?;
    assert!(rt; written);
    assert!(rt; taken == Some(FillNo(0)));
    Ok(())
}
