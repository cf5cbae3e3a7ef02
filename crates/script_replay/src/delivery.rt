//! A page that was taken from the ring of a CPU is found for its delivery.
ghost use Rattle.std.specs.Prelude.{◌≡◌, ◌≢◌, None, IfSome, All};
ghost use Rattle.page_numbers.specs.Parcels.{as_parcel, as_parcels};
ghost use Rattle.collector.specs.deliveries.Deliveries.{AreRising};
ghost use Rattle.script_replay.specs.Collected.{HasParcel};
ghost use Rattle.script_replay.specs.LanesByCpu.{lane_at};

use crate::lane::Lane;
use collector::deliveries::find;
use page_numbers::Parcel;
use trace_model::{CpuId, FillNo};

/// The page of this fill that was taken from the ring of a CPU.
pub(crate) fn taken_page<'l, 'a>(
    lanes: &'l [Option<Box<Lane<'a>>>],
    cpu: CpuId,
    fill: FillNo,
) -> Option<&'l Parcel>
    requires { IfSome (lane_at lanes.now cpu.0) (λ lane. AreRising (as_parcels lane.taken)) }
    ensures found { IfSome result (λ parcel. HasParcel (lane_at lanes.now cpu.0) fill.0 (as_parcel parcel.now)) }
    ensures not_found { result ≡ None
        → IfSome (lane_at lanes.now cpu.0) (λ lane. All (λ parcel. parcel.fill ≢ fill.0) (as_parcels lane.taken)) }
{
    match lanes.get(cpu.0 as usize) {
        Some(Some(lane)) => find(lane.taken(), fill),
        _ => None,
    }
}
