//! The inputs, each read whole, as a region.
ghost use Rattle.std.specs.Prelude.{◌≡◌, ◌≢◌, false, All, IfErr, IfOk};
ghost use Rattle.collect_command.specs.recovery.Reading.{ReadsRegion, AreRead, IsWhy, StopsReading};

use command_io::{InputFault, Source, read_all};
use ring_region::{Region, RegionFault, read_region};
use std::alloc::Global;

/// Why an input gives no region.
#[derive(Clone, Copy, Debug, PartialEq, Eq)]
pub(crate) enum Unread {
    /// A read of it failed.
    Read,
    /// It is longer than what is read.
    TooLong,
    /// What it has is no region.
    Fault(RegionFault),
    /// Memory was refused.
    NoMemory,
}

/// The index of the input that gives no region, and why.
#[derive(Clone, Copy, Debug, PartialEq, Eq)]
pub(crate) struct Stopped {
    pub(crate) input: usize,
    pub(crate) why: Unread,
}

/// Why there is no region, if not for memory.
fn unread_for(fault: RegionFault) -> Unread
    ensures memory { fault ≡ RegionFault.NoMemory → result ≡ Unread.NoMemory }
    ensures other { fault ≢ RegionFault.NoMemory → result ≡ Unread.Fault fault }
{
    match fault {
        RegionFault::NoMemory => Unread::NoMemory,
        _ => Unread::Fault(fault),
    }
}

/// Reads an input whole, as a region.
fn read_input<R: Source>(alloc: Global, reader: &mut R) -> Result<Region, Unread>
    requires { R.failed reader.old ≡ false }
    ensures region { IfOk result (λ region.
        ReadsRegion R.remaining R.count R.failed reader.old reader.new region) }
    ensures unread { IfErr result (λ why. IsWhy R.remaining R.count R.failed reader.old reader.new why) }
{
    match read_all(alloc, reader) {
        Ok(bytes) => match read_region(alloc, &bytes) {
            Ok(region) => Ok(region),
            Err(fault) => Err(unread_for(fault)),
        },
        Err(InputFault::Read) => Err(Unread::Read),
        Err(InputFault::TooLong) => Err(Unread::TooLong),
        Err(InputFault::NoMemory) => Err(Unread::NoMemory),
    }
}

/// Reads all inputs, each whole, as regions. After a fault nothing more is read.
pub(crate) fn read_inputs<R: Source>(
    alloc: Global,
    inputs: &mut [R],
) -> Result<Vec<Region>, Stopped>
    requires { All (λ reader. R.failed reader ≡ false) inputs.old }
    ensures read { IfOk result (λ regions.
        AreRead R.remaining R.count R.failed inputs.old inputs.new regions.items) }
    ensures stopped { IfErr result (λ stopped.
        StopsReading R.remaining R.count R.failed inputs.old inputs.new stopped) }
{
    let mut regions = Vec::new(alloc);
    for input in 0..inputs.len() {
        match read_input(alloc, &mut inputs[input]) {
            Ok(region) => {
                if regions.push(region).is_err() {
                    return Err(Stopped {
                        input,
                        why: Unread::NoMemory,
                    });
                }
            }
            Err(why) => return Err(Stopped { input, why }),
        }
    }
    Ok(regions)
}
