//! A teller for replays whose steps nobody is told of.
use crate::log::{At, LogLine};
use crate::{Asked, Teller};
use page_numbers::Parcel;
use ring_core::{Answer, Core};
use trace_model::NoMemory;

/// For a replay whose steps are told to nobody. (It has a value, since the kit refuses methods that can't be called.)
#[derive(Drop)]
pub(crate) struct Nobody;

impl Teller for Nobody {
    ghost use Rattle.std.specs.Prelude.{None, false, refl};

    const TELLS: bool = false;

    ghost TELLS = { false };

    ghost told = { λ _. None };

    ghost untold = { λ _ _. refl };

    #[inline(always)]
    fn tell(
        &mut self,
        _at: At,
        _asked: Asked,
        _answer: &Answer,
        _ring: &Core,
    ) -> Result<(), NoMemory> {
        Ok(())
    }

    #[inline(always)]
    fn tell_delivery(&mut self, _logged: &LogLine) -> Result<(), NoMemory> {
        Ok(())
    }

    #[inline(always)]
    fn tell_gains(&mut self, _parcel: &Parcel) -> Result<(), NoMemory> {
        Ok(())
    }
}
