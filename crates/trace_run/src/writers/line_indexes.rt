//! The indexes of lines among the commands of a script: 4 bytes an index, while it fits 32 bits.
use std::alloc::Global;
use std::marker::Model;
use trace_model::NoMemory;

/// The indexes of lines among the commands of a script, in rising order: in a script of fewer than 2^32 commands all
/// are short.
#[derive(Drop)]
pub struct LineIndexes {
    short: Vec<u32>,
    /// The first index that doesn't fit 32 bits, and all after it.
    long: Vec<usize>,
}

impl Model for LineIndexes {
    ghost use Rattle.std.specs.Prelude.{ℕ, List, ◌++◌};

    ghost Value = { List ℕ };

    ghost view = { λ indexes. indexes.short.items ++ indexes.long.items };
}

impl LineIndexes {
    ghost use Rattle.std.specs.Prelude.{◌≡◌, ◌<◌, [], ◌∷◌, ◌++◌, length, slice_index, OnOk, OnErr};

    /// No index.
    pub(crate) fn new(alloc: Global) -> LineIndexes
        ensures { result ≡ [] }
    {
        LineIndexes {
            short: Vec::new(alloc),
            long: Vec::new(alloc),
        }
    }

    /// Puts an index after all others that doesn't fit 32 bits, or that has such a one before it.
    #[cold]
    #[inline(never)]
    fn push_long(&mut self, line_index: usize) -> Result<(), NoMemory>
        ensures pushed { OnOk result (self.new ≡ self.old ++ line_index ∷ []) }
        ensures refused { OnErr result (self.new ≡ self.old) }
    {
        self.long.push(line_index)?;
        Ok(())
    }

    /// Puts an index after all others.
    #[inline(always)]
    pub(crate) fn push(&mut self, line_index: usize) -> Result<(), NoMemory>
        ensures pushed { OnOk result (self.new ≡ self.old ++ line_index ∷ []) }
        ensures refused { OnErr result (self.new ≡ self.old) }
    {
        if self.long.is_empty() {
            if line_index <= u32::MAX as usize {
                self.short.push(line_index as u32)?;
                return Ok(());
            }
        }
        self.push_long(line_index)
    }

    /// How many there are.
    pub(crate) fn len(&self) -> usize
        ensures { result ≡ length self.now }
    {
        self.short.len() + self.long.len()
    }

    /// The one at this position of the list.
    #[inline(always)]
    pub(crate) fn get(&self, index: usize) -> usize
        requires { index < length self.now }
        ensures { result ≡ slice_index self.now index }
    {
        if index < self.short.len() {
            return self.short[index] as usize;
        }
        self.long[index - self.short.len()]
    }
}
