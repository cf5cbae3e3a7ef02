//! Inputs by their names.
use crate::follow::FollowedFile;
use command_line::CpuFile;

/// An input that has a name.
pub(crate) trait Named {
    /// Its path, as it was given; `-` is standard input.
    fn name(&self) -> &str;
}

impl<'b> Named for CpuFile<'b> {
    fn name(&self) -> &str {
        self.path
    }
}

impl<'b> Named for &'b str {
    fn name(&self) -> &str {
        *self
    }
}

impl Named for FollowedFile {
    fn name(&self) -> &str {
        self.path.as_str()
    }
}
