ghost use Rattle.std.specs.Prelude.{◌≡◌, ℕ, ◌+◌, ◌<◌, ◌≤◌, length, Some, None, Ok, Err};

use crate::fault::ShortBuffer;

// A listing, line by line.
pub trait Lines {
    // Writes the next line as the buffer's first bytes and tells its length; none after the last.
    fn next_line(&mut self, buffer: &mut [u8]) -> Result<Option<usize>, ShortBuffer>
        ensures { elim result [ Ok told ↦ (4096 ≤ length buffer.old) × elim told [ Some n ↦ (n ≤ length buffer.old) | None ↦ Unit {0} ] | Err e ↦ (length buffer.old < 4096) × (buffer.new ≡ buffer.old) × (self.new ≡ self.old) ] };
}
