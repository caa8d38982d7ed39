ghost use Rattle.std.specs.Prelude.{◌≡◌, ℕ, ◌+◌, ◌*◌, ◌^◌, ◌<◌, ◌≤◌, ◌&&◌, nat_le, length, slice_index, slice_set};
ghost use Rattle.std.specs.Int.{is_power_of_two};

use blocks::number::FrameNumber;

// How many words a page has, and so a frame of the frame memory: frame f has the words from f times as many on. Past the
// end of the memory a word reads 0 and is not written. Any u16 may be one, so that a wrong one can be refused.
#[derive(Clone, Copy, PartialEq, Eq, Debug)]
pub struct WordsAPage(pub u16);

impl WordsAPage {
    // Whether a page may have so many: a power of two, at most 2,048.
    pub fn is_allowed(self) -> bool
        ensures { result ≡ (is_power_of_two self.0 && nat_le self.0 2048) }
    {
        self.0 <= 2048 && self.0.is_power_of_two()
    }

    // The words of so many frames.
    pub fn of_frames(self, frames: u16) -> usize
        ensures { result ≡ frames * self.0 }
    {
        usize::from(frames) * usize::from(self.0)
    }

    fn place(self, frame: FrameNumber, word: u16) -> usize
        ensures { result ≡ frame.0 * self.0 + word }
    {
        self.of_frames(frame.0) + usize::from(word)
    }

    pub fn read(self, memory: &[u32], frame: FrameNumber, word: u16) -> u32
        ensures { result ≡ slice_index memory.now (frame.0 * self.0 + word) }
    {
        memory.get(self.place(frame, word)).copied().unwrap_or(0)
    }

    pub fn write(self, memory: &mut [u32], frame: FrameNumber, word: u16, value: u32)
        ensures { memory.new ≡ slice_set memory.old (frame.0 * self.0 + word) value }
    {
        // `get_mut` was tried, and the proof did not close.
        let place = self.place(frame, word);
        if place < memory.len() {
            memory[place] = value;
        }
    }

    // Zeroes the words of a frame.
    pub fn zero_page(self, memory: &mut [u32], frame: FrameNumber)
        ensures here { (i : ℕ) → frame.0 * self.0 ≤ i → i < frame.0 * self.0 + self.0 → slice_index memory.new i ≡ 0 }
        ensures below { (i : ℕ) → i < frame.0 * self.0 → slice_index memory.new i ≡ slice_index memory.old i }
        ensures above { (i : ℕ) → frame.0 * self.0 + self.0 ≤ i → slice_index memory.new i ≡ slice_index memory.old i }
    {
        let start = self.of_frames(frame.0).min(memory.len());
        let end = (start + usize::from(self.0)).min(memory.len());
        memory[start..end].fill(0);
    }
}
