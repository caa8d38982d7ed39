ghost use Rattle.std.specs.Prelude.{◌≡◌, ℕ, ◌+◌, ◌*◌, ◌<◌, ◌≤◌, [], ◌∷◌, length, decimal, MatchResult};
ghost use Rattle.replay.specs.Lines.{Adds, Pushes, field, fields_by, line, title};

use crate::fault::ShortBuffer;

// The shortest buffer that every line fits.
pub const LINE_BYTES: usize = 4096;

// What a listing begins with.
pub const TITLE: &[u8; 18] = b"superpage replay 1";

pub fn check_buffer(buffer: &[u8]) -> Result<(), ShortBuffer>
    ensures { MatchResult result (λ _. 4096 ≤ length buffer.now) (λ _. length buffer.now < 4096) }
{
    if buffer.len() < LINE_BYTES {
        return Err(ShortBuffer);
    }
    Ok(())
}

// What a line tells as a number, whatever its type.
pub trait Field: Copy {
    ghost value: { Self → ℕ };

    fn number(self) -> u32
        ensures { result ≡ value self };
}

impl Field for u16 {
    ghost value = { λ n. n };

    fn number(self) -> u32 {
        u32::from(self)
    }
}

impl Field for u32 {
    ghost value = { λ n. n };

    fn number(self) -> u32 {
        self
    }
}

// A line in the making: the first `len` bytes of the caller's buffer. What would reach past the buffer is left out.
#[derive(Drop)]
pub struct Line<'a> {
    buffer: &'a mut [u8],
    len: usize,
    ghost within: { len ≤ length buffer.now },
}

impl<'a> Line<'a> {
    pub fn new(buffer: &'a mut [u8]) -> Line<'a>
        ensures same_reference { result.buffer.ghost_name ≡ buffer.entry.ghost_name }
        ensures same_bytes { result.buffer.now ≡ buffer.old }
        ensures empty { result.len ≡ 0 }
    {
        Line { buffer, len: 0 }
    }

    pub fn len(&self) -> usize
        ensures { result ≡ self.now.len }
    {
        self.len
    }

    pub fn push_bytes(&mut self, bytes: &[u8])
        ensures { Pushes self.old.buffer self.old.len bytes.now self.new.buffer self.new.len }
    {
        let count = bytes.len().min(self.buffer.len() - self.len);
        self.buffer[self.len..self.len + count].copy_from_slice(&bytes[..count]);
        self.len += count;
    }

    pub fn push_byte(&mut self, byte: u8)
        ensures { Pushes self.old.buffer self.old.len (byte ∷ []) self.new.buffer self.new.len }
    {
        if self.len < self.buffer.len() {
            self.buffer[self.len] = byte;
            self.len += 1;
        }
    }

    // A number in decimal, without leading zeros. Most numbers of a listing have a digit or two, so they are written in
    // place: with a buffer of their own and its copy, a replay of a benchmark trace took 16 % more instructions. Where the
    // buffer is too short the last digits are what would reach past it.
    pub fn push_number(&mut self, number: u32)
        ensures { Pushes self.old.buffer self.old.len (decimal number) self.new.buffer self.new.len }
    {
        if number < 10 {
            return self.push_byte(b'0' + number as u8);
        }
        let width = number.ilog10() as usize + 1;
        if width > self.buffer.len() - self.len {
            return self.push_number(number / 10);
        }
        self.len += width;
        itoa::write_digits(u64::from(number), self.buffer, self.len);
    }

    // A space and a number.
    pub fn push_field(&mut self, number: u32)
        ensures { Pushes self.old.buffer self.old.len (field number) self.new.buffer self.new.len }
    {
        self.push_byte(b' ');
        self.push_number(number);
    }

    pub fn push_fields<N: Field>(&mut self, numbers: &[N])
        ensures { Pushes self.old.buffer self.old.len (fields_by (λ n. decimal (N.value n)) numbers.now) self.new.buffer self.new.len }
    {
        for number in numbers {
            self.push_field(number.number());
        }
    }
}

// A line of a letter and numbers, whose length it tells.
pub fn write_line(buffer: &mut [u8], letter: u8, numbers: &[u32]) -> usize
    ensures within { result ≤ length buffer.old }
    ensures adds { 2 + 21 * length numbers.now ≤ length buffer.old → Adds buffer.old 0 (line letter numbers.now) buffer.new result }
{
    let mut text = Line::new(buffer);
    text.push_byte(letter);
    text.push_fields(numbers);
    text.push_byte(b'\n');
    text.len()
}

// The line of a flush: the count of the pages and the pages.
pub fn write_flush(buffer: &mut [u8], count: u16, pages: &[u16]) -> usize
    ensures within { result ≤ length buffer.old }
    ensures adds { length (line 70 (0 ∷ (count ∷ pages.now))) ≤ length buffer.old → Adds buffer.old 0 (line 70 (0 ∷ (count ∷ pages.now))) buffer.new result }
{
    let mut text = Line::new(buffer);
    text.push_byte(b'F');
    text.push_field(0);
    text.push_field(u32::from(count));
    text.push_fields(pages);
    text.push_byte(b'\n');
    text.len()
}

// The first line of a listing.
pub fn write_title(buffer: &mut [u8]) -> usize
    ensures within { result ≤ length buffer.old }
    ensures adds { 19 ≤ length buffer.old → Adds buffer.old 0 title buffer.new result }
{
    let mut text = Line::new(buffer);
    text.push_bytes(TITLE);
    text.push_byte(b'\n');
    text.len()
}
