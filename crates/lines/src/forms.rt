ghost use Rattle.std.specs.Prelude.{ℕ, List};
ghost use Rattle.lines.specs.Lines.{Written};

use model::refusals::Refusal;

/// A record that can be written as a line.
pub trait LineForm {
    /// The bytes of the line, its line feed included.
    ghost line: { Self → List ℕ };

    /// Writes the line to the front of a buffer and answers its length. The bytes after it are kept. Refused where the buffer is shorter than the line.
    // A lent buffer and a count: nothing here allocates.
    fn write_line(&self, out: &mut [u8]) -> Result<usize, Refusal>
        ensures { Written (line self.now) out.old out.new result };
}

/// Writes a line to the front of a buffer that is long enough.
pub(crate) fn put_line(line: &[u8], out: &mut [u8]) -> Result<usize, Refusal>
    ensures { Written line.now out.old out.new result }
{
    let len = line.len();
    if out.len() < len {
        return Err(Refusal::BufferTooShort);
    }
    out[..len].copy_from_slice(line);
    Ok(len)
}
