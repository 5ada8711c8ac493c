// Lines of 64 bytes within lent bytes: line l is bytes 64 l to 64 l + 63. A rest below 64 bytes is no line and is never
// touched.
#![tactic(auto)]

ghost use Rattle.std.specs.Prelude.{◌≡◌, ◌+◌, ◌*◌, ◌/◌, length};
ghost use Rattle.lines.specs.Lines.{count_of, line_at, with_line, rest_of, torn};

// How many whole lines the bytes hold.
pub fn line_count(bytes: &[u8]) -> usize
    ensures { result ≡ count_of bytes.now }
{
    bytes.len() / 64
}

// The content of a line, if there is such a line.
pub fn read_line(bytes: &[u8], line: u16) -> Option<[u8; 64]>
    ensures { result ≡ line_at bytes.now line }
{
    let (lines, _) = bytes.as_chunks::<64>();
    // by `as`, here and below: a proof sees nothing through `usize::from`
    lines.get(line as usize).copied()
}

// Writes a line into its own 64 bytes; without such a line nothing changes.
// By the rules the line writer is lent that part of the bytes alone.
pub fn write_line(bytes: &mut [u8], line: u16, content: &[u8; 64])
    ensures after { bytes.new ≡ with_line bytes.old line content.now }
    ensures rest { rest_of bytes.new ≡ rest_of bytes.old }
{
    if line as usize >= line_count(bytes) {
        return;
    }
    let at = line as usize * 64;
    fill_line(&mut bytes[at..at + 64], content);
}

// The line writer.
fn fill_line(part: &mut [u8], content: &[u8; 64])
    requires { length part.old ≡ 64 }
    ensures { part.new ≡ content.now }
{
    part.copy_from_slice(content);
}

// The first half new, the second half old: what a torn write leaves.
pub fn torn_line(old: &[u8; 64], new: &[u8; 64]) -> [u8; 64]
    ensures { result ≡ torn old.now new.now }
{
    let mut content = *old;
    content[0..32].copy_from_slice(&new[0..32]);
    content
}
