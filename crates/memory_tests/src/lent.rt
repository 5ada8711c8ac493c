// What stands in the lent bytes once the memory is let go, shown of every input and run on one.
ghost use Rattle.std.specs.Prelude.{◌≡◌};
ghost use Rattle.lines.specs.Lines.{with_line};

use memory::Memory;
use straight::Straight;

// A completed write stands in its line, and nothing else changed.
fn write_straight(bytes: &mut [u8], line: u16, content: &[u8; 64])
    ensures { bytes.new ≡ with_line bytes.old line content.now }
{
    let mut memory = Straight::new(bytes);
    memory.power_up(1);
    let _ = memory.write(line, content);
}

#[test]
fn bytes_come_back(rt: HostRuntime) {
    let mut bytes = [1; 130];
    write_straight(&mut bytes, 1, &[7; 64]);
    assert!(rt; bytes[0..64] == [1; 64]);
    assert!(rt; bytes[64..128] == [7; 64]);
    assert!(rt; bytes[128..130] == [1; 2]);
}
