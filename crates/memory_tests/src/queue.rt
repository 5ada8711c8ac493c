// The queue of queued memory: order, replacement, overflow, and the fates at a cut.
use memory::{Memory, MemoryFault};
use queued::Queued;
use std::test::Fail;

// Writes lines first to last, each with every byte 100 more than its number.
fn write_lines(memory: &mut Queued, first: u8, last: u8) -> Result<(), Fail> {
    for line in first..last {
        memory.write(u16::from(line), &[line.wrapping_add(100); 64])?;
    }
    Ok(())
}

// Each pair of bits at each of the sixteen places: 0 old, 1 new, 2 torn, 3 every byte 165.
#[test]
fn every_fate_at_every_place(rt: HostRuntime) -> Result<(), Fail> {
    for place in 0..16u32 {
        let at = place as usize * 64;
        let new = (place as u8).wrapping_add(100);
        for (fate, front, back) in [(0u32, 0, 0), (1, new, new), (2, new, 0), (3, 165, 165)] {
            let mut bytes = [0; 1024];
            let mut memory = Queued::new(&mut bytes, fate << (2 * place));
            memory.power_up(100);
            write_lines(&mut memory, 0, 16)?;
            memory.cut();
            drop(memory);
            assert!(rt; bytes[at..at + 32] == [front; 32]);
            assert!(rt; bytes[at + 32..at + 64] == [back; 32]);
            assert!(rt; bytes[0..at].iter().all(|byte| *byte == 0));
            assert!(rt; bytes[at + 64..1024].iter().all(|byte| *byte == 0));
        }
    }
    Ok(())
}

// The seventeenth line moves the oldest down, which is then durable; the others shift by one place.
#[test]
fn the_17th_line(rt: HostRuntime) -> Result<(), Fail> {
    let mut bytes = [0; 1088];
    let mut memory = Queued::new(&mut bytes, 0);
    memory.power_up(100);
    write_lines(&mut memory, 0, 17)?;
    assert_eq!(rt; memory.read(0), Ok([100; 64]));
    assert_eq!(rt; memory.read(16), Ok([116; 64]));
    memory.cut();
    drop(memory);
    assert!(rt; bytes[0..64] == [100; 64], "the oldest was moved down");
    assert!(rt;
        bytes[64..1088] == [0; 1024],
        "all others were queued and stay old"
    );
    Ok(())
}

// With the choice 1 the oldest of the queue survives: after seventeen lines that is line 1.
#[test]
fn places_shift_when_the_oldest_leaves(rt: HostRuntime) -> Result<(), Fail> {
    let mut bytes = [0; 1088];
    let mut memory = Queued::new(&mut bytes, 1);
    memory.power_up(100);
    write_lines(&mut memory, 0, 17)?;
    memory.cut();
    drop(memory);
    assert!(rt; bytes[0..64] == [100; 64]);
    assert!(rt; bytes[64..128] == [101; 64]);
    assert!(rt; bytes[128..1088] == [0; 960]);
    Ok(())
}

// The same line twice keeps its place and holds the newer bytes.
#[test]
fn the_same_line_twice(rt: HostRuntime) -> Result<(), Fail> {
    let mut bytes = [0; 128];
    let mut memory = Queued::new(&mut bytes, 1);
    memory.power_up(100);
    memory.write(0, &[7; 64])?;
    memory.write(1, &[8; 64])?;
    memory.write(0, &[9; 64])?;
    assert_eq!(rt; memory.read(0), Ok([9; 64]));
    memory.cut();
    drop(memory);
    assert!(rt; bytes[0..64] == [9; 64], "entry 0 is still line 0");
    assert!(rt; bytes[64..128] == [0; 64]);
    Ok(())
}

// A full queue and a second write to a queued line: nothing moves down.
#[test]
fn a_full_queue_renews_in_place(rt: HostRuntime) -> Result<(), Fail> {
    let mut bytes = [0; 1024];
    let mut memory = Queued::new(&mut bytes, 1073741824);
    memory.power_up(100);
    write_lines(&mut memory, 0, 16)?;
    memory.write(15, &[9; 64])?;
    memory.write(0, &[8; 64])?;
    memory.cut();
    drop(memory);
    assert!(rt; bytes[0..960] == [0; 960], "no line was moved down");
    assert!(rt; bytes[960..1024] == [9; 64], "entry 15 is new");
    Ok(())
}

// A fence moves all down, in order of entry, and empties the queue.
#[test]
fn a_fence_moves_all(rt: HostRuntime) -> Result<(), Fail> {
    let mut bytes = [0; 1088];
    let mut memory = Queued::new(&mut bytes, u32::MAX);
    memory.power_up(100);
    write_lines(&mut memory, 0, 16)?;
    memory.fence()?;
    memory.write(16, &[9; 64])?;
    assert_eq!(rt; memory.operations_left(), 82);
    memory.cut();
    memory.power_up(0);
    assert_eq!(rt; memory.read(0), Ok([100; 64]));
    assert_eq!(rt; memory.read(15), Ok([115; 64]));
    assert_eq!(rt; memory.read(16), Ok([165; 64]));
    Ok(())
}

// The last line that a number can name.
#[test]
fn line_65535(rt: HostRuntime) -> Result<(), Fail> {
    let mut bytes = vec![in rt.alloc(); 0u8; 4194304]?;
    let mut memory = Queued::new(bytes.as_mut_slice(), 1);
    memory.power_up(1);
    assert_eq!(rt; memory.line_count(), 65536);
    memory.write(65535, &[7; 64])?;
    memory.cut();
    memory.power_up(0);
    assert_eq!(rt; memory.read(65535), Ok([7; 64]));
    assert_eq!(rt; memory.read(65534), Ok([0; 64]));
    drop(memory);
    let mut few = [0; 64];
    let memory = Queued::new(&mut few, 1);
    assert_eq!(rt;
        memory.read(65535),
        Err(MemoryFault::NoSuchLine { line: 65535 })
    );
    Ok(())
}
