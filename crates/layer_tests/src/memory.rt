// Bytes written to the data memory, many at once.
use rv_core::DataMemory;

// Where bytes are written, and the bytes, in order: over the end of a page of 64 bytes; fewer over
// some of these; no byte; zeros where nothing is stored; zeros before another byte; more than a
// page; and up to the end of memory.
static PUTS: [(u32, &[u8]); 7] = [
    (0x103C, &[1, 2, 3, 4, 5, 6, 7, 8]),
    (0x103F, &[0, 9, 0]),
    (0x1042, &[]),
    (0x2000, &[0, 0]),
    (0x3000, &[0, 0, 10]),
    (0x403F, &[11; 130]),
    (0xFFFF_FFFD, &[12, 13, 14]),
];

// Addresses with the bytes that are there after that.
static BYTES: [(u32, u8); 21] = [
    (0, 0),
    (0x103B, 0),
    (0x103C, 1),
    (0x103E, 3),
    (0x103F, 0),
    (0x1040, 9),
    (0x1041, 0),
    (0x1042, 7),
    (0x1043, 8),
    (0x1044, 0),
    (0x2000, 0),
    (0x3001, 0),
    (0x3002, 10),
    (0x403E, 0),
    (0x403F, 11),
    (0x4080, 11),
    (0x40C0, 11),
    (0x40C1, 0),
    (0xFFFF_FFFC, 0),
    (0xFFFF_FFFD, 12),
    (0xFFFF_FFFF, 14),
];

#[test]
fn bytes_put(rt: HostRuntime) {
    let mut memory = DataMemory::new(rt.alloc());
    for &(address, bytes) in &PUTS {
        assert!(rt; bytes.len() as u64 <= 0x1_0000_0000 - u64::from(address));
        memory.put_all(address, bytes).expect(&rt, "memory");
    }
    for &(address, byte) in &BYTES {
        assert!(rt; memory.byte(address) == byte);
    }
}
