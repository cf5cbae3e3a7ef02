//! Scripts, and what their runs leave.
use std::alloc::Global;
use trace_model::NoMemory;

/// Eight records, each of which fills a page, and all pages are closed.
pub const EIGHT: &[u8] = b"pages 16\nsize 32\ncpus 1\ncollectors 2\n\
    c0 w 1 01010101010101010101010101010101010101010101010101010101\n\
    c0 w 2 02020202020202020202020202020202020202020202020202020202\n\
    c0 w 3 03030303030303030303030303030303030303030303030303030303\n\
    c0 w 4 04040404040404040404040404040404040404040404040404040404\n\
    c0 w 5 05050505050505050505050505050505050505050505050505050505\n\
    c0 w 6 06060606060606060606060606060606060606060606060606060606\n\
    c0 w 7 07070707070707070707070707070707070707070707070707070707\n\
    c0 w 8 08080808080808080808080808080808080808080808080808080808\n\
    c0 c\n";

/// Two records, the first with another payload than in `EIGHT`.
pub const ANOTHER: &[u8] = b"pages 16\nsize 32\ncpus 1\ncollectors 1\n\
    c0 w 1 11111111111111111111111111111111111111111111111111111111\n\
    c0 w 2 02020202020202020202020202020202020202020202020202020202\n";

/// A nested writer. The reader's line and the delivery are not obeyed.
const NESTED: &[u8] = b"pages 2\nsize 32\ncpus 1\ncollectors 1\n\
    c0 b 10 aaaaaaaa\nc0 s 1\nc0 w 20 bbbbbbbb\nc0 c\nc0 t\nc0 f\nd 0 c0 0\n";

/// Nested writers of two CPUs. The frames that CPU 0 leaves are finished the top one first, so moment 4 is raised to 5,
/// and so is moment 3; and the page of fill 1 is full before moment 3 has its record.
const LEFT: &[u8] = b"pages 4\nsize 32\ncpus 2\ncollectors 1\n\
    c0 b 1 11111111\nc1 w 5 aa\nc0 s 1\nc0 w 2 22222222\nc1 s 3\nc0 f\nc0 c\n\
    c0 f\nc0 b 3 33333333\nc1 c\nc0 b 4 44444444\nc0 t\n\
    c0 w 5 5555555555555555555555555555555555555555\nc1 w 6 bb\n";

/// Three pages that are closed, and one that isn't. Fills begin at 7.
pub const CLOSES: &[u8] = b"pages 4\nsize 32\ncpus 1\ncollectors 3\nstart 7\n\
    c0 w 1 01\nc0 c\nc0 w 2 02\nc0 c\nc0 w 3 03\nc0 c\nc0 w 4 04\n";

/// Five CPUs, whose pages are all closed.
const SEVERAL: &[u8] = b"pages 4\nsize 32\ncpus 5\ncollectors 4\n\
    c0 w 1 11\nc1 b 1 11\nc2 w 1 11\nc3 w 1 11\nc4 w 1 11\n\
    c0 c\nc1 s 1\nc2 c\nc3 w 2 22\nc4 c\n\
    c0 w 2 22\nc1 w 2 22\nc2 w 2 22\nc3 c\nc4 w 2 22\n\
    c0 c\nc1 f\nc2 c\nc4 c\nc1 c\n";

/// Twelve records in a ring that has room for eight: fill 0 is overwritten if it isn't taken before.
pub const OVERFLOW: &[u8] = b"pages 2\nsize 32\ncpus 1\ncollectors 3\n\
    c0 w 1 00000001\nc0 w 2 00000002\nc0 w 3 00000003\nc0 w 4 00000004\n\
    c0 w 5 00000005\nc0 w 6 00000006\nc0 w 7 00000007\nc0 w 8 00000008\n\
    c0 w 9 00000009\nc0 w 10 0000000a\nc0 w 11 0000000b\nc0 w 12 0000000c\n";

/// How many records OVERFLOW commits.
pub const OVERFLOW_RECORDS: u64 = 12;

/// The records of a CPU in pages that are closed: of each its moment and its bytes.
pub type Records = &'static [(u64, &'static [u8])];

/// A script that closes fewer pages than its rings have, so that none is overwritten.
pub struct Row {
    pub script: &'static [u8],
    pub collectors: usize,
    /// How many pages its lines close.
    pub pages: u64,
    /// The records of each CPU.
    pub cpus: &'static [(u32, Records)],
}

const TWO: Records = &[(1, b"\x11\0\0\0"), (2, b"\x22\0\0\0")];

/// The first is that of EIGHT.
pub const ROWS: &[Row] = &[
    Row {
        script: EIGHT,
        collectors: 2,
        pages: 8,
        cpus: &[(
            0,
            &[
                (1, &[1; 28]),
                (2, &[2; 28]),
                (3, &[3; 28]),
                (4, &[4; 28]),
                (5, &[5; 28]),
                (6, &[6; 28]),
                (7, &[7; 28]),
                (8, &[8; 28]),
            ],
        )],
    },
    Row {
        script: NESTED,
        collectors: 1,
        pages: 1,
        cpus: &[(0, &[(10, &[0xaa; 4]), (20, &[0xbb; 4])])],
    },
    Row {
        script: LEFT,
        collectors: 1,
        pages: 3,
        cpus: &[
            (
                0,
                &[
                    (1, &[0x11; 4]),
                    (2, &[0x22; 4]),
                    (5, &[0x55; 20]),
                    (5, &[0x44; 4]),
                ],
            ),
            (1, &[(5, b"\xaa\0\0\0")]),
        ],
    },
    Row {
        script: CLOSES,
        collectors: 3,
        pages: 3,
        cpus: &[(
            0,
            &[(1, b"\x01\0\0\0"), (2, b"\x02\0\0\0"), (3, b"\x03\0\0\0")],
        )],
    },
    Row {
        script: SEVERAL,
        collectors: 4,
        pages: 8,
        cpus: &[(0, TWO), (1, TWO), (2, TWO), (3, TWO), (4, TWO)],
    },
];

/// A script in which each CPU closes a page with a record, whose first byte is the CPU's number, and writes another.
pub fn wide_script(alloc: Global, cpus: u8, collectors: usize) -> Result<String, NoMemory> {
    let mut text = format!(in alloc; "pages 2\nsize 32\ncpus {cpus}\ncollectors {collectors}\n")?;
    for cpu in 0..cpus {
        let lines = format!(in alloc; "c{cpu} w 1 {cpu:02x}\nc{cpu} c\nc{cpu} w 2 00\n")?;
        text.push_str(&lines)?;
    }
    Ok(text)
}
