//! Records written and words read, with their bytes written out.

use record_words::{Place, Word, WordFault, next_word, put_payload, put_record, size_of};
use std::process::Abort;
use trace_model::MOMENT_LIMIT;

/// How long the buffer is that a record is put into, in bytes.
const ROOM: usize = 128;

/// The delta of a record, whether it is the first of its page, the length of its payload, the bytes before the payload,
/// and how many bytes the record takes.
const RECORDS: &[(u64, bool, usize, &[u8], usize)] = &[
    (5, false, 4, b"\xa1\0\0\0", 8),
    (0, true, 0, b"\x01\0\0\0", 8),
    (0, false, 112, b"\x1c\0\0\0", 116),
    (0, false, 113, b"\0\0\0\0\x78\0\0\0", 124),
    (134_217_731, false, 4, b"\x7e\0\0\0\x01\0\0\0\x01\0\0\0", 16),
    (134_217_731, true, 4, b"\x01\0\0\0", 8),
];

/// Compares the bytes before a record's payload.
fn compare(rt: &impl Abort, out: &[u8], head: &[u8]) {
    assert!(rt; head.len() <= out.len());
    assert!(rt; &out[..head.len()] == head);
}

/// Puts a record into a buffer, without its payload's bytes and with them.
fn put(rt: &impl Abort, delta: u64, first: bool, payload: &[u8], head: &[u8], size: usize) {
    assert!(rt; payload.len() <= ROOM && (first || delta < MOMENT_LIMIT));
    assert!(rt; size_of(payload.len(), delta, first) == size && size <= ROOM);
    let mut out = [0xff; ROOM];
    let place = put_record(&mut out, delta, first, payload.len());
    assert!(rt; place.start == head.len() && place.start + place.len == size);
    compare(rt, &out, head);
    assert!(rt; put_payload(&mut out, delta, first, payload) == size);
    compare(rt, &out, head);
    compare(rt, &out[place.start..], payload);
}

#[test]
fn a_record_is_written_as_its_words_and_its_payload(rt: HostRuntime) {
    let payload = [0x5a; ROOM];
    for (delta, first, len, head, size) in RECORDS {
        assert!(rt; *len <= ROOM);
        put(&rt, *delta, *first, &payload[..*len], head, *size);
    }
}

/// A record of delta 0 with four bytes, and an ending padding with bytes that are ignored.
const ENDED: &[u8] = b"\x01\0\0\0\xaa\xbb\xcc\xdd\x1d\0\0\0\xff\xff\xff\xff";

/// Padding to be skipped, a stamp, and an extend.
const STAMPED: &[u8] = b"\x3d\0\0\0\x04\0\0\0\xbf\0\0\0\x02\0\0\0\x7e\0\0\0\x01\0\0\0";

/// The data of a page, an offset in it, and what is read there.
const WORDS: &[(&[u8], usize, Result<Word, WordFault>)] = &[
    (
        ENDED,
        0,
        Ok(Word::Data {
            delta: 0,
            place: Place { start: 4, len: 4 },
            next: 8,
        }),
    ),
    (ENDED, 8, Ok(Word::End)),
    (STAMPED, 0, Ok(Word::Pad { next: 8 })),
    (
        STAMPED,
        8,
        Ok(Word::Stamp {
            time: 268_435_461,
            next: 16,
        }),
    ),
    (
        STAMPED,
        16,
        Ok(Word::Extend {
            delta: 134_217_731,
            next: 24,
        }),
    ),
    (b"\0\0\0\0\x06\0\0\0", 0, Err(WordFault::BadLength(0))),
    (b"\0\0\0\0\x08\0\0\0", 0, Err(WordFault::Cut(0))),
];

#[test]
fn a_word_is_read_as_what_its_bytes_say(rt: HostRuntime) {
    for (data, at, answer) in WORDS {
        assert!(rt; *at < data.len());
        assert!(rt; next_word(data, *at) == *answer);
    }
}
