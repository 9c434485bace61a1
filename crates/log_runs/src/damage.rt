//! Logs whose bytes are damaged, cut or torn, and what recovery answers. What is expected is computed from the layout alone.
ghost use Rattle.std.specs.Prelude.{◌≤◌, ◌<◌, ◌^◌};

use flow_types::Name;
use log_recover::{RecoverFault, recover};
use mem_outside::MemSite;
use std::alloc::Global;
use std::test::Fail;

/// The log of a run of one rule: Opened, Started, Done and Ended. The gates stand at 8, 111, 141 and 211, the closed one at
/// 226.
const RUN: [u8; 227] = *b"MFLOG01\n\
\x01\0\0\0\x62\
\x01\0\0\0\0\0\0\0\0\0\0\0\0\0\0\0\0\0\0\0\0\0\
\x14\xe3\x30\xe0\x9b\x76\x37\xf8\xe4\x45\x53\x9a\x53\xd8\x16\xf9\
\x67\x0b\x32\x14\xca\x0b\x8a\xc3\x5e\x66\x62\x4b\x24\x16\x3f\xfe\
\0\0\0\x01\0\0\0\0\0\0\0\x03\
\xba\x78\x16\xbf\x8f\x01\xcf\xea\x41\x41\x40\xde\x5d\xae\x22\x23\
\xb0\x03\x61\xa3\x96\x17\x7a\x9c\xb4\x10\xff\x61\xf2\0\x15\xad\
\x01\0\0\0\x19\
\x03\0\0\0\0\0\0\0\0\0\0\0\0\0\0\0\0\0\0\0\0\0\0\0\0\
\x01\0\0\0\x41\
\x04\0\0\0\0\0\0\0\0\0\0\0\0\0\0\0\0\0\0\0\0\
\0\0\0\x01\0\0\0\0\0\0\0\x03\
\xba\x78\x16\xbf\x8f\x01\xcf\xea\x41\x41\x40\xde\x5d\xae\x22\x23\
\xb0\x03\x61\xa3\x96\x17\x7a\x9c\xb4\x10\xff\x61\xf2\0\x15\xad\
\x01\0\0\0\x0a\
\x08\0\0\0\0\0\0\0\0\0\
\0";

/// What an append of a Lost writes behind a closed gate.
const BEHIND: [u8; 26] = *b"\0\0\0\x15\x06\0\0\0\0\0\0\0\x07\0\0\0\x02\0\0\0\0\0\0\0\x05\0";

/// The bytes of the longest record: an Opened of 65,536 sources with a limit.
const LONGEST: usize = 2_621_506;

/// How many records are recovered from a log of these bytes, or why none are.
fn recovered(alloc: Global, bytes: &[u8]) -> Result<u32, RecoverFault> {
    let Ok(name) = Name::of(alloc, b"log") else {
        return Err(RecoverFault::Memory);
    };
    let mut site = MemSite::new(alloc);
    if site.put(&name, bytes).is_err() {
        return Err(RecoverFault::Memory);
    }
    match recover(alloc, &mut site, name) {
        Ok((log, _)) => Ok(log.count()),
        Err(fault) => Err(fault),
    }
}

/// What is answered of the run's log that is cut to this length.
fn of_cut(len: usize) -> Result<u32, RecoverFault> {
    let at = match len {
        0..=9 => return Ok(0),
        10..=110 => 8,
        111..=140 => 111,
        141..=210 => 141,
        211..=225 => 211,
        _ => 226,
    };
    Err(RecoverFault::BadRecord { at })
}

/// The gate of the record of which the byte at this place is a length, a kind, a tag or a count. No record has a value there
/// that differs in one bit.
fn fixed_by(place: usize) -> Option<u64> {
    match place {
        9..=13 | 34 | 67..=70 => Some(8),
        112..=116 => Some(111),
        142..=146 | 167..=170 => Some(141),
        212..=216 => Some(211),
        _ => None,
    }
}

/// What is answered of the run's log in which the byte at this place has this value, which differs in one bit. A gate that is
/// open no more ends the log; of numbers and digests each value is one.
fn of_change(place: usize, byte: u8) -> Result<u32, RecoverFault> {
    if let Some(at) = fixed_by(place) {
        return Err(RecoverFault::BadRecord { at });
    }
    match place {
        0..=7 => Err(RecoverFault::BadHeader),
        8 => Ok(0),
        111 => Ok(1),
        141 => Ok(2),
        211 => Ok(3),
        225 if byte > 5 => Err(RecoverFault::BadRecord { at: 211 }),
        226 if byte == 1 => Err(RecoverFault::BadRecord { at: 226 }),
        _ => Ok(4),
    }
}

#[test]
fn a_log_that_was_cut_is_begun_anew_or_damaged_at_a_gate(rt: HostRuntime) {
    for len in 0..RUN.len() {
        assert_eq!(rt;
            recovered(rt.alloc(), &RUN[..len]),
            of_cut(len),
            "cut to {len}"
        );
    }
    assert_eq!(rt; recovered(rt.alloc(), &RUN), Ok(4));
}

#[test]
fn a_turned_bit_is_refused_at_its_gate_unless_the_records_are_whole(rt: HostRuntime) {
    for place in 0..RUN.len() {
        for bit in 0..8u32 {
            let mut changed = RUN;
            changed[place] ^= 1u8 << bit;
            assert_eq!(rt;
                recovered(rt.alloc(), &changed),
                of_change(place, changed[place]),
                "bit {bit} of byte {place}"
            );
        }
    }
}

#[test]
fn what_is_no_log_is_told_from_a_record_that_is_none(rt: HostRuntime) {
    assert_eq!(rt;
        recovered(rt.alloc(), b"xxxxxxxxxx"),
        Err(RecoverFault::BadHeader)
    );
    let mut changed = RUN;
    changed[145] += 1;
    assert_eq!(rt;
        recovered(rt.alloc(), &changed),
        Err(RecoverFault::BadRecord { at: 141 })
    );
    assert_eq!(rt;
        recovered(
            rt.alloc(),
            b"MFLOG01\n\x01\xff\xff\xff\xff\x08\0\0\0\0\0\0\0\0\0\0"
        ),
        Err(RecoverFault::BadRecord { at: 8 })
    );
}

/// A log of one record of this length, an Opened of zeros with a limit and 65,536 sources, and a closed gate.
fn long_log(alloc: Global, len: usize) -> Result<Vec<u8>, Fail>
    requires long { 100 ≤ len }
    requires short { len < 2 ^ 32 }
{
    let mut bytes = vec![in alloc; 0u8; len + 14]?;
    bytes[..8].copy_from_slice(b"MFLOG01\n");
    bytes[8] = 1;
    bytes[9..13].copy_from_slice(&(len as u32).to_be_bytes());
    bytes[13] = 1;
    bytes[34] = 1;
    bytes[76] = 1;
    Ok(bytes)
}

#[test]
fn a_record_is_as_long_as_the_longest_at_most(rt: HostRuntime) -> Result<(), Fail> {
    let alloc = rt.alloc();
    let damaged = Err(RecoverFault::BadRecord { at: 8 });
    assert_eq!(rt; recovered(alloc, &long_log(alloc, LONGEST)?), Ok(1));
    for len in [LONGEST - 1, LONGEST + 1, 71_303_168] {
        assert_eq!(rt;
            recovered(alloc, &long_log(alloc, len)?),
            damaged,
            "of {len} bytes"
        );
    }
    Ok(())
}

#[test]
fn a_body_that_a_crash_tore_is_behind_the_closed_gate(rt: HostRuntime) -> Result<(), Fail> {
    let alloc = rt.alloc();
    let mut log = Vec::from_slice(alloc, &RUN)?;
    for byte in BEHIND {
        log.push(byte)?;
        assert_eq!(rt; recovered(alloc, &log), Ok(4));
    }
    Ok(())
}

#[test]
fn what_follows_the_closed_gate_is_free(rt: HostRuntime) -> Result<(), Fail> {
    let alloc = rt.alloc();
    let mut opened = RUN;
    opened[226] = 1;
    let mut log = Vec::from_slice(alloc, &opened)?;
    log.extend_from_slice(&BEHIND)?;
    assert_eq!(rt; recovered(alloc, &log), Ok(5));
    for free in [b"\x01\x01".as_slice(), b"\xff", b"MFLOG01\n"] {
        log.extend_from_slice(free)?;
        assert_eq!(rt; recovered(alloc, &log), Ok(5));
    }
    Ok(())
}
