use flow_types::{AttemptNo, Name, Record, RuleNo};
use log_recover::{RecoverFault, recover};
use mem_outside::MemSite;
use std::alloc::Global;
use std::test::Fail;
use txn_log::{Log, LogFault};

const EMPTY: &[u8] = b"MFLOG01\n\0";

const LOST: &[u8] = b"MFLOG01\n\x01\0\0\0\x15\x06\0\0\0\0\0\0\0\x07\0\0\0\x02\0\0\0\0\0\0\0\x05\0";

fn site_of(alloc: Global, content: &[u8]) -> Result<MemSite, Fail> {
    let mut site = MemSite::new(alloc);
    let name = Name::of(alloc, b"log")?;
    site.put(&name, content)?;
    Ok(site)
}

// Recovers the log, and says how many records it has.
fn count_of(alloc: Global, site: &mut MemSite) -> Option<u32> {
    let Ok(name) = Name::of(alloc, b"log") else {
        return None;
    };
    match recover(alloc, site, name) {
        Ok((log, _)) => Some(log.count()),
        Err(_) => None,
    }
}

// The place at which the log is damaged.
fn damage_of(alloc: Global, site: &mut MemSite) -> Option<u64> {
    let Ok(name) = Name::of(alloc, b"log") else {
        return None;
    };
    match recover(alloc, site, name) {
        Err(RecoverFault::BadRecord { at }) => Some(at),
        _ => None,
    }
}

// Recovers the log, makes room, and appends a record.
fn append_lost(alloc: Global, site: &mut MemSite) -> Option<LogFault> {
    let Ok(name) = Name::of(alloc, b"log") else {
        return Some(LogFault::Memory);
    };
    match recover(alloc, site, name) {
        Ok((mut log, _)) => {
            if log.reserve(21).is_err() {
                return Some(LogFault::Memory);
            }
            let lost = Record::Lost {
                moment: 7,
                rule: RuleNo(2),
                attempt: AttemptNo(5),
            };
            log.append(site, &lost).err()
        }
        Err(_) => Some(LogFault::Memory),
    }
}

#[test]
fn a_log_is_begun_and_holds_a_record(rt: HostRuntime) {
    let alloc = rt.alloc();
    let mut site = MemSite::new(alloc);
    assert_eq!(rt; append_lost(alloc, &mut site), None);
    assert_eq!(rt; site.get(b"log"), Some(LOST));
    assert_eq!(rt; count_of(alloc, &mut site), Some(1));
}

#[test]
fn a_log_that_isnt_begun_is_begun_anew(rt: HostRuntime) -> Result<(), Fail> {
    let alloc = rt.alloc();
    let short: &[&[u8]] = &[b"", b"M", b"123456789"];
    for content in short.iter() {
        let mut site = site_of(alloc, content)?;
        assert_eq!(rt; count_of(alloc, &mut site), Some(0));
        assert_eq!(rt; site.get(b"log"), Some(EMPTY));
    }
    Ok(())
}

#[test]
fn a_log_that_was_cut_is_damaged_at_its_gate(rt: HostRuntime) -> Result<(), Fail> {
    let alloc = rt.alloc();
    for len in 10..LOST.len() {
        let mut site = site_of(alloc, &LOST[..len])?;
        let place = if len < 34 { 8 } else { 34 };
        assert_eq!(rt; damage_of(alloc, &mut site), Some(place));
        assert_eq!(rt; site.get(b"log"), Some(&LOST[..len]));
    }
    Ok(())
}

#[test]
fn a_crash_in_an_append_leaves_the_old_list_or_the_new_one(rt: HostRuntime) -> Result<(), Fail> {
    let alloc = rt.alloc();
    let mut site = site_of(alloc, b"MFLOG01\n\0\xff")?;
    assert_eq!(rt; append_lost(alloc, &mut site), None);
    // The calls are a sync, a size and two reads, then the body, a sync, the gate and a sync.
    let least: &[u32] = &[0, 0, 0, 0, 0, 0, 0, 1];
    let most: &[u32] = &[0, 0, 0, 0, 0, 0, 1, 1];
    for call in 0..8u64 {
        let mut left = site.image(alloc, call, 0)?;
        assert_eq!(rt;
            count_of(alloc, &mut left),
            least.get(call as usize).copied()
        );
        let mut left = site.image(alloc, call, 1)?;
        assert_eq!(rt;
            count_of(alloc, &mut left),
            most.get(call as usize).copied()
        );
    }
    Ok(())
}

#[test]
fn a_log_with_the_most_records_is_full(rt: HostRuntime) -> Result<(), Fail> {
    let alloc = rt.alloc();
    let mut site = site_of(alloc, EMPTY)?;
    let mut log = Log::at(alloc, Name::of(alloc, b"log")?, 1_000_000, 8);
    let lost = Record::Lost {
        moment: 7,
        rule: RuleNo(2),
        attempt: AttemptNo(5),
    };
    assert_eq!(rt; log.append(&mut site, &lost).err(), Some(LogFault::Full));
    assert_eq!(rt; log.count(), 1_000_000);
    assert_eq!(rt; site.get(b"log"), Some(EMPTY));
    Ok(())
}

#[test]
fn a_log_whose_site_failed_takes_no_record(rt: HostRuntime) -> Result<(), Fail> {
    let alloc = rt.alloc();
    let mut site = site_of(alloc, b"MFLOG01\n\0\xff")?;
    site.fail_at(6)?;
    assert_eq!(rt; append_lost(alloc, &mut site), Some(LogFault::Site));
    assert_eq!(rt; count_of(alloc, &mut site), Some(0));
    Ok(())
}
