// Records that are read again, each kind with ample memory, and what is no record. They stand in hexadecimal digits.

use ciel_log_read::read::read_record;
use ciel_log_read::record::{LoggedEnd, LoggedReport, Record};
use ciel_name::refusal::Decode;
use hex::decode;
use std::alloc::Global;
use std::test::Fail;

static NONE: u32 = 0;

static START: u32 = 1;

static DROPPED: u32 = 2;

static MADE: u32 = 3;

static SAVED: u32 = 4;

static ANSWER: u32 = 5;

static FAULT: u32 = 6;

static MISSING: u32 = 7;

static UNREAD: u32 = 8;

fn kind_of_end(report: &LoggedReport) -> u32 {
    match &report.end {
        LoggedEnd::Made(_) => MADE,
        LoggedEnd::Saved { .. } => SAVED,
        LoggedEnd::Answer(_) => ANSWER,
        LoggedEnd::Fault(_) => FAULT,
        LoggedEnd::Missing { .. } => MISSING,
    }
}

fn kind_of(record: &Record) -> u32 {
    match record {
        Record::Start { .. } => START,
        Record::Report(report) => kind_of_end(report),
        Record::Dropped { .. } => DROPPED,
    }
}

// Which kind of record these digits are.
fn read(alloc: Global, digits: &str) -> u32 {
    let Ok(bytes) = decode(alloc, digits.as_bytes()) else {
        return UNREAD;
    };
    match read_record(alloc, bytes.as_slice()) {
        Ok(record) => kind_of(&record),
        Err(Decode::NotValue) => NONE,
        Err(Decode::Memory) => UNREAD,
    }
}

// The reports have one description that was spawned, an input's, and one object that was copied.
#[test]
fn records_are_read(rt: HostRuntime) -> Result<(), Fail> {
    let rows = [
        ("530000000000000102000000030000000400", START),
        ("440000000000000009", DROPPED),
        (
            "520000000000000007000000010000000649000000016B00000001080202020202020202020202020202020202020202010000000100000003426162",
            MADE,
        ),
        (
            "520000000000000007000000010000000649000000016B000000010802020202020202020202020202020202020202020200000003000000014B",
            SAVED,
        ),
        (
            "520000000000000007000000010000000649000000016B00000001080202020202020202020202020202020202020202030000000332350A",
            ANSWER,
        ),
        (
            "520000000000000007000000010000000649000000016B0000000108020202020202020202020202020202020202020204030000000100000018",
            FAULT,
        ),
        (
            "52000000000000000700000000000000000509090909090909090909090909090909090909090909090909090909090909090900000001",
            MISSING,
        ),
        ("5300000000000001020000000300000004", NONE),
        ("44000000000000000900", NONE),
        ("480000000000000009", NONE),
    ];
    for (digits, kind) in rows {
        assert_eq!(&rt; read(rt.alloc(), digits), kind);
    }
    Ok(())
}
