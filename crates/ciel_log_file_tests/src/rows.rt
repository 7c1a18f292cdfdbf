// What a replay makes of each log: its whole records, the orders out, its end, and why it is refused.

use crate::logs::{header, put_first, put_last, put_made};
use crate::made::replayed;
use ciel_log_file::refusal::{LogRefusal, Replayed};
use ciel_log_records::parts::put_block;
use ciel_master::stop::RunEnd;
use std::test::Fail;

// So many bytes are whole, so many orders are out, and there is no end.
fn goes_on(came: &Result<Replayed, LogRefusal>, whole: usize, out: usize) -> bool {
    match came {
        Ok(replayed) => {
            replayed.whole == whole as u64 && replayed.out.len() == out && replayed.end.is_none()
        }
        Err(_) => false,
    }
}

fn is_refused(came: &Result<Replayed, LogRefusal>, why: LogRefusal) -> bool {
    match came {
        Ok(_) => false,
        Err(refusal) => *refusal == why,
    }
}

fn has_answer(came: &Result<Replayed, LogRefusal>, text: &[u8]) -> bool {
    match came {
        Ok(
            Replayed {
                end: Some(RunEnd::Answer(answer)),
                ..
            },
        ) => answer.as_slice() == text,
        _ => false,
    }
}

// Nothing was started; a byte more is no record yet.
#[test]
fn a_header_alone(rt: HostRuntime) -> Result<(), Fail> {
    let mut log = header(rt.alloc())?;
    let came = replayed(&rt, rt.alloc(), log.as_slice())?;
    assert!(&rt; goes_on(&came, 7, 0));
    log.byte(0)?;
    let came = replayed(&rt, rt.alloc(), log.as_slice())?;
    assert!(&rt; goes_on(&came, 7, 0));
    Ok(())
}

#[test]
fn a_header_that_is_cut(rt: HostRuntime) -> Result<(), Fail> {
    let came = replayed(&rt, rt.alloc(), &[0, 0, 0, 3, 72, 1])?;
    assert!(&rt; goes_on(&came, 0, 0));
    Ok(())
}

#[test]
fn the_log_of_another_job(rt: HostRuntime) -> Result<(), Fail> {
    let came = replayed(&rt, rt.alloc(), &[0, 0, 0, 3, 72, 1, 3])?;
    assert!(&rt; is_refused(&came, LogRefusal::OtherJob));
    Ok(())
}

#[test]
fn a_start(rt: HostRuntime) -> Result<(), Fail> {
    let mut log = header(rt.alloc())?;
    put_first(rt.alloc(), &mut log, 0)?;
    let came = replayed(&rt, rt.alloc(), log.as_slice())?;
    assert!(&rt; goes_on(&came, log.as_slice().len(), 1));
    Ok(())
}

// The draws choose another worker.
#[test]
fn a_start_at_another_worker(rt: HostRuntime) -> Result<(), Fail> {
    let mut log = header(rt.alloc())?;
    put_first(rt.alloc(), &mut log, 1)?;
    let came = replayed(&rt, rt.alloc(), log.as_slice())?;
    assert!(&rt; is_refused(&came, LogRefusal::BadLog { at: 7 }));
    Ok(())
}

// No record begins with this byte.
#[test]
fn bytes_of_no_record(rt: HostRuntime) -> Result<(), Fail> {
    let mut log = header(rt.alloc())?;
    put_block(&mut log, &[65])?;
    let came = replayed(&rt, rt.alloc(), log.as_slice())?;
    assert!(&rt; is_refused(&came, LogRefusal::BadLog { at: 7 }));
    Ok(())
}

#[test]
fn a_report(rt: HostRuntime) -> Result<(), Fail> {
    let mut log = header(rt.alloc())?;
    put_first(rt.alloc(), &mut log, 0)?;
    put_made(rt.alloc(), &mut log, 1)?;
    let came = replayed(&rt, rt.alloc(), log.as_slice())?;
    assert!(&rt; goes_on(&came, log.as_slice().len(), 0));
    Ok(())
}

// The main call has one output.
#[test]
fn a_report_with_an_object_too_many(rt: HostRuntime) -> Result<(), Fail> {
    let mut log = header(rt.alloc())?;
    put_first(rt.alloc(), &mut log, 0)?;
    let at = log.as_slice().len() as u64;
    put_made(rt.alloc(), &mut log, 2)?;
    let came = replayed(&rt, rt.alloc(), log.as_slice())?;
    assert!(&rt; is_refused(&came, LogRefusal::BadLog { at }));
    Ok(())
}

#[test]
fn a_whole_run(rt: HostRuntime) -> Result<(), Fail> {
    let mut log = header(rt.alloc())?;
    put_first(rt.alloc(), &mut log, 0)?;
    put_made(rt.alloc(), &mut log, 1)?;
    put_last(rt.alloc(), &mut log)?;
    let came = replayed(&rt, rt.alloc(), log.as_slice())?;
    assert!(&rt; has_answer(&came, b"5\n"));
    Ok(())
}

// Nothing stands behind the run's end.
#[test]
fn a_record_behind_the_end(rt: HostRuntime) -> Result<(), Fail> {
    let mut log = header(rt.alloc())?;
    put_first(rt.alloc(), &mut log, 0)?;
    put_made(rt.alloc(), &mut log, 1)?;
    put_last(rt.alloc(), &mut log)?;
    let at = log.as_slice().len() as u64;
    put_made(rt.alloc(), &mut log, 1)?;
    let came = replayed(&rt, rt.alloc(), log.as_slice())?;
    assert!(&rt; is_refused(&came, LogRefusal::BadLog { at }));
    Ok(())
}
