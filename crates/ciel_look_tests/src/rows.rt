// What the program writes of a small log, and how it ends.

use crate::calls::seen;
use std::alloc::Global;
use std::test::Fail;

/// A log of two workers of which the first is lost: the main call is made twice.
const LOG: &str =
    "0000004b480000000200000000000000000000000100000001000000000128372ec20587ae1eab9e8603c4b1274b8e587325000000010000000174da\
    39a3ee5e6b4b0d3255bfef95601890afd8070900000027530000000000000000000000000000000001084f9331fa01faff9e8484f3c4e401e921b570\
    166b00000024520000000000000000000000000000000001000000010000000a44030000000000000003000000275300000000000000010000000100\
    00000001084f9331fa01faff9e8484f3c4e401e921b570166b00000024520000000000000001000000000000000001000000010000000a4403000000\
    0000000003000000125300000000000000020000000100000000000000001852000000000000000200000000000000000300000002330a";

/// What it tells.
const TEXT: &str =
    "4f9331fa main: start 0 at worker 0, made 9 bytes; again start 1 at worker 1, made 9 bytes\n\
    show result: start 2 at worker 1, shows 2 bytes\n\
    worker 0 was lost after 1 end; it took 4f9331fa main\n\
    3 starts of 2 tasks, 1 begun again, 1 loss, 0 copies, 18 bytes made\n";

/// Why the main call was started.
const REASON: &str = "start 0 at worker 0: show result waits for 4f9331fa main\n\
    what it had made was lost with worker 0, after 1 end\n\
    again start 1 at worker 1: show result waits for 4f9331fa main\n";

/// The words, the log's digits, the read and the write that fail, the status, what is written, and what is told.
type Row = (
    &'static str,
    &'static str,
    u32,
    u32,
    u8,
    &'static str,
    &'static str,
);

const ROWS: [Row; 9] = [
    ("l", LOG, 0, 0, 0, TEXT, ""),
    ("l --why 4f93", LOG, 0, 0, 0, REASON, ""),
    ("l --why 5", LOG, 0, 0, 3, "", "look: no task 5\n"),
    (
        "l --svgs",
        LOG,
        0,
        0,
        1,
        "",
        "look: usage: look LOG [--why NAME | --svg]\n",
    ),
    ("m", LOG, 0, 0, 8, "", "look: read fault m\n"),
    ("l", LOG, 1, 0, 8, "", "look: read fault l\n"),
    ("l", LOG, 0, 1, 9, "", "look: write fault\n"),
    (
        "l",
        "0000000148",
        0,
        0,
        2,
        "",
        "look: not a log l at byte 0\n",
    ),
    ("l", "", 0, 0, 2, "", "look: not a log l at byte 0\n"),
];

/// Whether a row comes out as it says.
fn holds(alloc: Global, row: &Row) -> Result<bool, Fail> {
    let got = seen(alloc, row.0, row.1, row.2, row.3)?;
    let written = row.3 != 0 || got.out.bytes() == row.5.as_bytes();
    Ok(got.why.status() == row.4 && written && got.log.bytes() == row.6.as_bytes())
}

#[test]
fn rows_come_out_as_they_say(rt: HostRuntime) -> Result<(), Fail> {
    for row in &ROWS {
        let come_out = holds(rt.alloc(), row)?;
        assert!(rt; come_out);
    }
    Ok(())
}

#[test]
fn the_picture_is_one_element(rt: HostRuntime) -> Result<(), Fail> {
    let got = seen(rt.alloc(), "l --svg", LOG, 0, 0)?;
    assert_eq!(rt; got.why.status(), 0);
    assert!(rt; got.out.bytes().starts_with("<svg xmlns=".as_bytes()));
    assert!(rt; got.out.bytes().ends_with("</svg>".as_bytes()));
    Ok(())
}
