// A script of one statement.

use crate::reading::script;
use sky_base::script::Script;
use sky_base::stmt::Stmt;
use std::process::Abort;
use std::test::Fail;

/// The only statement sets `x`.
fn sets_x(rt: &impl Abort, script: &Script) {
    let stmts = script.main().as_slice();
    assert!(rt; stmts.len() == 1);
    assert!(rt; matches!(&stmts[0], Stmt::Set { name, .. } if name.as_str() == "x"));
}

#[test]
fn one_assignment(rt: HostRuntime) -> Result<(), Fail> {
    match script(rt.alloc(), b"x = 1;") {
        Ok(script) => sets_x(&rt, &script),
        Err(_) => return Err(Fail::from("no script")),
    }
    Ok(())
}
