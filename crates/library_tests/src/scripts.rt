//! Scripts in a process that runs several: the memory of each store is given back.

use memory_store::open_in_memory;
use script_engine::{run_audited, run_script, write_audited, write_report};
use std::alloc::Global;
use std::test::Fail;

const SCRIPT: &[u8] = b"\
    CREATE TABLE EMP (ENO INTEGER, DEPT INTEGER, S DATE, E DATE, \
    SS TIMESTAMP(12) GENERATED ALWAYS AS ROW START, \
    SE TIMESTAMP(12) GENERATED ALWAYS AS ROW END, \
    PERIOD FOR EP (S, E), PERIOD FOR SYSTEM_TIME (SS, SE), \
    PRIMARY KEY (ENO, EP WITHOUT OVERLAPS)) WITH SYSTEM VERSIONING; \
    INSERT INTO EMP VALUES (22217, 3, DATE '2010-01-01', DATE '2011-11-12'); \
    VALIDTIME SELECT DISTINCT ENO FROM EMP; \
    INSERT INTO EMP VALUES (22217, 4, DATE '2011-11-11', DATE '2012-01-01')";

const REPORT: &[u8] = b"\
    done,1,create,0\n\
    done,2,insert,1\n\
    answer,3,1,1\n\
    columns,3,ENO,valid_from,valid_to,held,absent\n\
    row,3,22217,2010-01-01,2011-11-12,2010-01-01,2009-12-31\n\
    refused,4,42,KeyOverlap,2011-11-11\n";

const AUDITED: &[u8] = b"\
    done,1,create,0\n\
    done,2,insert,1\n\
    answer,3,1,1\n\
    columns,3,ENO,valid_from,valid_to,held,absent\n\
    row,3,22217,2010-01-01,2011-11-12,2010-01-01,2009-12-31\n\
    audit,3,agrees,3\n\
    refused,4,42,KeyOverlap,2011-11-11\n";

// The report of a script over a store of its own.
fn reported(alloc: Global, script: &[u8]) -> Result<Vec<u8>, Fail> {
    let results = run_script(alloc, open_in_memory(alloc)?, script)?;
    let mut report = Vec::new(alloc);
    write_report(alloc, &mut report, results.as_slice())?;
    Ok(report)
}

fn audited(alloc: Global, script: &[u8]) -> Result<Vec<u8>, Fail> {
    let entries = run_audited(alloc, open_in_memory(alloc)?, script)?;
    let mut report = Vec::new(alloc);
    write_audited(alloc, &mut report, entries.as_slice())?;
    Ok(report)
}

#[test]
fn one_after_the_other(rt: HostRuntime) -> Result<(), Fail> {
    let alloc = rt.alloc();
    assert!(rt; reported(alloc, SCRIPT)?.as_slice() == REPORT);
    assert!(rt; audited(alloc, SCRIPT)?.as_slice() == AUDITED);
    // The table of the first run is gone.
    assert!(rt; reported(alloc, SCRIPT)?.as_slice() == REPORT);
    Ok(())
}

#[test]
fn refused_as_a_whole(rt: HostRuntime) -> Result<(), Fail> {
    let alloc = rt.alloc();
    let results = run_script(alloc, open_in_memory(alloc)?, b"\xff");
    let refusal = results.err().ok_or("the script was run")?;
    assert_eq!(rt; refusal.code(), 1);
    Ok(())
}
