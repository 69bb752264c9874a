//! What the sink takes at each end, over a sink in memory.
use crate::expect::expect_equal;
use crate::stores::check_bytes;
use frz_answer::{End, Fault, Status, finish, say};
use frz_store::{Fail, FailOn, MemSink};
use std::test::Fail as TestFail;
use test_tables::empty_sink;

#[test]
fn a_line_names_the_fault(rt: HostRuntime) -> Result<(), TestFail> {
    let mut out = empty_sink(rt.alloc(), 40)?;
    expect_equal(
        &rt,
        &finish(End::Stopped(Fault::Store), &mut out),
        &8,
        "status",
    );
    expect_equal(
        &rt,
        &finish(End::Stopped(Fault::Input), &mut out),
        &10,
        "status",
    );
    expect_equal(
        &rt,
        &finish(End::Stopped(Fault::NoMemory), &mut out),
        &11,
        "status",
    );
    check_bytes(
        &rt,
        out.taken(),
        b"store fault\ninput fault\nno memory\n",
        "text",
    );
    Ok(())
}

#[test]
fn a_status_of_its_own_needs_no_line(rt: HostRuntime) -> Result<(), TestFail> {
    let mut out = empty_sink(rt.alloc(), 20)?;
    let end = say(Status::Outside, b"outside\n", &mut out);
    expect_equal(&rt, &finish(end, &mut out), &7, "status");
    check_bytes(&rt, out.taken(), b"outside\n", "text");
    Ok(())
}

#[test]
fn a_full_sink_takes_a_part(rt: HostRuntime) -> Result<(), TestFail> {
    let mut out = empty_sink(rt.alloc(), 3)?;
    expect_equal(
        &rt,
        &finish(End::Stopped(Fault::NoMemory), &mut out),
        &9,
        "status",
    );
    check_bytes(&rt, out.taken(), b"no ", "text");
    Ok(())
}

#[test]
fn a_failed_write_ends_the_command(rt: HostRuntime) -> Result<(), TestFail> {
    let alloc = rt.alloc();
    let mut fails = Vec::new(alloc);
    fails.push(Fail {
        on: FailOn::Call,
        nth: 1,
        keep: 0,
    })?;
    let mut out = MemSink::new(alloc, 20, fails).or(Err("sink"))?;
    let end = say(Status::Success, b"mate\n", &mut out);
    expect_equal(&rt, &finish(end, &mut out), &9, "status");
    check_bytes(&rt, out.taken(), b"", "text");
    Ok(())
}
