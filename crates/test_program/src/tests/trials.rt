//! Each test asserts trials of `test_desk_trials` or of `test_fault_trials`: that all is as it should
//! be, or that of many cases none is otherwise.
use register_desk::{MAX_IDLE_TURNS, MAX_READS};
use std::test::Fail;
use test_desk_trials as desks;
use test_fault_trials as faults;

#[test]
fn a_first_day_in_pieces(rt: HostRuntime) -> Result<(), Fail> {
    assert!(rt; desks::is_first_day_served_in_pieces(rt.alloc())?);
    Ok(())
}

#[test]
fn keys_and_periods_are_shown(rt: HostRuntime) -> Result<(), Fail> {
    assert_eq!(rt; desks::key_wrongly_shown(rt.alloc())?, None);
    assert!(rt; desks::are_uses_and_periods_told(rt.alloc())?);
    Ok(())
}

#[test]
fn bounds_are_the_rules(rt: HostRuntime) {
    assert_eq!(rt; MAX_READS, 2_000_000_000);
    assert_eq!(rt; MAX_IDLE_TURNS, 10_000);
    assert_eq!(rt; desks::MAX_ROWS, 1_000_000);
}

#[test]
fn worked_exchanges(rt: HostRuntime) -> Result<(), Fail> {
    assert_eq!(rt; desks::worked_exchange_at_fault(rt.alloc())?, None);
    Ok(())
}

#[test]
fn edited_rows_are_told(rt: HostRuntime) -> Result<(), Fail> {
    assert_eq!(rt; desks::edited_row_not_told(rt.alloc())?, None);
    Ok(())
}

#[test]
fn no_more_is_asked_than_is_needed(rt: HostRuntime) -> Result<(), Fail> {
    assert_eq!(rt; desks::row_of_day_at_fault(rt.alloc())?, None);
    assert_eq!(rt; desks::line_of_other_steps(rt.alloc())?, None);
    assert_eq!(rt; desks::table_of_other_steps(rt.alloc())?, None);
    Ok(())
}

#[test]
fn a_writer_that_fails_ends_an_export(rt: HostRuntime) -> Result<(), Fail> {
    assert!(rt; desks::is_export_ended_by_writer(rt.alloc())?);
    Ok(())
}

#[test]
fn a_long_run_is_answered(rt: HostRuntime) -> Result<(), Fail> {
    assert!(rt; desks::is_long_run_answered(rt.alloc())?);
    Ok(())
}

#[test]
fn a_stop_in_each_command(rt: HostRuntime) -> Result<(), Fail> {
    assert_eq!(rt; faults::stop_in_command_at_fault(rt.alloc())?, None);
    Ok(())
}

#[test]
fn a_stop_in_all_else(rt: HostRuntime) -> Result<(), Fail> {
    assert_eq!(rt; faults::stop_elsewhere_at_fault(rt.alloc())?, None);
    Ok(())
}

#[test]
fn a_stop_while_pages_spill(rt: HostRuntime) -> Result<(), Fail> {
    assert_eq!(rt; faults::stop_while_spilling_at_fault(rt.alloc())?, None);
    Ok(())
}

#[test]
fn a_failed_call(rt: HostRuntime) -> Result<(), Fail> {
    assert_eq!(rt; faults::failure_at_fault(rt.alloc())?, None);
    Ok(())
}

#[test]
fn a_disk_that_wants_memory(rt: HostRuntime) -> Result<(), Fail> {
    assert_eq!(rt; faults::want_of_memory_at_fault(rt.alloc())?, None);
    Ok(())
}

#[test]
fn a_trouble_at_each_turn(rt: HostRuntime) -> Result<(), Fail> {
    assert_eq!(rt; faults::trouble_at_fault(rt.alloc())?, None);
    Ok(())
}

#[test]
fn a_failed_look_up_ends_what_is_read(rt: HostRuntime) -> Result<(), Fail> {
    assert_eq!(rt; faults::look_at_fault(rt.alloc())?, None);
    Ok(())
}
