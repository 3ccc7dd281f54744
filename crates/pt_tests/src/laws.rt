use crate::one_directory::OneDirectory;
use pt_fit::{
    all_answered, asked_ends, asked_seated, create_opens, each_request, edit_ends, entry_opens,
    gone_number,
};
use pt_fs::{seats_follow, turns_are_determined};
use pt_law::{
    any_course, carried_descriptor, every_finding, every_host, every_run, every_told_run,
    forgotten_nothing, forgotten_number, one_number, seats_in_runs, steps_seated, steps_told,
    two_lookups,
};
use pt_run::{report_determines_run, script_determines_report, seed_determines_counts};
use pt_script::first_bad_line;
use pt_show::texts_tell_values;

#[test]
fn the_laws_of_jobs_hold() {
    pt_frame::choices_are_kept();
    pt_frame::cut_says_no_more();
    pt_frame::jobs_are_determined();
    pt_frame::losses_are_told();
    pt_frame::memory_ran_out_at_a_step();
    pt_frame::seats_are_tended();
    pt_job::jobs_are_determined();
    pt_job::jobs_tend();
    pt_job::no_memory_has_its_cause();
    pt_job::requests_spare();
    pt_job::requests_tend();
}

#[test]
fn the_laws_of_requests_hold() {
    each_request();
    asked_ends();
    edit_ends();
    asked_seated();
    all_answered::<OneDirectory>();
    gone_number();
}

#[test]
fn the_laws_of_lookups_hold() {
    entry_opens();
    create_opens();
    two_lookups();
}

#[test]
fn the_laws_of_steps_hold() {
    any_course();
    steps_told::<OneDirectory>();
    steps_seated::<OneDirectory>();
    turns_are_determined::<OneDirectory>();
    seats_follow::<OneDirectory>();
    seats_in_runs();
}

#[test]
fn the_laws_of_tables_hold() {
    every_run();
}

#[test]
fn the_laws_of_worlds_hold() {
    every_told_run();
    every_finding();
    carried_descriptor();
    every_host::<OneDirectory>();
}

#[test]
fn the_laws_of_numbers_hold() {
    one_number();
    forgotten_number();
    forgotten_nothing();
}

#[test]
fn the_laws_of_texts_hold() {
    first_bad_line();
    script_determines_report();
    texts_tell_values();
    report_determines_run();
    seed_determines_counts();
}
