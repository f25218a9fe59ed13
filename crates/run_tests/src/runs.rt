//! Runs, which are certified.

use crate::fixtures::{same, settings};
use crate::test_cluster::{count, judged, opened, play};
use std::process::Abort;

/// What a run on three servers comes to, by its lines.
fn runs(rt: &(impl Abort + AllocGlobal), agents: usize, lines: &str, items: usize, want: &str) {
    let settings = settings(rt, agents);
    let mut test_cluster = opened(rt, &settings);
    play(rt, &mut test_cluster, lines);
    assert!(rt; count(&test_cluster) == items);
    same(rt, &judged(rt, &settings, test_cluster), want, lines);
}

#[test]
fn a_list_beside_a_sweep(rt: HostRuntime) {
    let lines = "begin 0 list /,begin 1 sweep 1,step 0,run 1,run 0";
    runs(&rt, 2, lines, 9, "0 by 1000: 1 of 1 answered. ");
}

#[test]
fn two_read_beside_crashes(rt: HostRuntime) {
    let lines =
        "begin 0 file /a; write /a hi,run 0,begin 0 read /a,begin 1 read /a,both 1 0,crash 2,return 2,\
        begin 1 sweep 1,lack 1,begin 0 sweep 0,run 0,forget 0 3";
    let want =
        "0 by 1000: 2 of 2 answered. 1 by 1000: 1 of 1 answered. 64 by 1000: 1 of 1 answered. ";
    runs(&rt, 2, lines, 10 + 22 + 2 + 1, want);
}
