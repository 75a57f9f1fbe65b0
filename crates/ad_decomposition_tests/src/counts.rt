use ad_theory::Tally;

#[test]
fn a_tally(rt: HostRuntime) {
    let mut tally = Tally::new();
    tally.count_test();
    tally.count_run();
    let mut sum = Tally::new();
    sum.count_test();
    sum.add(&tally);
    assert!(rt; sum.tests() == 2 && sum.runs() == 1);
}
