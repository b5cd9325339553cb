use watch_core::ReluctantDoubling;

#[test]
fn doubles_reluctantly(rt: HostRuntime) {
    let mut lengths = ReluctantDoubling::new();
    for want in [1, 1, 2, 1, 1, 2, 4, 1, 1, 2, 1, 1, 2, 4, 8, 1] {
        assert_eq!(rt; lengths.next(), want);
    }
}
