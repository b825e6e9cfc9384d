// Heartbeats and the dead timer.
use isp1_tml::Beat;

#[test]
fn a_beat_counts_from_the_last_octets(rt: HostRuntime) {
    let second = 1_000_000_000_000u128;
    let start = 65_535 * 86_400 * second;
    let mut beat = Beat::new(30, 5, start);
    for (now, due, dead) in [
        (start - 1, false, false),
        (start + 30 * second - 1, false, false),
        (start + 30 * second, true, false),
        (start + 150 * second - 1, true, false),
        (start + 150 * second, true, true),
    ] {
        assert_eq!(rt; (beat.due(now), beat.dead(now)), (due, dead));
    }
    beat.sent(start + 40 * second);
    beat.heard(start + 60 * second);
    assert!(rt; !beat.due(start + 69 * second));
    assert!(rt; !beat.dead(start + 209 * second));
    assert!(rt; beat.dead(start + 210 * second));

    let silent = Beat::new(0, 5, 0);
    assert!(rt; !silent.due(start) && !silent.dead(start));
    let longest = Beat::new(u16::MAX, u16::MAX, 0);
    assert!(rt; longest.due(65_535 * second) && !longest.dead(65_535 * 65_535 * second - 1));
    assert!(rt; longest.dead(65_535 * 65_535 * second));
}
