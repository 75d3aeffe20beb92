//! What a race came to, in words. Races of scripts are run by the program (`./check examples`).
use hp_race::{Race, Verdict};
use std::test::Fail;

#[test]
fn verdicts_are_spelled(rt: HostRuntime) -> Result<(), Fail> {
    for (verdict, text) in [
        (Verdict::Disagree(7), "disagree 7 entries 7 free 3 resv 1"),
        (Verdict::Astray, "astray entries 7 free 3 resv 1"),
        (Verdict::Late, "late entries 7 free 3 resv 1"),
        (Verdict::Closed, "closed entries 7 free 3 resv 1"),
    ] {
        let race = Race {
            verdict,
            entries: 7,
            free: 3,
            resv: 1,
        };
        assert_eq!(rt; format!(in rt.alloc(); "{race}")?.as_str(), text);
    }
    Ok(())
}
