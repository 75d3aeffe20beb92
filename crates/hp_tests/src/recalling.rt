//! Which lines a source that keeps what it gave last recalls, however it is read.
use hp_diagnostics::{Recalling, Recalls};
use hp_replay::Source;
use std::test::Fail;

#[test]
fn lines_are_recalled(rt: HostRuntime) -> Result<(), Fail> {
    let mut text = String::new(rt.alloc());
    for line in 1..=2000 {
        writeln!(text, "step {line}")?;
    }
    for length in [1, 7, 4096] {
        let mut recalling = Recalling::new(text.as_bytes());
        let mut piece = [0; 4096];
        for _ in 0..text.len() {
            let count = recalling
                .read_piece(&mut piece[..length])
                .ok()
                .ok_or("a piece")?;
            if count == 0 {
                break;
            }
        }
        for number in 1700..=2000 {
            let line = recalling.line(number).ok_or("a line")?;
            assert!(rt; line.is_ended);
            assert_eq!(rt;
                line.bytes,
                format!(in rt.alloc(); "step {number}")?.as_bytes()
            );
        }
        let last = recalling.line(2001).ok_or("the end")?;
        assert!(rt; last.bytes.is_empty() && !last.is_ended);
        assert!(rt; recalling.line(2002).is_none());
        assert!(rt; recalling.line(2).is_none());
        let first = recalling.line(1).ok_or("the first line")?;
        assert_eq!(rt; first.bytes, "step 1".as_bytes());
        assert_eq!(rt; recalling.ended(), Some(2000));
    }
    Ok(())
}
