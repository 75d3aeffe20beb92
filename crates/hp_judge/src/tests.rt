//! What is wrong with small pictures: each kind of finding once, counted by hand.
use crate::finding::{Clause, Finding};
use crate::judging::judge;
use hp_picture::{Counts, Picture, Places};
use std::alloc::Global;
use std::test::Fail;

/// A file of four pages, of which three indices are reserved and one of these has a page.
fn right(alloc: Global) -> Result<Picture, Fail> {
    Ok(Picture {
        counts: Counts {
            resv: 2,
            owed: 0,
            used: 3,
            used_owed: 0,
            quota: Some(3),
        },
        places: Places {
            free: Vec::from_array(alloc, [0, 1, 2])?,
            retired: Vec::from_array(alloc, [7])?,
            hands: Vec::new(alloc),
            files: Vec::from_array(alloc, [(4, false)])?,
            regions: Vec::from_array(alloc, [(0, 0, 2), (0, 3, 4)])?,
            pages: Vec::from_array(alloc, [(0, 1, 5)])?,
            tables: Vec::from_array(alloc, [(1, 0, 1, 5)])?,
        },
    })
}

#[test]
fn a_right_picture(rt: HostRuntime) -> Result<(), Fail> {
    let found = judge(rt.alloc(), &right(rt.alloc())?)?;
    assert!(rt; found.is_empty());
    Ok(())
}

#[test]
fn a_wrong_picture(rt: HostRuntime) -> Result<(), Fail> {
    let mut picture = right(rt.alloc())?;
    picture.counts.resv = 4;
    picture.places.hands.push(5)?;
    picture.places.tables.push((2, 0, 4, 6))?;
    let found = judge(rt.alloc(), &picture)?;
    let number = 1;
    let wanted = [
        Finding::Line {
            clause: Clause::Agree,
            number,
        },
        Finding::Line {
            clause: Clause::Size,
            number,
        },
        Finding::Place { frame: 5 },
        Finding::Count { wanted: 2 },
        Finding::Free,
    ];
    assert!(rt; found.as_slice() == wanted.as_slice());
    Ok(())
}
